// The end of a call: the places go back to the buffers, and the function returns. At a suspension a coroutine first keeps its
// locals but slices, what a started statement has, and the number of the point.

ghost use Rattle.std.specs.Prelude.{◌≡◌, ◌<◌, true, length, option_map, slice_get, Some, IfOk, IfSome};
ghost use Rattle.std.specs.List.{list_all};
ghost use Rattle.wf_ast.specs.TypedTrees.{text_of};
ghost use Rattle.c_text.specs.CSpelling.{is_word_byte};
ghost use Rattle.c_text.specs.CNodes.{code_of, expr_of, value_in};
ghost use Rattle.c_text.specs.CTree.{finish as finish_code, assign as assign_code};
ghost use Rattle.wf_exprs.specs.Exprs.{status_constant as constant_code};
ghost use Rattle.wf_exprs.specs.Grown.{Grows, HasCode, HasExpr};
ghost use Rattle.wf_exprs.specs.Names.{count_field as count_name, held_field as held_name, point_field as point_name, saved_field as saved_name};
ghost use Rattle.wf_exprs.specs.Words.{num, of_self};
ghost use Rattle.wf_lower_stmts.specs.BodyNodes.{form_in, save_one, restore_one};
ghost use Rattle.wf_lower_stmts.specs.Forms.{give as give_code, restore_count as restore_count_code, restore_held as restore_held_code, restore_locals as restore_locals_code, restore_started as restore_started_code, save_count as save_count_code, save_held as save_held_code, save_locals as save_locals_code, save_started as save_started_code, suspend as suspend_code};

use crate::body::Body;
use crate::code::{assign, finish, leave};
use crate::places::{Picked, put_places};
use crate::spelling::{count_field, held_field, point_field, saved_field};
use c_text::{CExprId, CStmtId, Unit};
use wf_ast::LocalId;
use wf_exprs::nodes::{member_of_self, number, spelt_variable, variable};
use wf_exprs_nodes::statuses::status_constant;
use wf_text::NoMemory;

/// The field that keeps the local with this name.
fn saved_there(b: &Body, u: &mut Unit, name: &[u8]) -> Result<CExprId, NoMemory>
    requires { list_all is_word_byte name.now ≡ true }
    ensures grows { Grows u.old u.new }
    ensures made { IfOk result (λ it. HasExpr u.new it.0 (of_self (saved_name (form_in b.now).method.name name.now))) }
{
    let field = saved_field(u, b.name(), name)?;
    member_of_self(u, field)
}

fn save_local(b: &Body, u: &mut Unit, name: &[u8], rest: CStmtId) -> Result<CStmtId, NoMemory>
    requires word { list_all is_word_byte name.now ≡ true }
    requires rest { rest.0 < length u.old.stmts }
    ensures grows { Grows u.old u.new }
    ensures made { IfOk result (λ it. HasCode u.new it.0 (save_one (form_in b.now).method.name name.now (code_of u.old rest.0))) }
{
    let local = spelt_variable(u, b"v_", name)?;
    let field = saved_there(b, u, name)?;
    assign(u, field, local, rest)
}

fn restore_local(b: &Body, u: &mut Unit, name: &[u8], rest: CStmtId) -> Result<CStmtId, NoMemory>
    requires word { list_all is_word_byte name.now ≡ true }
    requires rest { rest.0 < length u.old.stmts }
    ensures grows { Grows u.old u.new }
    ensures made { IfOk result (λ it. HasCode u.new it.0 (restore_one (form_in b.now).method.name name.now (code_of u.old rest.0))) }
{
    let field = saved_there(b, u, name)?;
    let local = spelt_variable(u, b"v_", name)?;
    assign(u, local, field, rest)
}

/// The source's name of the local with this number.
fn local_name<'a>(b: &'a Body, x: LocalId) -> &'a [u8]
    requires { x.0 < length b.now.method.locals }
    ensures is { option_map (λ it. text_of b.now.nodes it.name) (slice_get b.now.method.locals x.0) ≡ Some result.now }
    ensures word { list_all is_word_byte result.now ≡ true }
{
    b.typed().text(b.locals()[x.0 as usize].name)
}

/// The locals that are kept go to their fields.
fn save_locals(b: &Body, u: &mut Unit, rest: CStmtId) -> Result<CStmtId, NoMemory>
    requires rest { rest.0 < length u.old.stmts }
    ensures grows { Grows u.old u.new }
    ensures made { IfOk result (λ it. HasCode u.new it.0 (save_locals_code (form_in b.now).method.name (form_in b.now).method.locals (code_of u.old rest.0))) }
{
    let saved = b.saved();
    let mut left = saved.len();
    let mut code = rest;
    while left > 0 {
        left -= 1;
        code = save_local(b, u, local_name(b, saved[left]), code)?;
    }
    Ok(code)
}

/// The locals that are kept come from their fields.
fn restore_locals(b: &Body, u: &mut Unit, rest: CStmtId) -> Result<CStmtId, NoMemory>
    requires rest { rest.0 < length u.old.stmts }
    ensures grows { Grows u.old u.new }
    ensures made { IfOk result (λ it. HasCode u.new it.0 (restore_locals_code (form_in b.now).method.name (form_in b.now).method.locals (code_of u.old rest.0))) }
{
    let saved = b.saved();
    let mut left = saved.len();
    let mut code = rest;
    while left > 0 {
        left -= 1;
        code = restore_local(b, u, local_name(b, saved[left]), code)?;
    }
    Ok(code)
}

/// The field that keeps what a started statement has.
fn held_there(b: &Body, u: &mut Unit) -> Result<CExprId, NoMemory>
    ensures grows { Grows u.old u.new }
    ensures made { IfOk result (λ it. HasExpr u.new it.0 (of_self (held_name (form_in b.now).method.name))) }
{
    let field = held_field(u, b.name())?;
    member_of_self(u, field)
}

/// The field that keeps how many bytes that is.
fn count_there(b: &Body, u: &mut Unit) -> Result<CExprId, NoMemory>
    ensures grows { Grows u.old u.new }
    ensures made { IfOk result (λ it. HasExpr u.new it.0 (of_self (count_name (form_in b.now).method.name))) }
{
    let field = count_field(u, b.name())?;
    member_of_self(u, field)
}

/// The field that keeps the number of the point.
pub fn point_there(b: &Body, u: &mut Unit) -> Result<CExprId, NoMemory>
    ensures grows { Grows u.old u.new }
    ensures made { IfOk result (λ it. HasExpr u.new it.0 (of_self (point_name (form_in b.now).method.name))) }
{
    let field = point_field(u, b.name())?;
    member_of_self(u, field)
}

#[tactic(auto, unfolding(c_text::specs::CSpelling::is_reserved))]
fn save_count(b: &Body, u: &mut Unit, rest: CStmtId) -> Result<CStmtId, NoMemory>
    requires rest { rest.0 < length u.old.stmts }
    ensures grows { Grows u.old u.new }
    ensures made { IfOk result (λ it. HasCode u.new it.0 (save_count_code (form_in b.now).method (code_of u.old rest.0))) }
{
    if !b.keeps_count() {
        return Ok(rest);
    }
    let count = variable(u, b"count")?;
    let there = count_there(b, u)?;
    assign(u, there, count, rest)
}

#[tactic(auto, unfolding(c_text::specs::CSpelling::is_reserved))]
fn restore_count(b: &Body, u: &mut Unit, rest: CStmtId) -> Result<CStmtId, NoMemory>
    requires rest { rest.0 < length u.old.stmts }
    ensures grows { Grows u.old u.new }
    ensures made { IfOk result (λ it. HasCode u.new it.0 (restore_count_code (form_in b.now).method (code_of u.old rest.0))) }
{
    if !b.keeps_count() {
        return Ok(rest);
    }
    let there = count_there(b, u)?;
    let count = variable(u, b"count")?;
    assign(u, count, there, rest)
}

#[tactic(auto, unfolding(c_text::specs::CSpelling::is_reserved))]
fn save_held(b: &Body, u: &mut Unit, rest: CStmtId) -> Result<CStmtId, NoMemory>
    requires rest { rest.0 < length u.old.stmts }
    ensures grows { Grows u.old u.new }
    ensures made { IfOk result (λ it. HasCode u.new it.0 (save_held_code (form_in b.now).method (code_of u.old rest.0))) }
{
    if !b.keeps_held() {
        return Ok(rest);
    }
    let held = variable(u, b"held")?;
    let there = held_there(b, u)?;
    assign(u, there, held, rest)
}

#[tactic(auto, unfolding(c_text::specs::CSpelling::is_reserved))]
fn restore_held(b: &Body, u: &mut Unit, rest: CStmtId) -> Result<CStmtId, NoMemory>
    requires rest { rest.0 < length u.old.stmts }
    ensures grows { Grows u.old u.new }
    ensures made { IfOk result (λ it. HasCode u.new it.0 (restore_held_code (form_in b.now).method (code_of u.old rest.0))) }
{
    if !b.keeps_held() {
        return Ok(rest);
    }
    let there = held_there(b, u)?;
    let held = variable(u, b"held")?;
    assign(u, held, there, rest)
}

/// What a started statement has goes to its fields.
fn save_started(b: &Body, u: &mut Unit, rest: CStmtId) -> Result<CStmtId, NoMemory>
    requires rest { rest.0 < length u.old.stmts }
    ensures grows { Grows u.old u.new }
    ensures made { IfOk result (λ it. HasCode u.new it.0 (save_started_code (form_in b.now).method (code_of u.old rest.0))) }
{
    let rest = save_count(b, u, rest)?;
    save_held(b, u, rest)
}

/// What a started statement has comes from its fields.
fn restore_started(b: &Body, u: &mut Unit, rest: CStmtId) -> Result<CStmtId, NoMemory>
    requires rest { rest.0 < length u.old.stmts }
    ensures grows { Grows u.old u.new }
    ensures made { IfOk result (λ it. HasCode u.new it.0 (restore_started_code (form_in b.now).method (code_of u.old rest.0))) }
{
    let rest = restore_count(b, u, rest)?;
    restore_held(b, u, rest)
}

/// What a resumed coroutine takes out of its struct.
pub fn restore(b: &Body, u: &mut Unit, rest: CStmtId) -> Result<CStmtId, NoMemory>
    requires rest { rest.0 < length u.old.stmts }
    ensures grows { Grows u.old u.new }
    ensures made { IfOk result (λ it. HasCode u.new it.0 (restore_locals_code (form_in b.now).method.name (form_in b.now).method.locals (restore_started_code (form_in b.now).method (code_of u.old rest.0)))) }
{
    let rest = restore_started(b, u, rest)?;
    restore_locals(b, u, rest)
}

/// The function returns.
pub fn give(
    b: &Body,
    u: &mut Unit,
    value: Option<CExprId>,
    rest: CStmtId,
) -> Result<CStmtId, NoMemory>
    requires value { IfSome value (λ e. e.0 < length u.old.exprs) }
    requires rest { rest.0 < length u.old.stmts }
    ensures grows { Grows u.old u.new }
    ensures made { IfOk result (λ it. HasCode u.new it.0 (give_code (form_in b.now) (value_in (expr_of u.old) value) (code_of u.old rest.0))) }
{
    let rest = leave(u, value, rest)?;
    put_places(b, Picked::All, u, rest)
}

/// The function returns, and nothing follows.
pub fn give_at_end(b: &Body, u: &mut Unit, value: Option<CExprId>) -> Result<CStmtId, NoMemory>
    requires value { IfSome value (λ e. e.0 < length u.old.exprs) }
    ensures grows { Grows u.old u.new }
    ensures made { IfOk result (λ it. HasCode u.new it.0 (give_code (form_in b.now) (value_in (expr_of u.old) value) finish_code)) }
{
    let rest = finish(u)?;
    give(b, u, value, rest)
}

/// The number of the point is kept.
fn keep_point(b: &Body, u: &mut Unit, k: u32, rest: CStmtId) -> Result<CStmtId, NoMemory>
    requires rest { rest.0 < length u.old.stmts }
    ensures grows { Grows u.old u.new }
    ensures made { IfOk result (λ it. HasCode u.new it.0 (assign_code (of_self (point_name (form_in b.now).method.name)) (num k) (code_of u.old rest.0))) }
{
    let number = number(u, k as u64)?;
    let there = point_there(b, u)?;
    assign(u, there, number, rest)
}

/// The coroutine suspends at the point with the number `k`.
pub fn suspend(
    b: &Body,
    u: &mut Unit,
    k: u32,
    status: CExprId,
    rest: CStmtId,
) -> Result<CStmtId, NoMemory>
    requires status { status.0 < length u.old.exprs }
    requires rest { rest.0 < length u.old.stmts }
    ensures grows { Grows u.old u.new }
    ensures made { IfOk result (λ it. HasCode u.new it.0 (suspend_code (form_in b.now) k (expr_of u.old status.0) (code_of u.old rest.0))) }
{
    let rest = give(b, u, Some(status), rest)?;
    let rest = keep_point(b, u, k, rest)?;
    let rest = save_started(b, u, rest)?;
    save_locals(b, u, rest)
}

/// It suspends with the status that has this number, and nothing follows.
pub fn suspend_with(b: &Body, u: &mut Unit, k: u32, status: u32) -> Result<CStmtId, NoMemory>
    ensures grows { Grows u.old u.new }
    ensures made { IfOk result (λ it. HasCode u.new it.0 (suspend_code (form_in b.now) k (constant_code status) finish_code)) }
{
    let rest = finish(u)?;
    let status = status_constant(u, status)?;
    suspend(b, u, k, status, rest)
}

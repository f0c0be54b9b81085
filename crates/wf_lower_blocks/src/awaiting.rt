// Base calls that suspend. What begins one stands before the point's label, and the rest after it: a resumed call goes on with
// what it has.

ghost use Rattle.std.specs.Prelude.{◌≡◌, ◌<◌, if◌then◌else◌, true, false, length, IsTrue, IfOk};
ghost use Rattle.wf_base.specs.BaseTable.{bytes_of as bytes_in, read_width};
ghost use Rattle.wf_base.specs.declared.base_methods.ReadForm.TheVariants.{ReadU8};
ghost use Rattle.wf_ast.specs.TypedTree.{to_nothing, take_number, skip, write};
ghost use Rattle.wf_ast.specs.TypedTrees.{no_number};
ghost use Rattle.wf_meaning.specs.Entry.{short_read};
ghost use Rattle.c_text.specs.declared.kinds.COp.TheVariants.{Add, Sub, Mul, Shl, Lt, Both};
ghost use Rattle.c_text.specs.CNodes.{code_of, expr_of};
ghost use Rattle.c_text.specs.CTree.{finish as finish_code, assign as assign_code, cast as cast_code};
ghost use Rattle.wf_exprs.specs.Exprs.{end_code, given as given_code, place_code, status_constant as constant_code, there as there_code};
ghost use Rattle.wf_exprs.specs.Grown.{Grows, HasCode, HasExpr};
ghost use Rattle.wf_ast.specs.TypedInvariant.{is_expr};
ghost use Rattle.wf_ast.specs.NodeKinds.{node_number};
ghost use Rattle.wf_exprs.specs.Words.{num, two as two_codes, uint_of};
ghost use Rattle.wf_lower_stmts.specs.BodyNodes.{form_in, is_target, target_in};
ghost use Rattle.wf_lower_stmts.specs.Forms.{count_local, held_local, stays as stays_tree, suspend as suspend_code, when as when_code};
ghost use Rattle.wf_lower_stmts.specs.Statements.{are_all_there as are_all_there_code, awoken_call as awoken_code, begun_call as begun_code, is_big_endian as is_big_endian_form, is_used_up as is_used_up_code, next_byte as next_byte_code, put_into as put_into_code, step_on as step_on_code, take_all as take_all_code, take_byte as take_byte_code, take_bytes as take_bytes_code, taken_byte as taken_byte_code, with_byte as with_byte_code, written_byte as written_byte_code};
ghost use Rattle.wf_lower_blocks.specs.Calls.{awaited_in, is_awaited, is_one_byte as is_one_byte_form, read_all as read_all_code};

use crate::any::given_on;
use c_text::{CExprId, COp, CStmtId, Unit};
use wf_ast::ExprId;
use wf_base::{ReadForm, Width};
use wf_exprs::nodes::{cast, element, number, two, variable};
use wf_exprs_nodes::asking::{number_ahead, there};
use wf_lower_stmts::Body;
use wf_lower_stmts::code::{assign, finish, when};
use wf_lower_stmts::keeping::suspend_with;
use wf_lower_stmts::targets::{Target, put_into};
use wf_lower_stmts::walks::stays;
use wf_text::NoMemory;

const SHORT_READ: u32 = 1;

const SHORT_WRITE: u32 = 2;

/// A base method that may suspend, with its argument.
#[derive(Clone, Copy)]
pub(crate) enum Awaited {
    Read(ReadForm),
    Skip(ExprId),
    Write(ExprId),
}

/// A base call that may suspend: of the reader or writer that is this argument of the method.
#[derive(Clone, Copy)]
pub(crate) struct Awaiting {
    pub target: Target,
    pub a: u32,
    pub call: Awaited,
}

/// A read that suspends where bytes lack.
#[derive(Clone, Copy)]
struct Reading {
    target: Target,
    a: u32,
    form: ReadForm,
}

/// The place goes on by so many bytes.
pub(crate) fn step_on(
    b: &Body,
    u: &mut Unit,
    a: u32,
    bytes: CExprId,
    rest: CStmtId,
) -> Result<CStmtId, NoMemory>
    requires bytes { bytes.0 < length u.old.exprs }
    requires rest { rest.0 < length u.old.stmts }
    ensures grows { Grows u.old u.new }
    ensures made { IfOk result (λ code. HasCode u.new code.0 (step_on_code (form_in b.now).names a (expr_of u.old bytes.0) (code_of u.old rest.0))) }
{
    let place = b.scope().place(u, a)?;
    let next = two(b.alloc(), u, COp::Add, place, bytes)?;
    assign(u, place, next, rest)
}

/// The place goes on by one byte.
fn step_by_one(b: &Body, u: &mut Unit, a: u32, rest: CStmtId) -> Result<CStmtId, NoMemory>
    requires rest { rest.0 < length u.old.stmts }
    ensures grows { Grows u.old u.new }
    ensures made { IfOk result (λ code. HasCode u.new code.0 (step_on_code (form_in b.now).names a (num 1) (code_of u.old rest.0))) }
{
    let one = number(u, 1)?;
    step_on(b, u, a, one, rest)
}

/// The byte at the place.
fn next_byte(b: &Body, u: &mut Unit, a: u32) -> Result<CExprId, NoMemory>
    ensures grows { Grows u.old u.new }
    ensures made { IfOk result (λ e. HasExpr u.new e.0 (next_byte_code (form_in b.now).names a)) }
{
    let bytes = b.scope().bytes(u, a)?;
    let place = b.scope().place(u, a)?;
    element(u, bytes, place)
}

/// The byte that was taken last.
fn taken_byte(b: &Body, u: &mut Unit, a: u32) -> Result<CExprId, NoMemory>
    ensures grows { Grows u.old u.new }
    ensures made { IfOk result (λ e. HasExpr u.new e.0 (taken_byte_code (form_in b.now).names a)) }
{
    let bytes = b.scope().bytes(u, a)?;
    let place = b.scope().place(u, a)?;
    let one = number(u, 1)?;
    let before = two(b.alloc(), u, COp::Sub, place, one)?;
    element(u, bytes, before)
}

/// The byte goes to the place, which goes on by one.
pub(crate) fn store_byte(
    b: &Body,
    u: &mut Unit,
    a: u32,
    byte: CExprId,
    rest: CStmtId,
) -> Result<CStmtId, NoMemory>
    requires byte { byte.0 < length u.old.exprs }
    requires rest { rest.0 < length u.old.stmts }
    ensures grows { Grows u.old u.new }
    ensures made { IfOk result (λ code. HasCode u.new code.0 (assign_code (next_byte_code (form_in b.now).names a) (expr_of u.old byte.0) (step_on_code (form_in b.now).names a (num 1) (code_of u.old rest.0)))) }
{
    let rest = step_by_one(b, u, a, rest)?;
    let there = next_byte(b, u, a)?;
    assign(u, there, byte, rest)
}

/// The place and the end: `Ge` where no byte is there, or no room, and `Lt` where there is.
fn place_to_end(b: &Body, u: &mut Unit, op: COp, a: u32) -> Result<CExprId, NoMemory>
    ensures grows { Grows u.old u.new }
    ensures made { IfOk result (λ e. HasExpr u.new e.0 (two_codes op (place_code (form_in b.now).names a) (end_code (form_in b.now).names a))) }
{
    let place = b.scope().place(u, a)?;
    let end = b.scope().end(u, a)?;
    two(b.alloc(), u, op, place, end)
}

/// Where no byte or no room is there, the coroutine suspends.
fn wait(
    b: &Body,
    u: &mut Unit,
    k: u32,
    a: u32,
    status: u32,
    rest: CStmtId,
) -> Result<CStmtId, NoMemory>
    requires rest { rest.0 < length u.old.stmts }
    ensures grows { Grows u.old u.new }
    ensures made { IfOk result (λ code. HasCode u.new code.0 (when_code (is_used_up_code (form_in b.now).names a) (suspend_code (form_in b.now) k (constant_code status) finish_code) (code_of u.old rest.0))) }
{
    let body = suspend_with(b, u, k, status)?;
    let test = place_to_end(b, u, COp::Ge, a)?;
    when(u, test, body, rest)
}

#[tactic(auto, unfolding(c_text::specs::CSpelling::is_reserved))]
fn held(u: &mut Unit) -> Result<CExprId, NoMemory>
    ensures grows { Grows u.old u.new }
    ensures made { IfOk result (λ e. HasExpr u.new e.0 (held_local)) }
{
    variable(u, b"held")
}

/// `held = value;`
fn set_held(u: &mut Unit, value: CExprId, rest: CStmtId) -> Result<CStmtId, NoMemory>
    requires value { value.0 < length u.old.exprs }
    requires rest { rest.0 < length u.old.stmts }
    ensures grows { Grows u.old u.new }
    ensures made { IfOk result (λ code. HasCode u.new code.0 (assign_code held_local (expr_of u.old value.0) (code_of u.old rest.0))) }
{
    let held = held(u)?;
    assign(u, held, value, rest)
}

#[tactic(auto, unfolding(c_text::specs::CSpelling::is_reserved))]
fn count(u: &mut Unit) -> Result<CExprId, NoMemory>
    ensures grows { Grows u.old u.new }
    ensures made { IfOk result (λ e. HasExpr u.new e.0 (count_local)) }
{
    variable(u, b"count")
}

/// How many bytes a read takes.
fn bytes_of(form: ReadForm) -> u64
    ensures { result ≡ bytes_in (read_width form) }
{
    match form.width() {
        Width::W8 => 1,
        Width::W16 => 2,
        Width::W32 => 4,
        Width::W64 => 8,
    }
}

fn is_one_byte(form: ReadForm) -> bool
    ensures { result ≡ is_one_byte_form form }
{
    matches!(form, ReadForm::ReadU8)
}

fn is_big_endian(form: ReadForm) -> bool
    ensures { result ≡ is_big_endian_form form }
{
    match form {
        ReadForm::ReadU16Be | ReadForm::ReadU32Be | ReadForm::ReadU64Be => true,
        ReadForm::ReadU8 => false,
        ReadForm::ReadU16Le | ReadForm::ReadU32Le | ReadForm::ReadU64Le => false,
    }
}

/// `(held << 8)`
fn held_raised(b: &Body, u: &mut Unit) -> Result<CExprId, NoMemory>
    ensures grows { Grows u.old u.new }
    ensures made { IfOk result (λ e. HasExpr u.new e.0 (two_codes Shl held_local (num 8))) }
{
    let held = held(u)?;
    let eight = number(u, 8)?;
    two(b.alloc(), u, COp::Shl, held, eight)
}

/// The number with one more byte at its end.
fn with_last(b: &Body, u: &mut Unit, byte: CExprId) -> Result<CExprId, NoMemory>
    requires byte { byte.0 < length u.old.exprs }
    ensures grows { Grows u.old u.new }
    ensures made { IfOk result (λ e. HasExpr u.new e.0 (with_byte_code true (expr_of u.old byte.0))) }
{
    let raised = held_raised(b, u)?;
    two(b.alloc(), u, COp::Add, raised, byte)
}

/// `(8 * count)`
fn bits_taken(b: &Body, u: &mut Unit) -> Result<CExprId, NoMemory>
    ensures grows { Grows u.old u.new }
    ensures made { IfOk result (λ e. HasExpr u.new e.0 (two_codes Mul (num 8) count_local)) }
{
    let eight = number(u, 8)?;
    let count = count(u)?;
    two(b.alloc(), u, COp::Mul, eight, count)
}

/// One more byte, raised above the others.
fn raised(b: &Body, u: &mut Unit, byte: CExprId) -> Result<CExprId, NoMemory>
    requires byte { byte.0 < length u.old.exprs }
    ensures grows { Grows u.old u.new }
    ensures made { IfOk result (λ e. HasExpr u.new e.0 (two_codes Shl (cast_code (uint_of 64) (expr_of u.old byte.0)) (two_codes Mul (num 8) count_local))) }
{
    let byte = cast(u, Width::W64, byte)?;
    let bits = bits_taken(b, u)?;
    two(b.alloc(), u, COp::Shl, byte, bits)
}

/// The number with one more byte at its front.
fn with_first(b: &Body, u: &mut Unit, byte: CExprId) -> Result<CExprId, NoMemory>
    requires byte { byte.0 < length u.old.exprs }
    ensures grows { Grows u.old u.new }
    ensures made { IfOk result (λ e. HasExpr u.new e.0 (with_byte_code false (expr_of u.old byte.0))) }
{
    let held = held(u)?;
    let raised = raised(b, u, byte)?;
    two(b.alloc(), u, COp::Add, held, raised)
}

fn with_byte(b: &Body, u: &mut Unit, big: bool, byte: CExprId) -> Result<CExprId, NoMemory>
    requires byte { byte.0 < length u.old.exprs }
    ensures grows { Grows u.old u.new }
    ensures made { IfOk result (λ e. HasExpr u.new e.0 (with_byte_code big (expr_of u.old byte.0))) }
{
    if big {
        with_last(b, u, byte)
    } else {
        with_first(b, u, byte)
    }
}

/// `(count < N)`
fn lacks(b: &Body, u: &mut Unit, form: ReadForm) -> Result<CExprId, NoMemory>
    ensures grows { Grows u.old u.new }
    ensures made { IfOk result (λ e. HasExpr u.new e.0 (two_codes Lt count_local (num (bytes_in (read_width form))))) }
{
    let count = count(u)?;
    let all = number(u, bytes_of(form))?;
    two(b.alloc(), u, COp::Lt, count, all)
}

/// Whether a byte lacks and is there.
fn may_take(b: &Body, u: &mut Unit, a: u32, form: ReadForm) -> Result<CExprId, NoMemory>
    ensures grows { Grows u.old u.new }
    ensures made { IfOk result (λ e. HasExpr u.new e.0 (two_codes Both (two_codes Lt count_local (num (bytes_in (read_width form)))) (two_codes Lt (place_code (form_in b.now).names a) (end_code (form_in b.now).names a)))) }
{
    let lacks = lacks(b, u, form)?;
    let there = place_to_end(b, u, COp::Lt, a)?;
    two(b.alloc(), u, COp::Both, lacks, there)
}

/// `(count + 1)`
fn one_more(b: &Body, u: &mut Unit) -> Result<CExprId, NoMemory>
    ensures grows { Grows u.old u.new }
    ensures made { IfOk result (λ e. HasExpr u.new e.0 (two_codes Add count_local (num 1))) }
{
    let count = count(u)?;
    let one = number(u, 1)?;
    two(b.alloc(), u, COp::Add, count, one)
}

/// `count = (count + 1);` at the end of a block.
fn count_on(b: &Body, u: &mut Unit) -> Result<CStmtId, NoMemory>
    ensures grows { Grows u.old u.new }
    ensures made { IfOk result (λ code. HasCode u.new code.0 (assign_code count_local (two_codes Add count_local (num 1)) finish_code)) }
{
    let rest = finish(u)?;
    let more = one_more(b, u)?;
    let count = count(u)?;
    assign(u, count, more, rest)
}

/// The byte at the place is held with those before it.
fn hold_next(
    b: &Body,
    u: &mut Unit,
    a: u32,
    form: ReadForm,
    rest: CStmtId,
) -> Result<CStmtId, NoMemory>
    requires rest { rest.0 < length u.old.stmts }
    ensures grows { Grows u.old u.new }
    ensures made { IfOk result (λ code. HasCode u.new code.0 (assign_code held_local (with_byte_code (is_big_endian_form form) (next_byte_code (form_in b.now).names a)) (code_of u.old rest.0))) }
{
    let byte = next_byte(b, u, a)?;
    let more = with_byte(b, u, is_big_endian(form), byte)?;
    set_held(u, more, rest)
}

/// A byte is taken.
fn taken(b: &Body, u: &mut Unit, a: u32, form: ReadForm) -> Result<CStmtId, NoMemory>
    ensures grows { Grows u.old u.new }
    ensures made { IfOk result (λ code. HasCode u.new code.0 (assign_code held_local (with_byte_code (is_big_endian_form form) (next_byte_code (form_in b.now).names a)) (step_on_code (form_in b.now).names a (num 1) (assign_code count_local (two_codes Add count_local (num 1)) finish_code)))) }
{
    let rest = count_on(b, u)?;
    let rest = step_by_one(b, u, a, rest)?;
    hold_next(b, u, a, form, rest)
}

/// A byte is taken where it lacks and is there.
fn take_byte(
    b: &Body,
    u: &mut Unit,
    a: u32,
    form: ReadForm,
    rest: CStmtId,
) -> Result<CStmtId, NoMemory>
    requires rest { rest.0 < length u.old.stmts }
    ensures grows { Grows u.old u.new }
    ensures made { IfOk result (λ code. HasCode u.new code.0 (take_byte_code (form_in b.now).names a form (code_of u.old rest.0))) }
{
    let body = taken(b, u, a, form)?;
    let test = may_take(b, u, a, form)?;
    when(u, test, body, rest)
}

/// So many bytes are taken.
fn take_bytes(
    b: &Body,
    u: &mut Unit,
    a: u32,
    form: ReadForm,
    rest: CStmtId,
) -> Result<CStmtId, NoMemory>
    requires rest { rest.0 < length u.old.stmts }
    ensures grows { Grows u.old u.new }
    ensures made { IfOk result (λ code. HasCode u.new code.0 (take_bytes_code (form_in b.now).names a form (bytes_in (read_width form)) (code_of u.old rest.0))) }
{
    let mut code = rest;
    let mut taken = 0;
    while taken < bytes_of(form) {
        code = take_byte(b, u, a, form, code)?;
        taken += 1;
    }
    Ok(code)
}

/// The byte that was taken goes to the target.
fn put_taken(
    b: &Body,
    u: &mut Unit,
    target: Target,
    a: u32,
    rest: CStmtId,
) -> Result<CStmtId, NoMemory>
    requires target { is_target b.now.nodes target ≡ true }
    requires rest { rest.0 < length u.old.stmts }
    ensures grows { Grows u.old u.new }
    ensures made { IfOk result (λ code. HasCode u.new code.0 (put_into_code (form_in b.now).names (target_in b.now.nodes target) (taken_byte_code (form_in b.now).names a) (code_of u.old rest.0))) }
{
    let byte = taken_byte(b, u, a)?;
    put_into(b, u, target, byte, rest)
}

/// A read of one byte.
fn read_byte(
    b: &Body,
    u: &mut Unit,
    k: u32,
    target: Target,
    a: u32,
    rest: CStmtId,
) -> Result<CStmtId, NoMemory>
    requires target { is_target b.now.nodes target ≡ true }
    requires rest { rest.0 < length u.old.stmts }
    ensures grows { Grows u.old u.new }
    ensures made { IfOk result (λ code. HasCode u.new code.0 (awoken_code (form_in b.now) k (target_in b.now.nodes target) a (take_number ReadU8) (code_of u.old rest.0))) }
{
    let rest = put_taken(b, u, target, a, rest)?;
    let rest = step_by_one(b, u, a, rest)?;
    wait(b, u, k, a, SHORT_READ, rest)
}

/// Where bytes lack, the coroutine suspends; else the number goes to the target.
fn read_all(
    b: &Body,
    u: &mut Unit,
    k: u32,
    target: Target,
    form: ReadForm,
    rest: CStmtId,
) -> Result<CStmtId, NoMemory>
    requires target { is_target b.now.nodes target ≡ true }
    requires rest { rest.0 < length u.old.stmts }
    ensures grows { Grows u.old u.new }
    ensures made { IfOk result (λ code. HasCode u.new code.0 (read_all_code (form_in b.now) k (target_in b.now.nodes target) form (code_of u.old rest.0))) }
{
    let value = held(u)?;
    let rest = put_into(b, u, target, value, rest)?;
    let body = suspend_with(b, u, k, SHORT_READ)?;
    let test = lacks(b, u, form)?;
    when(u, test, body, rest)
}

/// A read of more bytes.
fn read_number(
    b: &Body,
    u: &mut Unit,
    k: u32,
    it: Reading,
    rest: CStmtId,
) -> Result<CStmtId, NoMemory>
    requires target { is_target b.now.nodes it.target ≡ true }
    requires rest { rest.0 < length u.old.stmts }
    ensures grows { Grows u.old u.new }
    ensures made { IfOk result (λ code. HasCode u.new code.0 (take_bytes_code (form_in b.now).names it.a it.form (bytes_in (read_width it.form)) (read_all_code (form_in b.now) k (target_in b.now.nodes it.target) it.form (code_of u.old rest.0)))) }
{
    let rest = read_all(b, u, k, it.target, it.form, rest)?;
    take_bytes(b, u, it.a, it.form, rest)
}

/// A read goes on.
fn awoken_read(
    b: &Body,
    u: &mut Unit,
    k: u32,
    it: Reading,
    rest: CStmtId,
) -> Result<CStmtId, NoMemory>
    requires target { is_target b.now.nodes it.target ≡ true }
    requires rest { rest.0 < length u.old.stmts }
    ensures grows { Grows u.old u.new }
    ensures made { IfOk result (λ code. HasCode u.new code.0 (awoken_code (form_in b.now) k (target_in b.now.nodes it.target) it.a (take_number it.form) (code_of u.old rest.0))) }
{
    if is_one_byte(it.form) {
        read_byte(b, u, k, it.target, it.a, rest)
    } else {
        read_number(b, u, k, it, rest)
    }
}

/// `held = (held - there); p_src = e_src;`, and the coroutine suspends.
fn skip_some(b: &Body, u: &mut Unit, k: u32, a: u32) -> Result<CStmtId, NoMemory>
    ensures grows { Grows u.old u.new }
    ensures made { IfOk result (λ code. HasCode u.new code.0 (assign_code held_local (two_codes Sub held_local (there_code (form_in b.now).names a)) (assign_code (place_code (form_in b.now).names a) (end_code (form_in b.now).names a) (suspend_code (form_in b.now) k (constant_code short_read) finish_code)))) }
{
    let rest = suspend_with(b, u, k, SHORT_READ)?;
    let rest = step_to_end(b, u, a, rest)?;
    take_skipped(b, u, a, rest)
}

/// `p_src = e_src;`
fn step_to_end(b: &Body, u: &mut Unit, a: u32, rest: CStmtId) -> Result<CStmtId, NoMemory>
    requires rest { rest.0 < length u.old.stmts }
    ensures grows { Grows u.old u.new }
    ensures made { IfOk result (λ code. HasCode u.new code.0 (assign_code (place_code (form_in b.now).names a) (end_code (form_in b.now).names a) (code_of u.old rest.0))) }
{
    let end = b.scope().end(u, a)?;
    let place = b.scope().place(u, a)?;
    assign(u, place, end, rest)
}

/// What is left of a skip, and what is there.
fn held_and_there(b: &Body, u: &mut Unit, op: COp, a: u32) -> Result<CExprId, NoMemory>
    ensures grows { Grows u.old u.new }
    ensures made { IfOk result (λ e. HasExpr u.new e.0 (two_codes op held_local (there_code (form_in b.now).names a))) }
{
    let held = held(u)?;
    let there = there(b.scope(), u, a)?;
    two(b.alloc(), u, op, held, there)
}

/// `held = (held - there);`
fn take_skipped(b: &Body, u: &mut Unit, a: u32, rest: CStmtId) -> Result<CStmtId, NoMemory>
    requires rest { rest.0 < length u.old.stmts }
    ensures grows { Grows u.old u.new }
    ensures made { IfOk result (λ code. HasCode u.new code.0 (assign_code held_local (two_codes Sub held_local (there_code (form_in b.now).names a)) (code_of u.old rest.0))) }
{
    let left = held_and_there(b, u, COp::Sub, a)?;
    set_held(u, left, rest)
}

/// The place goes on by all that is left of a skip.
fn step_by_held(b: &Body, u: &mut Unit, a: u32, rest: CStmtId) -> Result<CStmtId, NoMemory>
    requires rest { rest.0 < length u.old.stmts }
    ensures grows { Grows u.old u.new }
    ensures made { IfOk result (λ code. HasCode u.new code.0 (step_on_code (form_in b.now).names a held_local (code_of u.old rest.0))) }
{
    let bytes = held(u)?;
    step_on(b, u, a, bytes, rest)
}

/// A skip goes on by all that is left of it, or by all that is there.
fn skip_on(b: &Body, u: &mut Unit, k: u32, a: u32, rest: CStmtId) -> Result<CStmtId, NoMemory>
    requires rest { rest.0 < length u.old.stmts }
    ensures grows { Grows u.old u.new }
    ensures made { IfOk result (λ code. HasCode u.new code.0 (awoken_code (form_in b.now) k to_nothing a (skip no_number) (code_of u.old rest.0))) }
{
    let rest = step_by_held(b, u, a, rest)?;
    let body = skip_some(b, u, k, a)?;
    let test = held_and_there(b, u, COp::Gt, a)?;
    when(u, test, body, rest)
}

/// The byte of a write: the constant or the local itself, else what was kept of it.
fn written_byte(b: &Body, u: &mut Unit, byte: ExprId) -> Result<CExprId, NoMemory>
    requires byte { IsTrue (is_expr b.now.nodes byte) }
    ensures grows { Grows u.old u.new }
    ensures made { IfOk result (λ e. HasExpr u.new e.0 (written_byte_code (form_in b.now).names (node_number b.now.nodes byte))) }
{
    if stays(b.typed(), byte) {
        given_on(b, u, byte)
    } else {
        held(u)
    }
}

/// A byte is written where there is room.
fn write_on(
    b: &Body,
    u: &mut Unit,
    k: u32,
    a: u32,
    byte: ExprId,
    rest: CStmtId,
) -> Result<CStmtId, NoMemory>
    requires byte { IsTrue (is_expr b.now.nodes byte) }
    requires rest { rest.0 < length u.old.stmts }
    ensures grows { Grows u.old u.new }
    ensures made { IfOk result (λ code. HasCode u.new code.0 (awoken_code (form_in b.now) k to_nothing a (write (node_number b.now.nodes byte)) (code_of u.old rest.0))) }
{
    let byte = written_byte(b, u, byte)?;
    let rest = store_byte(b, u, a, byte, rest)?;
    wait(b, u, k, a, SHORT_WRITE, rest)
}

/// `count = value;`
fn set_count(u: &mut Unit, value: CExprId, rest: CStmtId) -> Result<CStmtId, NoMemory>
    requires value { value.0 < length u.old.exprs }
    requires rest { rest.0 < length u.old.stmts }
    ensures grows { Grows u.old u.new }
    ensures made { IfOk result (λ code. HasCode u.new code.0 (assign_code count_local (expr_of u.old value.0) (code_of u.old rest.0))) }
{
    let count = count(u)?;
    assign(u, count, value, rest)
}

/// `held = 0; count = 0;`
fn begin_count(u: &mut Unit, rest: CStmtId) -> Result<CStmtId, NoMemory>
    requires rest { rest.0 < length u.old.stmts }
    ensures grows { Grows u.old u.new }
    ensures made { IfOk result (λ code. HasCode u.new code.0 (assign_code held_local (num 0) (assign_code count_local (num 0) (code_of u.old rest.0)))) }
{
    let zero = number(u, 0)?;
    let rest = set_count(u, zero, rest)?;
    set_held(u, zero, rest)
}

/// Whether all bytes of a number are there.
fn are_all_there(b: &Body, u: &mut Unit, a: u32, form: ReadForm) -> Result<CExprId, NoMemory>
    ensures grows { Grows u.old u.new }
    ensures made { IfOk result (λ e. HasExpr u.new e.0 (are_all_there_code (form_in b.now).names a form)) }
{
    let there = there(b.scope(), u, a)?;
    let least = number(u, bytes_of(form))?;
    two(b.alloc(), u, COp::Ge, there, least)
}

/// The place goes on behind all bytes of a number, which are counted as taken.
fn step_behind(b: &Body, u: &mut Unit, a: u32, form: ReadForm) -> Result<CStmtId, NoMemory>
    ensures grows { Grows u.old u.new }
    ensures made { IfOk result (λ code. HasCode u.new code.0 (step_on_code (form_in b.now).names a (num (bytes_in (read_width form))) (assign_code count_local (num (bytes_in (read_width form))) finish_code))) }
{
    let taken = number(u, bytes_of(form))?;
    let rest = finish(u)?;
    let rest = set_count(u, taken, rest)?;
    let further = number(u, bytes_of(form))?;
    step_on(b, u, a, further, rest)
}

/// All bytes of a number are taken.
fn take_all(b: &Body, u: &mut Unit, a: u32, form: ReadForm) -> Result<CStmtId, NoMemory>
    requires more { is_one_byte_form form ≡ false }
    ensures grows { Grows u.old u.new }
    ensures made { IfOk result (λ code. HasCode u.new code.0 (take_all_code (form_in b.now).names a form)) }
{
    let rest = step_behind(b, u, a, form)?;
    let value = number_ahead(b.scope(), u, a, form.width(), is_big_endian(form))?;
    set_held(u, value, rest)
}

/// Nothing is taken yet, or all bytes at once where they are there.
fn begin_read(
    b: &Body,
    u: &mut Unit,
    a: u32,
    form: ReadForm,
    rest: CStmtId,
) -> Result<CStmtId, NoMemory>
    requires more { is_one_byte_form form ≡ false }
    requires rest { rest.0 < length u.old.stmts }
    ensures grows { Grows u.old u.new }
    ensures made { IfOk result (λ code. HasCode u.new code.0 (assign_code held_local (num 0) (assign_code count_local (num 0) (when_code (are_all_there_code (form_in b.now).names a form) (take_all_code (form_in b.now).names a form) (code_of u.old rest.0))))) }
{
    let body = take_all(b, u, a, form)?;
    let test = are_all_there(b, u, a, form)?;
    let rest = when(u, test, body, rest)?;
    begin_count(u, rest)
}

/// A read of one byte begins with nothing.
fn begun_read(
    b: &Body,
    u: &mut Unit,
    a: u32,
    form: ReadForm,
    rest: CStmtId,
) -> Result<CStmtId, NoMemory>
    requires rest { rest.0 < length u.old.stmts }
    ensures grows { Grows u.old u.new }
    ensures made { IfOk result (λ code. HasCode u.new code.0 (begun_code (form_in b.now).names a (take_number form) (code_of u.old rest.0))) }
{
    if is_one_byte(form) {
        Ok(rest)
    } else {
        begin_read(b, u, a, form, rest)
    }
}

fn begin_with(b: &Body, u: &mut Unit, value: ExprId, rest: CStmtId) -> Result<CStmtId, NoMemory>
    requires value { IsTrue (is_expr b.now.nodes value) }
    requires rest { rest.0 < length u.old.stmts }
    ensures grows { Grows u.old u.new }
    ensures made { IfOk result (λ code. HasCode u.new code.0 (assign_code held_local (given_code (form_in b.now).names (node_number b.now.nodes value)) (code_of u.old rest.0))) }
{
    let value = given_on(b, u, value)?;
    set_held(u, value, rest)
}

/// A byte that a resumed call hasn't again is kept.
fn begin_write(b: &Body, u: &mut Unit, byte: ExprId, rest: CStmtId) -> Result<CStmtId, NoMemory>
    requires byte { IsTrue (is_expr b.now.nodes byte) }
    requires rest { rest.0 < length u.old.stmts }
    ensures grows { Grows u.old u.new }
    ensures made { IfOk result (λ code. HasCode u.new code.0 (if stays_tree (node_number b.now.nodes byte) then code_of u.old rest.0 else assign_code held_local (given_code (form_in b.now).names (node_number b.now.nodes byte)) (code_of u.old rest.0))) }
{
    if stays(b.typed(), byte) {
        Ok(rest)
    } else {
        begin_with(b, u, byte, rest)
    }
}

/// What stands before the label of the point.
pub(crate) fn begun_call(
    b: &Body,
    u: &mut Unit,
    a: u32,
    call: Awaited,
    rest: CStmtId,
) -> Result<CStmtId, NoMemory>
    requires call { IsTrue (is_awaited b.now.nodes call) }
    requires rest { rest.0 < length u.old.stmts }
    ensures grows { Grows u.old u.new }
    ensures made { IfOk result (λ code. HasCode u.new code.0 (begun_code (form_in b.now).names a (awaited_in b.now.nodes call) (code_of u.old rest.0))) }
{
    match call {
        Awaited::Read(form) => begun_read(b, u, a, form, rest),
        Awaited::Skip(count) => begin_with(b, u, count, rest),
        Awaited::Write(byte) => begin_write(b, u, byte, rest),
    }
}

/// What stands after it.
pub(crate) fn awoken_call(
    b: &Body,
    u: &mut Unit,
    k: u32,
    it: Awaiting,
    rest: CStmtId,
) -> Result<CStmtId, NoMemory>
    requires target { is_target b.now.nodes it.target ≡ true }
    requires call { IsTrue (is_awaited b.now.nodes it.call) }
    requires rest { rest.0 < length u.old.stmts }
    ensures grows { Grows u.old u.new }
    ensures made { IfOk result (λ code. HasCode u.new code.0 (awoken_code (form_in b.now) k (target_in b.now.nodes it.target) it.a (awaited_in b.now.nodes it.call) (code_of u.old rest.0))) }
{
    match it.call {
        Awaited::Read(form) => {
            let read = Reading {
                target: it.target,
                a: it.a,
                form,
            };
            awoken_read(b, u, k, read, rest)
        }
        Awaited::Skip(_) => skip_on(b, u, k, it.a, rest),
        Awaited::Write(byte) => write_on(b, u, k, it.a, byte, rest),
    }
}

// The places of readers and writers: locals of a body, which go back to the buffers and come from there again.

ghost use Rattle.std.specs.Prelude.{◌≡◌, ◌<◌, ◌&&◌, drop, length, map, option_map, slice_get, take, Some, IsTrue, IfOk};
ghost use Rattle.std.specs.List.{list_all};
ghost use Rattle.wf_ast.specs.TypedInvariant.{IsTyped, is_expr};
ghost use Rattle.wf_ast.specs.TypedTrees.{tree_of};
ghost use Rattle.wf_ast.specs.WellTyped.{io_handed, is_writer as is_writer_type};
ghost use Rattle.c_text.specs.CNodes.{code_of};
ghost use Rattle.c_text.specs.CTree.{assign as assign_code};
ghost use Rattle.wf_exprs.specs.Exprs.{end_code, io_code, place_code};
ghost use Rattle.wf_exprs.specs.Grown.{Grows, HasCode, HasExpr};
ghost use Rattle.wf_lower_stmts.specs.BodyNodes.{form_in, are_there, is_that_io, one_place, picks, places_code};
ghost use Rattle.wf_ast.specs.declared.types.Ty.TheVariants as types;
ghost use Rattle.wf_lower_stmts.specs.Forms.{end_of as end_in, get as get_code, is_io as is_io_type, place_in as place_in_code, put as put_code};
ghost use Rattle.wf_lower_stmts.specs.Statements.{is_passed as is_among};

use crate::body::Body;
use crate::code::assign;
use c_text::{CExprId, CStmtId, Unit};
use wf_ast::{ExprId, Ty, Typed, io_arg};
use wf_exprs::BodyNames;
use wf_exprs::nodes::choice;
use wf_text::NoMemory;

/// For which arguments something is done.
#[derive(Clone, Copy)]
pub enum Picked<'a> {
    /// For all readers and writers.
    All,
    /// For those that a call is passed.
    Passed(&'a [ExprId]),
}

// Which way places go.
#[derive(Clone, Copy)]
enum Way {
    // Back to the buffers.
    Put,
    // From the buffers, with the ends.
    Get,
}

/// Whether a type is a reader's or a writer's.
pub fn is_io(ty: Ty) -> bool
    ensures { result ≡ is_io_type ty }
{
    match ty {
        Ty::Reader => true,
        Ty::Writer => true,
        Ty::Num { .. } | Ty::Flag | Ty::Status => false,
        Ty::Slice(_) | Ty::Array { .. } | Ty::Part(_) => false,
    }
}

/// The argument that is the reader or the writer which an expression names, and None for every other expression.
pub(crate) fn io_handed(t: &Typed, e: ExprId) -> Option<u32>
    requires typed { IsTyped t.now }
    requires node { IsTrue (is_expr t.now e) }
    ensures { result ≡ io_handed (tree_of t.now e) }
{
    if is_io(t.type_of(e)) {
        Some(io_arg(t, e).0)
    } else {
        None
    }
}

// Whether an argument is among those that are passed.
fn is_passed(t: &Typed, given: &[ExprId], n: u32) -> bool
    requires typed { IsTyped t.now }
    requires given { IsTrue (list_all (is_expr t.now) given.now) }
    ensures { result ≡ is_among (map (tree_of t.now) given.now) n }
{
    for e in given {
        if is_argument(t, *e, n) {
            return true;
        }
    }
    false
}

// Whether an expression names this reader or writer.
fn is_argument(t: &Typed, e: ExprId, n: u32) -> bool
    requires typed { IsTyped t.now }
    requires node { IsTrue (is_expr t.now e) }
    ensures { result ≡ is_that_io n (tree_of t.now e) }
{
    match io_handed(t, e) {
        Some(a) => a == n,
        None => false,
    }
}

fn is_picked(t: &Typed, picked: Picked, n: u32) -> bool
    requires typed { IsTyped t.now }
    requires there { IsTrue (are_there t.now picked) }
    ensures { result ≡ picks t.now picked.entry n }
{
    match picked {
        Picked::All => true,
        Picked::Passed(given) => is_passed(t, given, n),
    }
}

// Whether a type is a writer's.
fn is_writer(ty: Ty) -> bool
    ensures { result ≡ is_writer_type (Some ty) }
{
    match ty {
        Ty::Writer => true,
        Ty::Reader => false,
        Ty::Num { .. } | Ty::Flag | Ty::Status => false,
        Ty::Slice(_) | Ty::Array { .. } | Ty::Part(_) => false,
    }
}

/// The place in a buffer.
#[tactic(auto, unfolding(c_text::specs::CSpelling::is_reserved))]
pub fn place_in(scope: &BodyNames, u: &mut Unit, n: u32, ty: Ty) -> Result<CExprId, NoMemory>
    ensures grows { Grows u.old u.new }
    ensures made { IfOk result (λ it. HasExpr u.new it.0 (place_in_code (io_code scope.now.names n) ty)) }
{
    if is_writer(ty) {
        scope.buffer_member(u, n, b"wi")
    } else {
        scope.buffer_member(u, n, b"ri")
    }
}

// The end of a writer's room: its place once it is closed.
#[tactic(auto, unfolding(c_text::specs::CSpelling::is_reserved))]
fn end_of_room(scope: &BodyNames, u: &mut Unit, n: u32) -> Result<CExprId, NoMemory>
    ensures grows { Grows u.old u.new }
    ensures made { IfOk result (λ it. HasExpr u.new it.0 (end_in (io_code scope.now.names n) types.Writer)) }
{
    let closed = scope.buffer_member(u, n, b"closed")?;
    let place = scope.buffer_member(u, n, b"wi")?;
    let room = scope.buffer_member(u, n, b"len")?;
    choice(u, closed, place, room)
}

/// The end of a reader's bytes, or of a writer's room.
#[tactic(auto, unfolding(c_text::specs::CSpelling::is_reserved))]
pub fn end_of(scope: &BodyNames, u: &mut Unit, n: u32, ty: Ty) -> Result<CExprId, NoMemory>
    ensures grows { Grows u.old u.new }
    ensures made { IfOk result (λ it. HasExpr u.new it.0 (end_in (io_code scope.now.names n) ty)) }
{
    if is_writer(ty) {
        end_of_room(scope, u, n)
    } else {
        scope.buffer_member(u, n, b"wi")
    }
}

// `a_src->ri = p_src;`
fn put_one(b: &Body, u: &mut Unit, n: u32, ty: Ty, rest: CStmtId) -> Result<CStmtId, NoMemory>
    requires { rest.0 < length u.old.stmts }
    ensures grows { Grows u.old u.new }
    ensures made { IfOk result (λ it. HasCode u.new it.0 (assign_code (place_in_code (io_code (form_in b.now).names n) ty) (place_code (form_in b.now).names n) (code_of u.old rest.0))) }
{
    let place = b.scope().place(u, n)?;
    let there = place_in(b.scope(), u, n, ty)?;
    assign(u, there, place, rest)
}

// `e_src = a_src->wi;`
fn get_end(b: &Body, u: &mut Unit, n: u32, ty: Ty, rest: CStmtId) -> Result<CStmtId, NoMemory>
    requires { rest.0 < length u.old.stmts }
    ensures grows { Grows u.old u.new }
    ensures made { IfOk result (λ it. HasCode u.new it.0 (assign_code (end_code (form_in b.now).names n) (end_in (io_code (form_in b.now).names n) ty) (code_of u.old rest.0))) }
{
    let there = end_of(b.scope(), u, n, ty)?;
    let end = b.scope().end(u, n)?;
    assign(u, end, there, rest)
}

// `p_src = a_src->ri;`
fn get_place(b: &Body, u: &mut Unit, n: u32, ty: Ty, rest: CStmtId) -> Result<CStmtId, NoMemory>
    requires { rest.0 < length u.old.stmts }
    ensures grows { Grows u.old u.new }
    ensures made { IfOk result (λ it. HasCode u.new it.0 (assign_code (place_code (form_in b.now).names n) (place_in_code (io_code (form_in b.now).names n) ty) (code_of u.old rest.0))) }
{
    let there = place_in(b.scope(), u, n, ty)?;
    let place = b.scope().place(u, n)?;
    assign(u, place, there, rest)
}

// The place and then the end.
fn get_one(b: &Body, u: &mut Unit, n: u32, ty: Ty, rest: CStmtId) -> Result<CStmtId, NoMemory>
    requires { rest.0 < length u.old.stmts }
    ensures grows { Grows u.old u.new }
    ensures made { IfOk result (λ it. HasCode u.new it.0 (assign_code (place_code (form_in b.now).names n) (place_in_code (io_code (form_in b.now).names n) ty) (assign_code (end_code (form_in b.now).names n) (end_in (io_code (form_in b.now).names n) ty) (code_of u.old rest.0)))) }
{
    let rest = get_end(b, u, n, ty, rest)?;
    get_place(b, u, n, ty, rest)
}

// The type of the argument with this number.
fn argument_type(b: &Body, n: usize) -> Ty
    requires { n < length b.now.method.args }
    ensures is { option_map (λ x. x.ty) (slice_get b.now.method.args n) ≡ Some result }
    ensures few { n < 64 }
{
    b.arguments()[n].ty
}

// Whether something is done for the argument with this number and type.
fn is_done(b: &Body, picked: Picked, n: u32, ty: Ty) -> bool
    requires there { IsTrue (are_there b.now.nodes picked) }
    ensures { result ≡ (is_io_type ty && picks b.now.nodes picked.entry n) }
{
    is_io(ty) && is_picked(b.typed(), picked, n)
}

// What one place takes, that way.
fn move_one(
    b: &Body,
    way: Way,
    u: &mut Unit,
    n: u32,
    ty: Ty,
    rest: CStmtId,
) -> Result<CStmtId, NoMemory>
    requires { rest.0 < length u.old.stmts }
    ensures grows { Grows u.old u.new }
    ensures made { IfOk result (λ it. HasCode u.new it.0 (one_place way (form_in b.now).names n ty (code_of u.old rest.0))) }
{
    match way {
        Way::Put => put_one(b, u, n, ty, rest),
        Way::Get => get_one(b, u, n, ty, rest),
    }
}

// The same for the argument with this number, where something is done for it.
fn move_at(
    b: &Body,
    way: Way,
    picked: Picked,
    u: &mut Unit,
    n: usize,
    rest: CStmtId,
) -> Result<CStmtId, NoMemory>
    requires there { IsTrue (are_there b.now.nodes picked) }
    requires known { n < length b.now.method.args }
    requires rest { rest.0 < length u.old.stmts }
    ensures grows { Grows u.old u.new }
    ensures made { IfOk result (λ it. HasCode u.new it.0 (places_code way (form_in b.now).names (picks b.now.nodes picked.entry) n (take 1 (drop n (form_in b.now).method.args)) (code_of u.old rest.0))) }
{
    let ty = argument_type(b, n);
    if is_done(b, picked, n as u32, ty) {
        move_one(b, way, u, n as u32, ty, rest)
    } else {
        Ok(rest)
    }
}

// The places of all arguments for which something is done.
fn move_places(
    b: &Body,
    way: Way,
    picked: Picked,
    u: &mut Unit,
    rest: CStmtId,
) -> Result<CStmtId, NoMemory>
    requires there { IsTrue (are_there b.now.nodes picked) }
    requires rest { rest.0 < length u.old.stmts }
    ensures grows { Grows u.old u.new }
    ensures made { IfOk result (λ it. HasCode u.new it.0 (places_code way (form_in b.now).names (picks b.now.nodes picked.entry) 0 (form_in b.now).method.args (code_of u.old rest.0))) }
{
    let mut left = b.arguments().len();
    let mut code = rest;
    while left > 0 {
        left -= 1;
        code = move_at(b, way, picked, u, left, code)?;
    }
    Ok(code)
}

/// The places go back to the buffers.
pub fn put_places(
    b: &Body,
    picked: Picked,
    u: &mut Unit,
    rest: CStmtId,
) -> Result<CStmtId, NoMemory>
    requires there { IsTrue (are_there b.now.nodes picked) }
    requires rest { rest.0 < length u.old.stmts }
    ensures grows { Grows u.old u.new }
    ensures made { IfOk result (λ it. HasCode u.new it.0 (put_code (form_in b.now).names (picks b.now.nodes picked.entry) 0 (form_in b.now).method.args (code_of u.old rest.0))) }
{
    move_places(b, Way::Put, picked, u, rest)
}

/// The places and ends are read again.
pub fn get_places(
    b: &Body,
    picked: Picked,
    u: &mut Unit,
    rest: CStmtId,
) -> Result<CStmtId, NoMemory>
    requires there { IsTrue (are_there b.now.nodes picked) }
    requires rest { rest.0 < length u.old.stmts }
    ensures grows { Grows u.old u.new }
    ensures made { IfOk result (λ it. HasCode u.new it.0 (get_code (form_in b.now).names (picks b.now.nodes picked.entry) 0 (form_in b.now).method.args (code_of u.old rest.0))) }
{
    move_places(b, Way::Get, picked, u, rest)
}

// Base calls that write and don't suspend. Nothing is moved where there is nothing to move, since a pointer may then be null.

ghost use Rattle.std.specs.Prelude.{◌≡◌, ◌<◌, ◌∷◌, [], true, length, codes, None, IsTrue, IfOk, IfSome, IfNone};
ghost use Rattle.wf_base.specs.BaseTable.{bits_of};
ghost use Rattle.wf_ast.specs.TypedInvariant.{IsTyped, is_expr};
ghost use Rattle.wf_ast.specs.TypedTree.{to_nothing, copy_to_writer as copy_to_writer_tree, copy_to_slice as copy_to_slice_tree, skip_fast as skip_fast_tree, write_fast as write_fast_tree};
ghost use Rattle.wf_ast.specs.TypedTrees.{no_number, type_of_node};
ghost use Rattle.wf_ast.specs.NodeKinds.{is_slice_at, node_number, node_slice};
ghost use Rattle.c_text.specs.declared.kinds.COp.TheVariants.{Add, Mul, Gt};
ghost use Rattle.c_text.specs.CNodes.{code_of, expr_of};
ghost use Rattle.c_text.specs.CTree.{finish as finish_code, assign as assign_code, call as call_code};
ghost use Rattle.wf_exprs.specs.Exprs.{bytes_code, place_code, there as there_code};
ghost use Rattle.wf_exprs.specs.Grown.{Grows, HasCode, HasExpr};
ghost use Rattle.wf_exprs.specs.Making.{bits_at};
ghost use Rattle.wf_exprs.specs.Words.{args, num, two as two_codes};
ghost use Rattle.wf_lower_stmts.specs.BodyNodes.{form_in, is_target, target_in};
ghost use Rattle.wf_lower_stmts.specs.Forms.{size_local, when as when_code};
ghost use Rattle.wf_lower_stmts.specs.Statements.{bytes_for as bytes_for_code, least_size as least_size_code, lower_written as written_code, move as move_code, put_into as put_into_code, slice_bits, step_on as step_on_code};
ghost use Rattle.wf_lower_blocks.specs.Calls.{is_written, written_in};

use crate::any::{given_on, number_on, slice_on};
use crate::awaiting::{step_on, store_byte};
use c_text::{CArg, CCall, CExprId, CList, COp, CStmtId, Unit};
use wf_ast::{Expr, ExprId, Ty, Typed};
use wf_base::Width;
use wf_exprs::names::put_name;
use wf_exprs::nodes::{number, two, variable};
use wf_exprs::rated::widened;
use wf_exprs_nodes::asking::there;
use wf_exprs_nodes::lower_slice;
use wf_lower_stmts::Body;
use wf_lower_stmts::code::{call, finish, when};
use wf_lower_stmts::targets::{Target, put_into, set_size};
use wf_text::NoMemory;

/// A base method that writes and doesn't suspend, with its arguments.
#[derive(Clone, Copy)]
pub(crate) enum Written {
    SkipFast {
        a: u32,
        actual: ExprId,
        worst: ExprId,
    },
    WriteFast {
        a: u32,
        byte: ExprId,
    },
    CopyToWriter {
        a: u32,
        source: ExprId,
    },
    CopyToSlice {
        to: ExprId,
        source: ExprId,
    },
}

#[tactic(auto, using(wf_exprs::proofs::Growing::grows_on), unfolding(c_text::specs::CSpelling::is_reserved))]
fn size(u: &mut Unit) -> Result<CExprId, NoMemory>
    ensures grows { Grows u.old u.new }
    ensures made { IfOk result (λ e. HasExpr u.new e.0 (size_local)) }
{
    variable(u, b"size")
}

/// What a slice is cut from.
fn cut_from(t: &Typed, e: ExprId) -> ExprId
    requires typed { IsTyped t.now }
    requires node { IsTrue (is_slice_at t.now e) }
    ensures node { IsTrue (is_slice_at t.now result) }
    ensures bits { slice_bits (node_slice t.now e) ≡ bits_at (type_of_node t.now result.0) }
{
    let mut whole = e;
    while let Some(base) = base_of(t, whole) {
        whole = base;
    }
    whole
}

/// What a part is cut from, and None for every other slice or array.
fn base_of(t: &Typed, e: ExprId) -> Option<ExprId>
    requires typed { IsTyped t.now }
    requires node { IsTrue (is_slice_at t.now e) }
    ensures some { IfSome result (λ base. (base.0 < e.0) × (IsTrue (is_slice_at t.now base) × (slice_bits (node_slice t.now e) ≡ slice_bits (node_slice t.now base)))) }
    ensures none { IfNone result (slice_bits (node_slice t.now e) ≡ bits_at (type_of_node t.now e.0)) }
{
    let expr = t.expr(e);
    match t.constant(e) {
        Some(_) => unreachable!(),
        None => match expr {
            Expr::Cut { base, .. } => Some(*base),
            Expr::Local(_) => None,
            Expr::Field(_) => None,
            Expr::Arg(_) => None,
            Expr::Number(_) | Expr::Const(_) | Expr::Status(_) => unreachable!(),
            Expr::Truth(_) | Expr::Index { .. } => unreachable!(),
            Expr::Chain { .. } => unreachable!(),
            Expr::Convert { .. } | Expr::Not(_) => unreachable!(),
            Expr::Base { .. } => unreachable!(),
        },
    }
}

/// How wide the elements are of what a slice is cut from.
fn element_width(t: &Typed, e: ExprId) -> Width
    requires typed { IsTyped t.now }
    requires node { IsTrue (is_slice_at t.now e) }
    ensures { bits_of result ≡ slice_bits (node_slice t.now e) }
{
    let whole = cut_from(t, e);
    match t.type_of(whole) {
        Ty::Slice(width) => width,
        Ty::Array { width, .. } => width,
        Ty::Num { .. } | Ty::Flag | Ty::Status => unreachable!(),
        Ty::Reader | Ty::Writer | Ty::Part(_) => unreachable!(),
    }
}

/// How many bytes so many elements have.
fn bytes_for(b: &Body, u: &mut Unit, width: Width) -> Result<CExprId, NoMemory>
    ensures grows { Grows u.old u.new }
    ensures made { IfOk result (λ e. HasExpr u.new e.0 (bytes_for_code (bits_of width))) }
{
    let size = size(u)?;
    match width {
        Width::W8 => Ok(size),
        Width::W16 => scaled(b, u, size, 2),
        Width::W32 => scaled(b, u, size, 4),
        Width::W64 => scaled(b, u, size, 8),
    }
}

fn scaled(b: &Body, u: &mut Unit, size: CExprId, by: u64) -> Result<CExprId, NoMemory>
    requires size { size.0 < length u.old.exprs }
    ensures grows { Grows u.old u.new }
    ensures made { IfOk result (λ e. HasExpr u.new e.0 (two_codes Mul (expr_of u.old size.0) (num by))) }
{
    let by = number(u, by)?;
    two(b.alloc(), u, COp::Mul, size, by)
}

/// `(size > other)`
fn is_greater(b: &Body, u: &mut Unit, other: CExprId) -> Result<CExprId, NoMemory>
    requires other { other.0 < length u.old.exprs }
    ensures grows { Grows u.old u.new }
    ensures made { IfOk result (λ e. HasExpr u.new e.0 (two_codes Gt size_local (expr_of u.old other.0))) }
{
    let size = size(u)?;
    two(b.alloc(), u, COp::Gt, size, other)
}

/// `if (size > other) { size = other; }`
fn when_greater(b: &Body, u: &mut Unit, other: CExprId, rest: CStmtId) -> Result<CStmtId, NoMemory>
    requires other { other.0 < length u.old.exprs }
    requires rest { rest.0 < length u.old.stmts }
    ensures grows { Grows u.old u.new }
    ensures made { IfOk result (λ code. HasCode u.new code.0 (when_code (two_codes Gt size_local (expr_of u.old other.0)) (assign_code size_local (expr_of u.old other.0) finish_code) (code_of u.old rest.0))) }
{
    let end = finish(u)?;
    let body = set_size(u, other, end)?;
    let test = is_greater(b, u, other)?;
    when(u, test, body, rest)
}

/// `size` is the lesser of two lengths.
fn least_size(
    b: &Body,
    u: &mut Unit,
    one: CExprId,
    other: CExprId,
    rest: CStmtId,
) -> Result<CStmtId, NoMemory>
    requires one { one.0 < length u.old.exprs }
    requires other { other.0 < length u.old.exprs }
    requires rest { rest.0 < length u.old.stmts }
    ensures grows { Grows u.old u.new }
    ensures made { IfOk result (λ code. HasCode u.new code.0 (least_size_code (expr_of u.old one.0) (expr_of u.old other.0) (code_of u.old rest.0))) }
{
    let rest = when_greater(b, u, other, rest)?;
    set_size(u, one, rest)
}

/// `memmove(to, from, bytes);`
#[tactic(auto, using(wf_exprs::proofs::Growing::grows_on), unfolding(c_text::specs::CSpelling::is_reserved))]
fn move_bytes(
    b: &Body,
    u: &mut Unit,
    to: CExprId,
    from: CExprId,
    bytes: CExprId,
    rest: CStmtId,
) -> Result<CStmtId, NoMemory>
    requires to { to.0 < length u.old.exprs }
    requires from { from.0 < length u.old.exprs }
    requires bytes { bytes.0 < length u.old.exprs }
    requires rest { rest.0 < length u.old.stmts }
    ensures grows { Grows u.old u.new }
    ensures made { IfOk result (λ code. HasCode u.new code.0 (call_code None (codes "memmove") (args ((expr_of u.old to.0) ∷ (expr_of u.old from.0) ∷ (expr_of u.old bytes.0) ∷ [])) (code_of u.old rest.0))) }
{
    let function = put_name(u, b"memmove")?;
    let args = CList::from_slice(
        b.alloc(),
        &[CArg::Expr(to), CArg::Expr(from), CArg::Expr(bytes)],
    )?;
    call(u, None, CCall { function, args }, rest)
}

/// So many elements are moved.
fn moved(
    b: &Body,
    u: &mut Unit,
    width: Width,
    to: CExprId,
    from: CExprId,
) -> Result<CStmtId, NoMemory>
    requires to { to.0 < length u.old.exprs }
    requires from { from.0 < length u.old.exprs }
    ensures grows { Grows u.old u.new }
    ensures made { IfOk result (λ code. HasCode u.new code.0 (call_code None (codes "memmove") (args ((expr_of u.old to.0) ∷ (expr_of u.old from.0) ∷ bytes_for_code (bits_of width) ∷ [])) finish_code)) }
{
    let rest = finish(u)?;
    let bytes = bytes_for(b, u, width)?;
    move_bytes(b, u, to, from, bytes, rest)
}

/// So many elements are moved, where there is one.
fn move_some(
    b: &Body,
    u: &mut Unit,
    width: Width,
    to: CExprId,
    from: CExprId,
    rest: CStmtId,
) -> Result<CStmtId, NoMemory>
    requires to { to.0 < length u.old.exprs }
    requires from { from.0 < length u.old.exprs }
    requires rest { rest.0 < length u.old.stmts }
    ensures grows { Grows u.old u.new }
    ensures made { IfOk result (λ code. HasCode u.new code.0 (move_code (bits_of width) (expr_of u.old to.0) (expr_of u.old from.0) (code_of u.old rest.0))) }
{
    let body = moved(b, u, width, to, from)?;
    let test = size(u)?;
    when(u, test, body, rest)
}

/// The pointer to the room of a writer.
fn room_of(b: &Body, u: &mut Unit, a: u32) -> Result<CExprId, NoMemory>
    ensures grows { Grows u.old u.new }
    ensures made { IfOk result (λ e. HasExpr u.new e.0 (two_codes Add (bytes_code (form_in b.now).names a) (place_code (form_in b.now).names a))) }
{
    let bytes = b.scope().bytes(u, a)?;
    let place = b.scope().place(u, a)?;
    two(b.alloc(), u, COp::Add, bytes, place)
}

/// What was moved is told to the target.
fn tell_size(b: &Body, u: &mut Unit, target: Target, rest: CStmtId) -> Result<CStmtId, NoMemory>
    requires target { is_target b.now.nodes target ≡ true }
    requires rest { rest.0 < length u.old.stmts }
    ensures grows { Grows u.old u.new }
    ensures made { IfOk result (λ code. HasCode u.new code.0 (put_into_code (form_in b.now).names (target_in b.now.nodes target) size_local (code_of u.old rest.0))) }
{
    let size = size(u)?;
    put_into(b, u, target, size, rest)
}

/// The place goes on by what was moved, which is told to the target.
fn step_by_size(
    b: &Body,
    u: &mut Unit,
    target: Target,
    a: u32,
    rest: CStmtId,
) -> Result<CStmtId, NoMemory>
    requires target { is_target b.now.nodes target ≡ true }
    requires rest { rest.0 < length u.old.stmts }
    ensures grows { Grows u.old u.new }
    ensures made { IfOk result (λ code. HasCode u.new code.0 (step_on_code (form_in b.now).names a size_local (put_into_code (form_in b.now).names (target_in b.now.nodes target) size_local (code_of u.old rest.0)))) }
{
    let rest = tell_size(b, u, target, rest)?;
    let moved = size(u)?;
    step_on(b, u, a, moved, rest)
}

/// Bytes are moved to the room of a writer.
fn move_to_room(
    b: &Body,
    u: &mut Unit,
    a: u32,
    from: CExprId,
    rest: CStmtId,
) -> Result<CStmtId, NoMemory>
    requires from { from.0 < length u.old.exprs }
    requires rest { rest.0 < length u.old.stmts }
    ensures grows { Grows u.old u.new }
    ensures made { IfOk result (λ code. HasCode u.new code.0 (move_code 8 (two_codes Add (bytes_code (form_in b.now).names a) (place_code (form_in b.now).names a)) (expr_of u.old from.0) (code_of u.old rest.0))) }
{
    let to = room_of(b, u, a)?;
    move_some(b, u, Width::W8, to, from, rest)
}

/// `size` is the lesser of a length and of the room of a writer.
fn least_of_room(
    b: &Body,
    u: &mut Unit,
    a: u32,
    one: CExprId,
    rest: CStmtId,
) -> Result<CStmtId, NoMemory>
    requires one { one.0 < length u.old.exprs }
    requires rest { rest.0 < length u.old.stmts }
    ensures grows { Grows u.old u.new }
    ensures made { IfOk result (λ code. HasCode u.new code.0 (least_size_code (expr_of u.old one.0) (there_code (form_in b.now).names a) (code_of u.old rest.0))) }
{
    let room = there(b.scope(), u, a)?;
    least_size(b, u, one, room, rest)
}

fn copy_to_writer(
    b: &Body,
    u: &mut Unit,
    target: Target,
    a: u32,
    source: ExprId,
    rest: CStmtId,
) -> Result<CStmtId, NoMemory>
    requires target { is_target b.now.nodes target ≡ true }
    requires source { IsTrue (is_expr b.now.nodes source) }
    requires rest { rest.0 < length u.old.stmts }
    ensures grows { Grows u.old u.new }
    ensures made { IfOk result (λ code. HasCode u.new code.0 (written_code (form_in b.now).names (target_in b.now.nodes target) (copy_to_writer_tree a (node_slice b.now.nodes source)) (code_of u.old rest.0))) }
{
    let rest = step_by_size(b, u, target, a, rest)?;
    let source = slice_on(b, u, source)?;
    let rest = move_to_room(b, u, a, source.pointer, rest)?;
    least_of_room(b, u, a, source.length.code, rest)
}

fn copy_to_slice(
    b: &Body,
    u: &mut Unit,
    target: Target,
    to: ExprId,
    source: ExprId,
    rest: CStmtId,
) -> Result<CStmtId, NoMemory>
    requires target { is_target b.now.nodes target ≡ true }
    requires to { IsTrue (is_slice_at b.now.nodes to) }
    requires source { IsTrue (is_expr b.now.nodes source) }
    requires rest { rest.0 < length u.old.stmts }
    ensures grows { Grows u.old u.new }
    ensures made { IfOk result (λ code. HasCode u.new code.0 (written_code (form_in b.now).names (target_in b.now.nodes target) (copy_to_slice_tree (node_slice b.now.nodes to) (node_slice b.now.nodes source)) (code_of u.old rest.0))) }
{
    let width = element_width(b.typed(), to);
    let rest = tell_size(b, u, target, rest)?;
    let to = lower_slice(b.scope(), u, to)?;
    let source = slice_on(b, u, source)?;
    let rest = move_some(b, u, width, to.pointer, source.pointer, rest)?;
    let other = widened(u, Width::W64, source.length)?;
    least_size(b, u, to.length.code, other.code, rest)
}

fn write_fast(
    b: &Body,
    u: &mut Unit,
    a: u32,
    byte: ExprId,
    rest: CStmtId,
) -> Result<CStmtId, NoMemory>
    requires byte { IsTrue (is_expr b.now.nodes byte) }
    requires rest { rest.0 < length u.old.stmts }
    ensures grows { Grows u.old u.new }
    ensures made { IfOk result (λ code. HasCode u.new code.0 (written_code (form_in b.now).names to_nothing (write_fast_tree a (node_number b.now.nodes byte)) (code_of u.old rest.0))) }
{
    let byte = given_on(b, u, byte)?;
    store_byte(b, u, a, byte, rest)
}

fn skip_fast(
    b: &Body,
    u: &mut Unit,
    a: u32,
    actual: ExprId,
    rest: CStmtId,
) -> Result<CStmtId, NoMemory>
    requires actual { IsTrue (is_expr b.now.nodes actual) }
    requires rest { rest.0 < length u.old.stmts }
    ensures grows { Grows u.old u.new }
    ensures made { IfOk result (λ code. HasCode u.new code.0 (written_code (form_in b.now).names to_nothing (skip_fast_tree a (node_number b.now.nodes actual) no_number) (code_of u.old rest.0))) }
{
    let bytes = number_on(b, u, actual)?;
    step_on(b, u, a, bytes, rest)
}

/// A base call that writes and doesn't suspend.
pub(crate) fn lower_written(
    b: &Body,
    u: &mut Unit,
    target: Target,
    call: Written,
    rest: CStmtId,
) -> Result<CStmtId, NoMemory>
    requires target { is_target b.now.nodes target ≡ true }
    requires call { IsTrue (is_written b.now.nodes call) }
    requires rest { rest.0 < length u.old.stmts }
    ensures grows { Grows u.old u.new }
    ensures made { IfOk result (λ code. HasCode u.new code.0 (written_code (form_in b.now).names (target_in b.now.nodes target) (written_in b.now.nodes call) (code_of u.old rest.0))) }
{
    match call {
        Written::SkipFast {
            a,
            actual,
            worst: _,
        } => skip_fast(b, u, a, actual, rest),
        Written::WriteFast { a, byte } => write_fast(b, u, a, byte, rest),
        Written::CopyToWriter { a, source } => copy_to_writer(b, u, target, a, source, rest),
        Written::CopyToSlice { to, source } => copy_to_slice(b, u, target, to, source, rest),
    }
}

// The suspension points of a method in the order in which they stand: base coroutine calls, calls of coroutines with `?`
// and `yield?`, also after statements that never go on.

ghost use Rattle.std.specs.Prelude.{◌≡◌, ◌++◌, ◌∷◌, [], ◌&&◌, ◌<◌, IsTrue, OnOk, IfOk, map, length};
ghost use Rattle.std.specs.List.{list_all};
ghost use Rattle.wf_ast.specs.TypedTrees.{mark_of, block_of};
ghost use Rattle.wf_ast.specs.TypedInvariant.{is_expr, block_below, optional_block_below, callee_exists, stmt_below, IsTyped};
ghost use Rattle.wf_ast.specs.WellTyped.{is_coroutine as is_marked_coroutine};
ghost use Rattle.wf_meaning.specs.Remaining.{points_in};
ghost use Rattle.wf_points.specs.FoundPoints.{found_at, points_at, points_listed, points_of_arms, points_of_if, points_of, place_of_stmt, base_suspends as suspends_with, call_suspends as suspends_at_call};

use std::alloc::{AllocError, Global};
use wf_ast::{Arm, Block, Callee, Sequence, Stmt, StmtId, Typed};
use wf_base::{BaseSig, Mark};
use wf_text::{MethodId, Place};

/// A suspension point: the statement, and the place of its first token.
#[derive(Clone, Copy)]
pub(crate) struct FoundPoint {
    pub(crate) statement: StmtId,
    pub(crate) at: Place,
}

/// The points of a method's body, in order.
pub(crate) fn find_points(
    alloc: Global,
    t: &Typed,
    body: &Block,
) -> Result<Sequence<FoundPoint>, AllocError>
    requires typed { IsTyped t.now }
    requires known { IsTrue (block_below (length t.now.stmts) body.now) }
    ensures { IfOk result (λ found. found ≡ map found_at (points_in (block_of t.now body.now))) }
{
    let mut found = Sequence::new(alloc);
    for s in body.items.as_slice() {
        add_points(t, *s, &mut found)?;
    }
    Ok(found)
}

// A statement's node, with what it says of the points in it.
fn node(t: &Typed, s: StmtId) -> &Stmt
    requires typed { IsTyped t.now }
    requires known { s.0 < length t.now.stmts }
    ensures points { points_at t.now s ≡ points_of t.now (points_at t.now) (record { number = s.0; at = place_of_stmt t.now s.0 }) result.now }
    ensures below { IsTrue (stmt_below t.now s.0 result.now) }
{
    t.stmt(s)
}

// Adds the points of a statement, those inside it too.
#[cycle(finding)]
fn add_points(t: &Typed, s: StmtId, found: &mut Sequence<FoundPoint>) -> Result<(), AllocError>
    requires typed { IsTyped t.now }
    requires known { s.0 < length t.now.stmts }
    ensures { OnOk result (found.new ≡ found.old ++ map found_at (points_at t.now s)) }
{
    match node(t, s) {
        Stmt::Call {
            target: _,
            keep,
            callee,
            args,
        } => {
            if call_suspends(t, *keep, *callee, args.as_slice().len()) {
                add_point(t, s, found)
            } else {
                Ok(())
            }
        }
        Stmt::Yield(_) => add_point(t, s, found),
        Stmt::If { arms, otherwise } => add_from_if(t, s, arms.as_slice(), otherwise, found),
        Stmt::While { head: _, body } => add_from_block(t, s, body, found),
        Stmt::Assign { .. }
        | Stmt::Break(_)
        | Stmt::Continue(_)
        | Stmt::Return(_)
        | Stmt::Assert { .. } => Ok(()),
    }
}

// Adds the points in an `if`, which is the statement `s`. One without an arm stands for no statement.
#[cycle(finding)]
fn add_from_if(
    t: &Typed,
    s: StmtId,
    arms: &[Arm],
    otherwise: &Option<Block>,
    found: &mut Sequence<FoundPoint>,
) -> Result<(), AllocError>
    requires typed { IsTyped t.now }
    requires known { s.0 < length t.now.stmts }
    requires arms { IsTrue (list_all (λ a. is_expr t.now a.cond && block_below s.0 a.body) arms.now) }
    requires otherwise { IsTrue (optional_block_below s.0 otherwise.now) }
    ensures { OnOk result (found.new ≡ found.old ++ map found_at (points_of_if (points_at t.now) arms.now otherwise.now)) }
{
    if arms.is_empty() {
        return Ok(());
    }
    add_from_arms(t, s, arms, found)?;
    match otherwise {
        Some(block) => add_from_block(t, s, block, found),
        None => Ok(()),
    }
}

// Adds the points in the arms of an `if`, which is the statement `s`.
#[cycle(finding)]
fn add_from_arms(
    t: &Typed,
    s: StmtId,
    arms: &[Arm],
    found: &mut Sequence<FoundPoint>,
) -> Result<(), AllocError>
    requires typed { IsTyped t.now }
    requires known { s.0 < length t.now.stmts }
    requires below { IsTrue (list_all (λ a. is_expr t.now a.cond && block_below s.0 a.body) arms.now) }
    ensures { OnOk result (found.new ≡ found.old ++ map found_at (points_of_arms (points_at t.now) arms.now)) }
{
    for arm in arms {
        add_from_block(t, s, &arm.body, found)?;
    }
    Ok(())
}

// Adds the points in a block inside the statement `s`.
#[cycle(finding)]
fn add_from_block(
    t: &Typed,
    s: StmtId,
    block: &Block,
    found: &mut Sequence<FoundPoint>,
) -> Result<(), AllocError>
    requires typed { IsTyped t.now }
    requires known { s.0 < length t.now.stmts }
    requires below { IsTrue (block_below s.0 block.now) }
    ensures { OnOk result (found.new ≡ found.old ++ map found_at (points_listed (points_at t.now) block.now.items)) }
{
    for inner in block.items.as_slice() {
        add_points(t, *inner, found)?;
    }
    Ok(())
}

fn add_point(t: &Typed, s: StmtId, found: &mut Sequence<FoundPoint>) -> Result<(), AllocError>
    requires { s.0 < length t.now.stmts }
    ensures { OnOk result (found.new ≡ found.old ++ record { statement = s; at = place_of_stmt t.now s.0 } ∷ []) }
{
    found.push(FoundPoint {
        statement: s,
        at: t.stmt_place(s),
    })
}

// Whether a method suspends with a call in it that has so many arguments.
fn call_suspends(t: &Typed, keep: bool, callee: Callee, args: usize) -> bool
    requires { IsTrue (callee_exists t.now callee) }
    ensures { result ≡ suspends_at_call t.now keep callee args }
{
    match callee {
        Callee::Own(method) | Callee::Sub { field: _, method } => !keep && is_coroutine(t, method),
        Callee::Base { on: _, sig } => base_suspends(sig, args),
    }
}

fn is_coroutine(t: &Typed, method: MethodId) -> bool
    requires { method.0 < length t.now.methods }
    ensures { result ≡ is_marked_coroutine (mark_of t.now method.0) }
{
    matches!(t.method(method).mark, Mark::Coroutine)
}

// Whether a base method may suspend; one that does takes so many arguments.
fn base_suspends(sig: BaseSig, args: usize) -> bool
    ensures { result ≡ suspends_with sig args }
{
    match sig {
        BaseSig::Read(_) => args == 0,
        BaseSig::Skip | BaseSig::Write => args == 1,
        _ => false,
    }
}

// Loops by the numbers of their statements.

ghost use Rattle.std.specs.Prelude.{◌≡◌, true};
ghost use Rattle.wf_ast.specs.WellTyped.{is_word_true as word_true};
ghost use Rattle.wf_ast.specs.NodeKinds.{is_condition_at, node_cond};
ghost use Rattle.wf_loops.specs.LoopNodes.{is_loop, head_at, place_at, are_conditions, promises_in};

use wf_ast::{Expr, ExprId, LoopHead, Stmt, StmtId, Typed};
use wf_text::Place;

/// What stands before a loop's body.
pub fn head_of(t: &Typed, w: StmtId) -> &LoopHead
    requires { is_loop t.now w ≡ true }
    ensures cond { (head_at t.now w).cond ≡ node_cond t.now result.now.cond }
    ensures promises { (head_at t.now w).clauses ≡ promises_in t.now result.now.clauses }
    ensures left { (head_at t.now w).is_left ≡ result.now.has_break }
    ensures condition { is_condition_at t.now result.now.cond ≡ true }
    ensures conditions { are_conditions t.now result.now.clauses ≡ true }
{
    match t.stmt(w) {
        Stmt::While { head, .. } => head,
        _ => unreachable!(),
    }
}

/// The place of a loop's `while`.
pub fn place_of(t: &Typed, w: StmtId) -> Place
    requires { is_loop t.now w ≡ true }
    ensures { result ≡ place_at t.now w }
{
    t.stmt_place(w)
}

/// Whether a condition is the word `true`.
pub fn is_word_true(t: &Typed, e: ExprId) -> bool
    requires { is_condition_at t.now e ≡ true }
    ensures { result ≡ word_true (node_cond t.now e) }
{
    match t.expr(e) {
        Expr::Truth(value) => *value,
        _ => false,
    }
}

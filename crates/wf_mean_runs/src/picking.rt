// The arms of an `if`, and the numbers of statements.

ghost use Rattle.std.specs.Prelude.{◌≡◌, ◌≤◌, ◌<◌, ◌&&◌, ℕ, Some, length, nat_lt, true, IsTrue};
ghost use Rattle.std.specs.List.{list_all};
ghost use Rattle.wf_ast.specs.TypedInvariant.{IsTyped, block_below, is_expr};
ghost use Rattle.wf_mean_runs.specs.Picking.{picked};

use wf_ast::{Arm, StmtId, Typed};
use wf_mean_stmts::any::condition_on;
use wf_mean_stmts::stage::Stage;

/// The number of the first arm whose condition is true, or how many arms there are where all are false; None where a condition
/// before it is stuck. The arms are those of the statement `s`.
pub(crate) fn pick(t: &Typed, stage: &Stage, s: StmtId, arms: &[Arm]) -> Option<usize>
    requires typed { IsTyped t.now }
    requires arms { IsTrue (list_all (λ a. is_expr t.now a.cond && block_below s.0 a.body) arms.now) }
    ensures first { result ≡ picked t.now stage.now arms.now }
    ensures within { (i : ℕ) → result ≡ Some i → i ≤ length arms.now }
{
    for i in 0..arms.len() {
        if condition_on(t, stage, arms[i].cond)? {
            return Some(i);
        }
    }
    Some(arms.len())
}

/// The least number above those of all these statements.
pub(crate) fn past(items: &[StmtId]) -> usize
    ensures above { list_all (λ s. nat_lt s.0 result) items.now ≡ true }
    ensures least { (n : ℕ) → list_all (λ s. nat_lt s.0 n) items.now ≡ true → result ≤ n }
{
    let mut top = 0;
    for i in 0..items.len() {
        top = above(top, items[i]);
    }
    top
}

// The least number that isn't below `top`, and above that of a statement.
fn above(top: usize, s: StmtId) -> usize
    ensures more { top ≤ result }
    ensures own { s.0 < result }
    ensures least { (n : ℕ) → top ≤ n → s.0 < n → result ≤ n }
{
    if (s.0 as usize) < top {
        top
    } else {
        s.0 as usize + 1
    }
}

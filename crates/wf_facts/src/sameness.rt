// When two facts are one.

ghost use Rattle.std.specs.Prelude.{◌≡◌, ◌&&◌, true, false};
ghost use Rattle.wf_ast.specs.TypedTrees.{tree_of, cond_in};
ghost use Rattle.wf_ast.specs.Same.{same_cond, same_order};
ghost use Rattle.wf_ast.specs.NodeKinds.{is_condition_at};
ghost use Rattle.wf_facts_exprs.specs.Claims.{claim_in, same_claim, same_side as same_trees, is_fact, is_side, order_of, side_in};

use wf_ast::{ExprId, Typed, same};
use wf_facts_exprs::{Cmp, Fact, Side, same_side};

/// Whether two facts claim the same: the same comparison of the same sides, or the same condition with the same answer.
pub(crate) fn same_fact(t: &Typed, f: Fact, g: Fact) -> bool
    requires first { is_fact t.now f ≡ true }
    requires second { is_fact t.now g ≡ true }
    ensures { result ≡ same_claim (claim_in t.now f) (claim_in t.now g) }
{
    match f {
        Fact::Compare { left, op, right } => match g {
            Fact::Compare {
                left: l,
                op: o,
                right: r,
            } => same_cmp(op, o) && same_sides(t, left, l, right, r),
            Fact::Cond { .. } => false,
        },
        Fact::Cond { expr, answer } => match g {
            Fact::Compare { .. } => false,
            Fact::Cond { expr: e, answer: a } => answer == a && same_condition(t, expr, e),
        },
    }
}

// Whether two left sides are one, and two right sides. Those on the right mostly are numbers, which are told apart in a few
// steps, and come first.
fn same_sides(t: &Typed, left: Side, l: Side, right: Side, r: Side) -> bool
    requires left { is_side t.now left ≡ true }
    requires l { is_side t.now l ≡ true }
    requires right { is_side t.now right ≡ true }
    requires r { is_side t.now r ≡ true }
    ensures { result ≡ (same_trees (side_in t.now left) (side_in t.now l) && same_trees (side_in t.now right) (side_in t.now r)) }
{
    same_side(t, right, r) && same_side(t, left, l)
}

/// Whether two facts compare alike.
pub(crate) fn same_cmp(op: Cmp, other: Cmp) -> bool
    ensures { result ≡ same_order (order_of op) (order_of other) }
{
    op as u8 == other as u8
}

fn same_condition(t: &Typed, e: ExprId, other: ExprId) -> bool
    requires first { is_condition_at t.now e ≡ true }
    requires second { is_condition_at t.now other ≡ true }
    ensures { result ≡ same_cond (cond_in (tree_of t.now e)) (cond_in (tree_of t.now other)) }
{
    let _node = t.expr(e);
    let _other = t.expr(other);
    same(t, e, other)
}

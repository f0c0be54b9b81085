// Under a list of facts: in which range an expression lies, and what is given of two sides.

ghost use Rattle.std.specs.Prelude.{◌≡◌, ◌<◌, ◌^◌, false, IsTrue, IfOk, None};
ghost use Rattle.wf_num.specs.Ranges.{IsSmall, exact_range};
ghost use Rattle.wf_ast.specs.TypedTree.{number};
ghost use Rattle.wf_ast.specs.TypedTrees.{no_place};
ghost use Rattle.wf_ast.specs.NodeKinds.{is_number_at, node_number};
ghost use Rattle.wf_facts_exprs.specs.Knowledge.{IsKnown, told};
ghost use Rattle.wf_facts_exprs.specs.Claims.{claims_in, is_side, order_of, side_in};
ghost use Rattle.wf_facts_exprs.specs.RangeOf.{met, range_of as range_under, side_range};
ghost use Rattle.wf_facts_exprs.specs.Given.{gives_sides as sides_given};
ghost use Rattle.wf_facts_exprs.specs.Demands.{num_refusal, side_refusal, unless_refused};

use crate::facts::{Cmp, Side};
use crate::given::{first_rule, second_rule};
use crate::judging::{judge, length_side, number_range};
use crate::known::Known;
use crate::meeting::meet_facts;
use crate::shapes::Shape;
use wf_ast::{ExprId, Typed};
use wf_num::Range;
use wf_text::Refusal;

/// The range of a number whose demands are met under these facts.
pub fn range_of(t: &Typed, facts: &Known, e: ExprId) -> Range
    requires known { IsKnown t.now facts.now }
    requires node { IsTrue (is_number_at t.now e) }
    requires fine { num_refusal (claims_in t.now (told facts.now)) false (node_number t.now e) ≡ None }
    ensures range { result ≡ range_under (claims_in t.now (told facts.now)) (node_number t.now e) }
    ensures small { IsSmall result }
{
    match judge(t, facts, e) {
        Ok(range) => range,
        Err(_) => unreachable!(),
    }
}

/// The range of a number under these facts, or the first of its demands that isn't met.
pub fn checked_range(t: &Typed, facts: &Known, e: ExprId) -> Result<Range, Refusal>
    requires known { IsKnown t.now facts.now }
    requires node { IsTrue (is_number_at t.now e) }
    ensures answer { result ≡ unless_refused (num_refusal (claims_in t.now (told facts.now)) false (node_number t.now e)) (range_under (claims_in t.now (told facts.now)) (node_number t.now e)) }
    ensures small { IfOk result (λ r. IsSmall r) }
{
    judge(t, facts, e)
}

/// Whether the facts give that two sides, whose demands are met, compare so: by a fact that compares them, or by their
/// ranges.
pub fn gives_sides(t: &Typed, facts: &Known, left: Side, op: Cmp, right: Side) -> bool
    requires known { IsKnown t.now facts.now }
    requires left { IsTrue (is_side t.now left) }
    requires right { IsTrue (is_side t.now right) }
    requires left_fine { side_refusal (claims_in t.now (told facts.now)) (side_in t.now left) ≡ None }
    requires right_fine { side_refusal (claims_in t.now (told facts.now)) (side_in t.now right) ≡ None }
    ensures { result ≡ sides_given (claims_in t.now (told facts.now)) (side_in t.now left) (order_of op) (side_in t.now right) }
{
    first_rule(t, facts, left, op, right)
        || second_rule(
            op,
            range_of_side(t, facts, left),
            range_of_side(t, facts, right),
        )
}

// The range of a side.
fn range_of_side(t: &Typed, facts: &Known, side: Side) -> Range
    requires known { IsKnown t.now facts.now }
    requires side { IsTrue (is_side t.now side) }
    requires fine { side_refusal (claims_in t.now (told facts.now)) (side_in t.now side) ≡ None }
    ensures { result ≡ side_range (claims_in t.now (told facts.now)) (side_in t.now side) }
{
    match side {
        Side::Expr(e) => range_of(t, facts, e),
        Side::Sum(a, b) => sum_range(t, facts, a, b),
        Side::Length(on) => length_side(t, facts, on).range,
        Side::Num(n) => number_range(t, facts, n),
    }
}

// The range of a sum is the sum of the ranges; two constants are one number.
fn sum_range(t: &Typed, facts: &Known, a: ExprId, b: ExprId) -> Range
    requires known { IsKnown t.now facts.now }
    requires side { IsTrue (is_side t.now (Side.Sum a b)) }
    requires fine { side_refusal (claims_in t.now (told facts.now)) (side_in t.now (Side.Sum a b)) ≡ None }
    ensures { result ≡ side_range (claims_in t.now (told facts.now)) (side_in t.now (Side.Sum a b)) }
{
    let _left = t.expr(a);
    let _right = t.expr(b);
    match (t.constant(a), t.constant(b)) {
        (Some(m), Some(n)) => constant_range(t, facts, m as u128 + n as u128),
        (Some(_), None) => range_of(t, facts, a).add(range_of(t, facts, b)),
        (None, Some(_)) => range_of(t, facts, a).add(range_of(t, facts, b)),
        (None, None) => range_of(t, facts, a).add(range_of(t, facts, b)),
    }
}

fn constant_range(t: &Typed, facts: &Known, n: u128) -> Range
    requires known { IsKnown t.now facts.now }
    requires few { n < 2 ^ 66 }
    ensures { result ≡ met (claims_in t.now (told facts.now)) (number no_place n) (exact_range n) }
{
    let exact = Range {
        lo: n as i128,
        hi: n,
    };
    meet_facts(t, facts, Shape::Number(n), exact)
}

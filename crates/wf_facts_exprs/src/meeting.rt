// What a range is met with: the facts that compare the same tree with a number.

ghost use Rattle.std.specs.Prelude.{◌≡◌, ℕ, ◌<◌, ◌^◌, false, IsTrue, IfSome};
ghost use Rattle.wf_num.specs.Ranges.{IsSmall};
ghost use Rattle.wf_num.specs.declared.ranges.Range.{Range};
ghost use Rattle.wf_ast.specs.declared.typed_nodes.TypedNodes.{TypedNodes};
ghost use Rattle.wf_ast.specs.TypedTree.{NumTree};
ghost use Rattle.wf_ast.specs.Same.{same_num};
ghost use Rattle.wf_ast.specs.NodeKinds.{is_number_at};
ghost use Rattle.wf_facts_exprs.specs.Knowledge.{IsKnown, told};
ghost use Rattle.wf_facts_exprs.specs.Claims.{claim_in, claims_in, is_fact, is_side, order_of, side_in, tree_of_side};
ghost use Rattle.wf_facts_exprs.specs.RangeOf.{non_empty as some_numbers, below as range_below, from_on as range_from_on, met, met_by, number_of_side, passed, up_to as range_up_to};
ghost use Rattle.wf_facts_exprs.specs.Operands.{pass_of};
ghost use Rattle.wf_facts_exprs.specs.Shapes.{shape_fits, shape_tree};

use crate::facts::{Cmp, Fact, Side};
use crate::known::{Known, shape_head};
use crate::shapes::{Shape, has_shape, same_shapes, shape_of};
use wf_ast::{ExprId, Typed};
use wf_num::Range;

/// The two passes over the facts: first over all comparisons but `<>`, then over `<>`.
#[derive(Clone, Copy)]
pub(crate) enum Pass {
    Narrow,
    Thin,
}

/// A range met with all facts about a tree.
#[tactic(auto, unfolding(crate::specs::RangeOf::met))]
pub(crate) fn meet_facts(t: &Typed, facts: &Known, shape: Shape, r: Range) -> Range
    requires known { IsKnown t.now facts.now }
    requires shape { IsTrue (shape_fits t.now shape) }
    ensures met { result ≡ met (claims_in t.now (told facts.now)) (shape_tree t.now shape) r }
    ensures small { IsSmall r → IsSmall result }
{
    let narrow = meet_by(t, facts, Pass::Narrow, shape, r);
    if !narrow.thins {
        return narrow.range;
    }
    meet_by(t, facts, Pass::Thin, shape, narrow.range).range
}

// What a pass makes of a range, and whether one of the facts compares by `<>`, so that the second pass may change it.
#[derive(Clone, Copy)]
struct Met {
    range: Range,
    thins: bool,
}

// The facts of one pass, in order. Those about the tree have its head.
fn meet_by(t: &Typed, facts: &Known, pass: Pass, shape: Shape, r: Range) -> Met
    requires known { IsKnown t.now facts.now }
    requires shape { IsTrue (shape_fits t.now shape) }
    ensures met { result.range ≡ passed (pass_of pass) (claims_in t.now (told facts.now)) (shape_tree t.now shape) r }
    ensures small { IsSmall r → IsSmall result.range }
    ensures thin { result.thins ≡ false → (q : Range) → q ≡ passed (pass_of Pass.Thin) (claims_in t.now (told facts.now)) (shape_tree t.now shape) q }
{
    let set = facts.heads.at(shape_head(t, shape));
    let n = facts.list.len();
    let mut met = r;
    let mut thins = false;
    let mut i = set.first_but(facts.gone, 0, n);
    while i < n {
        let fact = facts.list[i];
        thins |= is_thinning(fact);
        met = meet_fact(t, fact, pass, shape, met);
        i = set.first_but(facts.gone, i + 1, n);
    }
    Met { range: met, thins }
}

// Whether a fact is one of the second pass; every other leaves a range there as it is.
#[tactic(auto, using(crate::proofs::PassLemmas::met_with_passed))]
fn is_thinning(fact: Fact) -> bool
    ensures { result ≡ false → (nodes : TypedNodes) (t : NumTree) (r : Range) → r ≡ met_by (pass_of Pass.Thin) (claim_in nodes fact) t r }
{
    match fact {
        Fact::Compare { op, .. } => !passes_over(Pass::Thin, op),
        Fact::Cond { .. } => false,
    }
}

#[tactic(auto, using(crate::proofs::PassLemmas::met_with_passed))]
fn meet_fact(t: &Typed, fact: Fact, pass: Pass, shape: Shape, r: Range) -> Range
    requires known { IsTrue (is_fact t.now fact) }
    requires shape { IsTrue (shape_fits t.now shape) }
    ensures met { result ≡ met_by (pass_of pass) (claim_in t.now fact) (shape_tree t.now shape) r }
    ensures small { IsSmall r → IsSmall result }
{
    match fact {
        Fact::Compare { left, op, right } => {
            if passes_over(pass, op) {
                return r;
            }
            match number_of(t, right) {
                Some(n) => {
                    if is_side_of(t, left, shape) {
                        meet_number(pass, op, n, r)
                    } else {
                        r
                    }
                }
                None => r,
            }
        }
        Fact::Cond { .. } => r,
    }
}

// Whether a pass leaves the comparisons of an operator to the other.
fn passes_over(pass: Pass, op: Cmp) -> bool
    ensures { IsTrue result → (n : ℕ) (r : Range) → pass_of pass (order_of op) n r ≡ r }
{
    match pass {
        Pass::Narrow => match op {
            Cmp::Ne => true,
            Cmp::Lt | Cmp::Le | Cmp::Eq | Cmp::Ge | Cmp::Gt => false,
        },
        Pass::Thin => match op {
            Cmp::Ne => false,
            Cmp::Lt | Cmp::Le | Cmp::Eq | Cmp::Ge | Cmp::Gt => true,
        },
    }
}

/// The number that a side is.
pub(crate) fn number_of(t: &Typed, side: Side) -> Option<u128>
    requires { IsTrue (is_side t.now side) }
    ensures number { result ≡ number_of_side (side_in t.now side) }
    ensures few { IfSome result (λ n. n < 2 ^ 66) }
{
    match side {
        Side::Expr(e) => number_at(t, e),
        Side::Sum(a, b) => number_of_sum(t, a, b),
        Side::Length(e) => no_number(t, e),
        Side::Num(n) => Some(n as u128),
    }
}

fn number_at(t: &Typed, e: ExprId) -> Option<u128>
    requires { IsTrue (is_number_at t.now e) }
    ensures number { result ≡ number_of_side (side_in t.now (Side.Expr e)) }
    ensures few { IfSome result (λ n. n < 2 ^ 66) }
{
    let _expr = t.expr(e);
    Some(t.constant(e)? as u128)
}

fn number_of_sum(t: &Typed, a: ExprId, b: ExprId) -> Option<u128>
    requires { IsTrue (is_side t.now (Side.Sum a b)) }
    ensures number { result ≡ number_of_side (side_in t.now (Side.Sum a b)) }
    ensures few { IfSome result (λ n. n < 2 ^ 66) }
{
    let _left = t.expr(a);
    let _right = t.expr(b);
    match (t.constant(a), t.constant(b)) {
        (Some(m), Some(n)) => Some(m as u128 + n as u128),
        (Some(_), None) => None,
        (None, Some(_)) => None,
        (None, None) => None,
    }
}

// A length is no number.
fn no_number(t: &Typed, e: ExprId) -> Option<u128>
    requires { IsTrue (is_side t.now (Side.Length e)) }
    ensures number { result ≡ number_of_side (side_in t.now (Side.Length e)) }
    ensures few { IfSome result (λ n. n < 2 ^ 66) }
{
    let _expr = t.expr(e);
    None
}

/// Whether a side is what a shape tells.
pub(crate) fn is_side_of(t: &Typed, side: Side, shape: Shape) -> bool
    requires side { IsTrue (is_side t.now side) }
    requires shape { IsTrue (shape_fits t.now shape) }
    ensures { result ≡ same_num (tree_of_side (side_in t.now side)) (shape_tree t.now shape) }
{
    match side {
        Side::Expr(e) => has_shape(t, e, shape),
        Side::Sum(_, _) => same_shapes(t, shape_of(t, side), shape),
        Side::Length(_) => same_shapes(t, shape_of(t, side), shape),
        Side::Num(n) => same_shapes(t, Shape::Number(n as u128), shape),
    }
}

// What one comparison with a number leaves of a range, in one of the passes.
fn meet_number(pass: Pass, op: Cmp, n: u128, r: Range) -> Range
    requires { n < 2 ^ 66 }
    ensures met { result ≡ pass_of pass (order_of op) n r }
    ensures small { IsSmall r → IsSmall result }
{
    match pass {
        Pass::Narrow => narrowed(op, n, r),
        Pass::Thin => thinned(op, n, r),
    }
}

fn narrowed(op: Cmp, n: u128, r: Range) -> Range
    requires { n < 2 ^ 66 }
    ensures met { result ≡ pass_of Pass.Narrow (order_of op) n r }
    ensures small { IsSmall r → IsSmall result }
{
    match op {
        Cmp::Lt => below(n, r),
        Cmp::Le => up_to(n, r),
        Cmp::Eq => r.meet(Range {
            lo: n as i128,
            hi: n,
        }),
        Cmp::Ne => r,
        Cmp::Ge => from_on(n, r),
        Cmp::Gt => from_on(n + 1, r),
    }
}

fn thinned(op: Cmp, n: u128, r: Range) -> Range
    requires { n < 2 ^ 66 }
    ensures met { result ≡ pass_of Pass.Thin (order_of op) n r }
    ensures small { IsSmall r → IsSmall result }
{
    match op {
        Cmp::Ne => without(n, r),
        Cmp::Lt => r,
        Cmp::Le => r,
        Cmp::Eq => r,
        Cmp::Ge => r,
        Cmp::Gt => r,
    }
}

// `<>` removes a number where it is an end.
fn without(n: u128, r: Range) -> Range
    requires { n < 2 ^ 66 }
    ensures met { result ≡ pass_of Pass.Thin (order_of Cmp.Ne) n r }
    ensures small { IsSmall r → IsSmall result }
{
    let m = n as i128;
    if r.lo <= m && m <= r.lo {
        return from_on(n + 1, r);
    }
    if r.hi == n { below(n, r) } else { r }
}

fn up_to(n: u128, r: Range) -> Range
    ensures met { result ≡ range_up_to n r }
    ensures small { IsSmall r → IsSmall result }
{
    non_empty(Range {
        lo: r.lo,
        hi: r.hi.min(n),
    })
}

fn from_on(n: u128, r: Range) -> Range
    requires { n < 2 ^ 67 }
    ensures met { result ≡ range_from_on n r }
    ensures small { IsSmall r → IsSmall result }
{
    non_empty(Range {
        lo: r.lo.max(n as i128),
        hi: r.hi,
    })
}

fn below(n: u128, r: Range) -> Range
    ensures met { result ≡ range_below n r }
    ensures small { IsSmall r → IsSmall result }
{
    if n == 0 {
        Range::EMPTY
    } else {
        up_to(n - 1, r)
    }
}

fn non_empty(r: Range) -> Range
    ensures met { result ≡ some_numbers r }
    ensures small { IsSmall r → IsSmall result }
{
    if r.is_empty() { Range::EMPTY } else { r }
}

// What a list of facts gives of two sides: by a fact that compares them, or by their ranges.

ghost use Rattle.std.specs.Prelude.{◌≡◌, ◌<◌, ◌&&◌, ◌||◌, true, IsTrue, pos, int_lt, int_le};
ghost use Rattle.wf_facts_exprs.specs.Knowledge.{IsKnown, told};
ghost use Rattle.wf_facts_exprs.specs.Claims.{claim_in, claims_in, flip as flipped, is_fact, is_side, order_of, same_side, side_in, single};
ghost use Rattle.wf_facts_exprs.specs.RangeOf.{allows_equal as order_allows_equal, allows_greater as order_allows_greater, allows_less as order_allows_less, allows_no_more as order_allows_no_more, claim_gives, first_rule as by_first_rule};
ghost use Rattle.wf_facts_exprs.specs.HeadRules.{head_gives};
ghost use Rattle.wf_facts_exprs.specs.Given.{decided as decided_by, second_rule as by_second_rule};
ghost use Rattle.wf_facts_exprs.specs.Shapes.{shape_fits, shape_tree};

use crate::facts::{Cmp, Fact, Side};
use crate::known::{Known, shape_head};
use crate::meeting::is_side_of;
use crate::shapes::{Shape, shape_of};
use wf_ast::Typed;
use wf_num::Range;

/// A side with its range.
#[derive(Clone, Copy)]
pub(crate) struct Ranged {
    pub side: Side,
    pub range: Range,
}

/// Whether a comparison of two sides with known ranges is given.
pub(crate) fn gives_ranged(t: &Typed, facts: &Known, left: Ranged, op: Cmp, right: Ranged) -> bool
    requires known { IsKnown t.now facts.now }
    requires left { IsTrue (is_side t.now left.side) }
    requires right { IsTrue (is_side t.now right.side) }
    ensures { result ≡ by_first_rule (claims_in t.now (told facts.now)) (side_in t.now left.side) (order_of op) (side_in t.now right.side)
        || by_second_rule (order_of op) left.range right.range }
{
    second_rule(op, left.range, right.range) || first_rule(t, facts, left.side, op, right.side)
}

/// Whether there is a fact of the same two sides that allows nothing but what the comparison does.
pub(crate) fn first_rule(t: &Typed, facts: &Known, left: Side, op: Cmp, right: Side) -> bool
    requires known { IsKnown t.now facts.now }
    requires left { IsTrue (is_side t.now left) }
    requires right { IsTrue (is_side t.now right) }
    ensures { result ≡ by_first_rule (claims_in t.now (told facts.now)) (side_in t.now left) (order_of op) (side_in t.now right) }
{
    any_gives(t, facts, shape_of(t, left), op, shape_of(t, right))
}

/// Whether the fact at a place of the list is one of the same two sides that allows nothing but what the comparison does.
pub(crate) fn first_rule_at(
    t: &Typed,
    facts: &Known,
    place: usize,
    left: Side,
    op: Cmp,
    right: Side,
) -> bool
    requires known { IsKnown t.now facts.now }
    requires left { IsTrue (is_side t.now left) }
    requires right { IsTrue (is_side t.now right) }
    ensures { IsTrue result → by_first_rule (claims_in t.now (told facts.now)) (side_in t.now left) (order_of op) (side_in t.now right) ≡ true }
{
    if place >= facts.list.len() || facts.gone.has(place) {
        return false;
    }
    fact_gives(
        t,
        facts.list[place],
        shape_of(t, left),
        op,
        shape_of(t, right),
    )
}

// A fact of the same two sides has the head of one of them.
fn any_gives(t: &Typed, facts: &Known, a: Shape, op: Cmp, b: Shape) -> bool
    requires known { IsKnown t.now facts.now }
    requires left { IsTrue (shape_fits t.now a) }
    requires right { IsTrue (shape_fits t.now b) }
    ensures { result ≡ by_first_rule (claims_in t.now (told facts.now)) (single (shape_tree t.now a)) (order_of op) (single (shape_tree t.now b)) }
{
    let head = shape_head(t, a);
    let other = shape_head(t, b);
    gives_with(t, facts, head, a, op, b) || (other != head && gives_with(t, facts, other, a, op, b))
}

// The same of the facts with one head.
fn gives_with(t: &Typed, facts: &Known, head: usize, a: Shape, op: Cmp, b: Shape) -> bool
    requires known { IsKnown t.now facts.now }
    requires head { head < 256 }
    requires left { IsTrue (shape_fits t.now a) }
    requires right { IsTrue (shape_fits t.now b) }
    ensures { result ≡ head_gives head (claims_in t.now (told facts.now)) (single (shape_tree t.now a)) (order_of op) (single (shape_tree t.now b)) }
{
    let set = facts.heads.at(head);
    let n = facts.list.len();
    let mut i = set.first_but(facts.gone, 0, n);
    while i < n {
        if fact_gives(t, facts.list[i], a, op, b) {
            return true;
        }
        i = set.first_but(facts.gone, i + 1, n);
    }
    false
}

fn fact_gives(t: &Typed, fact: Fact, a: Shape, op: Cmp, b: Shape) -> bool
    requires known { IsTrue (is_fact t.now fact) }
    requires left { IsTrue (shape_fits t.now a) }
    requires right { IsTrue (shape_fits t.now b) }
    ensures { result ≡ claim_gives (claim_in t.now fact) (single (shape_tree t.now a)) (order_of op) (single (shape_tree t.now b)) }
{
    match fact {
        Fact::Compare {
            left,
            op: known,
            right,
        } => {
            are_sides_of(t, left, a, right, b, allows_no_more(known, op))
                || are_sides_of(t, left, b, right, a, allows_no_more(flip(known), op))
        }
        Fact::Cond { .. } => false,
    }
}

// Whether two sides are what two shapes tell, and what they compare by is allowed: this is asked first, for it costs least.
fn are_sides_of(t: &Typed, left: Side, a: Shape, right: Side, b: Shape, allowed: bool) -> bool
    requires left { IsTrue (is_side t.now left) }
    requires right { IsTrue (is_side t.now right) }
    requires first { IsTrue (shape_fits t.now a) }
    requires second { IsTrue (shape_fits t.now b) }
    ensures { result ≡ (same_side (side_in t.now left) (single (shape_tree t.now a)) && (same_side (side_in t.now right) (single (shape_tree t.now b)) && allowed)) }
{
    if allowed {
        is_side_of(t, left, a) && is_side_of(t, right, b)
    } else {
        false
    }
}

fn allows_no_more(known: Cmp, wanted: Cmp) -> bool
    ensures { result ≡ order_allows_no_more (order_of known) (order_of wanted) }
{
    (!allows_less(known) || allows_less(wanted))
        && ((!allows_equal(known) || allows_equal(wanted))
            && (!allows_greater(known) || allows_greater(wanted)))
}

fn allows_less(op: Cmp) -> bool
    ensures { result ≡ order_allows_less (order_of op) }
{
    match op {
        Cmp::Lt | Cmp::Le | Cmp::Ne => true,
        Cmp::Eq | Cmp::Ge | Cmp::Gt => false,
    }
}

fn allows_equal(op: Cmp) -> bool
    ensures { result ≡ order_allows_equal (order_of op) }
{
    match op {
        Cmp::Le | Cmp::Eq | Cmp::Ge => true,
        Cmp::Lt | Cmp::Ne | Cmp::Gt => false,
    }
}

fn allows_greater(op: Cmp) -> bool
    ensures { result ≡ order_allows_greater (order_of op) }
{
    match op {
        Cmp::Ne | Cmp::Ge | Cmp::Gt => true,
        Cmp::Lt | Cmp::Le | Cmp::Eq => false,
    }
}

fn flip(op: Cmp) -> Cmp
    ensures { order_of result ≡ flipped (order_of op) }
{
    match op {
        Cmp::Lt => Cmp::Gt,
        Cmp::Le => Cmp::Ge,
        Cmp::Eq => Cmp::Eq,
        Cmp::Ne => Cmp::Ne,
        Cmp::Ge => Cmp::Le,
        Cmp::Gt => Cmp::Lt,
    }
}

/// Whether the ranges of two sides decide a comparison for all their values, or one of them is empty.
pub(crate) fn second_rule(op: Cmp, a: Range, b: Range) -> bool
    ensures { result ≡ by_second_rule (order_of op) a b }
{
    a.is_empty() || (b.is_empty() || decided(op, a, b))
}

fn decided(op: Cmp, a: Range, b: Range) -> bool
    ensures { result ≡ decided_by (order_of op) a b }
{
    match op {
        Cmp::Lt => ends_below(a.hi, b.lo),
        Cmp::Le => ends_by(a.hi, b.lo),
        Cmp::Eq => ends_by(a.hi, b.lo) && ends_by(b.hi, a.lo),
        Cmp::Ne => ends_below(a.hi, b.lo) || ends_below(b.hi, a.lo),
        Cmp::Ge => ends_by(b.hi, a.lo),
        Cmp::Gt => ends_below(b.hi, a.lo),
    }
}

// Whether an upper end is below a lower one, and whether it is at most one.
fn ends_below(hi: u128, lo: i128) -> bool
    ensures { result ≡ int_lt (pos hi) lo }
{
    lo > 0 && hi < lo as u128
}

fn ends_by(hi: u128, lo: i128) -> bool
    ensures { result ≡ int_le (pos hi) lo }
{
    lo >= 0 && hi <= lo as u128
}

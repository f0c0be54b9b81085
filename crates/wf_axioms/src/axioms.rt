// The axioms: comparisons of whole numbers that follow from others.

ghost use Rattle.std.specs.Prelude.{◌≡◌};
ghost use Rattle.wf_axioms.specs.Axioms.{row_of, axiom_text};

use crate::axioms::Letter::{A, B, B0, C, C0, D};
use crate::axioms::Term::{One, Sum, Zero};
use wf_facts_exprs::Cmp;
use wf_facts_exprs::Cmp::{Eq, Ge, Gt, Le, Lt};

/// A letter of an axiom, which stands for a number.
#[derive(Clone, Copy)]
pub enum Letter {
    A,
    B,
    C,
    D,
    B0,
    C0,
}

/// A side of a comparison in an axiom.
#[derive(Clone, Copy)]
pub enum Term {
    One(Letter),
    /// The sum of what two letters stand for.
    Sum(Letter, Letter),
    Zero,
}

/// A comparison that follows from others. Each is told by its text: what follows, a colon, and its premises.
#[derive(Clone, Copy)]
pub enum Axiom {
    /// `a < b: b > a`
    LtByGt,
    /// `a < b: a < c; c < b`
    LtByLtLt,
    /// `a < b: a < c; c == b`
    LtByLtEq,
    /// `a < b: a == c; c < b`
    LtByEqLt,
    /// `a < b: a < c; c <= b`
    LtByLtLe,
    /// `a < b: a <= c; c < b`
    LtByLeLt,
    /// `a > b: b < a`
    GtByLt,
    /// `a <= b: b >= a`
    LeByGe,
    /// `a <= b: a <= c; c <= b`
    LeByLeLe,
    /// `a <= b: a <= c; c == b`
    LeByLeEq,
    /// `a <= b: a == c; c <= b`
    LeByEqLe,
    /// `a >= b: b <= a`
    GeByLe,
    /// `a < (b + c): a < c; 0 <= b`
    LtSum,
    /// `a < (b + c): a < (b0 + c0); b0 <= b; c0 <= c`
    LtSums,
    /// `a <= (a + b): 0 <= b`
    LeSum,
    /// `a <= b: a < b`
    LeByLt,
    /// `a == b: a <= b; b <= a`
    EqByLeLe,
    /// `(a + c) <= (b + d): a <= b; c <= d`
    SumsByLeLe,
}

/// The axiom as it is written, in ASCII.
pub(crate) fn text_of_axiom(a: Axiom) -> &'static str
    ensures { result.now ≡ axiom_text a }
{
    match a {
        Axiom::LtByGt => "a < b: b > a",
        Axiom::LtByLtLt => "a < b: a < c; c < b",
        Axiom::LtByLtEq => "a < b: a < c; c == b",
        Axiom::LtByEqLt => "a < b: a == c; c < b",
        Axiom::LtByLtLe => "a < b: a < c; c <= b",
        Axiom::LtByLeLt => "a < b: a <= c; c < b",
        Axiom::GtByLt => "a > b: b < a",
        Axiom::LeByGe => "a <= b: b >= a",
        Axiom::LeByLeLe => "a <= b: a <= c; c <= b",
        Axiom::LeByLeEq => "a <= b: a <= c; c == b",
        Axiom::LeByEqLe => "a <= b: a == c; c <= b",
        Axiom::GeByLe => "a >= b: b <= a",
        Axiom::LtSum => "a < (b + c): a < c; 0 <= b",
        Axiom::LtSums => "a < (b + c): a < (b0 + c0); b0 <= b; c0 <= c",
        Axiom::LeSum => "a <= (a + b): 0 <= b",
        Axiom::LeByLt => "a <= b: a < b",
        Axiom::EqByLeLe => "a == b: a <= b; b <= a",
        Axiom::SumsByLeLe => "(a + c) <= (b + d): a <= b; c <= d",
    }
}

/// What follows by an axiom.
pub(crate) fn goal_of(a: Axiom) -> (Term, Cmp, Term)
    ensures { result ≡ (row_of a).goal }
{
    match a {
        Axiom::LtByGt => (One(A), Lt, One(B)),
        Axiom::LtByLtLt => (One(A), Lt, One(B)),
        Axiom::LtByLtEq => (One(A), Lt, One(B)),
        Axiom::LtByEqLt => (One(A), Lt, One(B)),
        Axiom::LtByLtLe => (One(A), Lt, One(B)),
        Axiom::LtByLeLt => (One(A), Lt, One(B)),
        Axiom::GtByLt => (One(A), Gt, One(B)),
        Axiom::LeByGe => (One(A), Le, One(B)),
        Axiom::LeByLeLe => (One(A), Le, One(B)),
        Axiom::LeByLeEq => (One(A), Le, One(B)),
        Axiom::LeByEqLe => (One(A), Le, One(B)),
        Axiom::GeByLe => (One(A), Ge, One(B)),
        Axiom::LtSum => (One(A), Lt, Sum(B, C)),
        Axiom::LtSums => (One(A), Lt, Sum(B, C)),
        Axiom::LeSum => (One(A), Le, Sum(A, B)),
        Axiom::LeByLt => (One(A), Le, One(B)),
        Axiom::EqByLeLe => (One(A), Eq, One(B)),
        Axiom::SumsByLeLe => (Sum(A, C), Le, Sum(B, D)),
    }
}

/// What it follows from.
pub(crate) fn premises_of(a: Axiom) -> &'static [(Term, Cmp, Term)]
    ensures { result.now ≡ (row_of a).premises }
{
    match a {
        Axiom::LtByGt => &[(One(B), Gt, One(A))],
        Axiom::LtByLtLt => &[(One(A), Lt, One(C)), (One(C), Lt, One(B))],
        Axiom::LtByLtEq => &[(One(A), Lt, One(C)), (One(C), Eq, One(B))],
        Axiom::LtByEqLt => &[(One(A), Eq, One(C)), (One(C), Lt, One(B))],
        Axiom::LtByLtLe => &[(One(A), Lt, One(C)), (One(C), Le, One(B))],
        Axiom::LtByLeLt => &[(One(A), Le, One(C)), (One(C), Lt, One(B))],
        Axiom::GtByLt => &[(One(B), Lt, One(A))],
        Axiom::LeByGe => &[(One(B), Ge, One(A))],
        Axiom::LeByLeLe => &[(One(A), Le, One(C)), (One(C), Le, One(B))],
        Axiom::LeByLeEq => &[(One(A), Le, One(C)), (One(C), Eq, One(B))],
        Axiom::LeByEqLe => &[(One(A), Eq, One(C)), (One(C), Le, One(B))],
        Axiom::GeByLe => &[(One(B), Le, One(A))],
        Axiom::LtSum => &[(One(A), Lt, One(C)), (Zero, Le, One(B))],
        Axiom::LtSums => &[
            (One(A), Lt, Sum(B0, C0)),
            (One(B0), Le, One(B)),
            (One(C0), Le, One(C)),
        ],
        Axiom::LeSum => &[(Zero, Le, One(B))],
        Axiom::LeByLt => &[(One(A), Lt, One(B))],
        Axiom::EqByLeLe => &[(One(A), Le, One(B)), (One(B), Le, One(A))],
        Axiom::SumsByLeLe => &[(One(A), Le, One(B)), (One(C), Le, One(D))],
    }
}

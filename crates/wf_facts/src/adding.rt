// Facts come into the list.

ghost use Rattle.std.specs.Prelude.{◌≡◌, ◌≤◌, ◌<◌, ◌++◌, ◌∷◌, [], not, true, false, length, map, is_some, OnOk, OnErr, IfOk, IfSome, IsTrue};
ghost use Rattle.wf_facts_exprs.specs.Claims.{claim_in, claims_in, is_among, is_fact, is_side, same_claim, AreFacts};
ghost use Rattle.wf_facts_exprs.specs.Knowledge.{IsKnown, told};
ghost use Rattle.wf_facts.specs.FactLists.{added, common};
ghost use Rattle.wf_facts.specs.IndexedFacts.{AreOver, IsOver, IsFullFor};
ghost use Rattle.wf_facts.specs.PlainNumbers.{plain_number_of_side, plain_number_of, told_apart};
ghost use Rattle.wf_facts_exprs.specs.Sets.{IsSetOf};

use crate::forms::number;
use crate::indexed::Indexed;
use crate::list::Facts;
use crate::marking::mark;
use crate::sameness::{same_cmp, same_fact};
use std::alloc::Global;
use wf_ast::Typed;
use wf_facts_exprs::{Fact, FactSet, Known, Side, fact_head};
use wf_text::NoMemory;

/// The answer of a call that would add a fact to a list of 512.
#[derive(Clone, Copy, PartialEq, Eq)]
pub struct Full;

impl Facts {
    /// Whether a fact stands in the list: one that claims the same.
    pub(crate) fn stands(&self, t: &Typed, f: Fact) -> bool
        requires fact { is_fact t.now f ≡ true }
        requires over { IsOver t.now self.now }
        ensures { result ≡ is_among (claims_in t.now self.now.list) (claim_in t.now f) }
    {
        stands_in(t, &self.as_known(t), f)
    }

    /// Adds a fact at the end, unless it stands already; of a fact made twice the first stays. `Full` exactly where 512
    /// others are there; then nothing changes.
    pub fn push(&mut self, t: &Typed, f: Fact) -> Result<(), Full>
        requires fact { is_fact t.now f ≡ true }
        requires over { IsOver t.now self.old }
        ensures over { IsOver t.now self.new }
        ensures ok { OnOk result (claims_in t.now self.new.list ≡ added (claims_in t.now self.old.list) (claim_in t.now f)) }
        ensures room { OnOk result (length self.new.list ≤ 512) }
        ensures full { OnErr result (IsFullFor t.now self.old f × (self.new ≡ self.old)) }
    {
        if self.stands(t, f) {
            return Ok(());
        }
        if self.slots.len() < 512 {
            self.append(t, f);
            return Ok(());
        }
        if self.gone.first(0, 512) >= 512 {
            return Err(Full);
        }
        self.settle();
        self.append(t, f);
        Ok(())
    }

    // Adds a fact at the end.
    fn append(&mut self, t: &Typed, f: Fact)
        requires fact { is_fact t.now f ≡ true }
        requires over { IsOver t.now self.old }
        requires room { length self.old.slots.list < 512 }
        ensures over { IsOver t.now self.new }
        ensures list { self.new.list ≡ self.old.list ++ f ∷ [] }
        ensures few { length self.new.list ≤ 512 }
    {
        self.slots.append(t, f);
    }
}

impl Indexed {
    /// Adds a fact at the end.
    pub(crate) fn append(&mut self, t: &Typed, f: Fact)
        requires fact { is_fact t.now f ≡ true }
        requires over { AreOver t.now self.old }
        requires room { length self.old.list < 512 }
        ensures over { AreOver t.now self.new }
        ensures list { self.new.list ≡ self.old.list ++ f ∷ [] }
    {
        let n = self.list.len();
        self.list.push_reserved(f);
        mark(t, f, n, &mut self.sets, &mut self.fields);
        self.heads.insert(fact_head(t, f), n);
    }

    /// Keeps the facts that also stand among others, in order.
    pub(crate) fn keep_common(&mut self, t: &Typed, others: &Known)
        requires over { AreOver t.now self.old }
        requires others { IsKnown t.now others.now }
        ensures over { AreOver t.now self.new }
        ensures few { length self.new.list ≤ 512 }
        ensures claims { claims_in t.now self.new.list ≡ common (claims_in t.now self.old.list) (claims_in t.now (told others.now)) }
    {
        let dropped = lacking(t, self.list.as_slice(), others);
        self.drop_set(&dropped);
    }

    /// The same list once more, with its sets.
    pub(crate) fn copy(&self, alloc: Global) -> Result<Indexed, NoMemory>
        ensures { IfOk result (λ copy. copy ≡ self.now) }
    {
        let mut list = Vec::with_capacity(alloc, 512)?;
        list.extend_from_slice(self.list.as_slice())?;
        let sets = self.sets.copy(alloc)?;
        let fields = self.fields.copy(alloc)?;
        let heads = self.heads.copy(alloc)?;
        Ok(Indexed {
            list,
            sets,
            fields,
            heads,
        })
    }
}

// Whether a fact stands in a list.
fn stands_in(t: &Typed, known: &Known, f: Fact) -> bool
    requires fact { is_fact t.now f ≡ true }
    requires known { IsKnown t.now known.now }
    ensures { result ≡ is_among (claims_in t.now (told known.now)) (claim_in t.now f) }
{
    place_in(t, known, f).is_some()
}

// A place of a list at which a fact stands. It is looked for among the facts with its head.
fn place_in(t: &Typed, known: &Known, f: Fact) -> Option<usize>
    requires fact { is_fact t.now f ≡ true }
    requires known { IsKnown t.now known.now }
    ensures among { is_some result ≡ is_among (claims_in t.now (told known.now)) (claim_in t.now f) }
    ensures place { IfSome result (λ place. place < length known.now.list.now) }
{
    let number = plain_number(t, f);
    let set = known.heads.at(fact_head(t, f));
    let n = known.list.len();
    let mut i = set.first_but(known.gone, 0, n);
    while i < n {
        if is_fact_again(t, known.list[i], f, number) {
            return Some(i);
        }
        i = set.first_but(known.gone, i + 1, n);
    }
    None
}

// Whether two facts claim the same, of which the second compares with this number. Most are told apart by their operators or
// by these numbers.
fn is_fact_again(t: &Typed, f: Fact, g: Fact, n: Option<u64>) -> bool
    requires first { is_fact t.now f ≡ true }
    requires second { is_fact t.now g ≡ true }
    requires number { n ≡ plain_number_of t.now g }
    ensures { result ≡ same_claim (claim_in t.now f) (claim_in t.now g) }
{
    !are_seen_apart(t, f, g, n) && same_fact(t, f, g)
}

// The number that a fact compares with, where its right side is one expression or a number.
fn plain_number(t: &Typed, f: Fact) -> Option<u64>
    requires { is_fact t.now f ≡ true }
    ensures { result ≡ plain_number_of t.now f }
{
    match f {
        Fact::Compare { right, .. } => plain_side_number(t, right),
        Fact::Cond { .. } => None,
    }
}

// The number of a side that is one expression or a number.
fn plain_side_number(t: &Typed, side: Side) -> Option<u64>
    requires { is_side t.now side ≡ true }
    ensures { result ≡ plain_number_of_side t.now side }
{
    match side {
        Side::Expr(e) => number(t, e),
        Side::Num(n) => Some(n),
        Side::Sum(_, _) => None,
        Side::Length(_) => None,
    }
}

// Whether two facts, of which the second compares with this number, are seen at once to be two.
fn are_seen_apart(t: &Typed, f: Fact, g: Fact, n: Option<u64>) -> bool
    requires first { is_fact t.now f ≡ true }
    requires second { is_fact t.now g ≡ true }
    requires number { n ≡ plain_number_of t.now g }
    ensures { IsTrue result → same_claim (claim_in t.now f) (claim_in t.now g) ≡ false }
{
    match (f, g) {
        (Fact::Compare { op, right, .. }, Fact::Compare { op: other, .. }) => {
            !same_cmp(op, other) || are_apart(plain_side_number(t, right), n)
        }
        (Fact::Cond { .. }, Fact::Cond { .. }) => false,
        _ => true,
    }
}

// Whether these are two numbers.
fn are_apart(m: Option<u64>, n: Option<u64>) -> bool
    ensures { result ≡ told_apart m n }
{
    match (m, n) {
        (Some(k), Some(l)) => k != l,
        _ => false,
    }
}

// The facts of a list that don't stand in another. Most stand there in the same order, so each is looked for first where
// the one before it was found.
fn lacking(t: &Typed, list: &[Fact], others: &Known) -> FactSet
    requires few { length list.now ≤ 512 }
    requires facts { AreFacts t.now list.now }
    requires others { IsKnown t.now others.now }
    ensures { IsSetOf result.words (map (λ f. not (is_among (claims_in t.now (told others.now)) (claim_in t.now f))) list.now) }
{
    let mut lacking = FactSet::new();
    let mut next = 0;
    for i in 0..list.len() {
        if stands_at(t, others, next, list[i]) {
            next += 1;
            continue;
        }
        let Some(place) = place_in(t, others, list[i]) else {
            lacking.insert(i);
            continue;
        };
        next = place + 1;
    }
    lacking
}

// Whether a place of a list is one at which a fact stands.
fn stands_at(t: &Typed, known: &Known, place: usize, f: Fact) -> bool
    requires fact { is_fact t.now f ≡ true }
    requires known { IsKnown t.now known.now }
    ensures among { IsTrue result → is_among (claims_in t.now (told known.now)) (claim_in t.now f) ≡ true }
    ensures place { IsTrue result → place < length known.now.list.now }
{
    if place >= known.list.len() || known.gone.has(place) {
        return false;
    }
    same_fact(t, known.list[place], f)
}

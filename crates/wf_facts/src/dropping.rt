// Facts leave the list, and all sets move with it.

ghost use Rattle.std.specs.Prelude.{◌≡◌, ◌≤◌, ◌<◌, ℕ, Bool, List, length, take, true, false};
ghost use Rattle.wf_ast.specs.declared.typed_nodes.TypedNodes.{TypedNodes};
ghost use Rattle.wf_facts_exprs.specs.Claims.{claims_in, AreFacts};
ghost use Rattle.wf_facts.specs.FactLists.{without};
ghost use Rattle.wf_facts.specs.IndexedFacts.{AreOver, IsNamedInSets, has_set as thing_has_set, set_of, mentioning};
ghost use Rattle.wf_facts_exprs.specs.Sets.{member, members, IsAround, IsSetOf, unmarked};

use crate::indexed::{Indexed, field_set, has_set, set_number};
use crate::mentioning::fact_mentions;
use wf_ast::{Thing, Typed};
use wf_facts_exprs::{Fact, FactSet};

impl Indexed {
    // The set of the facts that mention a thing: the one that stands, or for a field and an argument one that is made.
    pub(crate) fn meant(&self, t: &Typed, x: Thing) -> FactSet
        requires few { IsNamedInSets x }
        requires over { AreOver t.now self.now }
        ensures { IsSetOf result.words (mentioning t.now x self.now.list) }
    {
        if has_set(x) {
            return *self.sets.at(set_number(x));
        }
        meant_of(t, self.list.as_slice(), self.around(t, x), x)
    }

    // A set of facts among which those are that mention a field or an argument: the facts that mention a field with which it
    // shares a set, and those that mention any argument.
    fn around(&self, _t: &Typed, x: Thing) -> &FactSet
        requires few { IsNamedInSets x }
        requires part { thing_has_set x ≡ false }
        requires over { AreOver _t.now self.now }
        ensures { IsAround result.now.words (mentioning _t.now x self.now.list) }
    {
        match x {
            Thing::Field(x) => self.fields.at(field_set(x)),
            Thing::Arg(_) => self.sets.at(set_number(Thing::Args)),
            Thing::Local(_) | Thing::This | Thing::Args => unreachable!(),
            Thing::Element | Thing::SliceLocals => unreachable!(),
        }
    }

    // Drops the facts of a set, and moves all sets with them.
    pub(crate) fn drop_set(&mut self, dropped: &FactSet)
        ensures few { length self.old.list ≤ 512 }
        ensures small { length self.new.list ≤ 512 }
        ensures list { self.new.list ≡ unmarked (members dropped.now.words (length self.old.list)) self.old.list }
        ensures over { (nodes : TypedNodes) → AreOver nodes self.old → AreOver nodes self.new }
    {
        let n = self.list.len();
        let first = dropped.first(0, n);
        if first >= n {
            return;
        }
        let stay = close_up(self.list.as_mut_slice(), dropped, first);
        self.list.truncate(stay);
        self.sets.move_places(dropped, first, n);
        self.fields.move_places(dropped, first, n);
        self.heads.move_places(dropped, first, n);
    }
}

// The set of the facts of a list that mention a field or an argument, which are in this set.
fn meant_of(t: &Typed, list: &[Fact], around: &FactSet, x: Thing) -> FactSet
    requires few { length list.now ≤ 512 }
    requires facts { AreFacts t.now list.now }
    requires around { IsAround around.now.words (mentioning t.now x list.now) }
    ensures { IsSetOf result.words (mentioning t.now x list.now) }
{
    let n = list.len();
    let mut meant = FactSet::new();
    let mut i = around.first(0, n);
    while i < n {
        meant.put(i, fact_mentions(t, list[i], x));
        i = around.first(i + 1, n);
    }
    meant
}

// Moves the facts that aren't of the set to the front, where none before `first` is of it, and answers how many they are.
fn close_up(list: &mut [Fact], dropped: &FactSet, first: usize) -> usize
    requires few { length list.old ≤ 512 }
    requires first { first ≤ length list.old }
    requires before { (k : ℕ) → k < first → member dropped.now.words k ≡ false }
    ensures { take result list.new ≡ unmarked (members dropped.now.words (length list.old)) list.old }
{
    let mut stay = first;
    for i in first..list.len() {
        if dropped.has(i) {
            continue;
        }
        list[stay] = list[i];
        stay += 1;
    }
    stay
}

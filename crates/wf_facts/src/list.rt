// The list of facts.

ghost use Rattle.std.specs.Prelude.{◌≡◌, ◌≤◌, ◌<◌, length, slice_get, true, false, [], IfOk, IfSome, IsNone, IsTrue, ◌↔◌, replicate};
ghost use Rattle.wf_ast.specs.declared.things.Thing.TheVariants as things;
ghost use Rattle.wf_ast.specs.declared.typed_nodes.TypedNodes.{TypedNodes};
ghost use Rattle.wf_facts.specs.declared.changes.Change.TheVariants as changes;
ghost use Rattle.wf_facts_exprs.specs.Claims.{claims_in};
ghost use Rattle.wf_facts_exprs.specs.Knowledge.{IsKnown, told};
ghost use Rattle.wf_facts.specs.FactLists.{changed, common, without};
ghost use Rattle.wf_facts.specs.IndexedFacts.{FactList, IsOver, IsNamedInSets, has_set as thing_has_set, marks_left, mentioning, set_of};
ghost use Rattle.wf_facts_exprs.specs.Sets.{IsSetOf, unmarked};

use crate::changes::Change;
use crate::indexed::{Indexed, has_set};
use std::alloc::Global;
use std::marker::Model;
use wf_ast::{ArgId, Thing, Typed};
use wf_facts_exprs::{Fact, FactSet, Known};
use wf_text::NoMemory;

/// At most 512 facts in order, and beside them sets: one for each local, and one each for `This`, `Args`, `Element` and
/// `SliceLocals`, with the facts that mention it. A fact that is dropped is gone: its slot is closed up later, with others.
#[derive(Drop)]
pub struct Facts {
    pub(crate) slots: Indexed,
    pub(crate) gone: FactSet,
}

impl Model for Facts {
    ghost use Rattle.wf_facts_exprs.specs.Knowledge.{left_of};
    ghost use Rattle.wf_facts.specs.IndexedFacts.{FactList};

    ghost Value = { FactList };

    ghost view = { λ f. record { list = left_of f.gone.words f.slots.list; slots = f.slots; gone = f.gone.words } };
}

impl Facts {
    /// The empty list, with room for 512 facts.
    pub fn new(alloc: Global) -> Result<Facts, NoMemory>
        ensures empty { IfOk result (λ facts. facts.list ≡ []) }
        ensures over { IfOk result (λ facts. (nodes : TypedNodes) → IsOver nodes facts) }
    {
        let slots = Indexed::new(alloc)?;
        Ok(Facts {
            slots,
            gone: FactSet::new(),
        })
    }

    /// Lets go of all facts, and keeps their room.
    pub fn clear(&mut self)
        ensures empty { self.new.list ≡ [] }
        ensures over { (nodes : TypedNodes) → IsOver nodes self.new }
    {
        self.slots.clear();
        self.gone = FactSet::new();
    }

    /// How many facts stand in the list. It goes through the list.
    pub fn len(&self) -> usize
        ensures value { result ≡ length self.now.list }
        ensures few { result ≤ 512 }
    {
        let mut many = 0;
        for i in 0..self.slots.len() {
            if self.gone.has(i) {
                continue;
            }
            many += 1;
        }
        many
    }

    /// At most 512 facts stand in the list.
    pub fn keeps_limit(&self)
        ensures { length self.now.list ≤ 512 }
    {
        let _slots = self.slots.len();
    }

    /// Whether it is seen at once that there is room for one fact more. Where it isn't, there may be room all the same.
    pub fn has_room(&self) -> bool
        ensures { IsTrue result → length self.now.list < 512 }
    {
        self.slots.len() < 512
    }

    /// The fact at place `i`, and None exactly from the length on. It goes through the list.
    pub fn get(&self, i: usize) -> Option<Fact>
        ensures { result ≡ slice_get self.now.list i }
    {
        let mut before = i;
        for slot in 0..self.slots.len() {
            if self.gone.has(slot) {
                continue;
            }
            if before == 0 {
                return Some(self.slots.at(slot));
            }
            before -= 1;
        }
        None
    }

    /// The facts in order over this package, with the sets of those that have each head.
    pub fn as_known(&self, _t: &Typed) -> Known<'_>
        requires over { IsOver _t.now self.now }
        ensures list { told result ≡ self.now.list }
        ensures known { IsKnown _t.now result }
    {
        Known {
            list: self.slots.list.as_slice(),
            gone: &self.gone,
            heads: &self.slots.heads,
        }
    }

    /// The set of the facts that mention a thing: bit `i mod 64` of word `i / 64` is that of fact `i`. None exactly for a
    /// field and an argument, which have no sets of their own. It takes no memory.
    pub fn about(&self, t: &Typed, x: Thing) -> Option<[u64; 8]>
        requires few { IsNamedInSets x }
        requires over { IsOver t.now self.now }
        ensures some { IfSome result (λ words. IsSetOf words (mentioning t.now x self.now.list)) }
        ensures none { IsNone result ↔ (thing_has_set x ≡ false) }
    {
        if !has_set(x) {
            return None;
        }
        Some(self.slots.set(x).left(&self.gone, self.slots.len()).words)
    }

    /// Drops the facts that mention a thing, as its set tells them, and keeps the order of the others. It goes by the
    /// sets and sees no tree.
    pub fn drop_indexed(&mut self, x: Thing)
        requires { thing_has_set x ≡ true }
        ensures list { (nodes : TypedNodes) → IsOver nodes self.old → self.new.list ≡ unmarked (marks_left self.old (set_of self.old.slots x)) self.old.list }
        ensures over { (nodes : TypedNodes) → IsOver nodes self.old → IsOver nodes self.new }
        ensures claims { (nodes : TypedNodes) → IsOver nodes self.old → claims_in nodes self.new.list ≡ without x (claims_in nodes self.old.list) }
    {
        self.gone.join(self.slots.set(x));
    }

    /// Drops the facts that mention a thing, as the tree tells them, and keeps the order of the others.
    pub fn drop_mentions(&mut self, t: &Typed, x: Thing)
        requires few { IsNamedInSets x }
        requires over { IsOver t.now self.old }
        ensures over { IsOver t.now self.new }
        ensures claims { claims_in t.now self.new.list ≡ without x (claims_in t.now self.old.list) }
    {
        let dropped = self.slots.meant(t, x);
        self.gone.join(&dropped);
    }

    // Closes the slots up of what is gone.
    pub(crate) fn settle(&mut self)
        ensures list { self.new.list ≡ self.old.list }
        ensures whole { self.new.slots.list ≡ self.old.list }
        ensures none { self.new.gone ≡ replicate 8 0 }
        ensures over { (nodes : TypedNodes) → IsOver nodes self.old → IsOver nodes self.new }
    {
        self.slots.drop_set(&self.gone);
        self.gone = FactSet::new();
    }

    /// Keeps the facts that also stand in another list, in order.
    pub fn keep_common(&mut self, t: &Typed, other: &Facts)
        requires over { IsOver t.now self.old }
        requires others { IsOver t.now other.now }
        ensures over { IsOver t.now self.new }
        ensures claims { claims_in t.now self.new.list ≡ common (claims_in t.now self.old.list) (claims_in t.now other.now.list) }
    {
        self.settle();
        self.slots.keep_common(t, &other.as_known(t));
    }

    /// The same list once more, with its sets.
    pub fn copy(&self, alloc: Global) -> Result<Facts, NoMemory>
        ensures { IfOk result (λ copy. copy ≡ self.now) }
    {
        let slots = self.slots.copy(alloc)?;
        Ok(Facts {
            slots,
            gone: self.gone,
        })
    }

    /// The length of a reader or a writer shrinks by at most `k`, or by what isn't known: that it is at least a number, or
    /// above one, goes on with the number less `k` where `k` doesn't exceed it; all other facts that mention it are dropped.
    pub fn lower_length(&mut self, t: &Typed, io: ArgId, k: Option<u64>)
        requires over { IsOver t.now self.old }
        ensures over { IsOver t.now self.new }
        ensures claims { claims_in t.now self.new.list ≡ changed (things.Arg io) (changes.Shortened k) (claims_in t.now self.old.list) }
    {
        self.change(t, Thing::Arg(io), Change::Shortened(k));
    }

    /// Takes the facts that mention a thing along with its change, and drops those of which nothing is known any more.
    /// The order of all stays.
    pub fn change(&mut self, t: &Typed, x: Thing, change: Change)
        requires few { IsNamedInSets x }
        requires over { IsOver t.now self.old }
        ensures over { IsOver t.now self.new }
        ensures claims { claims_in t.now self.new.list ≡ changed x change (claims_in t.now self.old.list) }
    {
        self.settle();
        self.slots.change(t, x, change);
    }
}

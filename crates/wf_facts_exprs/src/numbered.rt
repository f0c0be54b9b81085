// Sets of facts by number.

ghost use Rattle.std.specs.Prelude.{◌≡◌, ◌≤◌, ◌<◌, ℕ, Bool, List, [], length, vec_capacity, nat_eq, true, false, IfOk};
ghost use Rattle.wf_facts_exprs.specs.NumberedSets.{Marks, words_at};
ghost use Rattle.wf_facts_exprs.specs.Sets.{member, members, IsSetOf, unmarked};
ghost use Rattle.wf_facts_exprs.specs.declared.sets.FactSet.{FactSet};

use crate::sets::{FactSet, places_left};
use std::alloc::Global;
use std::marker::Model;
use wf_text::NoMemory;

/// Sets by number, up to the last one in use: those after it are empty. There is room for all 260, one for each local that
/// a method may have and four more.
#[derive(Drop)]
pub struct Sets {
    list: Vec<FactSet>,
    none: FactSet,
}

impl Model for Sets {
    ghost use Rattle.std.specs.Prelude.{List, vec_capacity, length};
    ghost use Rattle.wf_facts_exprs.specs.declared.sets.FactSet.{FactSet};
    ghost use Rattle.wf_facts_exprs.specs.NumberedSets.{HasSets};

    ghost Value = { List FactSet };

    ghost view = { λ s. s.list.items };

    ghost invariant = { λ s. HasSets (length s.list.items) (vec_capacity s.list) s.none.words };
}

/// How many sets there may be.
const SETS: usize = 260;

impl Sets {
    /// None is in use.
    pub fn new(alloc: Global) -> Result<Sets, NoMemory>
        ensures { IfOk result (λ sets. sets ≡ []) }
    {
        let list = Vec::with_capacity(alloc, SETS)?;
        Ok(Sets {
            list,
            none: FactSet::new(),
        })
    }

    /// None is in use any more.
    pub fn clear(&mut self)
        ensures { self.new ≡ [] }
    {
        self.list.clear();
    }

    /// The set of a number.
    pub fn at(&self, k: usize) -> &FactSet
        ensures { result.now.words ≡ words_at self.now k }
    {
        if k < self.list.len() {
            &self.list[k]
        } else {
            &self.none
        }
    }

    /// Puts a place into one set.
    pub fn insert(&mut self, at: usize, n: usize)
        requires set { at < 260 }
        requires place { n < 512 }
        ensures { Marks n (λ k. nat_eq k at) self.old self.new }
    {
        use_up_to(&mut self.list, at + 1);
        self.list[at].insert(n);
    }

    /// Moves the places in each set once those of `dropped`, of which `first` is the first one, leave a list of `n`.
    pub fn move_places(&mut self, dropped: &FactSet, first: usize, n: usize)
        requires few { n ≤ 512 }
        requires first { first < n }
        requires here { member dropped.now.words first ≡ true }
        requires before { (k : ℕ) → k < first → member dropped.now.words k ≡ false }
        ensures { (k : ℕ) → (marks : List Bool) → length marks ≡ n → IsSetOf (words_at self.old k) marks → IsSetOf (words_at self.new k) (unmarked (members dropped.now.words n) marks) }
    {
        move_sets(self.list.as_mut_slice(), dropped, first, n);
    }

    /// The same sets once more.
    pub fn copy(&self, alloc: Global) -> Result<Sets, NoMemory>
        ensures { IfOk result (λ copy. copy ≡ self.now) }
    {
        let mut list = Vec::with_capacity(alloc, SETS)?;
        list.extend_from_slice(self.list.as_slice())?;
        Ok(Sets {
            list,
            none: self.none,
        })
    }
}

// Takes empty sets into use until so many are.
fn use_up_to(list: &mut Vec<FactSet>, many: usize)
    requires many { many ≤ 260 }
    requires few { length list.old.items ≤ 260 }
    requires room { 260 ≤ vec_capacity list.old }
    ensures same { (k : ℕ) → words_at list.new.items k ≡ words_at list.old.items k }
    ensures many { many ≤ length list.new.items }
    ensures few { length list.new.items ≤ 260 }
    ensures room { vec_capacity list.new ≡ vec_capacity list.old }
{
    while list.len() < many {
        list.push_reserved(FactSet::new());
    }
}

// Moves the places in each set once those of `dropped`, of which `first` is the first one, leave a list of `n`.
fn move_sets(sets: &mut [FactSet], dropped: &FactSet, first: usize, n: usize)
    requires few { n ≤ 512 }
    requires first { first < n }
    requires here { member dropped.now.words first ≡ true }
    requires before { (k : ℕ) → k < first → member dropped.now.words k ≡ false }
    ensures { (k : ℕ) → k < length sets.old → (marks : List Bool) → length marks ≡ n → IsSetOf (words_at sets.old k) marks → IsSetOf (words_at sets.new k) (unmarked (members dropped.now.words n) marks) }
{
    if dropped.first(first + 1, n) >= n {
        close_up(sets, dropped, first, n);
    } else {
        move_each(sets, dropped, first, n);
    }
}

// The same of any `dropped`.
fn move_each(sets: &mut [FactSet], dropped: &FactSet, first: usize, n: usize)
    requires few { n ≤ 512 }
    requires first { first < n }
    requires before { (k : ℕ) → k < first → member dropped.now.words k ≡ false }
    ensures { (k : ℕ) → k < length sets.old → (marks : List Bool) → length marks ≡ n → IsSetOf (words_at sets.old k) marks → IsSetOf (words_at sets.new k) (unmarked (members dropped.now.words n) marks) }
{
    let places = places_left(dropped, n);
    for k in 0..sets.len() {
        if sets[k].first(first, n) >= n {
            continue;
        }
        sets[k] = sets[k].moved(dropped, &places, n);
    }
}

// The same where no place behind `first` is one of `dropped`, as `first` itself is.
fn close_up(sets: &mut [FactSet], dropped: &FactSet, first: usize, n: usize)
    requires few { n ≤ 512 }
    requires first { first < n }
    requires here { member dropped.now.words first ≡ true }
    requires before { (k : ℕ) → k < first → member dropped.now.words k ≡ false }
    requires behind { (k : ℕ) → first < k → k < n → member dropped.now.words k ≡ false }
    ensures { (k : ℕ) → k < length sets.old → (marks : List Bool) → length marks ≡ n → IsSetOf (words_at sets.old k) marks → IsSetOf (words_at sets.new k) (unmarked (members dropped.now.words n) marks) }
{
    for k in 0..sets.len() {
        if sets[k].first(first, n) >= n {
            continue;
        }
        sets[k] = sets[k].closed_up(first);
    }
}

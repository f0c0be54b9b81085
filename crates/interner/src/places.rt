// Where the numbers of texts are found: a table of slots, in which a text has its number in one of a few slots that its digest
// says, and an ordered map for texts whose slots are all taken by others. So a look-up takes few comparisons whatever the texts
// are.

ghost use Rattle.std.specs.Prelude.{◌≡◌, ◌<◌, ◌≤◌, ◌-◌, [], IfOk, IfSome, IfNone, OnOk, OnErr, length};
ghost use Rattle.std.specs.Ordering.{nat_cmp};
ghost use Rattle.std.specs.BTreeMap.{get_by};
ghost use Rattle.std.specs.Cmp.Lexicographic.{slice_cmp};
ghost use Rattle.interner.specs.Interning.{AreDistinct, Finds, IsFirstFree, AreTaken, Seats, digest, first_slot, look_up};

use crate::table::digest;
use crate::texts::Texts;
use std::alloc::{AllocError, Global};
use std::collections::BTreeMap;

/// How many slots a text may stand in: that which its digest says and those after it.
pub(crate) const REACH: usize = 16;

/// How many first slots a table has at least. It is a power of two, and so are more of them: the low bits of a digest say one.
const FEWEST: usize = 64;

/// The numbers of texts, each where its digest says.
pub(crate) struct Places {
    alloc: Global,
    /// The number after that of a text, or 0 where the slot is free. The last `REACH - 1` are no text's first slot.
    slots: Vec<usize>,
    /// The number of each text whose slots were all taken.
    others: BTreeMap<Vec<u8>, usize>,
}

impl Drop for Places {
    fn drop(self) {
        let Places {
            alloc: _,
            slots: _,
            others: _,
        } = self;
    }
}

impl Places {
    /// Places of no texts; nothing is allocated.
    pub(crate) fn new(alloc: Global) -> Self
        ensures { Finds result.slots.items (λ text. get_by (λ key. slice_cmp nat_cmp text key.items) result.others) [] }
    {
        Places {
            alloc,
            slots: Vec::new(alloc),
            others: BTreeMap::new(alloc),
        }
    }

    /// Places of these texts, with so many slots.
    fn of(alloc: Global, slots: usize, texts: &Texts) -> Result<Self, AllocError>
        requires room { REACH ≤ slots }
        requires distinct { AreDistinct texts.now }
        ensures finds { IfOk result (λ it. Finds it.slots.items (λ text. get_by (λ key. slice_cmp nat_cmp text key.items) it.others) texts.now) }
        ensures room { IfOk result (λ it. REACH ≤ length it.slots.items) }
    {
        let mut places = Places {
            alloc,
            slots: Vec::from_elem(alloc, 0, slots)?,
            others: BTreeMap::new(alloc),
        };
        for number in 0..texts.len() {
            let text = texts.text(number);
            places.seat(digest(text), text, number)?;
        }
        Ok(places)
    }

    /// Makes room for one text more: at least half of the slots are free then. A wider table has four times as many. On `Err`
    /// all is as it was.
    pub(crate) fn widen(&mut self, texts: &Texts) -> Result<(), AllocError>
        requires finds { Finds self.old.slots.items (λ text. get_by (λ key. slice_cmp nat_cmp text key.items) self.old.others) texts.now }
        ensures finds { Finds self.new.slots.items (λ text. get_by (λ key. slice_cmp nat_cmp text key.items) self.new.others) texts.now }
        ensures room { OnOk result (REACH ≤ length self.new.slots.items) }
    {
        let firsts = self.slots.len().saturating_sub(REACH - 1);
        if firsts / 2 <= texts.len() {
            let wider = firsts
                .saturating_mul(4)
                .max(FEWEST)
                .saturating_add(REACH - 1);
            *self = Places::of(self.alloc, wider, texts)?;
        }
        Ok(())
    }

    /// The first slot in which a text of this digest may stand.
    fn first(&self, made: u64) -> usize
        ensures value { result ≡ first_slot self.now.slots.items made }
        ensures within { result ≤ length self.now.slots.items - REACH }
        ensures fits { result ≤ usize.MAX - REACH }
    {
        made as usize & self.slots.len().saturating_sub(REACH)
    }

    /// The number of a text of this digest, if it is one of `texts`.
    pub(crate) fn find(&self, texts: &Texts, made: u64, text: &[u8]) -> Option<usize>
        requires digest { made ≡ digest text.now }
        requires finds { Finds self.now.slots.items (λ text. get_by (λ key. slice_cmp nat_cmp text key.items) self.now.others) texts.now }
        ensures { result ≡ look_up texts.now self.now.slots.items (λ text. get_by (λ key. slice_cmp nat_cmp text key.items) self.now.others) text.now }
    {
        let first = self.first(made);
        for at in first..first + REACH {
            let slot = self.slots.get(at).copied().unwrap_or(0);
            if slot == 0 {
                return None;
            }
            let number = slot - 1;
            if texts.text(number) == text {
                return Some(number);
            }
        }
        self.others.get(text).copied()
    }

    /// The first free slot of those in which a text of this digest may stand.
    fn free(&self, made: u64) -> Option<usize>
        requires { REACH ≤ length self.now.slots.items }
        ensures free { IfSome result (λ at. IsFirstFree self.now.slots.items made at) }
        ensures within { IfSome result (λ at. at < length self.now.slots.items) }
        ensures taken { IfNone result (AreTaken self.now.slots.items made) }
    {
        let first = self.first(made);
        for at in first..first + REACH {
            if self.slots[at] == 0 {
                return Some(at);
            }
        }
        None
    }

    /// Gives a text of this digest, which isn't found, its number. On `Err` all is as it was.
    pub(crate) fn seat(&mut self, made: u64, text: &[u8], number: usize) -> Result<(), AllocError>
        requires digest { made ≡ digest text.now }
        requires room { REACH ≤ length self.old.slots.items }
        requires number { number < usize.MAX }
        ensures ok { OnOk result (Seats self.old.slots.items self.new.slots.items (λ text. get_by (λ key. slice_cmp nat_cmp text key.items) self.old.others) (λ text. get_by (λ key. slice_cmp nat_cmp text key.items) self.new.others) text.now number) }
        ensures slots { length self.new.slots.items ≡ length self.old.slots.items }
        ensures err { OnErr result ((self.new.slots.items ≡ self.old.slots.items) × (self.new.others.entries ≡ self.old.others.entries)) }
    {
        match self.free(made) {
            Some(at) => {
                self.slots[at] = number + 1;
                Ok(())
            }
            None => {
                let key = Vec::from_slice(self.alloc, text)?;
                self.others.insert(key, number)?;
                Ok(())
            }
        }
    }
}

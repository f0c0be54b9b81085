// Numbers of what a unit got not long ago, so that what comes again is found without a search.

use std::alloc::Global;
use wf_text::NoMemory;

/// How many places there are.
const PLACES: usize = 1024;

/// Numbers, each at a place of its own until another takes it. What stands at a place is a guess: who takes it looks
/// whether it is what he seeks.
#[derive(Drop)]
pub(crate) struct Recent {
    numbers: Vec<usize>,
}

impl Recent {
    /// No numbers; nothing is allocated.
    pub(crate) fn new(alloc: Global) -> Recent {
        Recent {
            numbers: Vec::new(alloc),
        }
    }

    /// Makes the places, where there are none yet.
    #[inline]
    pub(crate) fn widen(&mut self) -> Result<(), NoMemory> {
        if self.numbers.is_empty() {
            self.numbers.resize(PLACES, 0)?;
        }
        Ok(())
    }

    /// The number at a place.
    #[inline]
    pub(crate) fn guess(&self, place: usize) -> usize {
        match self.numbers.get(place % PLACES) {
            Some(number) => *number,
            None => 0,
        }
    }

    /// Puts a number at a place.
    #[inline]
    pub(crate) fn put(&mut self, place: usize, number: usize) {
        if let Some(there) = self.numbers.get_mut(place % PLACES) {
            *there = number;
        }
    }
}

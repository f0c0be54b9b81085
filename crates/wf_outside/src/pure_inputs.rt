// Inputs in memory that never fail.

ghost use Rattle.std.specs.Prelude.{◌≡◌, ℕ, ◌-◌, ◌<◌, ◌≤◌, List, [], None, map, string_bytes};
ghost use Rattle.wf_outside.specs.Inputs.{CountsTake, NamesFailed, Takes, TakesLength};
ghost use Rattle.wf_outside.specs.InMemory.{AnswersGiven, bytes_or_empty, held_by_all};

use crate::entries::{find_bytes, front_of};
use crate::inputs::{Inputs, TakeFault};
use std::marker::Model;

/// Names with their bytes. A name that isn't held is taken as empty.
#[derive(Drop)]
pub struct PureInputs {
    held: Vec<(String, Vec<u8>)>,
}

impl Model for PureInputs {
    ghost Value = { List (List ℕ × List ℕ) };

    ghost view = { λ s. map (λ entry. (string_bytes entry.0, entry.1.items)) s.held.items };
}

impl PureInputs {
    /// Inputs of these names. Of two entries of one name the first counts.
    pub fn new(held: Vec<(String, Vec<u8>)>) -> PureInputs
        ensures { result ≡ map (λ entry. (string_bytes entry.0, entry.1.items)) held.items }
    {
        PureInputs { held }
    }

    fn given(&self, name: &str) -> &[u8]
        ensures { result.now ≡ bytes_or_empty self.now name.now }
    {
        find_bytes(self.held.as_slice(), name).unwrap_or(&[])
    }
}

impl Inputs for PureInputs {
    ghost held = { λ inputs name. held_by_all inputs name };

    ghost last_failed = { λ _. None };

    ghost faults = { λ _. 0 };

    fn take(&mut self, name: &str, into: &mut Vec<u8>, most: u64) -> Result<(), TakeFault>
        requires empty { into.old.items ≡ [] }
        requires bound { most ≤ 1048576 }
        ensures answer { AnswersGiven (held_by_all self.old name.now) most result into.new.items }
        ensures after { self.new ≡ self.old }
        ensures same { held_by_all self.new ≡ held_by_all self.old }
        ensures bytes { Takes (bytes_or_empty self.old name.now) most result into.new.items }
        ensures length { TakesLength most result into.new.items }
        ensures count { CountsTake 0 0 result }
        ensures name { NamesFailed None None result name.now }
    {
        let bytes = self.given(name);
        into.extend_from_slice(front_of(bytes, most))?;
        if bytes.len() as u64 > most {
            return Err(TakeFault::TooLong);
        }
        Ok(())
    }
}

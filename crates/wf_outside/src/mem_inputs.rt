// Inputs in memory that fail where they are told to.

ghost use Rattle.std.specs.Prelude.{◌≡◌, ◌-◌, ◌^◌, ◌<◌, ◌≤◌, [], None, Some, Option, IfSome, map, string_bytes};
ghost use Rattle.std.specs.Option.{option_map};
ghost use Rattle.wf_outside.specs.Inputs.{CountsTake, NamesFailed, Takes, TakesLength};
ghost use Rattle.wf_outside.specs.InMemory.{AnswersGiven, MemInputsState, after_take, bytes_under, given_at};

use crate::entries::{find_bytes, front_of, is_listed};
use crate::inputs::{Inputs, TakeFault};
use std::alloc::Global;
use std::marker::Model;

/// Names with their bytes, and the numbers of the calls that fail, counted from 0. A name that isn't held fails
/// too. Nothing else does.
pub struct MemInputs {
    alloc: Global,
    held: Vec<(String, Vec<u8>)>,
    failing: Vec<u64>,
    last_failed: Option<String>,
    calls: u64,
    faults: u64,
}

impl Drop for MemInputs {
    fn drop(self) {
        let MemInputs {
            alloc: _,
            held: _,
            failing: _,
            last_failed: _,
            calls: _,
            faults: _,
        } = self;
    }
}

impl Model for MemInputs {
    ghost Value = { MemInputsState };

    ghost view = { λ s. record {
      held = map (λ entry. (string_bytes entry.0, entry.1.items)) s.held.items;
      failing = s.failing.items;
      last_failed = option_map string_bytes s.last_failed;
      calls = s.calls;
      faults = s.faults;
    } };
}

impl MemInputs {
    /// Inputs with no call and no fault so far. Of two entries of one name the first counts.
    pub fn new(alloc: Global, held: Vec<(String, Vec<u8>)>, failing: Vec<u64>) -> MemInputs
        ensures { result ≡ record {
          held = map (λ entry. (string_bytes entry.0, entry.1.items)) held.items;
          failing = failing.items;
          last_failed = None;
          calls = 0;
          faults = 0;
        } }
    {
        MemInputs {
            alloc,
            held,
            failing,
            last_failed: None,
            calls: 0,
            faults: 0,
        }
    }

    // What the call of this number gives for a name.
    fn given_at(&self, call: u64, name: &str) -> Option<&[u8]>
        ensures { option_map (λ bytes. bytes.now) result ≡ given_at self.now call name.now }
    {
        if is_listed(self.failing.as_slice(), call) {
            return None;
        }
        find_bytes(self.held.as_slice(), name)
    }
}

impl Inputs for MemInputs {
    ghost held = { λ inputs name. bytes_under inputs.held name };

    ghost last_failed = { λ inputs. inputs.last_failed };

    ghost faults = { λ inputs. inputs.faults };

    fn take(&mut self, name: &str, into: &mut Vec<u8>, most: u64) -> Result<(), TakeFault>
        requires empty { into.old.items ≡ [] }
        requires bound { most ≤ 1048576 }
        requires countable { self.old.faults < 2 ^ 64 - 1 }
        ensures answer { AnswersGiven (given_at self.old self.old.calls name.now) most result into.new.items }
        ensures after { self.new ≡ after_take self.old name.now result }
        ensures same { bytes_under self.new.held ≡ bytes_under self.old.held }
        ensures bytes { IfSome (bytes_under self.old.held name.now)
            (λ bytes. Takes bytes most result into.new.items) }
        ensures length { TakesLength most result into.new.items }
        ensures count { CountsTake self.old.faults self.new.faults result }
        ensures name { NamesFailed self.old.last_failed self.new.last_failed result name.now }
    {
        let call = self.calls;
        self.calls = call.saturating_add(1);
        let Some(bytes) = self.given_at(call, name) else {
            let copy = String::from_str(self.alloc, name)?;
            self.last_failed = Some(copy);
            self.faults += 1;
            return Err(TakeFault::Failed);
        };
        into.extend_from_slice(front_of(bytes, most))?;
        if bytes.len() as u64 > most {
            return Err(TakeFault::TooLong);
        }
        Ok(())
    }
}

// The numbers of structs, by name, in an ordered map, so that a look-up takes few comparisons whatever the names are.

ghost use Rattle.std.specs.Prelude.{◌≡◌, ℕ, List, [], bytes_eq, if◌then◌else◌, OnOk};
ghost use Rattle.c_step_objects.specs.Shapes.{number_in};

use std::alloc::Global;
use std::collections::BTreeMap;
use std::marker::Model;
use wf_text::NoMemory;

/// The number of each struct, by its name; a name that isn't here has 0.
pub(crate) struct StructNumbers<'u> {
    entries: BTreeMap<&'u [u8], usize>,
}

impl<'u> Drop for StructNumbers<'u> {
    fn drop(self) {
        let StructNumbers { entries: _ } = self;
    }
}

impl<'u> Model for StructNumbers<'u> {
    ghost use Rattle.std.specs.Prelude.{ℕ, List, map};

    ghost Value = { List (List ℕ × ℕ) };

    ghost view = { λ it. map (λ entry. (entry.0.now, entry.1)) it.entries.entries };
}

impl<'u> StructNumbers<'u> {
    /// No struct has a number yet; nothing is allocated.
    pub(crate) fn new(alloc: Global) -> StructNumbers<'u>
        ensures { result ≡ [] }
    {
        StructNumbers {
            entries: BTreeMap::new(alloc),
        }
    }

    /// The number of a struct.
    pub(crate) fn number(&self, name: &[u8]) -> usize
        ensures { result ≡ number_in self.now name.now }
    {
        self.entries.get(name).copied().unwrap_or(0)
    }

    /// Gives a struct its number, whatever one of this name had.
    pub(crate) fn put(&mut self, name: &'u [u8], number: usize) -> Result<(), NoMemory>
        ensures { OnOk result ((q : List ℕ) → number_in self.new q ≡ (if bytes_eq name.now q then number else number_in self.old q)) }
    {
        self.entries.insert(name, number)?;
        Ok(())
    }
}

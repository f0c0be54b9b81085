// Tables from the names of a unit to what they declare. Contracts see the names by their bytes with what they declare, in the
// order in which they were added. A unit has each name once, so a name is looked up by its number in an ordered map: that takes
// few comparisons of numbers, however long the name is.

ghost use Rattle.std.specs.Prelude.{◌≡◌, ◌<◌, ◌++◌, [], ◌∷◌, if◌then◌else◌, length, is_none, position, None, IfOk, OnOk, OnErr};
ghost use Rattle.std.specs.Str.{bytes_eq};
ghost use Rattle.c_text.specs.CNodes.{bytes_at};
ghost use Rattle.c_form_exprs.specs.Tables.{named};

use c_text::{CNameId, Unit};
use std::alloc::Global;
use std::collections::BTreeMap;
use std::marker::Model;
use wf_text::NoMemory;

/// What each of some names of a unit declares.
pub struct NameTable<'u, V> {
    unit: &'u Unit,
    /// The names with what they declare, in the order in which they were added.
    entries: Vec<(CNameId, V)>,
    /// The place there of each name, by its number in the unit.
    places: BTreeMap<usize, usize>,
}

impl<'u, V: Drop> Drop for NameTable<'u, V> {
    fn drop(self) {
        let NameTable {
            unit: _,
            entries: _,
            places: _,
        } = self;
    }
}

impl<'u, V> Model for NameTable<'u, V> {
    ghost use Rattle.std.specs.Prelude.{map};
    ghost use Rattle.std.specs.Ordering.{nat_cmp};
    ghost use Rattle.std.specs.BTreeMap.{get_by};
    ghost use Rattle.c_text.specs.CNodes.{bytes_at};
    ghost use Rattle.c_form_exprs.specs.Tables.{Table, TellsPlaces};

    ghost Value = { Table V };

    ghost view = { λ table. record { names = table.unit.now.names; entries = map (λ entry. (bytes_at table.unit.now.names entry.0.0, entry.1)) table.entries.items } };

    ghost invariant = { λ table. TellsPlaces (λ n. get_by (nat_cmp n) table.places) table.unit.now.names (map (λ entry. (bytes_at table.unit.now.names entry.0.0, entry.1)) table.entries.items) };
}

impl<'u, V: Copy + Drop> NameTable<'u, V> {
    /// The table without names; nothing is allocated.
    pub fn new(alloc: Global, unit: &'u Unit) -> NameTable<'u, V>
        ensures { result ≡ record { names = unit.now.names; entries = [] } }
    {
        NameTable {
            unit,
            entries: Vec::new(alloc),
            places: BTreeMap::new(alloc),
        }
    }

    /// What the name declares.
    pub fn get(&self, name: CNameId) -> Option<V>
        requires { name.0 < length self.now.names }
        ensures { result ≡ named self.now.entries (bytes_at self.now.names name.0) }
    {
        let place = self.place(name)?;
        Some(self.entries[place].1)
    }

    /// The place of the name among those of the table.
    pub(crate) fn place(&self, name: CNameId) -> Option<usize>
        requires { name.0 < length self.now.names }
        ensures { result ≡ position (λ entry. bytes_eq entry.0 (bytes_at self.now.names name.0)) self.now.entries }
    {
        self.places.get(&name.0).copied()
    }

    /// Adds a name that isn't one of the table's. After `NoMemory` the table is as before.
    fn join(&mut self, name: CNameId, value: V) -> Result<(), NoMemory>
        requires name { name.0 < length self.old.names }
        requires free { position (λ entry. bytes_eq entry.0 (bytes_at self.old.names name.0)) self.old.entries ≡ None }
        ensures ok { OnOk result (self.new ≡ record self.old { entries = self.old.entries ++ (bytes_at self.old.names name.0, value) ∷ [] }) }
        ensures err { OnErr result (self.new ≡ self.old) }
    {
        let _known = self.unit.names();
        let place = self.entries.len();
        self.entries.reserve(1)?;
        self.places.insert(name.0, place)?;
        match self.entries.push((name, value)) {
            Ok(()) => Ok(()),
            Err(_) => unreachable!(),
        }
    }

    /// Adds a name at the end; whether it is new. A name that isn't new keeps what it declares. After `NoMemory` the
    /// table is as before.
    pub fn add(&mut self, name: CNameId, value: V) -> Result<bool, NoMemory>
        requires { name.0 < length self.old.names }
        ensures fresh { IfOk result (λ fresh. fresh ≡ is_none (named self.old.entries (bytes_at self.old.names name.0))) }
        ensures added { IfOk result (λ fresh. self.new.entries ≡ (if fresh then self.old.entries ++ (bytes_at self.old.names name.0, value) ∷ [] else self.old.entries)) }
        ensures names { self.new.names ≡ self.old.names }
        ensures err { OnErr result (self.new ≡ self.old) }
    {
        match self.place(name) {
            Some(_) => Ok(false),
            None => {
                self.join(name, value)?;
                Ok(true)
            }
        }
    }
}

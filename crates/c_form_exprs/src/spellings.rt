// Tables from names to what they declare, by the bytes of the names: for names that are no unit's, and for names that are looked
// up only where they stand themselves. Contracts see the names with what they declare, in the order in which they were added. A
// name is looked up in ordered maps, so that a look-up takes few comparisons whatever the names are: by a digest of its bytes
// first, and by its bytes where another name has the same digest. A look-up takes time in proportion to the name.

ghost use Rattle.std.specs.Prelude.{◌≡◌, ◌++◌, [], ◌∷◌, if◌then◌else◌, is_none, position, None, IfOk, OnOk, OnErr};
ghost use Rattle.std.specs.Str.{bytes_eq};
ghost use Rattle.c_form_exprs.specs.Tables.{named};

use interner::digest;
use std::alloc::Global;
use std::collections::BTreeMap;
use std::marker::Model;
use wf_text::NoMemory;

/// What each of some names declares, by the bytes of the name.
pub struct SpellingTable<'u, V> {
    /// The names with what they declare, in the order in which they were added.
    entries: Vec<(&'u [u8], V)>,
    /// The place there of the first name of which each digest was made.
    firsts: BTreeMap<u64, usize>,
    /// The place there of each other name.
    others: BTreeMap<&'u [u8], usize>,
}

impl<'u, V: Drop> Drop for SpellingTable<'u, V> {
    fn drop(self) {
        let SpellingTable {
            entries: _,
            firsts: _,
            others: _,
        } = self;
    }
}

impl<'u, V> Model for SpellingTable<'u, V> {
    ghost use Rattle.std.specs.Prelude.{ℕ, List, map};
    ghost use Rattle.std.specs.Ordering.{nat_cmp};
    ghost use Rattle.std.specs.BTreeMap.{get_by};
    ghost use Rattle.std.specs.Cmp.Lexicographic.{slice_cmp};
    ghost use Rattle.c_form_exprs.specs.Tables.{FindsPlaces};

    ghost Value = { List (List ℕ × V) };

    ghost view = { λ table. map (λ entry. (entry.0.now, entry.1)) table.entries.items };

    ghost invariant = { λ table. FindsPlaces (λ made. get_by (nat_cmp made) table.firsts) (λ name. get_by (λ key. slice_cmp nat_cmp name key.now) table.others) (map (λ entry. (entry.0.now, entry.1)) table.entries.items) };
}

impl<'u, V: Copy + Drop> SpellingTable<'u, V> {
    /// The table without names; nothing is allocated.
    pub fn new(alloc: Global) -> SpellingTable<'u, V>
        ensures { result ≡ [] }
    {
        SpellingTable {
            entries: Vec::new(alloc),
            firsts: BTreeMap::new(alloc),
            others: BTreeMap::new(alloc),
        }
    }

    /// What the name declares.
    pub fn get(&self, name: &[u8]) -> Option<V>
        ensures { result ≡ named self.now name.now }
    {
        let place = self.place(name)?;
        Some(self.entries[place].1)
    }

    /// The place of the name among those of the table.
    fn place(&self, name: &[u8]) -> Option<usize>
        ensures { result ≡ position (λ entry. bytes_eq entry.0 name.now) self.now }
    {
        let place = *self.firsts.get(&digest(name))?;
        if self.entries[place].0 == name {
            Some(place)
        } else {
            self.others.get(name).copied()
        }
    }

    /// Adds a name that isn't one of the table's. After `NoMemory` the table is as before.
    fn join(&mut self, name: &'u [u8], value: V) -> Result<(), NoMemory>
        requires { position (λ entry. bytes_eq entry.0 name.now) self.old ≡ None }
        ensures ok { OnOk result (self.new ≡ self.old ++ (name.now, value) ∷ []) }
        ensures err { OnErr result (self.new ≡ self.old) }
    {
        let place = self.entries.len();
        let made = digest(name);
        self.entries.reserve(1)?;
        let first = self.firsts.get(&made).copied();
        match first {
            Some(_) => {
                self.others.insert(name, place)?;
                match self.entries.push((name, value)) {
                    Ok(()) => Ok(()),
                    Err(_) => unreachable!(),
                }
            }
            None => {
                self.firsts.insert(made, place)?;
                match self.entries.push((name, value)) {
                    Ok(()) => Ok(()),
                    Err(_) => unreachable!(),
                }
            }
        }
    }

    /// Adds a name at the end; whether it is new. A name that isn't new keeps what it declares. After `NoMemory` the
    /// table is as before.
    pub fn add(&mut self, name: &'u [u8], value: V) -> Result<bool, NoMemory>
        ensures fresh { IfOk result (λ fresh. fresh ≡ is_none (named self.old name.now)) }
        ensures added { IfOk result (λ fresh. self.new ≡ (if fresh then self.old ++ (name.now, value) ∷ [] else self.old)) }
        ensures err { OnErr result (self.new ≡ self.old) }
    {
        match self.place(name) {
            Some(_) => Ok(false),
            None => {
                self.join(name, value)?;
                Ok(true)
            }
        }
    }
}

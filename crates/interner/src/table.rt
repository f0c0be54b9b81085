// Texts, each once, in the order in which they are first seen.

ghost use Rattle.std.specs.Prelude.{◌≡◌, ◌<◌, ◌≤◌, ◌++◌, ◌∷◌, Some, [], length, slice_get, IfOk, OnOk, OnErr};
ghost use Rattle.interner.specs.Interning.{Interns, AreDistinct, IsNew, digest};

use crate::places::Places;
use crate::texts::Texts;
use std::alloc::{AllocError, Global};
use std::hash::{FoldHasher, Hasher};
use std::marker::Model;

/// A table of texts without repeats. A text's number is its place, from 0.
pub struct Interner {
    texts: Texts,
    /// Where the number of each text is found.
    places: Places,
}

impl Drop for Interner {
    fn drop(self) {
        let Interner {
            texts: _,
            places: _,
        } = self;
    }
}

impl Model for Interner {
    ghost use Rattle.std.specs.Prelude.{List, ℕ};
    ghost use Rattle.std.specs.Ordering.{nat_cmp};
    ghost use Rattle.std.specs.BTreeMap.{get_by};
    ghost use Rattle.std.specs.Cmp.Lexicographic.{slice_cmp};
    ghost use Rattle.interner.specs.Interning.{Finds};

    ghost Value = { List (List ℕ) };

    ghost view = { λ it. it.texts };

    ghost invariant = { λ it. Finds it.places.slots.items (λ text. get_by (λ key. slice_cmp nat_cmp text key.items) it.places.others) it.texts };
}

/// A number made of the text's bytes, in which few texts are alike.
pub fn digest(text: &[u8]) -> u64
    ensures { result ≡ digest text.now }
{
    let mut hasher = FoldHasher::default();
    hasher.write(text);
    hasher.finish()
}

impl Interner {
    /// An empty table; nothing is allocated.
    pub fn new(alloc: Global) -> Self
        ensures { result ≡ [] }
    {
        Interner {
            texts: Texts::new(alloc),
            places: Places::new(alloc),
        }
    }

    /// How many texts the table has, which differ from one another.
    pub fn len(&self) -> usize
        ensures count { result ≡ length self.now }
        ensures unique { AreDistinct self.now }
    {
        self.texts.len()
    }

    /// The bytes of a text of the table.
    pub fn text(&self, number: usize) -> &[u8]
        requires { number < length self.now }
        ensures { slice_get self.now number ≡ Some result.now }
    {
        self.texts.text(number)
    }

    /// The number of `text`, which joins the table at its end where it isn't in it. On `Err` the table is as it was.
    pub fn intern(&mut self, text: &[u8]) -> Result<usize, AllocError>
        ensures ok { IfOk result (λ n. Interns self.old self.new text.now n) }
        ensures number { IfOk result (λ n. n ≤ length self.old) }
        ensures err { OnErr result (self.new ≡ self.old) }
    {
        let made = digest(text);
        match self.places.find(&self.texts, made, text) {
            Some(number) => Ok(number),
            None => self.join(made, text),
        }
    }

    /// A text that isn't in the table joins it at its end. On `Err` the table is as it was.
    fn join(&mut self, made: u64, text: &[u8]) -> Result<usize, AllocError>
        requires digest { made ≡ digest text.now }
        requires new { IsNew self.old text.now }
        ensures number { IfOk result (λ n. n ≡ length self.old) }
        ensures ok { OnOk result (self.new ≡ self.old ++ text.now ∷ []) }
        ensures err { OnErr result (self.new ≡ self.old) }
    {
        self.places.widen(&self.texts)?;
        self.texts.push(text)?;
        let number = self.texts.len() - 1;
        match self.places.seat(made, text, number) {
            Ok(()) => Ok(number),
            Err(fault) => {
                self.texts.pop();
                Err(fault)
            }
        }
    }
}

// The texts of a package, each once, in the order in which they are first seen.

ghost use Rattle.std.specs.Prelude.{◌≡◌, ◌<◌, ◌^◌, Some, [], length, slice_get, IfOk, OnOk, OnErr};
ghost use Rattle.wf_ast.specs.ParsedParts.{JoinsText, AreDistinct};

use crate::numbers::TextId;
use interner::Interner;
use std::alloc::{AllocError, Global};
use std::marker::Model;

/// A table of texts without repeats.
#[derive(Drop)]
pub struct Texts {
    table: Interner,
}

impl Model for Texts {
    ghost use Rattle.std.specs.Prelude.{List, ℕ};

    ghost Value = { List (List ℕ) };

    ghost view = { λ t. t.table };
}

impl Texts {
    /// An empty table.
    pub fn new(alloc: Global) -> Self
        ensures { result ≡ [] }
    {
        Texts {
            table: Interner::new(alloc),
        }
    }

    /// The number of `text`, which joins the table at its end where it isn't in it. On `Err` the table is as
    /// it was.
    pub fn number_of(&mut self, text: &[u8]) -> Result<TextId, AllocError>
        requires { length self.old < 2 ^ 32 }
        ensures found { IfOk result (λ t. slice_get self.new t.0 ≡ Some text.now) }
        ensures joins { OnOk result (JoinsText self.old self.new text.now) }
        ensures unique { AreDistinct self.new }
        ensures err { OnErr result (self.new ≡ self.old) }
    {
        let interned = self.table.intern(text);
        // The table is without repeats.
        let _count = self.len();
        let number = interned?;
        Ok(TextId(number as u32))
    }

    /// The bytes of a text of the table.
    pub fn text(&self, number: TextId) -> &[u8]
        requires { number.0 < length self.now }
        ensures { slice_get self.now number.0 ≡ Some result.now }
    {
        self.table.text(number.0 as usize)
    }

    /// How many texts the table has.
    pub fn len(&self) -> usize
        ensures count { result ≡ length self.now }
        ensures unique { AreDistinct self.now }
    {
        self.table.len()
    }
}

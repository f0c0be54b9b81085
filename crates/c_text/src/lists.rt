// A list of parts, which contracts see as a list.

ghost use Rattle.std.specs.Prelude.{◌≡◌, [], ◌∷◌, ◌++◌, OnOk, OnErr, IfOk};

use std::alloc::Global;
use std::marker::Model;
use wf_text::NoMemory;

/// Parts of one node, in the order in which they stand in the text.
#[derive(Drop)]
pub struct CList<T> {
    items: Vec<T>,
}

impl<T> Model for CList<T> {
    ghost use Rattle.std.specs.Prelude.{List};

    ghost Value = { List T };

    ghost view = { λ list. list.items.items };
}

impl<T: Drop> CList<T> {
    /// The empty list; nothing is allocated.
    pub fn new(alloc: Global) -> CList<T>
        ensures { result ≡ [] }
    {
        CList {
            items: Vec::new(alloc),
        }
    }

    /// A list of these parts.
    pub fn from_slice(alloc: Global, parts: &[T]) -> Result<CList<T>, NoMemory>
    where
        T: Copy,
        ensures { IfOk result (λ list. list ≡ parts.now) }
    {
        let items = Vec::from_slice(alloc, parts)?;
        Ok(CList { items })
    }

    /// Adds a part at the end. After `NoMemory` the list is as before.
    pub fn push(&mut self, part: T) -> Result<(), NoMemory>
        ensures ok { OnOk result (self.new ≡ self.old ++ part ∷ []) }
        ensures err { OnErr result (self.new ≡ self.old) }
    {
        self.items.push(part)?;
        Ok(())
    }

    /// The parts, in order.
    pub fn as_slice(&self) -> &[T]
        ensures { result.now ≡ self.now }
    {
        self.items.as_slice()
    }
}

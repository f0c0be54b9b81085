// The list of the numbers that a number of a graph goes to, which contracts see as the list of its numbers.

ghost use Rattle.std.specs.Prelude.{◌≡◌, ◌++◌, ℕ, List, [], ◌∷◌, OnOk, OnErr};

use std::alloc::Global;
use std::marker::Model;
use wf_text::faults::NoMemory;

/// The numbers that a number goes to, in order, each as often as it does.
#[derive(Drop)]
pub struct Row {
    numbers: Vec<usize>,
}

impl Model for Row {
    ghost Value = { List ℕ };

    ghost view = { λ row. row.numbers.items };
}

impl Row {
    /// A row of a number that goes nowhere.
    pub fn new(alloc: Global) -> Row
        ensures { result ≡ [] }
    {
        Row {
            numbers: Vec::new(alloc),
        }
    }

    /// Adds a number at the end. On `Err` the row stays as it was.
    pub fn push(&mut self, number: usize) -> Result<(), NoMemory>
        ensures ok { OnOk result (self.new ≡ self.old ++ number ∷ []) }
        ensures err { OnErr result (self.new ≡ self.old) }
    {
        self.numbers.push(number)?;
        Ok(())
    }

    /// The numbers in order.
    pub fn as_slice(&self) -> &[usize]
        ensures { result.now ≡ self.now }
    {
        self.numbers.as_slice()
    }
}

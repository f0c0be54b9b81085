// A unit of the unit form, with the numbers of what it declares.

ghost use Rattle.std.specs.Prelude.{◌≡◌, length, IfOk};

use c_form::Formed;
use c_form_exprs::Front;
use c_step_load_exprs::Numbers;
use c_text::Unit;
use std::alloc::Global;
use std::marker::Model;
use wf_text::NoMemory;

/// A unit that has the unit form for a package, with the numbers of its strings, functions and fields.
#[derive(Drop)]
pub struct Numbered<'u> {
    formed: Formed<'u>,
    numbers: Numbers<'u>,
}

impl<'u> Model for Numbered<'u> {
    ghost use Rattle.std.specs.Prelude.{◌≡◌};
    ghost use Rattle.c_text.specs.CNodes.{Nodes};

    ghost Value = { Nodes };

    ghost view = { λ it. it.formed };

    ghost invariant = { λ it. it.numbers ≡ it.formed };
}

impl<'u> Numbered<'u> {
    /// Numbers what the unit declares. `NoMemory` where memory was refused.
    pub fn new(alloc: Global, formed: Formed<'u>) -> Result<Numbered<'u>, NoMemory>
        ensures { IfOk result (λ it. it ≡ formed.entry) }
    {
        let numbers = Numbers::new(alloc, formed.unit())?;
        Ok(Numbered { formed, numbers })
    }

    /// The unit of the unit form.
    pub fn formed(&self) -> &Formed<'u>
        ensures { result.now ≡ self.now }
    {
        &self.formed
    }

    /// The unit.
    pub fn unit(&self) -> &Unit
        ensures { result.now ≡ self.now }
    {
        self.formed.unit()
    }

    /// What all its items declare.
    pub(crate) fn front(&self) -> &Front<'u>
        ensures { result.now ≡ record { nodes = self.now; count = length self.now.items } }
    {
        self.formed.front()
    }

    /// The numbers of what they declare.
    pub fn numbers(&self) -> &Numbers<'u>
        ensures { result.now ≡ self.now }
    {
        &self.numbers
    }
}

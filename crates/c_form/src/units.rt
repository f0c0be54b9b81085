// A unit that has the unit form, with what all its items declare.

ghost use Rattle.std.specs.Prelude.{◌≡◌, length};
ghost use Rattle.wf_text.specs.Surface.{Surface};
ghost use Rattle.c_text.specs.CNodes.{unit_tree};
ghost use Rattle.c_meaning.specs.UnitForm.{HasUnitForm};

use c_form_exprs::Front;
use c_text::Unit;
use std::marker::Model;

/// A unit that has the unit form for a package, with what its items declare.
#[derive(Drop)]
pub struct Formed<'u> {
    front: Front<'u>,
}

impl<'u> Model for Formed<'u> {
    ghost use Rattle.std.specs.Prelude.{◌≡◌, length};
    ghost use Rattle.c_text.specs.CNodes.{Nodes, unit_tree};
    ghost use Rattle.wf_text.specs.Surface.{Surface};
    ghost use Rattle.c_meaning.specs.UnitForm.{HasUnitForm};

    ghost Value = { Nodes };

    ghost view = { λ it. it.front.nodes };

    ghost invariant = { λ it. (it.front.count ≡ length it.front.nodes.items) × ((p : Surface) × HasUnitForm p (unit_tree it.front.nodes)) };
}

impl<'u> Formed<'u> {
    /// Takes what all items of a unit declare that has the unit form for a package.
    pub(crate) fn new(front: Front<'u>) -> Formed<'u>
        requires all { front.count ≡ length front.nodes.items }
        requires form { (p : Surface) × HasUnitForm p (unit_tree front.nodes) }
        ensures { result ≡ front.entry.nodes }
    {
        Formed { front }
    }

    /// The unit.
    pub fn unit(&self) -> &'u Unit
        ensures { result.now ≡ self.now }
    {
        self.front.unit()
    }

    /// What all items of the unit declare.
    pub fn front(&self) -> &Front<'u>
        ensures { result.now ≡ record { nodes = self.now; count = length self.now.items } }
    {
        &self.front
    }

    /// What is formed has the unit form for a package.
    pub fn is_formed(&self)
        ensures { (p : Surface) × HasUnitForm p (unit_tree self.now) }
    {
        let _ = &self.front;
    }
}

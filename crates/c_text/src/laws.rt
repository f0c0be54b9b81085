// Laws of the definitions, as contracts of functions that do nothing.

ghost use Rattle.c_text.specs.CNodes.{unit_tree};
ghost use Rattle.c_text.specs.CLayout.{text_of};
ghost use Rattle.c_text.specs.CGrammar.{IsTextOf};

use crate::unit::Unit;

/// What is printed for a unit is a text of the C grammar, and of the unit's own tree.
pub fn printed_is_a_text(u: &Unit)
    ensures { IsTextOf (text_of (unit_tree u.now)) (unit_tree u.now) }
{
    u.is_lawful();
}

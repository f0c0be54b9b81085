// What the unit form says of a text's names, for a loader.

ghost use Rattle.c_text.specs.CNodes.{unit_tree};
ghost use Rattle.c_meaning.specs.CCall.{program_of};
ghost use Rattle.c_step_load_exprs.specs.Knowing.{AreAlike};
ghost use Rattle.c_step_program.specs.Programs.{AreApart};

use c_form::Formed;

/// In a unit that has the unit form a name is found from the last item on as from the first one on, and no function has
/// another one's name.
pub fn names_are_alike(formed: &Formed<'_>)
    ensures alike { AreAlike (unit_tree formed.now) }
    ensures apart { AreApart (program_of (unit_tree formed.now)).functions }
{
    formed.is_formed();
}

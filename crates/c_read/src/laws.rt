// The laws of reading. Each is the contract of a function that does nothing.

ghost use Rattle.std.specs.Prelude.{List, ℕ, Result};
ghost use Rattle.c_text.specs.CGrammar.{IsTextOf, unit_tokens};
ghost use Rattle.c_text.specs.CLayout.{text_of};
ghost use Rattle.c_text.specs.CNodes.{Nodes, unit_tree};
ghost use Rattle.c_text.specs.CTree.{ItemTree};
ghost use Rattle.c_read_grammar.specs.Outcomes.{IsShallow};
ghost use Rattle.c_read.specs.Reading.{AnswersRead, GivesTree};
ghost use Rattle.c_read.specs.declared.faults.ReadFault.{ReadFault};

use c_text::{Unit, printed_is_a_text};

/// Where no more than 512 brackets are open, every text is read, and to its tree, unless memory is refused.
pub fn every_text_is_read_back()
    ensures { (bytes : List ℕ) (tree : List ItemTree) (answer : Result Nodes ReadFault) → IsTextOf bytes tree → IsShallow 0 (unit_tokens tree) → AnswersRead bytes answer → GivesTree tree answer }
{}

/// The same of what is printed for a unit.
pub fn what_is_printed_is_read_back(u: &Unit)
    ensures { (answer : Result Nodes ReadFault) → IsShallow 0 (unit_tokens (unit_tree u.now)) → AnswersRead (text_of (unit_tree u.now)) answer → GivesTree (unit_tree u.now) answer }
{
    printed_is_a_text(u);
}

// The names in `var` as nodes: the checker of bounds begins a method with what its locals begin as, and says so of the local
// at its name.

ghost use Rattle.std.specs.Prelude.{length, OnOk};
ghost use Rattle.wf_named.specs.NamedParts.{named_package};
ghost use Rattle.wf_typed_tree.specs.Entries.{local_entries};
ghost use Rattle.wf_typed_exprs.specs.Growth.{AddsEntries};
ghost use Rattle.wf_typed_stmts.specs.Right.{known_in};
ghost use Rattle.wf_typed_stmts.specs.StmtGrowth.{GrowsExprs, IsBegun};
ghost use Rattle.wf_types.specs.Locals.{places_named, AreRightPaths, HaveNodes};

use wf_ast::LocalId;
use wf_named::{NamedPath, NamedVar, Variable};
use wf_text::faults::NoMemory;
use wf_typed_stmts::BodyBuilding;
use wf_types_exprs::Here;

// How many numbers there are for locals.
const NUMBERS: usize = 4294967296;

/// Adds a node for each local of a method, in order: its path, at the place of its name. `Err` also comes where no number
/// is left.
pub(crate) fn elaborate_locals(
    here: &Here<'_>,
    nodes: &mut BodyBuilding,
    locals: &[NamedVar],
) -> Result<(), NoMemory>
    requires begun { IsBegun here.now.nodes.now nodes.old }
    requires right { AreRightPaths here.now.around.now (known_in (named_package here.now.nodes.now)).statuses (places_named locals.now) }
    ensures grows { OnOk result (GrowsExprs nodes.old nodes.new) }
    ensures entries { OnOk result (AddsEntries nodes.old nodes.new (local_entries here.now.around.now 0 (places_named locals.now))) }
    ensures begun { OnOk result (IsBegun here.now.nodes.now nodes.new) }
    ensures stand { OnOk result (HaveNodes here.now.around.now nodes.new (length nodes.old.exprs) (places_named locals.now)) }
{
    for number in 0..locals.len() {
        if number >= NUMBERS {
            return Err(NoMemory);
        }
        let path = NamedPath {
            of: Variable::Local(LocalId(number as u32)),
            at: locals[number].name.at,
        };
        nodes.push_path(here, path)?;
    }
    Ok(())
}

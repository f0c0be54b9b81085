// What is written to.

ghost use Rattle.std.specs.Prelude.{◌≡◌, length, IfOk, OnOk};
ghost use Rattle.wf_named.specs.NamedParts.{exprs_of, named_package, NamedTargetBelow};
ghost use Rattle.wf_named.specs.NamedTrees.{target_at};
ghost use Rattle.wf_types_rules.specs.Judgements.{target_meaning};
ghost use Rattle.wf_typed_tree.specs.Entries.{target_entries};
ghost use Rattle.wf_typed_exprs.specs.Growth.{AddsEntries};
ghost use Rattle.wf_typed_stmts.specs.Parts.{StandsForTarget};
ghost use Rattle.wf_typed_stmts.specs.Right.{known_in, IsRightTarget};
ghost use Rattle.wf_typed_stmts.specs.StmtGrowth.{IsBegun, GrowsExprs};

use crate::building::BodyBuilding;
use wf_named::NamedTarget;
use wf_text::faults::NoMemory;
use wf_typed_exprs::Elaborated;
use wf_types_exprs::Here;

/// Adds the nodes of a target, and tells what it means.
pub(crate) fn add_target(
    here: &Here<'_>,
    nodes: &mut BodyBuilding,
    target: NamedTarget,
) -> Result<Elaborated, NoMemory>
    requires below { NamedTargetBelow (length here.now.nodes.now.exprs) target }
    requires begun { IsBegun here.now.nodes.now nodes.old }
    requires right { IsRightTarget here.now.around.now (known_in (named_package here.now.nodes.now)) (target_at (exprs_of here.now.nodes.now) target) }
    ensures grows { OnOk result (GrowsExprs nodes.old nodes.new) }
    ensures entries { OnOk result (AddsEntries nodes.old nodes.new (target_entries here.now.around.now (target_at (exprs_of here.now.nodes.now) target))) }
    ensures begun { OnOk result (IsBegun here.now.nodes.now nodes.new) }
    ensures stands { IfOk result (λ r. StandsForTarget here.now.around.now (target_at (exprs_of here.now.nodes.now) target) nodes.new r.node) }
    ensures means { IfOk result (λ r. r.value.of ≡ target_meaning here.now.around.now (target_at (exprs_of here.now.nodes.now) target)) }
{
    match target {
        NamedTarget::Path(path) => nodes.push_path(here, path),
        NamedTarget::Element { base, index, at } => { nodes.push_element(here, base, index, at) }
    }
}

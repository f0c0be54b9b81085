// Calls that are whole statements, or whole right sides.

ghost use Rattle.std.specs.Prelude.{◌≡◌, ◌<◌, true, length, IfOk, OnOk};
ghost use Rattle.wf_ast.specs.TypedTrees.{tree_of, optional_target};
ghost use Rattle.wf_ast.specs.TypedInvariant.{is_optional_expr};
ghost use Rattle.wf_named.specs.NamedParts.{exprs_of, named_package, ArgsBelow};
ghost use Rattle.wf_named.specs.NamedTrees.{expr_at, args_at, call_at};
ghost use Rattle.wf_typed_tree.specs.ElaboratedExprs.{expr_tree};
ghost use Rattle.wf_typed_tree.specs.ElaboratedStmts.{call_tree};
ghost use Rattle.wf_typed_tree.specs.Entries.{handed_entries, arg_entries, callee_entries, call_entries};
ghost use Rattle.wf_typed_exprs.specs.Growth.{AddsEntries};
ghost use Rattle.wf_typed_stmts.specs.Parts.{HasTree, StandForArgs, StandsForCallee, MakesSimple};
ghost use Rattle.wf_typed_stmts.specs.Right.{known_in, IsRightArg, AreRightArgs, IsRightCallee, IsRightCall};
ghost use Rattle.wf_typed_stmts.specs.StmtGrowth.{IsBegun, GrowsExprs};

use crate::building::BodyBuilding;
use wf_ast::{Callee, ExprId, Sequence, Stmt, StmtNode};
use wf_base::Mark;
use wf_named::{NamedCall, NamedCallee};
use wf_text::Place;
use wf_text::faults::NoMemory;
use wf_types_exprs::Here;
use wf_types_exprs::reading::as_path;

// Adds the nodes of an argument. A reader or writer is handed on by its path.
fn add_arg(here: &Here<'_>, nodes: &mut BodyBuilding, e: ExprId) -> Result<ExprId, NoMemory>
    requires there { e.0 < length here.now.nodes.now.exprs }
    requires begun { IsBegun here.now.nodes.now nodes.old }
    requires right { IsRightArg here.now.around.now (known_in (named_package here.now.nodes.now)) (expr_at (exprs_of here.now.nodes.now) e) }
    ensures grows { OnOk result (GrowsExprs nodes.old nodes.new) }
    ensures entries { OnOk result (AddsEntries nodes.old nodes.new (handed_entries here.now.around.now (expr_at (exprs_of here.now.nodes.now) e))) }
    ensures begun { OnOk result (IsBegun here.now.nodes.now nodes.new) }
    ensures made { IfOk result (λ r. HasTree (expr_tree here.now.around.now (expr_at (exprs_of here.now.nodes.now) e)) nodes.new r) }
{
    match as_path(here.nodes, e) {
        Some(path) => {
            let made = nodes.push_path(here, path)?;
            Ok(made.node)
        }
        None => {
            let made = nodes.push_value(here, e)?;
            Ok(made.node)
        }
    }
}

// Adds the nodes of a call's arguments, in order.
fn add_args(
    here: &Here<'_>,
    nodes: &mut BodyBuilding,
    args: &[ExprId],
) -> Result<Sequence<ExprId>, NoMemory>
    requires below { ArgsBelow (length here.now.nodes.now.exprs) args.now }
    requires begun { IsBegun here.now.nodes.now nodes.old }
    requires right { AreRightArgs here.now.around.now (known_in (named_package here.now.nodes.now)) (args_at (exprs_of here.now.nodes.now) args.now) }
    ensures grows { OnOk result (GrowsExprs nodes.old nodes.new) }
    ensures entries { OnOk result (AddsEntries nodes.old nodes.new (arg_entries here.now.around.now (args_at (exprs_of here.now.nodes.now) args.now))) }
    ensures begun { OnOk result (IsBegun here.now.nodes.now nodes.new) }
    ensures made { IfOk result (λ r. StandForArgs here.now.around.now (args_at (exprs_of here.now.nodes.now) args.now) nodes.new r) }
{
    let mut made = Sequence::new(here.alloc);
    for arg in args {
        let e = add_arg(here, nodes, *arg)?;
        made.push(e)?;
    }
    Ok(made)
}

// Adds the node of what a base method is called on.
fn add_callee(
    here: &Here<'_>,
    nodes: &mut BodyBuilding,
    callee: NamedCallee,
    mark: Mark,
) -> Result<Callee, NoMemory>
    requires begun { IsBegun here.now.nodes.now nodes.old }
    requires right { IsRightCallee here.now.around.now (known_in (named_package here.now.nodes.now)) callee mark }
    ensures grows { OnOk result (GrowsExprs nodes.old nodes.new) }
    ensures entries { OnOk result (AddsEntries nodes.old nodes.new (callee_entries here.now.around.now callee)) }
    ensures begun { OnOk result (IsBegun here.now.nodes.now nodes.new) }
    ensures made { IfOk result (λ c. StandsForCallee here.now.around.now callee mark nodes.new c) }
{
    match callee {
        NamedCallee::Own(method) => Ok(Callee::Own(method)),
        NamedCallee::Sub { field, method } => Ok(Callee::Sub { field, method }),
        NamedCallee::Base { on, sig } => {
            let made = nodes.push_path(here, on)?;
            Ok(Callee::Base { on: made.node, sig })
        }
    }
}

/// Adds the nodes of a call's parts, and answers the call. `target` is what it assigns to, if anything, and `keep` tells
/// whether the target takes whatever status it comes to; `at` is the statement's place.
pub(crate) fn add_call(
    here: &Here<'_>,
    nodes: &mut BodyBuilding,
    target: Option<ExprId>,
    keep: bool,
    call: &NamedCall,
    at: Place,
) -> Result<StmtNode, NoMemory>
    requires target { is_optional_expr nodes.old target ≡ true }
    requires below { ArgsBelow (length here.now.nodes.now.exprs) call.now.args }
    requires begun { IsBegun here.now.nodes.now nodes.old }
    requires right { IsRightCall here.now.around.now (known_in (named_package here.now.nodes.now)) (call_at (exprs_of here.now.nodes.now) call.now) }
    ensures grows { OnOk result (GrowsExprs nodes.old nodes.new) }
    ensures entries { OnOk result (AddsEntries nodes.old nodes.new (call_entries here.now.around.now (call_at (exprs_of here.now.nodes.now) call.now))) }
    ensures begun { OnOk result (IsBegun here.now.nodes.now nodes.new) }
    ensures made { IfOk result (λ n. MakesSimple (call_tree here.now.around.now (optional_target (tree_of nodes.old) target) keep (call_at (exprs_of here.now.nodes.now) call.now)) at nodes.new n) }
{
    let callee = add_callee(here, nodes, call.callee, call.mark)?;
    let args = add_args(here, nodes, call.args.as_slice())?;
    Ok(StmtNode {
        stmt: Stmt::Call {
            target,
            keep,
            callee,
            args,
        },
        at,
        inner: call.at,
    })
}

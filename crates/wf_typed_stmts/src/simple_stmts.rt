// Statements without a block, other than assignments.

ghost use Rattle.std.specs.Prelude.{◌≡◌, ◌<◌, true, false, length, nat_lt, IfOk, OnOk, ◌++◌};
ghost use Rattle.wf_ast.specs.ParsedParts.{IsBelow};
ghost use Rattle.wf_ast.specs.TypedTree as typed;
ghost use Rattle.wf_ast.specs.TypedTrees.{cond_in};
ghost use Rattle.wf_named.specs.NamedParts.{exprs_of, named_package, ArgsBelow, AxiomBelow};
ghost use Rattle.wf_named.specs.NamedTrees.{expr_at, part_at, call_at, via_at};
ghost use Rattle.wf_typed_tree.specs.ElaboratedExprs.{expr_tree};
ghost use Rattle.wf_typed_tree.specs.ElaboratedStmts.{call_tree, returned_tree, status_in, axiom_tree, loop_meant};
ghost use Rattle.wf_typed_exprs.specs.Right.{IsRight, IsRightEnd};
ghost use Rattle.wf_typed_tree.specs.Entries.{expr_entries, end_entries, call_entries, via_entries};
ghost use Rattle.wf_typed_exprs.specs.Growth.{AddsEntries};
ghost use Rattle.wf_typed_stmts.specs.Parts.{StandsForPart, MakesSimple};
ghost use Rattle.wf_typed_stmts.specs.Right.{known_in, IsRightCall, IsRightVia};
ghost use Rattle.wf_typed_stmts.specs.StmtGrowth.{IsBegun, GrowsExprs};

use crate::building::BodyBuilding;
use crate::calls::add_call;
use crate::heads::{add_tree, add_via};
use wf_ast::parsed::Via;
use wf_ast::{ExprId, Stmt, StmtId, StmtNode};
use wf_named::{NamedCall, NamedExpr, NamedNodes};
use wf_text::faults::NoMemory;
use wf_text::{Place, StatusId};
use wf_types_exprs::Here;

/// Adds the nodes of a call that is a whole statement.
pub(crate) fn add_do_call(
    here: &Here<'_>,
    nodes: &mut BodyBuilding,
    call: &NamedCall,
    at: Place,
) -> Result<StmtNode, NoMemory>
    requires args { ArgsBelow (length here.now.nodes.now.exprs) call.now.args }
    requires begun { IsBegun here.now.nodes.now nodes.old }
    requires right { IsRightCall here.now.around.now (known_in (named_package here.now.nodes.now)) (call_at (exprs_of here.now.nodes.now) call.now) }
    ensures grows { OnOk result (GrowsExprs nodes.old nodes.new) }
    ensures entries { OnOk result (AddsEntries nodes.old nodes.new (call_entries here.now.around.now (call_at (exprs_of here.now.nodes.now) call.now))) }
    ensures begun { OnOk result (IsBegun here.now.nodes.now nodes.new) }
    ensures made { IfOk result (λ n. MakesSimple (call_tree here.now.around.now typed.to_nothing false (call_at (exprs_of here.now.nodes.now) call.now)) at nodes.new n) }
{
    let node = add_call(here, nodes, None, false, call, at)?;
    Ok(node)
}

/// The number of the loop that stands so many loops outwards. `loops` are those of the loops round a jump, the innermost
/// first.
pub(crate) fn loop_number(loops: &[u32], outwards: u32) -> StmtId
    requires { nat_lt outwards (length loops.now) ≡ true }
    ensures { result.0 ≡ loop_meant loops.now outwards }
{
    match loops.get(outwards as usize) {
        Some(number) => StmtId(*number),
        None => StmtId(0),
    }
}

// Adds the nodes of an expression that may be absent.
fn add_part(
    here: &Here<'_>,
    nodes: &mut BodyBuilding,
    part: Option<ExprId>,
) -> Result<Option<ExprId>, NoMemory>
    requires below { IsBelow (length here.now.nodes.now.exprs) part }
    requires begun { IsBegun here.now.nodes.now nodes.old }
    requires right { IsRightEnd here.now.around.now (known_in (named_package here.now.nodes.now)).statuses (part_at (exprs_of here.now.nodes.now) part) }
    ensures grows { OnOk result (GrowsExprs nodes.old nodes.new) }
    ensures entries { OnOk result (AddsEntries nodes.old nodes.new (end_entries here.now.around.now (part_at (exprs_of here.now.nodes.now) part))) }
    ensures begun { OnOk result (IsBegun here.now.nodes.now nodes.new) }
    ensures made { IfOk result (λ r. StandsForPart here.now.around.now (part_at (exprs_of here.now.nodes.now) part) nodes.new r) }
{
    match part {
        Some(e) => {
            let made = add_tree(here, nodes, e)?;
            Ok(Some(made))
        }
        None => Ok(None),
    }
}

/// Adds the nodes of what a `return` gives.
pub(crate) fn add_return(
    here: &Here<'_>,
    nodes: &mut BodyBuilding,
    value: Option<ExprId>,
    at: Place,
) -> Result<StmtNode, NoMemory>
    requires below { IsBelow (length here.now.nodes.now.exprs) value }
    requires begun { IsBegun here.now.nodes.now nodes.old }
    requires right { IsRightEnd here.now.around.now (known_in (named_package here.now.nodes.now)).statuses (part_at (exprs_of here.now.nodes.now) value) }
    ensures grows { OnOk result (GrowsExprs nodes.old nodes.new) }
    ensures entries { OnOk result (AddsEntries nodes.old nodes.new (end_entries here.now.around.now (part_at (exprs_of here.now.nodes.now) value))) }
    ensures begun { OnOk result (IsBegun here.now.nodes.now nodes.new) }
    ensures made { IfOk result (λ n. MakesSimple (typed.give_back (returned_tree here.now.around.now (part_at (exprs_of here.now.nodes.now) value))) at nodes.new n) }
{
    let value = add_part(here, nodes, value)?;
    Ok(StmtNode {
        stmt: Stmt::Return(value),
        at,
        inner: at,
    })
}

// The status that an expression is.
fn status_of(named: &NamedNodes, e: ExprId) -> StatusId
    requires { e.0 < length named.now.exprs }
    ensures { result.0 ≡ status_in (expr_at (exprs_of named.now) e) }
{
    let node = named.expr(e);
    match &node.expr {
        NamedExpr::Status(status) => *status,
        NamedExpr::Call(_) => StatusId(0),
        NamedExpr::Path(_) => StatusId(0),
        NamedExpr::Number(_) => StatusId(0),
        NamedExpr::Truth(_) => StatusId(0),
        NamedExpr::Index { .. } => StatusId(0),
        NamedExpr::Slice { .. } => StatusId(0),
        NamedExpr::Chain { .. } => StatusId(0),
        NamedExpr::Convert { .. } => StatusId(0),
        NamedExpr::Not(_) => StatusId(0),
    }
}

/// A `yield?`, which has no parts.
pub(crate) fn yield_node(nodes: &BodyBuilding, named: &NamedNodes, e: ExprId, at: Place) -> StmtNode
    requires there { e.0 < length named.now.exprs }
    requires begun { IsBegun named.now nodes.now }
    requires right { nat_lt (status_in (expr_at (exprs_of named.now) e)) (known_in (named_package named.now)).statuses ≡ true }
    ensures made { MakesSimple (typed.yield (status_in (expr_at (exprs_of named.now) e))) at nodes.now result }
{
    StmtNode {
        stmt: Stmt::Yield(status_of(named, e)),
        at,
        inner: at,
    }
}

/// Adds the nodes of an `assert`'s parts.
pub(crate) fn add_claim(
    here: &Here<'_>,
    nodes: &mut BodyBuilding,
    goal: ExprId,
    via: &Option<Via>,
    at: Place,
) -> Result<StmtNode, NoMemory>
    requires there { goal.0 < length here.now.nodes.now.exprs }
    requires below { AxiomBelow (length here.now.nodes.now.texts) (length here.now.nodes.now.exprs) via.now }
    requires begun { IsBegun here.now.nodes.now nodes.old }
    requires right { IsRight here.now.around.now (known_in (named_package here.now.nodes.now)).statuses (expr_at (exprs_of here.now.nodes.now) goal) }
    requires via_right { IsRightVia here.now.around.now (known_in (named_package here.now.nodes.now)) (via_at here.now.nodes.now.texts (exprs_of here.now.nodes.now) via.now) }
    ensures grows { OnOk result (GrowsExprs nodes.old nodes.new) }
    ensures entries { OnOk result (AddsEntries nodes.old nodes.new (expr_entries here.now.around.now (expr_at (exprs_of here.now.nodes.now) goal) ++ via_entries here.now.around.now (via_at here.now.nodes.now.texts (exprs_of here.now.nodes.now) via.now))) }
    ensures begun { OnOk result (IsBegun here.now.nodes.now nodes.new) }
    ensures made { IfOk result (λ n. MakesSimple (typed.claim (cond_in (expr_tree here.now.around.now (expr_at (exprs_of here.now.nodes.now) goal))) (axiom_tree here.now.around.now (via_at here.now.nodes.now.texts (exprs_of here.now.nodes.now) via.now))) at nodes.new n) }
{
    let goal = add_tree(here, nodes, goal)?;
    let axiom = add_via(here, nodes, via)?;
    Ok(StmtNode {
        stmt: Stmt::Assert { goal, axiom },
        at,
        inner: at,
    })
}

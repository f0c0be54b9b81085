// Assignments: `=`, operators with `=`, and `=?`.

ghost use Rattle.std.specs.Prelude.{◌≡◌, ◌<◌, true, None, Some, length, IfOk, OnOk, ◌++◌, ◌∷◌, []};
ghost use Rattle.wf_named.specs.NamedParts.{exprs_of, named_package, ArgsBelow, NamedTargetBelow};
ghost use Rattle.wf_named.specs.NamedTrees.{expr_at, call_at, target_at};
ghost use Rattle.wf_ast.specs.TypedTree as typed;
ghost use Rattle.wf_ast.specs.TypedTrees.{target_of, tree_of};
ghost use Rattle.wf_ast.specs.TypedInvariant.{is_expr};
ghost use Rattle.wf_typed_tree.specs.ElaboratedExprs.{expr_tree};
ghost use Rattle.wf_typed_tree.specs.ElaboratedStmts.{target_tree, call_tree, assign_tree};
ghost use Rattle.wf_typed_tree.specs.Entries.{expr_entries, target_entries, call_entries, assigned_entries, update_entry, assign_entries};
ghost use Rattle.wf_typed_exprs.specs.Growth.{AddsEntries};
ghost use Rattle.wf_typed_stmts.specs.Parts.{value_assigned, MakesSimple};
ghost use Rattle.wf_typed_stmts.specs.Right.{known_in, is_answer as is_pure_answer, IsRightCall, IsRightValue, IsRightTarget, IsRightUpdate, IsRightSide};
ghost use Rattle.wf_typed_stmts.specs.StmtGrowth.{IsBegun, GrowsExprs};
ghost use Rattle.wf_typed_exprs.specs.Right.{IsRight};

use crate::building::{BodyBuilding, Operator};
use crate::calls::add_call;
use crate::targets::add_target;
use wf_ast::{ExprId, Op, Stmt, StmtNode};
use wf_named::{NamedCall, NamedCallee, NamedTarget};
use wf_text::Place;
use wf_text::faults::NoMemory;
use wf_typed_exprs::forms::{type_meant, unrefined};
use wf_types_exprs::Here;
use wf_types_meanings::marks::is_pure;
use wf_types_stmts::assignments::as_call;

/// An assignment as it is written. `sign` is the place of the `=` with what stands before it, and `at` that of the
/// statement.
#[derive(Clone, Copy)]
pub(crate) struct Assignment {
    pub target: NamedTarget,
    pub op: Option<Op>,
    pub sign: Place,
    pub value: ExprId,
    pub at: Place,
}

// Whether a call asks a pure base method.
fn is_answer(callee: NamedCallee) -> bool
    ensures { result ≡ is_pure_answer callee }
{
    match callee {
        NamedCallee::Own(_) => false,
        NamedCallee::Sub { .. } => false,
        NamedCallee::Base { sig, .. } => is_pure(sig.mark()),
    }
}

// Adds the nodes of an expression that is assigned to a target whose node is there.
fn add_assigned(
    here: &Here<'_>,
    nodes: &mut BodyBuilding,
    target: ExprId,
    e: ExprId,
    at: Place,
) -> Result<StmtNode, NoMemory>
    requires there { e.0 < length here.now.nodes.now.exprs }
    requires target { is_expr nodes.old target ≡ true }
    requires begun { IsBegun here.now.nodes.now nodes.old }
    requires right { IsRight here.now.around.now (known_in (named_package here.now.nodes.now)).statuses (expr_at (exprs_of here.now.nodes.now) e) }
    ensures grows { OnOk result (GrowsExprs nodes.old nodes.new) }
    ensures entries { OnOk result (AddsEntries nodes.old nodes.new (expr_entries here.now.around.now (expr_at (exprs_of here.now.nodes.now) e))) }
    ensures begun { OnOk result (IsBegun here.now.nodes.now nodes.new) }
    ensures made { IfOk result (λ n. MakesSimple (typed.assign (target_of (tree_of nodes.old target)) None (expr_tree here.now.around.now (expr_at (exprs_of here.now.nodes.now) e))) at nodes.new n) }
{
    let made = nodes.push_value(here, e)?;
    Ok(StmtNode {
        stmt: Stmt::Assign {
            target,
            op: None,
            value: made.node,
        },
        at,
        inner: at,
    })
}

// Adds the nodes of the right side of `=` after a target whose node is there.
fn add_right(
    here: &Here<'_>,
    nodes: &mut BodyBuilding,
    target: ExprId,
    e: ExprId,
    at: Place,
) -> Result<StmtNode, NoMemory>
    requires there { e.0 < length here.now.nodes.now.exprs }
    requires target { is_expr nodes.old target ≡ true }
    requires begun { IsBegun here.now.nodes.now nodes.old }
    requires right { IsRightValue here.now.around.now (known_in (named_package here.now.nodes.now)) (expr_at (exprs_of here.now.nodes.now) e) }
    ensures grows { OnOk result (GrowsExprs nodes.old nodes.new) }
    ensures entries { OnOk result (AddsEntries nodes.old nodes.new (assigned_entries here.now.around.now (expr_at (exprs_of here.now.nodes.now) e))) }
    ensures begun { OnOk result (IsBegun here.now.nodes.now nodes.new) }
    ensures made { IfOk result (λ n. MakesSimple (value_assigned here.now.around.now (target_of (tree_of nodes.old target)) (expr_at (exprs_of here.now.nodes.now) e)) at nodes.new n) }
{
    match as_call(here.nodes, e) {
        Some(call) => {
            if is_answer(call.callee) {
                add_assigned(here, nodes, target, e, at)
            } else {
                add_call(here, nodes, Some(target), false, call, at)
            }
        }
        None => add_assigned(here, nodes, target, e, at),
    }
}

// `=`.
fn add_equal(
    here: &Here<'_>,
    nodes: &mut BodyBuilding,
    target: NamedTarget,
    e: ExprId,
    at: Place,
) -> Result<StmtNode, NoMemory>
    requires below { NamedTargetBelow (length here.now.nodes.now.exprs) target }
    requires there { e.0 < length here.now.nodes.now.exprs }
    requires begun { IsBegun here.now.nodes.now nodes.old }
    requires target_right { IsRightTarget here.now.around.now (known_in (named_package here.now.nodes.now)) (target_at (exprs_of here.now.nodes.now) target) }
    requires right { IsRightValue here.now.around.now (known_in (named_package here.now.nodes.now)) (expr_at (exprs_of here.now.nodes.now) e) }
    ensures grows { OnOk result (GrowsExprs nodes.old nodes.new) }
    ensures entries { OnOk result (AddsEntries nodes.old nodes.new (target_entries here.now.around.now (target_at (exprs_of here.now.nodes.now) target) ++ assigned_entries here.now.around.now (expr_at (exprs_of here.now.nodes.now) e))) }
    ensures begun { OnOk result (IsBegun here.now.nodes.now nodes.new) }
    ensures made { IfOk result (λ n. MakesSimple (value_assigned here.now.around.now (target_tree here.now.around.now (target_at (exprs_of here.now.nodes.now) target)) (expr_at (exprs_of here.now.nodes.now) e)) at nodes.new n) }
{
    let to = add_target(here, nodes, target)?;
    add_right(here, nodes, to.node, e, at)
}

// An operator with `=`: its node stands between the target's and the value's.
fn add_update(
    here: &Here<'_>,
    nodes: &mut BodyBuilding,
    it: Assignment,
    op: Op,
) -> Result<StmtNode, NoMemory>
    requires below { NamedTargetBelow (length here.now.nodes.now.exprs) it.target }
    requires there { it.value.0 < length here.now.nodes.now.exprs }
    requires begun { IsBegun here.now.nodes.now nodes.old }
    requires target_right { IsRightTarget here.now.around.now (known_in (named_package here.now.nodes.now)) (target_at (exprs_of here.now.nodes.now) it.target) }
    requires right { IsRightUpdate here.now.around.now (known_in (named_package here.now.nodes.now)) (target_at (exprs_of here.now.nodes.now) it.target) op (expr_at (exprs_of here.now.nodes.now) it.value) }
    ensures grows { OnOk result (GrowsExprs nodes.old nodes.new) }
    ensures entries { OnOk result (AddsEntries nodes.old nodes.new (target_entries here.now.around.now (target_at (exprs_of here.now.nodes.now) it.target) ++ (expr_entries here.now.around.now (expr_at (exprs_of here.now.nodes.now) it.value) ++ update_entry here.now.around.now (target_at (exprs_of here.now.nodes.now) it.target) it.sign ∷ []))) }
    ensures begun { OnOk result (IsBegun here.now.nodes.now nodes.new) }
    ensures made { IfOk result (λ n. MakesSimple (assign_tree here.now.around.now (target_at (exprs_of here.now.nodes.now) it.target) (Some op) it.sign (expr_at (exprs_of here.now.nodes.now) it.value)) it.at nodes.new n) }
{
    let to = add_target(here, nodes, it.target)?;
    let value = nodes.push_value(here, it.value)?;
    let ty = unrefined(type_meant(to.value.of));
    let by = Operator {
        op,
        sign: it.sign,
        ty,
    };
    let whole = nodes.push_operator(here, by, to.node, value.node)?;
    Ok(StmtNode {
        stmt: Stmt::Assign {
            target: to.node,
            op: Some(op),
            value: whole,
        },
        at: it.at,
        inner: it.at,
    })
}

/// Adds the nodes of an assignment's parts, with or without an operator, and answers it.
pub(crate) fn add_assign(
    here: &Here<'_>,
    nodes: &mut BodyBuilding,
    it: Assignment,
) -> Result<StmtNode, NoMemory>
    requires below { NamedTargetBelow (length here.now.nodes.now.exprs) it.target }
    requires there { it.value.0 < length here.now.nodes.now.exprs }
    requires begun { IsBegun here.now.nodes.now nodes.old }
    requires target_right { IsRightTarget here.now.around.now (known_in (named_package here.now.nodes.now)) (target_at (exprs_of here.now.nodes.now) it.target) }
    requires right { IsRightSide here.now.around.now (known_in (named_package here.now.nodes.now)) (target_at (exprs_of here.now.nodes.now) it.target) it.op (expr_at (exprs_of here.now.nodes.now) it.value) }
    ensures grows { OnOk result (GrowsExprs nodes.old nodes.new) }
    ensures entries { OnOk result (AddsEntries nodes.old nodes.new (assign_entries here.now.around.now (target_at (exprs_of here.now.nodes.now) it.target) it.op it.sign (expr_at (exprs_of here.now.nodes.now) it.value))) }
    ensures begun { OnOk result (IsBegun here.now.nodes.now nodes.new) }
    ensures made { IfOk result (λ n. MakesSimple (assign_tree here.now.around.now (target_at (exprs_of here.now.nodes.now) it.target) it.op it.sign (expr_at (exprs_of here.now.nodes.now) it.value)) it.at nodes.new n) }
{
    match it.op {
        Some(op) => add_update(here, nodes, it, op),
        None => add_equal(here, nodes, it.target, it.value, it.at),
    }
}

/// Adds the nodes of what stands round `=?`, and answers the call.
pub(crate) fn add_keep(
    here: &Here<'_>,
    nodes: &mut BodyBuilding,
    target: NamedTarget,
    call: &NamedCall,
    at: Place,
) -> Result<StmtNode, NoMemory>
    requires below { NamedTargetBelow (length here.now.nodes.now.exprs) target }
    requires args { ArgsBelow (length here.now.nodes.now.exprs) call.now.args }
    requires begun { IsBegun here.now.nodes.now nodes.old }
    requires target_right { IsRightTarget here.now.around.now (known_in (named_package here.now.nodes.now)) (target_at (exprs_of here.now.nodes.now) target) }
    requires right { IsRightCall here.now.around.now (known_in (named_package here.now.nodes.now)) (call_at (exprs_of here.now.nodes.now) call.now) }
    ensures grows { OnOk result (GrowsExprs nodes.old nodes.new) }
    ensures entries { OnOk result (AddsEntries nodes.old nodes.new (target_entries here.now.around.now (target_at (exprs_of here.now.nodes.now) target) ++ call_entries here.now.around.now (call_at (exprs_of here.now.nodes.now) call.now))) }
    ensures begun { OnOk result (IsBegun here.now.nodes.now nodes.new) }
    ensures made { IfOk result (λ n. MakesSimple (call_tree here.now.around.now (target_tree here.now.around.now (target_at (exprs_of here.now.nodes.now) target)) true (call_at (exprs_of here.now.nodes.now) call.now)) at nodes.new n) }
{
    let to = add_target(here, nodes, target)?;
    add_call(here, nodes, Some(to.node), true, call, at)
}

// Parts of statements: what is written to, promises of loops, and the loops that jumps mean.

ghost use Rattle.std.specs.Prelude.{◌≡◌, ◌<◌, length, IfOk, OnOk};
ghost use Rattle.std.specs.List.{AllByRecursion};
ghost use Rattle.wf_ast.specs.ParsedTrees.{expr_trees, expr_at as parsed_expr_at, call_at as parsed_call_at, target_at as parsed_target_at, clauses_at as parsed_clauses_at};
ghost use Rattle.wf_ast.specs.ParsedParts.{GivenBelow, TargetBelow};
ghost use Rattle.wf_named.specs.NamedParts.{exprs_of, ArgsBelow, NamedTargetBelow};
ghost use Rattle.wf_named.specs.NamedTrees.{expr_at, call_at, target_at, clauses_at};
ghost use Rattle.wf_names_resolve.specs.Standing.{standing_here};
ghost use Rattle.wf_names_resolve.specs.Resolved.{resolved_expr, resolved_call, resolved_target, resolved_clauses, is_label as has_label, loops_behind, outwards as outwards_by_labels};
ghost use Rattle.wf_names_resolve.specs.Growth.{Grows};

use crate::parts::path;
use crate::resolve_exprs::{resolve_call, resolve_expr};
use std::alloc::Global;
use wf_ast::parsed::{Call, LoopClause, Name, Target};
use wf_ast::{ExprId, Sequence};
use wf_named::{NamedCall, NamedNodes, NamedTarget};
use wf_names_rules::here::Here;
use wf_text::faults::NoMemory;

// How many numbers there are.
const NUMBERS: usize = 4294967296;

fn is_label(text: u32, label: &Option<Name>) -> bool
    ensures { result ≡ has_label text label.now }
{
    match label {
        Some(name) => name.text.0 == text,
        None => false,
    }
}

fn count_behind(labels: &[Option<Name>], text: u32) -> usize
    ensures { result ≡ loops_behind text 0 labels.now }
{
    let mut count = 0;
    for label in labels {
        if is_label(text, label) {
            count = 0;
        } else {
            count += 1;
        }
    }
    count
}

/// The loop that a jump means, by how many loops stand between it and the jump; `labels` are those of the loops round
/// it, the outermost first. `Err` where there is no number for it.
pub(crate) fn outwards(labels: &[Option<Name>], label: Option<Name>) -> Result<u32, NoMemory>
    ensures { IfOk result (λ n. n ≡ outwards_by_labels labels.now label) }
{
    match label {
        Some(name) => {
            let count = count_behind(labels, name.text.0);
            if count < NUMBERS {
                Ok(count as u32)
            } else {
                Err(NoMemory)
            }
        }
        None => Ok(0),
    }
}

/// Adds the nodes of what is written to, and answers it.
pub(crate) fn resolve_target(
    alloc: Global,
    nodes: &mut NamedNodes,
    here: &Here<'_>,
    target: Target,
) -> Result<NamedTarget, NoMemory>
    requires { TargetBelow (length here.now.parsed.now.exprs) target }
    ensures grows { OnOk result (Grows nodes.old nodes.new) }
    ensures below { IfOk result (λ r. NamedTargetBelow (length nodes.new.exprs) r) }
    ensures made { IfOk result (λ r. target_at (exprs_of nodes.new) r ≡ resolved_target (standing_here here.now) (parsed_target_at (expr_trees here.now.parsed.now.exprs) target)) }
{
    match target {
        Target::Path(of) => Ok(NamedTarget::Path(path(here.tables, here.scope, of))),
        Target::Element { base, index, at } => {
            let array = path(here.tables, here.scope, base);
            let index = resolve_expr(alloc, nodes, here, index)?;
            Ok(NamedTarget::Element {
                base: array,
                index,
                at,
            })
        }
    }
}

/// Adds the nodes of a loop's promises, and answers these in their order.
pub(crate) fn resolve_clauses(
    alloc: Global,
    nodes: &mut NamedNodes,
    here: &Here<'_>,
    clauses: &[LoopClause],
) -> Result<Sequence<LoopClause>, NoMemory>
    requires { AllByRecursion (λ c. c.condition.0 < length here.now.parsed.now.exprs) clauses.now }
    ensures grows { OnOk result (Grows nodes.old nodes.new) }
    ensures below { IfOk result (λ r. AllByRecursion (λ c. c.condition.0 < length nodes.new.exprs) r) }
    ensures made { IfOk result (λ r. clauses_at (exprs_of nodes.new) r ≡ resolved_clauses (standing_here here.now) (parsed_clauses_at (expr_trees here.now.parsed.now.exprs) clauses.now)) }
{
    let mut made = Sequence::new(alloc);
    for clause in clauses {
        let condition = resolve_expr(alloc, nodes, here, clause.condition)?;
        made.push(LoopClause {
            kind: clause.kind,
            condition,
            at: clause.at,
        })?;
    }
    Ok(made)
}

/// Adds the nodes of what is written to and of a value, and answers both.
pub(crate) fn resolve_assign(
    alloc: Global,
    nodes: &mut NamedNodes,
    here: &Here<'_>,
    target: Target,
    value: ExprId,
) -> Result<(NamedTarget, ExprId), NoMemory>
    requires target { TargetBelow (length here.now.parsed.now.exprs) target }
    requires value { value.0 < length here.now.parsed.now.exprs }
    ensures grows { OnOk result (Grows nodes.old nodes.new) }
    ensures below { IfOk result (λ r. NamedTargetBelow (length nodes.new.exprs) r.0 × (r.1.0 < length nodes.new.exprs)) }
    ensures target { IfOk result (λ r. target_at (exprs_of nodes.new) r.0 ≡ resolved_target (standing_here here.now) (parsed_target_at (expr_trees here.now.parsed.now.exprs) target)) }
    ensures value { IfOk result (λ r. expr_at (exprs_of nodes.new) r.1 ≡ resolved_expr (standing_here here.now) (parsed_expr_at (expr_trees here.now.parsed.now.exprs) value)) }
{
    let target = resolve_target(alloc, nodes, here, target)?;
    let value = resolve_expr(alloc, nodes, here, value)?;
    Ok((target, value))
}

/// Adds the nodes of what is written to and of a call's arguments, and answers both.
pub(crate) fn resolve_keep(
    alloc: Global,
    nodes: &mut NamedNodes,
    here: &Here<'_>,
    target: Target,
    call: &Call,
) -> Result<(NamedTarget, NamedCall), NoMemory>
    requires target { TargetBelow (length here.now.parsed.now.exprs) target }
    requires call { GivenBelow (length here.now.parsed.now.exprs) call.now.args }
    ensures grows { OnOk result (Grows nodes.old nodes.new) }
    ensures below { IfOk result (λ r. NamedTargetBelow (length nodes.new.exprs) r.0 × ArgsBelow (length nodes.new.exprs) r.1.args) }
    ensures target { IfOk result (λ r. target_at (exprs_of nodes.new) r.0 ≡ resolved_target (standing_here here.now) (parsed_target_at (expr_trees here.now.parsed.now.exprs) target)) }
    ensures call { IfOk result (λ r. call_at (exprs_of nodes.new) r.1 ≡ resolved_call (standing_here here.now) (parsed_call_at (expr_trees here.now.parsed.now.exprs) call.now)) }
{
    let target = resolve_target(alloc, nodes, here, target)?;
    let call = resolve_call(alloc, nodes, here, call)?;
    Ok((target, call))
}

/// Adds the nodes of a loop's condition and of its promises, and answers both.
pub(crate) fn resolve_head(
    alloc: Global,
    nodes: &mut NamedNodes,
    here: &Here<'_>,
    condition: ExprId,
    clauses: &[LoopClause],
) -> Result<(ExprId, Sequence<LoopClause>), NoMemory>
    requires condition { condition.0 < length here.now.parsed.now.exprs }
    requires clauses { AllByRecursion (λ c. c.condition.0 < length here.now.parsed.now.exprs) clauses.now }
    ensures grows { OnOk result (Grows nodes.old nodes.new) }
    ensures below { IfOk result (λ r. (r.0.0 < length nodes.new.exprs) × AllByRecursion (λ c. c.condition.0 < length nodes.new.exprs) r.1) }
    ensures condition { IfOk result (λ r. expr_at (exprs_of nodes.new) r.0 ≡ resolved_expr (standing_here here.now) (parsed_expr_at (expr_trees here.now.parsed.now.exprs) condition)) }
    ensures clauses { IfOk result (λ r. clauses_at (exprs_of nodes.new) r.1 ≡ resolved_clauses (standing_here here.now) (parsed_clauses_at (expr_trees here.now.parsed.now.exprs) clauses.now)) }
{
    let condition = resolve_expr(alloc, nodes, here, condition)?;
    let clauses = resolve_clauses(alloc, nodes, here, clauses)?;
    Ok((condition, clauses))
}

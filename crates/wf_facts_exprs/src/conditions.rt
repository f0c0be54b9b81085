// The demands of conditions and of values of every kind, and which conditions a list of facts gives.

ghost use Rattle.std.specs.Prelude.{◌≡◌, ◌<◌, map, false, nat_lt, IsTrue, None};
ghost use Rattle.std.specs.List.{list_all};
ghost use Rattle.wf_ast.specs.TypedTrees.{chain_of, place_of_node, signs_of_node, operator_kind, tree_of, type_of_node};
ghost use Rattle.wf_ast.specs.TypedInvariant.{chain_fits, is_expr};
ghost use Rattle.wf_ast.specs.NodeKinds.{is_condition_at, is_number_at, node_cond, node_number};
ghost use Rattle.wf_ast.specs.OperatorForms.{is_joining};
ghost use Rattle.wf_facts_exprs.specs.Knowledge.{IsKnown, told};
ghost use Rattle.wf_facts_exprs.specs.Claims.{claims_in};
ghost use Rattle.wf_facts_exprs.specs.Demands.{cond_refusal, num_refusal, or_else, unless_refused, value_refusal};
ghost use Rattle.wf_facts_exprs.specs.Operands.{conds_refusal, is_condition_below};

use crate::judging::{judge, judge_slice};
use crate::known::Known;
use crate::operands::{is_number, joins};
use crate::shapes::look_at;
use wf_ast::{Expr, ExprId, Op, Ty, Typed};
use wf_text::Refusal;

/// Whether the value of an expression has all that it demands under these facts, so that it isn't stuck. Err tells the
/// first demand that isn't met, operands first and from the left: a value outside its width or the operand of `as` outside
/// the new one (B1), an index not below the length (B2), slice ends out of order or past the length (B3), a shift by the
/// width or more (B4), a divisor that may be 0 (B5), or a peek without its bytes (B9), at the operator's sign, at the `[`
/// or at the method's name. It takes no memory, and recurses as deep as brackets nest.
pub fn check_value(t: &Typed, facts: &Known, e: ExprId) -> Result<(), Refusal>
    requires known { IsKnown t.now facts.now }
    requires node { IsTrue (is_expr t.now e) }
    ensures { result ≡ unless_refused (value_refusal (claims_in t.now (told facts.now)) (tree_of t.now e)) tt }
{
    let _expr = t.expr(e);
    match t.type_of(e) {
        Ty::Num { .. } => check_number(t, facts, e),
        Ty::Flag => check_condition(t, facts, e),
        Ty::Slice(_) => judge_slice(t, facts, e),
        Ty::Array { .. } => judge_slice(t, facts, e),
        Ty::Status => Ok(()),
        Ty::Reader => Ok(()),
        Ty::Writer => Ok(()),
        Ty::Part(_) => Ok(()),
    }
}

// The demands of a number; a constant and a variable have none.
fn check_number(t: &Typed, facts: &Known, e: ExprId) -> Result<(), Refusal>
    requires known { IsKnown t.now facts.now }
    requires node { IsTrue (is_number_at t.now e) }
    ensures { result ≡ unless_refused (num_refusal (claims_in t.now (told facts.now)) false (node_number t.now e)) tt }
{
    let expr = t.expr(e);
    match t.constant(e) {
        Some(_) => Ok(()),
        None => match expr {
            Expr::Local(_) | Expr::Field(_) | Expr::Arg(_) => Ok(()),
            _ => check_judged(t, facts, e),
        },
    }
}

fn check_judged(t: &Typed, facts: &Known, e: ExprId) -> Result<(), Refusal>
    requires known { IsKnown t.now facts.now }
    requires node { IsTrue (is_number_at t.now e) }
    ensures { result ≡ unless_refused (num_refusal (claims_in t.now (told facts.now)) false (node_number t.now e)) tt }
{
    judge(t, facts, e)?;
    Ok(())
}

// Those of a condition.
#[cycle(conditions)]
fn check_condition(t: &Typed, facts: &Known, e: ExprId) -> Result<(), Refusal>
    requires known { IsKnown t.now facts.now }
    requires node { IsTrue (is_condition_at t.now e) }
    ensures { result ≡ unless_refused (cond_refusal (claims_in t.now (told facts.now)) (node_cond t.now e)) tt }
{
    let expr = t.expr(e);
    match t.constant(e) {
        Some(_) => unreachable!(),
        None => match expr {
            Expr::Chain { op, parts } => check_chain(t, facts, e, *op, parts.as_slice()),
            Expr::Not(of) => check_condition(t, facts, *of),
            Expr::Truth(_) => Ok(()),
            Expr::Local(_) => Ok(()),
            Expr::Field(_) => Ok(()),
            Expr::Arg(_) => Ok(()),
            Expr::Base { .. } => Ok(()),
            Expr::Number(_) | Expr::Const(_) | Expr::Status(_) => unreachable!(),
            Expr::Index { .. } | Expr::Cut { .. } | Expr::Convert { .. } => unreachable!(),
        },
    }
}

#[cycle(conditions)]
fn check_chain(t: &Typed, facts: &Known, e: ExprId, op: Op, parts: &[ExprId]) -> Result<(), Refusal>
    requires known { IsKnown t.now facts.now }
    requires node { IsTrue (is_condition_at t.now e) }
    requires tree { tree_of t.now e ≡ chain_of (place_of_node t.now e.0) (signs_of_node t.now e.0) (type_of_node t.now e.0) (operator_kind op) (map (tree_of t.now) parts.now) }
    requires fits { IsTrue (chain_fits t.now (operator_kind op) parts.now (type_of_node t.now e.0)) }
    requires below { IsTrue (list_all (λ p. nat_lt p.0 e.0) parts.now) }
    ensures { result ≡ unless_refused (cond_refusal (claims_in t.now (told facts.now)) (node_cond t.now e)) tt }
{
    if joins(op) {
        check_all(t, facts, e, parts)
    } else {
        check_operands(t, facts, e, op, parts)
    }
}

// The operands of a comparison: numbers, or statuses, which demand nothing.
fn check_operands(
    t: &Typed,
    facts: &Known,
    e: ExprId,
    op: Op,
    parts: &[ExprId],
) -> Result<(), Refusal>
    requires known { IsKnown t.now facts.now }
    requires node { IsTrue (is_condition_at t.now e) }
    requires tree { tree_of t.now e ≡ chain_of (place_of_node t.now e.0) (signs_of_node t.now e.0) (type_of_node t.now e.0) (operator_kind op) (map (tree_of t.now) parts.now) }
    requires fits { IsTrue (chain_fits t.now (operator_kind op) parts.now (type_of_node t.now e.0)) }
    requires below { IsTrue (list_all (λ p. nat_lt p.0 e.0) parts.now) }
    requires compares { is_joining (operator_kind op) ≡ false }
    ensures { result ≡ unless_refused (cond_refusal (claims_in t.now (told facts.now)) (node_cond t.now e)) tt }
{
    look_at(t, parts[0]);
    if is_number(t, parts[0]) {
        check_pair(t, facts, parts[0], parts[1])
    } else {
        Ok(())
    }
}

// Two numbers, in order.
fn check_pair(t: &Typed, facts: &Known, a: ExprId, b: ExprId) -> Result<(), Refusal>
    requires known { IsKnown t.now facts.now }
    requires left { IsTrue (is_number_at t.now a) }
    requires right { IsTrue (is_number_at t.now b) }
    ensures { result ≡ unless_refused (or_else (num_refusal (claims_in t.now (told facts.now)) false (node_number t.now a)) (num_refusal (claims_in t.now (told facts.now)) false (node_number t.now b))) tt }
{
    check_number(t, facts, a)?;
    check_number(t, facts, b)
}

// Conditions, in order.
#[cycle(conditions)]
fn check_all(t: &Typed, facts: &Known, e: ExprId, parts: &[ExprId]) -> Result<(), Refusal>
    requires known { IsKnown t.now facts.now }
    requires parts { IsTrue (list_all (is_condition_below t.now e) parts.now) }
    ensures { result ≡ unless_refused (conds_refusal (claims_in t.now (told facts.now)) t.now parts.now) tt }
{
    for i in 0..parts.len() {
        check_condition(t, facts, parts[i])?;
    }
    Ok(())
}

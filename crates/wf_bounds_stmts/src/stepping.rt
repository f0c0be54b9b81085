// Assignments with an operator: a variable takes what is known of it along by a constant.

ghost use Rattle.std.specs.Prelude.{◌≡◌, List, map, Some, true, IsTrue};
ghost use Rattle.std.specs.List.{list_all};
ghost use Rattle.wf_text.specs.declared.place.Place.{Place};
ghost use Rattle.wf_ast.specs.declared.types.Ty.{Ty};
ghost use Rattle.wf_ast.specs.TypedTree.{Arith};
ghost use Rattle.wf_ast.specs.TypedTrees.{chain_of, num_in, operator_kind, target_of, tree_of};
ghost use Rattle.wf_ast.specs.TypedInvariant.{chain_fits, is_expr, is_numeric};
ghost use Rattle.wf_ast.specs.Same.{same_num};
ghost use Rattle.wf_ast.specs.NodeKinds.{is_number_at, node_number};
ghost use Rattle.wf_facts_exprs.specs.Claims.{claims_in};
ghost use Rattle.wf_facts.specs.Forms.{number_in};
ghost use Rattle.wf_facts.specs.IndexedFacts.{IsNamedInSets, IsOver};
ghost use Rattle.wf_bounds_stmts.specs.Targets.{assign_refusal, assigned, step_of, stepped, written_by};
ghost use Rattle.wf_bounds_stmts.specs.Nodes.{is_read, step_by_sort, step_in, step_of_two};
ghost use Rattle.wf_bounds_stmts.specs.Outcomes.{MayBeDropped, Settles};

use crate::assigning::check_assigned;
use crate::limits::{is_number, look_at};
use crate::targets::{drop_written, number_variable, written};
use wf_ast::{Expr, ExprId, Op, Thing, Typed, same};
use wf_facts::{Change, Facts};
use wf_text::Refusal;

/// An assignment with an operator, whose value is the node of the operator between the target and what stands after the
/// sign. A refusal is the first of what it requires.
pub(crate) fn assign_by(
    t: &Typed,
    facts: &mut Facts,
    target: ExprId,
    value: ExprId,
) -> Result<(), Refusal>
    requires target { IsTrue (is_expr t.now target) }
    requires value { IsTrue (is_expr t.now value) }
    requires few { MayBeDropped (written_by (target_of (tree_of t.now target))) }
    requires over { IsOver t.now facts.old }
    ensures over { IsOver t.now facts.new }
    ensures settles { (op : Arith) → Settles t.now (assign_refusal (claims_in t.now facts.old.list) (target_of (tree_of t.now target)) (tree_of t.now value)) (assigned (claims_in t.now facts.old.list) (target_of (tree_of t.now target)) (Some op) (tree_of t.now value)) result facts.new }
{
    check_assigned(t, &facts.as_known(t), target, value)?;
    let x = written(t, target);
    match number_variable(t.type_of(target), x) {
        Some(x) => step_variable(t, facts, target, x, value),
        None => drop_written(t, facts, x),
    }
    Ok(())
}

// Takes what is known of a variable along, or drops it.
fn step_variable(t: &Typed, facts: &mut Facts, target: ExprId, x: Thing, value: ExprId)
    requires target { is_number_at t.now target ≡ true }
    requires variable { is_read (node_number t.now target) ≡ true }
    requires value { IsTrue (is_expr t.now value) }
    requires few { IsNamedInSets x }
    requires over { IsOver t.now facts.old }
    ensures over { IsOver t.now facts.new }
    ensures claims { claims_in t.now facts.new.list ≡ stepped (claims_in t.now facts.old.list) x (step_in (node_number t.now target) (tree_of t.now value)) }
{
    match step_written(t, target, value) {
        Some(change) => facts.change(t, x, change),
        None => facts.drop_mentions(t, x),
    }
}

// How a variable changes by a value that is written to it with an operator, where that is told.
fn step_written(t: &Typed, target: ExprId, value: ExprId) -> Option<Change>
    requires target { is_number_at t.now target ≡ true }
    requires variable { is_read (node_number t.now target) ≡ true }
    requires value { IsTrue (is_expr t.now value) }
    ensures { result ≡ step_in (node_number t.now target) (tree_of t.now value) }
{
    look_at(t, value);
    if !is_number(t.type_of(value)) {
        return None;
    }
    step(t, target, value)
}

fn step(t: &Typed, target: ExprId, value: ExprId) -> Option<Change>
    requires target { is_number_at t.now target ≡ true }
    requires variable { is_read (node_number t.now target) ≡ true }
    requires value { is_number_at t.now value ≡ true }
    ensures { result ≡ step_of (node_number t.now target) (node_number t.now value) }
{
    let expr = t.expr(value);
    if t.constant(value).is_some() {
        return None;
    }
    match expr {
        Expr::Chain { op, parts } => step_by_chain(t, target, *op, parts.as_slice()),
        _ => None,
    }
}

// The step of an operator between two operands; one between more is no step of a variable.
fn step_by_chain(t: &Typed, target: ExprId, op: Op, parts: &[ExprId]) -> Option<Change>
    requires target { is_number_at t.now target ≡ true }
    requires variable { is_read (node_number t.now target) ≡ true }
    requires numbers { IsTrue (list_all (is_number_at t.now) parts.now) }
    ensures { (at : Place) (signs : List Place) (ty : Ty) → is_numeric ty ≡ true → chain_fits t.now (operator_kind op) parts.now ty ≡ true → result ≡ step_of (node_number t.now target) (num_in (chain_of at signs ty (operator_kind op) (map (tree_of t.now) parts.now))) }
{
    match parts {
        [a, b] => step_by_two(t, target, op, *a, *b),
        _ => None,
    }
}

fn step_by_two(t: &Typed, target: ExprId, op: Op, a: ExprId, b: ExprId) -> Option<Change>
    requires target { is_number_at t.now target ≡ true }
    requires left { is_number_at t.now a ≡ true }
    requires right { is_number_at t.now b ≡ true }
    ensures { result ≡ step_of_two (node_number t.now target) (operator_kind op) (node_number t.now a) (number_in (node_number t.now b)) }
{
    let k = number(t, b)?;
    if same_number(t, target, a) {
        step_by(op, k)
    } else {
        None
    }
}

fn same_number(t: &Typed, a: ExprId, b: ExprId) -> bool
    requires first { is_number_at t.now a ≡ true }
    requires second { is_number_at t.now b ≡ true }
    ensures { result ≡ same_num (node_number t.now a) (node_number t.now b) }
{
    look_at(t, a);
    look_at(t, b);
    same(t, a, b)
}

fn step_by(op: Op, k: u64) -> Option<Change>
    ensures { result ≡ step_by_sort (operator_kind op) k }
{
    match op {
        Op::Add => Some(Change::Raised(k)),
        Op::Sub => Some(Change::Lowered(k)),
        Op::Mul | Op::BitAnd | Op::BitOr | Op::BitXor | Op::And | Op::Or | Op::Div => None,
        Op::Rem | Op::Shl | Op::Shr | Op::Same | Op::Differs | Op::Less => None,
        Op::LessOrSame | Op::Greater | Op::GreaterOrSame | Op::ModAdd | Op::ModSub => None,
        Op::ModMul | Op::ModShl | Op::SatAdd | Op::SatSub => None,
    }
}

/// The number of a constant expression.
pub(crate) fn number(t: &Typed, e: ExprId) -> Option<u64>
    requires { is_number_at t.now e ≡ true }
    ensures { result ≡ number_in (node_number t.now e) }
{
    let _node = t.expr(e);
    t.constant(e)
}

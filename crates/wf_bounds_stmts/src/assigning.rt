// Assignments.

ghost use Rattle.std.specs.Prelude.{◌≡◌, IsTrue, None, true};
ghost use Rattle.wf_ast.specs.TypedTrees.{target_of, tree_of, type_of_node};
ghost use Rattle.wf_ast.specs.TypedInvariant.{is_expr};
ghost use Rattle.wf_ast.specs.NodeKinds.{is_number_at, node_number};
ghost use Rattle.wf_facts_exprs.specs.Knowledge.{IsKnown, told};
ghost use Rattle.wf_facts_exprs.specs.Claims.{claims_in};
ghost use Rattle.wf_facts_exprs.specs.Demands.{unless_refused};
ghost use Rattle.wf_facts.specs.IndexedFacts.{IsOver};
ghost use Rattle.wf_bounds_stmts.specs.Targets.{assign_refusal, assigned, known_equal, written_by};
ghost use Rattle.wf_bounds_stmts.specs.Nodes.{known_variable, number_variable as number_variable_in};
ghost use Rattle.wf_bounds_stmts.specs.Outcomes.{Answers, Makes, MayBeDropped};

use crate::limits::{check_range, checked, is_number, look_at};
use crate::targets::{check_target, drop_written, number_variable, taken, written};
use wf_ast::{ExprId, Thing, Typed, mentions};
use wf_facts::{Facts, Full};
use wf_facts_exprs::{Cmp, Fact, Known, Side};
use wf_text::{Place, Refusal, Rule};

/// Checks what an assignment requires.
pub(crate) fn check_assigned(
    t: &Typed,
    facts: &Known,
    target: ExprId,
    value: ExprId,
) -> Result<(), Refusal>
    requires known { IsKnown t.now facts.now }
    requires target { IsTrue (is_expr t.now target) }
    requires value { IsTrue (is_expr t.now value) }
    ensures { result ≡ unless_refused (assign_refusal (claims_in t.now (told facts.now)) (target_of (tree_of t.now target)) (tree_of t.now value)) tt }
{
    let range = checked(t, facts, value)?;
    check_target(t, facts, target)?;
    check_range(t, Rule::B1, taken(t, target), value, range)
}

/// Makes known that a variable has the number that has been written to it, unless that is told by the variable itself.
fn know_equal(
    t: &Typed,
    facts: &mut Facts,
    target: ExprId,
    x: Thing,
    value: ExprId,
) -> Result<(), Full>
    requires target { is_number_at t.now target ≡ true }
    requires value { is_number_at t.now value ≡ true }
    requires over { IsOver t.now facts.old }
    ensures over { IsOver t.now facts.new }
    ensures makes { Makes t.now (known_equal (claims_in t.now facts.old.list) (node_number t.now target) x (node_number t.now value)) result facts.new }
{
    look_at(t, value);
    if mentions(t, value, x) {
        return Ok(());
    }
    facts.push(
        t,
        Fact::Compare {
            left: Side::Expr(target),
            op: Cmp::Eq,
            right: Side::Expr(value),
        },
    )
}

/// Makes known what has been written to a variable that takes a number.
fn know_written(
    t: &Typed,
    facts: &mut Facts,
    target: ExprId,
    x: Option<Thing>,
    value: ExprId,
) -> Result<(), Full>
    requires target { IsTrue (is_expr t.now target) }
    requires value { IsTrue (is_expr t.now value) }
    requires over { IsOver t.now facts.old }
    ensures over { IsOver t.now facts.new }
    ensures makes { Makes t.now (known_variable (number_variable_in (type_of_node t.now target.0) x) (tree_of t.now target) (tree_of t.now value) (claims_in t.now facts.old.list)) result facts.new }
{
    look_at(t, value);
    let of_target = t.type_of(target);
    let of_value = t.type_of(value);
    if !is_number(of_target) {
        return Ok(());
    }
    if !is_number(of_value) {
        return Ok(());
    }
    match number_variable(of_target, x) {
        Some(x) => know_equal(t, facts, target, x, value),
        None => Ok(()),
    }
}

/// An assignment without an operator. A refusal is the first of what it requires, or that of a list which would hold too
/// much, at the statement's first token `at`.
pub(crate) fn assign(
    t: &Typed,
    facts: &mut Facts,
    at: Place,
    target: ExprId,
    value: ExprId,
) -> Result<(), Refusal>
    requires target { IsTrue (is_expr t.now target) }
    requires value { IsTrue (is_expr t.now value) }
    requires few { MayBeDropped (written_by (target_of (tree_of t.now target))) }
    requires over { IsOver t.now facts.old }
    ensures over { IsOver t.now facts.new }
    ensures answers { Answers t.now at (assign_refusal (claims_in t.now facts.old.list) (target_of (tree_of t.now target)) (tree_of t.now value)) (assigned (claims_in t.now facts.old.list) (target_of (tree_of t.now target)) None (tree_of t.now value)) result facts.new }
{
    check_assigned(t, &facts.as_known(t), target, value)?;
    let x = written(t, target);
    drop_written(t, facts, x);
    know_written(t, facts, target, x, value).map_err(|_| Refusal { rule: Rule::L8, at })?;
    facts.keeps_limit();
    Ok(())
}

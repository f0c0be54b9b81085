// Targets: what is written, and what stays known of it.

ghost use Rattle.std.specs.Prelude.{◌≡◌, IsTrue};
ghost use Rattle.wf_ast.specs.TypedTrees.{target_of, tree_of, type_of_node};
ghost use Rattle.wf_ast.specs.TypedInvariant.{is_expr};
ghost use Rattle.wf_facts_exprs.specs.Knowledge.{IsKnown, told};
ghost use Rattle.wf_facts_exprs.specs.Claims.{claims_in};
ghost use Rattle.wf_facts_exprs.specs.Demands.{unless_refused};
ghost use Rattle.wf_facts.specs.IndexedFacts.{IsOver};
ghost use Rattle.wf_bounds_stmts.specs.Requirements.{number_type};
ghost use Rattle.wf_bounds_stmts.specs.Targets.{target_refusal, taken_by, without_some};
ghost use Rattle.wf_bounds_stmts.specs.Nodes.{is_element_thing, node_written, number_variable as number_variable_in, variable_written, Seen};
ghost use Rattle.wf_bounds_stmts.specs.Outcomes.{MayBeDropped};

use wf_ast::{Expr, ExprId, Thing, Ty, Typed};
use wf_facts::Facts;
use wf_facts_exprs::{Known, check_value};
use wf_text::Refusal;

/// What an expression writes where it is a target.
pub(crate) fn written(t: &Typed, target: ExprId) -> Option<Thing>
    requires there { IsTrue (is_expr t.now target) }
    ensures seen { Seen (tree_of t.now target) (type_of_node t.now target.0) result }
{
    let expr = t.expr(target);
    match t.constant(target) {
        Some(_) => None,
        None => written_node(t.type_of(target), expr),
    }
}

fn written_node(ty: Ty, expr: &Expr) -> Option<Thing>
    ensures { result ≡ node_written ty expr.now }
{
    match expr {
        Expr::Index { .. } => Some(Thing::Element),
        Expr::Local(x) => variable(ty, Thing::Local(*x)),
        Expr::Field(x) => variable(ty, Thing::Field(*x)),
        Expr::Arg(x) => variable(ty, Thing::Arg(*x)),
        _ => None,
    }
}

// A variable that may be written as a whole.
fn variable(ty: Ty, x: Thing) -> Option<Thing>
    ensures { result ≡ variable_written ty x }
{
    match ty {
        Ty::Num { .. } | Ty::Flag | Ty::Status | Ty::Slice(_) => Some(x),
        _ => None,
    }
}

fn is_element(x: Option<Thing>) -> bool
    ensures { result ≡ is_element_thing x }
{
    matches!(x, Some(Thing::Element))
}

/// The variable that takes a number, of what is written.
pub(crate) fn number_variable(ty: Ty, x: Option<Thing>) -> Option<Thing>
    ensures { result ≡ number_variable_in ty x }
{
    match ty {
        Ty::Num { .. } => { if is_element(x) { None } else { x } }
        _ => None,
    }
}

/// The type of the numbers that go to a target; one of no numbers where none do.
pub(crate) fn taken(t: &Typed, target: ExprId) -> Ty
    requires there { IsTrue (is_expr t.now target) }
    ensures { number_type result ≡ taken_by (target_of (tree_of t.now target)) }
{
    match written(t, target) {
        Some(_) => t.type_of(target),
        None => Ty::Flag,
    }
}

/// Checks a target's index, which has to be below the length.
pub(crate) fn check_target(t: &Typed, facts: &Known, target: ExprId) -> Result<(), Refusal>
    requires known { IsKnown t.now facts.now }
    requires there { IsTrue (is_expr t.now target) }
    ensures { result ≡ unless_refused (target_refusal (claims_in t.now (told facts.now)) (target_of (tree_of t.now target))) tt }
{
    let x = written(t, target);
    if is_element(x) {
        check_value(t, facts, target)
    } else {
        Ok(())
    }
}

/// Drops what mentions what is written.
pub(crate) fn drop_written(t: &Typed, facts: &mut Facts, x: Option<Thing>)
    requires few { MayBeDropped x }
    requires over { IsOver t.now facts.old }
    ensures over { IsOver t.now facts.new }
    ensures claims { claims_in t.now facts.new.list ≡ without_some x (claims_in t.now facts.old.list) }
{
    match x {
        Some(x) => facts.drop_mentions(t, x),
        None => {}
    }
}

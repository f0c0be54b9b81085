// Conditions, what is given to an axiom, `return` and `yield?`.

ghost use Rattle.std.specs.Prelude.{◌≡◌, ◌<◌, ◌∷◌, ◌++◌, not, length, slice_get, OnOk};
ghost use Rattle.std.specs.List.{AllByRecursion};
ghost use Rattle.wf_ast.specs.ParsedParts.{IsBelow};
ghost use Rattle.wf_ast.specs.WellTyped.{is_suspension};
ghost use Rattle.wf_named.specs.NamedParts.{exprs_of, LettersBelow, AxiomBelow};
ghost use Rattle.wf_named.specs.NamedTrees.{expr_at, part_at, clauses_at, letters_at, via_at};
ghost use Rattle.wf_types_rules.specs.Judgements.{at_if as at_place_if, no_number, no_flag, wrong_result, is_wrong_return as wrong_return_in, outside_coroutine, is_suspension_text};
ghost use Rattle.wf_types_rules.specs.Parts.{letter_value, returned, yielded, end_parts, expr_parts, condition_parts, clauses_parts, letters_parts, via_parts};
ghost use Rattle.wf_types_exprs.specs.Judged.{judged};
ghost use Rattle.wf_types_stmts.specs.Statements.{condition_found, letter_found, return_found, yield_found};

use crate::assignments::{is_no_status, is_not_taken};
use wf_ast::parsed::{Given, LoopClause, Via};
use wf_ast::{ExprId, Sequence, Ty};
use wf_named::{NamedExpr, NamedNodes};
use wf_text::categories::Category;
use wf_text::faults::NoMemory;
use wf_text::found::Found;
use wf_text::rules::Rule;
use wf_text::status_text::category;
use wf_text::{Place, StatusId};
use wf_types_exprs::Here;
use wf_types_exprs::reading::place_of;
use wf_types_exprs::walk::{judge_end, judge_value};
use wf_types_meanings::marks::is_coroutine;
use wf_types_meanings::places::at_if;
use wf_types_operators::meanings::{is_flag, is_number};
use wf_types_rules::{Around, Meaning, PlacedMeaning};

fn wrong_condition(v: PlacedMeaning) -> Option<Place>
    ensures { result ≡ no_flag v }
{
    at_if(!is_flag(v.of?), v.at)
}

fn wrong_letter(v: PlacedMeaning) -> Option<Place>
    ensures { result ≡ no_number v }
{
    at_if(!is_number(v.of?), v.at)
}

/// Tells what a condition breaks.
pub(crate) fn tell_condition(found: &mut Found, v: PlacedMeaning)
    ensures { found.new ≡ condition_found v found.old }
{
    found.tell(Rule::T3, wrong_condition(v));
}

/// Tells what a value breaks that is given for a letter of an axiom.
pub(crate) fn tell_letter(found: &mut Found, v: PlacedMeaning)
    ensures { found.new ≡ letter_found v found.old }
{
    found.tell(Rule::T1, wrong_letter(v));
}

fn is_no_result(gives: Option<Option<Ty>>, of: Option<Meaning>) -> bool
    ensures { result ≡ wrong_result gives of }
{
    match gives {
        Some(ty) => is_not_taken(ty, of),
        None => true,
    }
}

fn is_wrong_return(around: &Around<'_>, value: Option<PlacedMeaning>) -> bool
    ensures { result ≡ wrong_return_in around.now value }
{
    match value {
        Some(v) => {
            if is_coroutine(around.mark()) {
                is_no_status(v.of)
            } else {
                is_no_result(around.gives(), v.of)
            }
        }
        None => is_coroutine(around.mark()) || around.gives().is_some(),
    }
}

fn wrong_return(around: &Around<'_>, value: Option<PlacedMeaning>, at: Place) -> Option<Place>
    ensures { result ≡ at_place_if (wrong_return_in around.now value) at }
{
    at_if(is_wrong_return(around, value), at)
}

/// Tells what a `return` breaks, whose value may be absent.
pub(crate) fn tell_return(
    found: &mut Found,
    around: &Around<'_>,
    value: Option<PlacedMeaning>,
    at: Place,
)
    ensures { found.new ≡ return_found around.now value at found.old }
{
    found.tell(Rule::T4, wrong_return(around, value, at));
}

fn yielded_outside(around: &Around<'_>, at: Place) -> Option<Place>
    ensures { result ≡ outside_coroutine around.now at }
{
    at_if(!is_coroutine(around.mark()), at)
}

fn wrong_yield(suspends: bool, place: Place) -> Option<Place>
    ensures { result ≡ at_place_if (not suspends) place }
{
    at_if(!suspends, place)
}

/// Tells what a `yield?` breaks. `suspends` tells whether a suspension's text stands there, at `place`.
pub(crate) fn tell_yield(
    found: &mut Found,
    around: &Around<'_>,
    suspends: bool,
    place: Place,
    at: Place,
)
    ensures { found.new ≡ yield_found around.now suspends place at found.old }
{
    found.tell(Rule::E2, yielded_outside(around, at));
    found.tell(Rule::E5, wrong_yield(suspends, place));
}

fn is_suspension_at(statuses: &[Sequence<u8>], status: StatusId) -> bool
    ensures { result ≡ is_suspension (slice_get statuses.now status.0) }
{
    match statuses.get(status.0 as usize) {
        Some(text) => matches!(category(text.as_slice()), Category::Suspension),
        None => false,
    }
}

/// Whether an expression is the text of a suspension.
pub(crate) fn suspends(nodes: &NamedNodes, around: &Around<'_>, e: ExprId) -> bool
    requires { e.0 < length nodes.now.exprs }
    ensures { result ≡ is_suspension_text around.now (expr_at (exprs_of nodes.now) e) }
{
    let node = nodes.expr(e);
    match &node.expr {
        NamedExpr::Status(status) => is_suspension_at(around.statuses(), *status),
        NamedExpr::Call(_) => false,
        NamedExpr::Path(_) => false,
        NamedExpr::Number(_) => false,
        NamedExpr::Truth(_) => false,
        NamedExpr::Index { .. } => false,
        NamedExpr::Slice { .. } => false,
        NamedExpr::Chain { .. } => false,
        NamedExpr::Convert { .. } => false,
        NamedExpr::Not(_) => false,
    }
}

/// A condition of `if`, `while`, a clause or `assert`.
pub(crate) fn judge_condition(here: &Here<'_>, found: &mut Found, e: ExprId) -> Result<(), NoMemory>
    requires { e.0 < length here.now.nodes.now.exprs }
    ensures { OnOk result (found.new ≡ judged here.now.around.now found.old (condition_parts (expr_at (exprs_of here.now.nodes.now) e))) }
{
    let v = judge_value(here, found, e)?;
    tell_condition(found, v);
    Ok(())
}

/// The promises of a loop.
pub(crate) fn judge_clauses(
    here: &Here<'_>,
    found: &mut Found,
    clauses: &[LoopClause],
) -> Result<(), NoMemory>
    requires { AllByRecursion (λ c. c.condition.0 < length here.now.nodes.now.exprs) clauses.now }
    ensures { OnOk result (found.new ≡ judged here.now.around.now found.old (clauses_parts (clauses_at (exprs_of here.now.nodes.now) clauses.now))) }
{
    for clause in clauses {
        judge_condition(here, found, clause.condition)?;
    }
    Ok(())
}

fn judge_letter(here: &Here<'_>, found: &mut Found, e: ExprId) -> Result<(), NoMemory>
    requires { e.0 < length here.now.nodes.now.exprs }
    ensures { OnOk result (found.new ≡ judged here.now.around.now found.old (letter_value (expr_at (exprs_of here.now.nodes.now) e) ∷ expr_parts (expr_at (exprs_of here.now.nodes.now) e))) }
{
    let v = judge_value(here, found, e)?;
    tell_letter(found, v);
    Ok(())
}

/// What is given for the letters of an axiom.
pub(crate) fn judge_letters(
    here: &Here<'_>,
    found: &mut Found,
    given: &[Given],
) -> Result<(), NoMemory>
    requires { LettersBelow (length here.now.nodes.now.texts) (length here.now.nodes.now.exprs) given.now }
    ensures { OnOk result (found.new ≡ judged here.now.around.now found.old (letters_parts (letters_at here.now.nodes.now.texts (exprs_of here.now.nodes.now) given.now))) }
{
    for one in given {
        judge_letter(here, found, one.value)?;
    }
    Ok(())
}

/// The axiom of an assertion, if it names one.
pub(crate) fn judge_via(
    here: &Here<'_>,
    found: &mut Found,
    via: &Option<Via>,
) -> Result<(), NoMemory>
    requires { AxiomBelow (length here.now.nodes.now.texts) (length here.now.nodes.now.exprs) via.now }
    ensures { OnOk result (found.new ≡ judged here.now.around.now found.old (via_parts (via_at here.now.nodes.now.texts (exprs_of here.now.nodes.now) via.now))) }
{
    match via {
        Some(via) => judge_letters(here, found, via.given.as_slice()),
        None => Ok(()),
    }
}

/// An assertion: its condition, and what is given to its axiom.
pub(crate) fn judge_claim(
    here: &Here<'_>,
    found: &mut Found,
    goal: ExprId,
    via: &Option<Via>,
) -> Result<(), NoMemory>
    requires goal { goal.0 < length here.now.nodes.now.exprs }
    requires via { AxiomBelow (length here.now.nodes.now.texts) (length here.now.nodes.now.exprs) via.now }
    ensures { OnOk result (found.new ≡ judged here.now.around.now found.old (condition_parts (expr_at (exprs_of here.now.nodes.now) goal) ++ via_parts (via_at here.now.nodes.now.texts (exprs_of here.now.nodes.now) via.now))) }
{
    judge_condition(here, found, goal)?;
    judge_via(here, found, via)
}

/// A `return` at this place.
pub(crate) fn judge_return(
    here: &Here<'_>,
    found: &mut Found,
    value: Option<ExprId>,
    at: Place,
) -> Result<(), NoMemory>
    requires { IsBelow (length here.now.nodes.now.exprs) value }
    ensures { OnOk result (found.new ≡ judged here.now.around.now found.old (returned at (part_at (exprs_of here.now.nodes.now) value) ∷ end_parts (part_at (exprs_of here.now.nodes.now) value))) }
{
    let v = judge_end(here, found, value)?;
    tell_return(found, here.around, v, at);
    Ok(())
}

/// A `yield?` at this place.
pub(crate) fn judge_yield(
    here: &Here<'_>,
    found: &mut Found,
    e: ExprId,
    at: Place,
) -> Result<(), NoMemory>
    requires { e.0 < length here.now.nodes.now.exprs }
    ensures { OnOk result (found.new ≡ judged here.now.around.now found.old (yielded at (expr_at (exprs_of here.now.nodes.now) e) ∷ expr_parts (expr_at (exprs_of here.now.nodes.now) e))) }
{
    judge_value(here, found, e)?;
    let suspension = suspends(here.nodes, here.around, e);
    tell_yield(found, here.around, suspension, place_of(here.nodes, e), at);
    Ok(())
}

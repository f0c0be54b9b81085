// Values that are handed over, each to a type, looked at in written order.

ghost use Rattle.std.specs.Prelude.{◌≡◌, IsTrue, [], ◌∷◌, length, map, option_map};
ghost use Rattle.std.specs.List.{list_all};
ghost use Rattle.wf_text.specs.declared.rules.Rule.TheVariants.{B8};
ghost use Rattle.wf_facts_exprs.specs.Demands.{unless_refused};
ghost use Rattle.wf_bounds_stmts.specs.Calls.{handed_to};
ghost use Rattle.wf_ast.specs.StatementOrder.{stands_before as place_before};
ghost use Rattle.wf_ast.specs.TypedTrees.{tree_of};
ghost use Rattle.wf_ast.specs.TypedInvariant.{is_expr};
ghost use Rattle.wf_facts_exprs.specs.Knowledge.{IsKnown, told};
ghost use Rattle.wf_facts_exprs.specs.Claims.{claims_in};
ghost use Rattle.wf_bounds_stmts.specs.Requirements.{all_handed, handed_refusal, number_type, place_of, placed, written_first as first_written};

use crate::limits::check_lies;
use crate::places::place;
use wf_ast::{ExprId, Ty, Typed, Var};
use wf_facts_exprs::{Known, check_value};
use wf_text::{Place, Refusal, Rule};

/// What is refused of a value that is handed to a type, with the value's place.
pub(crate) fn refused(
    t: &Typed,
    facts: &Known,
    rule: Rule,
    ty: Ty,
    e: ExprId,
) -> Option<(Place, Refusal)>
    requires known { IsKnown t.now facts.now }
    requires there { IsTrue (is_expr t.now e) }
    ensures { result ≡ placed (place_of (tree_of t.now e)) (handed_refusal rule (claims_in t.now (told facts.now)) (number_type ty, tree_of t.now e)) }
{
    match check_value(t, facts, e) {
        Ok(()) => match check_lies(t, facts, rule, ty, e) {
            Ok(()) => None,
            Err(refusal) => Some((place(t, e), refusal)),
        },
        Err(refusal) => Some((place(t, e), refusal)),
    }
}

/// Of two values that may be refused, the one that stands first.
pub(crate) fn written_first(
    a: Option<(Place, Refusal)>,
    b: Option<(Place, Refusal)>,
) -> Option<(Place, Refusal)>
    ensures { result ≡ first_written a b }
{
    match (a, b) {
        (None, other) => other,
        (Some(p), None) => Some(p),
        (Some(p), Some(q)) => {
            if stands_before(q.0, p.0) {
                Some(q)
            } else {
                Some(p)
            }
        }
    }
}

fn stands_before(a: Place, b: Place) -> bool
    ensures { result ≡ place_before a b }
{
    a.file < b.file
        || (a.file == b.file && (a.line < b.line || (a.line == b.line && a.col < b.col)))
}

/// Checks one value that is handed over.
pub(crate) fn check_one(
    t: &Typed,
    facts: &Known,
    rule: Rule,
    ty: Ty,
    e: ExprId,
) -> Result<(), Refusal>
    requires known { IsKnown t.now facts.now }
    requires there { IsTrue (is_expr t.now e) }
    ensures { result ≡ unless_refused (all_handed rule (claims_in t.now (told facts.now)) ((number_type ty, tree_of t.now e) ∷ [])) tt }
{
    found(refused(t, facts, rule, ty, e))
}

/// Checks two values that are handed over.
pub(crate) fn check_two(
    t: &Typed,
    facts: &Known,
    rule: Rule,
    ty: Ty,
    a: ExprId,
    b: ExprId,
) -> Result<(), Refusal>
    requires known { IsKnown t.now facts.now }
    requires first { IsTrue (is_expr t.now a) }
    requires second { IsTrue (is_expr t.now b) }
    ensures { result ≡ unless_refused (all_handed rule (claims_in t.now (told facts.now)) ((number_type ty, tree_of t.now a) ∷ (number_type ty, tree_of t.now b) ∷ [])) tt }
{
    let first = refused(t, facts, rule, ty, a);
    found(written_first(first, refused(t, facts, rule, ty, b)))
}

// The refusal that was found, if one was.
fn found(refusal: Option<(Place, Refusal)>) -> Result<(), Refusal>
    ensures { result ≡ unless_refused (option_map (λ p. p.1) refusal) tt }
{
    match refusal {
        None => Ok(()),
        Some((_, refusal)) => Err(refusal),
    }
}

/// Checks the arguments of a call, each within the type that the method declares.
pub(crate) fn check_arguments(
    t: &Typed,
    facts: &Known,
    taken: &[Var],
    args: &[ExprId],
) -> Result<(), Refusal>
    requires known { IsKnown t.now facts.now }
    requires there { IsTrue (list_all (is_expr t.now) args.now) }
    requires all { length args.now ≡ length taken.now }
    ensures { result ≡ unless_refused (all_handed B8 (claims_in t.now (told facts.now)) (handed_to (map (λ x. x.ty) taken.now) (map (tree_of t.now) args.now))) tt }
{
    let mut first = None;
    for i in 0..args.len() {
        first = written_first(first, refused(t, facts, Rule::B8, taken[i].ty, args[i]));
    }
    found(first)
}

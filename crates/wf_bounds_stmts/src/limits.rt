// Values that have to lie in a type.

ghost use Rattle.std.specs.Prelude.{◌≡◌, ℕ, List, IsTrue, None, Some};
ghost use Rattle.wf_ast.specs.TypedTrees.{tree_of, type_of_node};
ghost use Rattle.wf_ast.specs.TypedInvariant.{is_expr, is_numeric, is_tree_of};
ghost use Rattle.wf_facts_exprs.specs.Knowledge.{IsKnown, told};
ghost use Rattle.wf_facts_exprs.specs.Claims.{Claim, claims_in};
ghost use Rattle.wf_facts_exprs.specs.Demands.{unless_refused, value_refusal};
ghost use Rattle.wf_bounds_stmts.specs.Requirements.{lies_in as range_lies_in, lies_refusal, number_type, range_in};

use crate::places::place;
use wf_ast::{ExprId, Ty, Typed};
use wf_facts_exprs::{Known, check_value, checked_range, range_of};
use wf_num::Range;
use wf_text::{Refusal, Rule};

/// Checks that a number, whose demands are met, lies in a type, if that is one of numbers.
pub(crate) fn check_lies(
    t: &Typed,
    facts: &Known,
    rule: Rule,
    ty: Ty,
    e: ExprId,
) -> Result<(), Refusal>
    requires known { IsKnown t.now facts.now }
    requires there { IsTrue (is_expr t.now e) }
    requires fine { value_refusal (claims_in t.now (told facts.now)) (tree_of t.now e) ≡ None }
    ensures { result ≡ unless_refused (lies_refusal rule (claims_in t.now (told facts.now)) (number_type ty) (tree_of t.now e)) tt }
{
    check_range(t, rule, ty, e, range_where_number(t, facts, e))
}

// The range of a value whose demands are met, if it is a number.
fn range_where_number(t: &Typed, facts: &Known, e: ExprId) -> Option<Range>
    requires known { IsKnown t.now facts.now }
    requires there { IsTrue (is_expr t.now e) }
    requires fine { value_refusal (claims_in t.now (told facts.now)) (tree_of t.now e) ≡ None }
    ensures { result ≡ range_in (claims_in t.now (told facts.now)) (tree_of t.now e) }
{
    look_at(t, e);
    if is_number(t.type_of(e)) {
        Some(range_of(t, facts, e))
    } else {
        None
    }
}

/// Checks what a value requires, and answers its range where it is a number.
pub(crate) fn checked(t: &Typed, facts: &Known, e: ExprId) -> Result<Option<Range>, Refusal>
    requires known { IsKnown t.now facts.now }
    requires there { IsTrue (is_expr t.now e) }
    ensures { result ≡ unless_refused (value_refusal (claims_in t.now (told facts.now)) (tree_of t.now e)) (range_in (claims_in t.now (told facts.now)) (tree_of t.now e)) }
{
    look_at(t, e);
    if is_number(t.type_of(e)) {
        let range = checked_range(t, facts, e)?;
        Ok(Some(range))
    } else {
        check_value(t, facts, e)?;
        Ok(None)
    }
}

/// Checks that a value with this range, if it is a number, lies in a type, if that is one of numbers.
pub(crate) fn check_range(
    t: &Typed,
    rule: Rule,
    ty: Ty,
    e: ExprId,
    range: Option<Range>,
) -> Result<(), Refusal>
    requires there { IsTrue (is_expr t.now e) }
    ensures { (facts : List Claim) → range ≡ range_in facts (tree_of t.now e) → result ≡ unless_refused (lies_refusal rule facts (number_type ty) (tree_of t.now e)) tt }
{
    match range {
        Some(range) => {
            if is_number(ty) {
                check_number(t, rule, ty, e, range)
            } else {
                Ok(())
            }
        }
        None => Ok(()),
    }
}

fn check_number(t: &Typed, rule: Rule, ty: Ty, e: ExprId, range: Range) -> Result<(), Refusal>
    requires there { IsTrue (is_expr t.now e) }
    requires takes { IsTrue (is_numeric ty) }
    ensures { (facts : List Claim) → Some range ≡ range_in facts (tree_of t.now e) → result ≡ unless_refused (lies_refusal rule facts (number_type ty) (tree_of t.now e)) tt }
{
    match ty {
        Ty::Num { lo, hi, .. } => {
            if lies_in(lo, hi, range) {
                Ok(())
            } else {
                Err(Refusal {
                    rule,
                    at: place(t, e),
                })
            }
        }
        _ => unreachable!(),
    }
}

/// Whether a type is one of numbers.
pub(crate) fn is_number(ty: Ty) -> bool
    ensures { result ≡ is_numeric ty }
{
    matches!(ty, Ty::Num { .. })
}

/// An expression's tree is of the kind of its type.
pub(crate) fn look_at(t: &Typed, e: ExprId)
    requires there { IsTrue (is_expr t.now e) }
    ensures { IsTrue (is_tree_of (type_of_node t.now e.0) (tree_of t.now e)) }
{
    let _expr = t.expr(e);
}

// Whether a range has no number outside these bounds.
fn lies_in(lo: u64, hi: u64, r: Range) -> bool
    ensures { (bits : ℕ) → result ≡ range_lies_in (record { bits = bits; low = lo; high = hi }) r }
{
    r.is_empty() || (lo as i128 <= r.lo && r.hi <= hi as u128)
}

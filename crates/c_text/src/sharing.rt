// Expressions without operands that may serve wherever they come again: numbers, names, and members.

ghost use Rattle.std.specs.Prelude.{◌≡◌, true};
ghost use Rattle.c_text.specs.declared.nodes.CExpr.TheVariants as expr;

use crate::ids::{CExprId, CNameId};
use crate::kinds::CNumber;
use crate::nodes::CExpr;

/// Where an expression is looked for, if it may serve again.
#[inline(always)]
pub(crate) fn place_of(e: &CExpr) -> Option<usize> {
    match e {
        CExpr::Number(CNumber::Int(n)) => Some(*n as usize),
        CExpr::Name(name) => Some(name.0.wrapping_add(512)),
        CExpr::Member { field, .. } => Some(field.0),
        _ => None,
    }
}

#[inline(always)]
fn is_number(e: &CExpr, n: CNumber) -> bool
    ensures { result ≡ true → e.now ≡ expr.Number n }
{
    match e {
        CExpr::Number(other) => *other == n,
        _ => false,
    }
}

#[inline(always)]
fn is_name(e: &CExpr, name: CNameId) -> bool
    ensures { result ≡ true → e.now ≡ expr.Name name }
{
    match e {
        CExpr::Name(other) => *other == name,
        _ => false,
    }
}

#[inline(always)]
fn is_member(e: &CExpr, pointer: CExprId, name: CNameId) -> bool
    ensures { result ≡ true → e.now ≡ expr.Member pointer name }
{
    match e {
        CExpr::Member { of, field } => *of == pointer && *field == name,
        _ => false,
    }
}

/// Whether two expressions are one number, one name, or one member.
#[inline(always)]
pub(crate) fn is_same(known: &CExpr, e: &CExpr) -> bool
    ensures { result ≡ true → known.now ≡ e.now }
{
    match e {
        CExpr::Number(n) => is_number(known, *n),
        CExpr::Name(name) => is_name(known, *name),
        CExpr::Member { of, field } => is_member(known, *of, *field),
        _ => false,
    }
}

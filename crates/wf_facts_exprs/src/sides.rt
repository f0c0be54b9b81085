// Whether two sides are one.

ghost use Rattle.std.specs.Prelude.{◌≡◌, false, IsTrue};
ghost use Rattle.wf_facts_exprs.specs.Claims.{is_side, side_in, same_side as same_trees};

use crate::facts::Side;
use crate::shapes::{has_number, same_numbers, same_shapes, shape_of};
use wf_ast::Typed;

/// Whether two sides of comparisons are one, whichever way each is named. It takes no memory.
pub fn same_side(t: &Typed, a: Side, b: Side) -> bool
    requires left { IsTrue (is_side t.now a) }
    requires right { IsTrue (is_side t.now b) }
    ensures { result ≡ same_trees (side_in t.now a) (side_in t.now b) }
{
    if is_named_alike(a, b) {
        return true;
    }
    match (a, b) {
        (Side::Expr(e), Side::Expr(f)) => same_numbers(t, e, f),
        (Side::Expr(e), Side::Num(n)) => has_number(t, e, n as u128),
        _ => are_shaped_alike(t, a, b),
    }
}

// Whether two sides are one by what each of them is.
fn are_shaped_alike(t: &Typed, a: Side, b: Side) -> bool
    requires left { IsTrue (is_side t.now a) }
    requires right { IsTrue (is_side t.now b) }
    ensures { result ≡ same_trees (side_in t.now a) (side_in t.now b) }
{
    same_shapes(t, shape_of(t, a), shape_of(t, b))
}

// Whether two sides are named by the same node or number, as those of a fact that has stayed in two lists are.
fn is_named_alike(a: Side, b: Side) -> bool
    ensures { IsTrue result → a ≡ b }
{
    match (a, b) {
        (Side::Expr(e), Side::Expr(f)) => e == f,
        (Side::Length(e), Side::Length(f)) => e == f,
        (Side::Num(m), Side::Num(n)) => m == n,
        _ => false,
    }
}

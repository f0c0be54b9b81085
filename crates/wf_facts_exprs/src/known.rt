// Facts beside the sets of those with each head.

ghost use Rattle.std.specs.Prelude.{◌≡◌, ◌<◌, IsTrue};
ghost use Rattle.wf_ast.specs.NodeKinds.{is_number_at};
ghost use Rattle.wf_ast.specs.TypedTrees.{num_in, tree_of};
ghost use Rattle.wf_facts_exprs.specs.Claims.{claim_in, is_fact, is_side, side_in, tree_of_side};
ghost use Rattle.wf_facts_exprs.specs.Heads.{claim_head, head_of, head_of_node};
ghost use Rattle.wf_facts_exprs.specs.Shapes.{is_plain, shape_fits, shape_tree};

use crate::facts::{Fact, Side};
use crate::numbered::Sets;
use crate::sets::FactSet;
use crate::shapes::{Shape, shape_of};
use wf_ast::{Expr, ExprId, Typed};

/// At most 512 facts in order, those of them that are gone, and by each of the 256 heads the set of the facts that have it. Known
/// is what the others claim.
#[derive(Clone, Copy)]
pub struct Known<'a> {
    /// The facts.
    pub list: &'a [Fact],
    /// The places of those that are gone.
    pub gone: &'a FactSet,
    /// The sets, by the number of the head.
    pub heads: &'a Sets,
}

/// The head of a fact: by what kind of number its left side is, and of a variable by a part of its number. Facts that claim
/// the same have the same head.
pub fn fact_head(t: &Typed, f: Fact) -> usize
    requires { IsTrue (is_fact t.now f) }
    ensures head { result ≡ claim_head (claim_in t.now f) }
    ensures few { result < 256 }
{
    match f {
        Fact::Compare { left, .. } => side_head(t, left),
        Fact::Cond { .. } => 0,
    }
}

// The head of the facts with this left side.
fn side_head(t: &Typed, side: Side) -> usize
    requires { IsTrue (is_side t.now side) }
    ensures head { result ≡ head_of (tree_of_side (side_in t.now side)) }
    ensures few { result < 256 }
{
    shape_head(t, shape_of(t, side))
}

/// The head of the facts whose left side is what a shape tells.
pub(crate) fn shape_head(t: &Typed, shape: Shape) -> usize
    requires { IsTrue (shape_fits t.now shape) }
    ensures head { result ≡ head_of (shape_tree t.now shape) }
    ensures few { result < 256 }
{
    match shape {
        Shape::Number(_) => 0,
        Shape::Sum(_, _) => 1,
        Shape::Length(_, _) => 3,
        Shape::Other(e) => node_head(t, e),
    }
}

// A numeric expression that is no number, no length and no sum of two.
fn node_head(t: &Typed, e: ExprId) -> usize
    requires node { IsTrue (is_number_at t.now e) }
    requires plain { IsTrue (is_plain (num_in (tree_of t.now e))) }
    ensures head { result ≡ head_of (num_in (tree_of t.now e)) }
    ensures few { result < 256 }
{
    expr_head(t.expr(e))
}

fn expr_head(expr: &Expr) -> usize
    ensures head { result ≡ head_of_node expr.now }
    ensures few { result < 256 }
{
    match expr {
        Expr::Chain { .. } => 1,
        Expr::Index { .. } => 2,
        Expr::Local(x) => 8 + 2 * (x.0 as usize % 124),
        Expr::Field(x) => 9 + 2 * (x.0 as usize % 124),
        Expr::Arg(x) => 4 + x.0 as usize % 4,
        _ => 3,
    }
}

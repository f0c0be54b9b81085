// Which facts mention a thing.

ghost use Rattle.std.specs.Prelude.{◌≡◌, true};
ghost use Rattle.wf_ast.specs.TypedTrees.{tree_of, num_in, cond_in, type_of_node};
ghost use Rattle.wf_ast.specs.Mentions.{num_mentions, cond_mentions};
ghost use Rattle.wf_ast.specs.NodeKinds.{is_number_at, is_condition_at};
ghost use Rattle.wf_facts_exprs.specs.Claims.{claim_in, claim_mentions, side_in, length_in, is_fact, is_side};
ghost use Rattle.wf_facts_exprs.specs.Claims.{side_mentions as tree_side_mentions};
ghost use Rattle.wf_facts_exprs.specs.declared.facts.Side.TheVariants as sides;

use wf_ast::{ExprId, Thing, Typed, mentions};
use wf_facts_exprs::{Fact, Side};

/// Whether a fact mentions a thing.
pub(crate) fn fact_mentions(t: &Typed, f: Fact, x: Thing) -> bool
    requires { is_fact t.now f ≡ true }
    ensures { result ≡ claim_mentions x (claim_in t.now f) }
{
    match f {
        Fact::Compare { left, right, .. } => side_mentions(t, left, x)
            || side_mentions(t, right, x),
        Fact::Cond { expr, .. } => condition_mentions(t, expr, x),
    }
}

// The same of a side.
fn side_mentions(t: &Typed, side: Side, x: Thing) -> bool
    requires { is_side t.now side ≡ true }
    ensures { result ≡ tree_side_mentions x (side_in t.now side) }
{
    match side {
        Side::Expr(e) => number_mentions(t, e, x),
        Side::Sum(a, b) => sum_mentions(t, a, b, x),
        Side::Length(e) => length_mentions(t, e, x),
        Side::Num(_) => false,
    }
}

// The node of an expression tells the kind of its tree.
fn number_mentions(t: &Typed, e: ExprId, x: Thing) -> bool
    requires { is_number_at t.now e ≡ true }
    ensures { result ≡ num_mentions x (num_in (tree_of t.now e)) }
{
    let _node = t.expr(e);
    mentions(t, e, x)
}

fn condition_mentions(t: &Typed, e: ExprId, x: Thing) -> bool
    requires { is_condition_at t.now e ≡ true }
    ensures { result ≡ cond_mentions x (cond_in (tree_of t.now e)) }
{
    let _node = t.expr(e);
    mentions(t, e, x)
}

// The sum of two constants is a number, and mentions nothing.
#[tactic(auto, using(crate::proofs::MentioningLemmas::sum_mentions_is))]
fn sum_mentions(t: &Typed, a: ExprId, b: ExprId, x: Thing) -> bool
    requires { is_side t.now (sides.Sum a b) ≡ true }
    ensures { result ≡ tree_side_mentions x (side_in t.now (sides.Sum a b)) }
{
    number_mentions(t, a, x) || number_mentions(t, b, x)
}

// A length mentions what its operand does.
fn length_mentions(t: &Typed, e: ExprId, x: Thing) -> bool
    requires { is_side t.now (sides.Length e) ≡ true }
    ensures { result ≡ num_mentions x (length_in t.now e (type_of_node t.now e.0) (tree_of t.now e)) }
{
    let _node = t.expr(e);
    mentions(t, e, x)
}

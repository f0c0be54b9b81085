// A fact is put into the sets of the things that it mentions, and into those that its fields share, by one walk over its
// expressions.

ghost use Rattle.std.specs.Prelude.{◌≡◌, ℕ, ◌<◌, ◌&&◌, length, true, nat_eq};
ghost use Rattle.wf_ast.specs.declared.types.Ty.{Ty};
ghost use Rattle.wf_ast.specs.Mentions.{mentions, path_is, num_mentions, cond_mentions};
ghost use Rattle.wf_ast.specs.SameNodes.{head_mentions};
ghost use Rattle.wf_ast.specs.TypedTree.{local};
ghost use Rattle.wf_ast.specs.TypedTrees.{cond_in, num_in, tree_of, type_of_node};
ghost use Rattle.wf_ast.specs.TypedInvariant.{is_list as is_list_type};
ghost use Rattle.wf_ast.specs.NodeKinds.{is_condition_at, is_number_at};
ghost use Rattle.wf_facts_exprs.specs.Claims.{claim_in, claim_mentions, side_in, side_mentions, length_in, is_fact, is_side};
ghost use Rattle.wf_facts_exprs.specs.declared.facts.Side.TheVariants as sides;
ghost use Rattle.wf_facts.specs.IndexedFacts.{MarksField, MarksThings, thing_of};
ghost use Rattle.wf_facts_exprs.specs.NumberedSets.{Marks};

use crate::indexed::{field_set, set_number};
use wf_ast::{Expr, ExprId, LocalId, Thing, Ty, Typed};
use wf_facts_exprs::{Fact, Sets, Side};

/// Puts fact `n` into the set of each thing that it mentions, and into those that its fields share.
pub(crate) fn mark(t: &Typed, f: Fact, n: usize, sets: &mut Sets, fields: &mut Sets)
    requires fact { is_fact t.now f ≡ true }
    requires place { n < 512 }
    ensures { MarksThings n (λ x. claim_mentions x (claim_in t.now f)) sets.old fields.old sets.new fields.new }
{
    match f {
        Fact::Compare { left, right, .. } => {
            mark_side(t, left, n, sets, fields);
            mark_side(t, right, n, sets, fields);
        }
        Fact::Cond { expr, .. } => mark_condition(t, expr, n, sets, fields),
    }
}

// The same of a side.
fn mark_side(t: &Typed, side: Side, n: usize, sets: &mut Sets, fields: &mut Sets)
    requires side { is_side t.now side ≡ true }
    requires place { n < 512 }
    ensures { MarksThings n (λ x. side_mentions x (side_in t.now side)) sets.old fields.old sets.new fields.new }
{
    match side {
        Side::Expr(e) => mark_number(t, e, n, sets, fields),
        Side::Sum(a, b) => mark_sum(t, a, b, n, sets, fields),
        Side::Length(e) => mark_length(t, e, n, sets, fields),
        Side::Num(_) => {}
    }
}

// The node of an expression tells the kind of its tree.
fn mark_number(t: &Typed, e: ExprId, n: usize, sets: &mut Sets, fields: &mut Sets)
    requires number { is_number_at t.now e ≡ true }
    requires place { n < 512 }
    ensures { MarksThings n (λ x. num_mentions x (num_in (tree_of t.now e))) sets.old fields.old sets.new fields.new }
{
    let _node = t.expr(e);
    mark_expr(t, e, n, sets, fields);
}

fn mark_condition(t: &Typed, e: ExprId, n: usize, sets: &mut Sets, fields: &mut Sets)
    requires condition { is_condition_at t.now e ≡ true }
    requires place { n < 512 }
    ensures { MarksThings n (λ x. cond_mentions x (cond_in (tree_of t.now e))) sets.old fields.old sets.new fields.new }
{
    let _node = t.expr(e);
    mark_expr(t, e, n, sets, fields);
}

// The sum of two constants is a number, and mentions nothing.
fn mark_sum(t: &Typed, a: ExprId, b: ExprId, n: usize, sets: &mut Sets, fields: &mut Sets)
    requires sum { is_side t.now (sides.Sum a b) ≡ true }
    requires place { n < 512 }
    ensures { MarksThings n (λ x. side_mentions x (side_in t.now (sides.Sum a b))) sets.old fields.old sets.new fields.new }
{
    mark_number(t, a, n, sets, fields);
    mark_number(t, b, n, sets, fields);
}

// A length mentions what its operand does.
fn mark_length(t: &Typed, e: ExprId, n: usize, sets: &mut Sets, fields: &mut Sets)
    requires length { is_side t.now (sides.Length e) ≡ true }
    requires place { n < 512 }
    ensures { MarksThings n (λ x. num_mentions x (length_in t.now e (type_of_node t.now e.0) (tree_of t.now e))) sets.old fields.old sets.new fields.new }
{
    let _node = t.expr(e);
    mark_expr(t, e, n, sets, fields);
}

// Puts a place into the sets of what an expression mentions. A constant mentions nothing.
fn mark_expr(t: &Typed, e: ExprId, n: usize, sets: &mut Sets, fields: &mut Sets)
    requires node { e.0 < length t.now.exprs }
    requires place { n < 512 }
    ensures { MarksThings n (λ x. mentions (tree_of t.now e) x) sets.old fields.old sets.new fields.new }
{
    let expr = t.expr(e);
    if t.constant(e).is_some() {
        return;
    }
    mark_named(expr, t.type_of(e), n, sets);
    mark_field(expr, n, fields);
    for i in 0..expr.parts() {
        mark_expr(t, expr.part(i), n, sets, fields);
    }
}

// And into those of what an expression, which is no constant number, mentions by itself, whatever its parts mention.
fn mark_named(expr: &Expr, ty: Ty, n: usize, sets: &mut Sets)
    requires place { n < 512 }
    ensures { Marks n (λ k. head_mentions (thing_of k) ty expr.now) sets.old sets.new }
{
    match expr {
        Expr::Local(x) => {
            mark_local(*x, n, sets);
            mark_if_list(ty, n, sets);
        }
        Expr::Field(_) => sets.insert(set_number(Thing::This), n),
        Expr::Arg(_) => sets.insert(set_number(Thing::Args), n),
        Expr::Index { .. } => sets.insert(set_number(Thing::Element), n),
        _ => {}
    }
}

// A field comes into the set that it shares.
fn mark_field(expr: &Expr, n: usize, fields: &mut Sets)
    requires place { n < 512 }
    ensures { (ty : Ty) (c : ℕ) → c < 128 → MarksField n c (λ x. head_mentions x ty expr.now) fields.old fields.new }
{
    if let Expr::Field(x) = expr {
        fields.insert(field_set(*x), n);
    }
}

// A method has at most 256 locals.
fn mark_local(x: LocalId, n: usize, sets: &mut Sets)
    requires place { n < 512 }
    ensures { Marks n (λ k. path_is (thing_of k) (local x.0)) sets.old sets.new }
{
    if x.0 < 256 {
        sets.insert(set_number(Thing::Local(x)), n);
    }
}

fn mark_if_list(ty: Ty, n: usize, sets: &mut Sets)
    requires place { n < 512 }
    ensures { Marks n (λ k. is_list_type ty && nat_eq k 3) sets.old sets.new }
{
    if is_list(ty) {
        sets.insert(set_number(Thing::SliceLocals), n);
    }
}

fn is_list(ty: Ty) -> bool
    ensures { result ≡ is_list_type ty }
{
    matches!(ty, Ty::Slice(_) | Ty::Array { .. })
}

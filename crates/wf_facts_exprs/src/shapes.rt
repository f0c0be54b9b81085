// What a side is, and whether two sides are one.

ghost use Rattle.std.specs.Prelude.{◌≡◌, ◌<◌, length, map, IsTrue, nat_eq, nat_lt};
ghost use Rattle.std.specs.List.{list_all};
ghost use Rattle.wf_ast.specs.TypedTree.{number};
ghost use Rattle.wf_ast.specs.TypedTrees.{no_place, num_in, slice_in, io_in, tree_of, type_of_node, place_of_node, signs_of_node, chain_of, operator_kind, answer_of};
ghost use Rattle.wf_ast.specs.TypedInvariant.{is_tree_of, is_expr, chain_fits, has_kind};
ghost use Rattle.wf_ast.specs.Same.{same_num, same_slice};
ghost use Rattle.wf_ast.specs.NodeKinds.{is_number_at};
ghost use Rattle.wf_base.specs.BaseTable.{row_of};
ghost use Rattle.wf_facts_exprs.specs.Claims.{is_side, side_in, tree_of_side};
ghost use Rattle.wf_facts_exprs.specs.Shapes.{Alike, is_measured, is_plain, is_sum_of_two as adds_two, measured_by, shape_fits, shape_tree};

use crate::facts::Side;
use crate::heads::are_other_variables;
use wf_ast::{Expr, ExprId, Op, Ty, Typed, same};
use wf_base::BaseSig;

/// What has a length: the elements of a slice or an array, what is unread in a reader, or the room in a writer.
#[derive(Clone, Copy)]
pub(crate) enum Measured {
    Elements,
    Unread,
    Room,
}

/// What a side is: a number, a length, a sum of two, or another expression.
#[derive(Clone, Copy)]
pub(crate) enum Shape {
    Number(u128),
    Length(Measured, ExprId),
    Sum(ExprId, ExprId),
    Other(ExprId),
}

/// What a side is.
pub(crate) fn shape_of(t: &Typed, side: Side) -> Shape
    requires { IsTrue (is_side t.now side) }
    ensures alike { Alike (shape_tree t.now result) (tree_of_side (side_in t.now side)) }
    ensures fits { IsTrue (shape_fits t.now result) }
{
    match side {
        Side::Expr(e) => expr_shape(t, e),
        Side::Sum(a, b) => sum_shape(t, a, b),
        Side::Length(e) => length_shape(t, e),
        Side::Num(n) => Shape::Number(n as u128),
    }
}

// The sum of two constants is a number.
fn sum_shape(t: &Typed, a: ExprId, b: ExprId) -> Shape
    requires { IsTrue (is_side t.now (Side.Sum a b)) }
    ensures alike { Alike (shape_tree t.now result) (tree_of_side (side_in t.now (Side.Sum a b))) }
    ensures fits { IsTrue (shape_fits t.now result) }
{
    let _left = t.expr(a);
    let _right = t.expr(b);
    match (t.constant(a), t.constant(b)) {
        (Some(m), Some(n)) => Shape::Number(m as u128 + n as u128),
        (Some(_), None) => Shape::Sum(a, b),
        (None, Some(_)) => Shape::Sum(a, b),
        (None, None) => Shape::Sum(a, b),
    }
}

fn length_shape(t: &Typed, e: ExprId) -> Shape
    requires { IsTrue (is_side t.now (Side.Length e)) }
    ensures alike { Alike (shape_tree t.now result) (tree_of_side (side_in t.now (Side.Length e))) }
    ensures fits { IsTrue (shape_fits t.now result) }
{
    let _expr = t.expr(e);
    match t.type_of(e) {
        Ty::Slice(_) => Shape::Length(Measured::Elements, e),
        Ty::Array { .. } => Shape::Length(Measured::Elements, e),
        Ty::Reader => Shape::Length(Measured::Unread, e),
        Ty::Writer => Shape::Length(Measured::Room, e),
        Ty::Num { .. } | Ty::Flag | Ty::Status | Ty::Part(_) => unreachable!(),
    }
}

/// What a numeric expression is.
pub(crate) fn expr_shape(t: &Typed, e: ExprId) -> Shape
    requires { IsTrue (is_number_at t.now e) }
    ensures alike { Alike (shape_tree t.now result) (num_in (tree_of t.now e)) }
    ensures fits { IsTrue (shape_fits t.now result) }
{
    let expr = t.expr(e);
    match t.constant(e) {
        Some(n) => Shape::Number(n as u128),
        None => match expr {
            Expr::Chain { op, parts } => chain_shape(t, e, *op, parts.as_slice()),
            Expr::Base { on, sig } => answer_shape(t, e, *on, *sig),
            Expr::Number(_) | Expr::Const(_) => unreachable!(),
            Expr::Status(_) | Expr::Truth(_) => Shape::Other(e),
            Expr::Local(_) => Shape::Other(e),
            Expr::Field(_) => Shape::Other(e),
            Expr::Arg(_) => Shape::Other(e),
            Expr::Index { .. } => Shape::Other(e),
            Expr::Cut { .. } | Expr::Not(_) => Shape::Other(e),
            Expr::Convert { .. } => Shape::Other(e),
        },
    }
}

fn chain_shape(t: &Typed, e: ExprId, op: Op, parts: &[ExprId]) -> Shape
    requires node { IsTrue (is_number_at t.now e) }
    requires tree { tree_of t.now e ≡ chain_of (place_of_node t.now e.0) (signs_of_node t.now e.0) (type_of_node t.now e.0) (operator_kind op) (map (tree_of t.now) parts.now) }
    requires fits { IsTrue (chain_fits t.now (operator_kind op) parts.now (type_of_node t.now e.0)) }
    requires below { IsTrue (list_all (λ p. nat_lt p.0 e.0) parts.now) }
    ensures alike { Alike (shape_tree t.now result) (num_in (tree_of t.now e)) }
    ensures fits { IsTrue (shape_fits t.now result) }
{
    if is_sum_of_two(op, parts) {
        Shape::Sum(parts[0], parts[1])
    } else {
        Shape::Other(e)
    }
}

fn is_sum_of_two(op: Op, parts: &[ExprId]) -> bool
    ensures { result ≡ adds_two op parts.now }
{
    matches!(op, Op::Add) && parts.len() == 2
}

fn answer_shape(t: &Typed, e: ExprId, on: ExprId, sig: BaseSig) -> Shape
    requires node { IsTrue (is_number_at t.now e) }
    requires tree { tree_of t.now e ≡ answer_of (place_of_node t.now e.0) sig (tree_of t.now on) }
    requires kind { IsTrue (has_kind (row_of sig).on (type_of_node t.now on.0)) }
    requires on { IsTrue (is_expr t.now on) }
    ensures alike { Alike (shape_tree t.now result) (num_in (tree_of t.now e)) }
    ensures fits { IsTrue (shape_fits t.now result) }
{
    match measured_in(sig) {
        Some(of) => Shape::Length(of, on),
        None => Shape::Other(e),
    }
}

fn measured_in(sig: BaseSig) -> Option<Measured>
    ensures { result ≡ measured_by sig }
{
    match sig {
        BaseSig::ReaderLength => Some(Measured::Unread),
        BaseSig::WriterLength => Some(Measured::Room),
        BaseSig::SliceLength(_) | BaseSig::ArrayLength(_) => Some(Measured::Elements),
        _ => None,
    }
}

/// Whether a numeric expression is what a shape tells.
pub(crate) fn has_shape(t: &Typed, e: ExprId, shape: Shape) -> bool
    requires node { IsTrue (is_number_at t.now e) }
    requires shape { IsTrue (shape_fits t.now shape) }
    ensures { result ≡ same_num (num_in (tree_of t.now e)) (shape_tree t.now shape) }
{
    match shape {
        Shape::Number(n) => has_number(t, e, n),
        Shape::Other(other) => is_other(t, e, other),
        Shape::Length(_, _) => same_shapes(t, expr_shape(t, e), shape),
        Shape::Sum(_, _) => same_shapes(t, expr_shape(t, e), shape),
    }
}

// Whether a numeric expression is this one, which is no number, no length and no sum of two. Most are told apart by what stands at
// the heads of their trees.
fn is_other(t: &Typed, e: ExprId, other: ExprId) -> bool
    requires left { IsTrue (is_number_at t.now e) }
    requires right { IsTrue (is_number_at t.now other) }
    requires plain { IsTrue (is_plain (num_in (tree_of t.now other))) }
    ensures { result ≡ same_num (num_in (tree_of t.now e)) (num_in (tree_of t.now other)) }
{
    if are_other_variables(t, e, other) {
        return false;
    }
    same_numbers(t, e, other)
}

/// Whether a numeric expression is a constant with this number.
pub(crate) fn has_number(t: &Typed, e: ExprId, n: u128) -> bool
    requires { IsTrue (is_number_at t.now e) }
    ensures { result ≡ same_num (num_in (tree_of t.now e)) (number no_place n) }
{
    let _expr = t.expr(e);
    match t.constant(e) {
        Some(constant) => constant as u128 == n,
        None => false,
    }
}

/// Whether two shapes are those of one side.
pub(crate) fn same_shapes(t: &Typed, a: Shape, b: Shape) -> bool
    requires left { IsTrue (shape_fits t.now a) }
    requires right { IsTrue (shape_fits t.now b) }
    ensures { result ≡ same_num (shape_tree t.now a) (shape_tree t.now b) }
{
    match (a, b) {
        (Shape::Number(m), Shape::Number(n)) => m == n,
        (Shape::Length(p, x), Shape::Length(q, y)) => same_lengths(t, p, x, q, y),
        (Shape::Sum(x, y), Shape::Sum(z, w)) => same_numbers(t, x, z) && same_numbers(t, y, w),
        (Shape::Other(x), Shape::Other(y)) => same_numbers(t, x, y),
        _ => false,
    }
}

fn same_lengths(t: &Typed, p: Measured, x: ExprId, q: Measured, y: ExprId) -> bool
    requires left { IsTrue (is_measured t.now p x) }
    requires right { IsTrue (is_measured t.now q y) }
    ensures { result ≡ same_num (shape_tree t.now (Shape.Length p x)) (shape_tree t.now (Shape.Length q y)) }
{
    match (p, q) {
        (Measured::Elements, Measured::Elements) => same_lists(t, x, y),
        (Measured::Unread, Measured::Unread) => same_buffers(t, x, y),
        (Measured::Room, Measured::Room) => same_buffers(t, x, y),
        _ => false,
    }
}

/// Whether two numeric expressions are the same.
pub(crate) fn same_numbers(t: &Typed, a: ExprId, b: ExprId) -> bool
    requires left { IsTrue (is_number_at t.now a) }
    requires right { IsTrue (is_number_at t.now b) }
    ensures { result ≡ same_num (num_in (tree_of t.now a)) (num_in (tree_of t.now b)) }
{
    look_at(t, a);
    look_at(t, b);
    same(t, a, b)
}

fn same_lists(t: &Typed, a: ExprId, b: ExprId) -> bool
    requires left { IsTrue (is_measured t.now Measured.Elements a) }
    requires right { IsTrue (is_measured t.now Measured.Elements b) }
    ensures { result ≡ same_slice (slice_in (tree_of t.now a)) (slice_in (tree_of t.now b)) }
{
    look_at(t, a);
    look_at(t, b);
    same(t, a, b)
}

fn same_buffers(t: &Typed, a: ExprId, b: ExprId) -> bool
    requires left { IsTrue (is_measured t.now Measured.Unread a) }
    requires right { IsTrue (is_measured t.now Measured.Unread b) }
    ensures { result ≡ nat_eq (io_in (tree_of t.now a)) (io_in (tree_of t.now b)) }
{
    look_at(t, a);
    look_at(t, b);
    same(t, a, b)
}

// An expression's tree is of the kind of its type.
pub(crate) fn look_at(t: &Typed, e: ExprId)
    requires { e.0 < length t.now.exprs }
    ensures { IsTrue (is_tree_of (type_of_node t.now e.0) (tree_of t.now e)) }
{
    let _expr = t.expr(e);
}

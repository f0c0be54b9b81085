// Numbers that are compared. A complement of 8 or 16 bits is the difference to all ones there.

ghost use Rattle.std.specs.Prelude.{◌≡◌, ◌<◌, ◌∷◌, ◌-◌, ◌^◌, [], nat_eq, nat_le, length, map, IsTrue, IfOk};
ghost use Rattle.std.specs.List.{list_all};
ghost use Rattle.wf_base.specs.BaseTable.{bits_of};
ghost use Rattle.wf_ast.specs.TypedTrees.{chain_of, operator_kind, place_of_node, signs_of_node, tree_of, type_of_node};
ghost use Rattle.wf_ast.specs.TypedTree.{bits_xor, minus};
ghost use Rattle.wf_ast.specs.NodeKinds.{is_number_at, node_number};
ghost use Rattle.wf_ast.specs.OperatorForms.{is_arithmetic};
ghost use Rattle.wf_exprs.specs.Exprs.{apart, comparand as comparand_of, compared_as as compared_as_tree, is_converted as is_converted_tree, is_ones as is_ones_tree, is_short_ones as is_short_ones_tree, lowered, with_zero as with_zero_of, xor_operand};
ghost use Rattle.wf_exprs.specs.Grown.{Grows};
ghost use Rattle.wf_exprs.specs.Making.{HasRated, rated_in};
ghost use Rattle.wf_exprs_nodes.specs.Trees.{complement_by, is_xor as is_xor_sort};

use crate::chains::link;
use crate::numbers::{constant, number, unconverted, width_of};
use c_text::Unit;
use wf_ast::{Expr, ExprId, Op, Typed};
use wf_base::Width;
use wf_exprs::{BodyNames, Rated};
use wf_text::NoMemory;

/// A number that is compared, with the type that it has in C. Conversions stand for nothing there.
pub(crate) fn comparand(scope: &BodyNames, u: &mut Unit, e: ExprId) -> Result<Rated, NoMemory>
    requires { IsTrue (is_number_at scope.now.nodes e) }
    ensures grows { Grows u.old u.new }
    ensures made { IfOk result (λ a. HasRated u.new a (comparand_of scope.now.names (node_number scope.now.nodes e))) }
{
    let it = unconverted(scope.typed(), e);
    compared_as(scope, u, it)
}

// A number that is compared, once the conversions round it are left out.
fn compared_as(scope: &BodyNames, u: &mut Unit, e: ExprId) -> Result<Rated, NoMemory>
    requires { IsTrue (is_number_at scope.now.nodes e) }
    ensures grows { Grows u.old u.new }
    ensures made { IfOk result (λ a. HasRated u.new a (compared_as_tree scope.now.names (node_number scope.now.nodes e))) }
{
    let t = scope.typed();
    let expr = t.expr(e);
    match t.constant(e) {
        Some(_) => number(scope, u, e),
        None => match expr {
            Expr::Chain { op, parts } => chain(scope, u, e, *op, parts.as_slice()),
            Expr::Number(_) | Expr::Const(_) | Expr::Status(_) => number(scope, u, e),
            Expr::Truth(_) | Expr::Local(_) | Expr::Field(_) => number(scope, u, e),
            Expr::Arg(_) | Expr::Index { .. } | Expr::Cut { .. } => number(scope, u, e),
            Expr::Convert { .. } => number(scope, u, e),
            Expr::Not(_) | Expr::Base { .. } => number(scope, u, e),
        },
    }
}

// A chain: a complement has two operands.
fn chain(
    scope: &BodyNames,
    u: &mut Unit,
    e: ExprId,
    op: Op,
    parts: &[ExprId],
) -> Result<Rated, NoMemory>
    requires node { IsTrue (is_number_at scope.now.nodes e) }
    requires tree { tree_of scope.now.nodes e ≡ chain_of (place_of_node scope.now.nodes e.0) (signs_of_node scope.now.nodes e.0) (type_of_node scope.now.nodes e.0) (operator_kind op) (map (tree_of scope.now.nodes) parts.now) }
    requires arithmetic { IsTrue (is_arithmetic (operator_kind op)) }
    requires numbers { IsTrue (list_all (is_number_at scope.now.nodes) parts.now) }
    requires some { 1 < length parts.now }
    ensures grows { Grows u.old u.new }
    ensures made { IfOk result (λ a. HasRated u.new a (compared_as_tree scope.now.names (node_number scope.now.nodes e))) }
{
    if parts.len() == 2 {
        pair(scope, u, e, op, parts[0], parts[1])
    } else {
        number(scope, u, e)
    }
}

// Two operands: a complement, or any others.
fn pair(
    scope: &BodyNames,
    u: &mut Unit,
    e: ExprId,
    op: Op,
    a: ExprId,
    b: ExprId,
) -> Result<Rated, NoMemory>
    requires node { IsTrue (is_number_at scope.now.nodes e) }
    requires tree { tree_of scope.now.nodes e ≡ chain_of (place_of_node scope.now.nodes e.0) (signs_of_node scope.now.nodes e.0) (type_of_node scope.now.nodes e.0) (operator_kind op) (tree_of scope.now.nodes a ∷ tree_of scope.now.nodes b ∷ []) }
    requires arithmetic { IsTrue (is_arithmetic (operator_kind op)) }
    requires left { IsTrue (is_number_at scope.now.nodes a) }
    requires right { IsTrue (is_number_at scope.now.nodes b) }
    ensures grows { Grows u.old u.new }
    ensures made { IfOk result (λ it. HasRated u.new it (compared_as_tree scope.now.names (node_number scope.now.nodes e))) }
{
    let t = scope.typed();
    let width = width_of(t, e);
    let one = is_ones(t, width, a);
    let other = is_ones(t, width, b);
    match complement(op, one, other) {
        Some(true) => difference(scope, u, width, b, a),
        Some(false) => difference(scope, u, width, a, b),
        None => {
            if is_xor(op) {
                xor(scope, u, width, a, b)
            } else {
                number(scope, u, e)
            }
        }
    }
}

// Whether two operands are the complement of the left one or of the right one, by which of them is all ones.
fn complement(op: Op, one: bool, other: bool) -> Option<bool>
    ensures { result ≡ complement_by (operator_kind op) one other }
{
    match op {
        Op::BitXor if other => Some(true),
        Op::BitXor | Op::ModSub if one => Some(false),
        _ => None,
    }
}

// The difference of a number to all ones.
fn difference(
    scope: &BodyNames,
    u: &mut Unit,
    width: Width,
    ones: ExprId,
    of: ExprId,
) -> Result<Rated, NoMemory>
    requires ones { IsTrue (is_number_at scope.now.nodes ones) }
    requires of { IsTrue (is_number_at scope.now.nodes of) }
    ensures grows { Grows u.old u.new }
    ensures made { IfOk result (λ it. HasRated u.new it (apart minus (bits_of width) (lowered scope.now.names (node_number scope.now.nodes ones)) (lowered scope.now.names (node_number scope.now.nodes of)))) }
{
    let left = number(scope, u, ones)?;
    let right = number(scope, u, of)?;
    link(scope.alloc(), u, Op::Sub, width, left, right)
}

fn is_xor(op: Op) -> bool
    ensures { result ≡ is_xor_sort (operator_kind op) }
{
    match op {
        Op::BitXor => true,
        _ => false,
    }
}

// An xor, with 0 added to a widened operand of all ones.
fn xor(
    scope: &BodyNames,
    u: &mut Unit,
    width: Width,
    a: ExprId,
    b: ExprId,
) -> Result<Rated, NoMemory>
    requires left { IsTrue (is_number_at scope.now.nodes a) }
    requires right { IsTrue (is_number_at scope.now.nodes b) }
    ensures grows { Grows u.old u.new }
    ensures made { IfOk result (λ it. HasRated u.new it (apart bits_xor (bits_of width) (xor_operand (bits_of width) (node_number scope.now.nodes a) (lowered scope.now.names (node_number scope.now.nodes a)) (node_number scope.now.nodes b)) (xor_operand (bits_of width) (node_number scope.now.nodes b) (lowered scope.now.names (node_number scope.now.nodes b)) (node_number scope.now.nodes a)))) }
{
    let left = operand(scope, u, width, a, b)?;
    let right = operand(scope, u, width, b, a)?;
    link(scope.alloc(), u, Op::BitXor, width, left, right)
}

// An operand of an xor that is compared, with the other operand.
fn operand(
    scope: &BodyNames,
    u: &mut Unit,
    width: Width,
    e: ExprId,
    other: ExprId,
) -> Result<Rated, NoMemory>
    requires node { IsTrue (is_number_at scope.now.nodes e) }
    requires other { IsTrue (is_number_at scope.now.nodes other) }
    ensures grows { Grows u.old u.new }
    ensures made { IfOk result (λ it. HasRated u.new it (xor_operand (bits_of width) (node_number scope.now.nodes e) (lowered scope.now.names (node_number scope.now.nodes e)) (node_number scope.now.nodes other))) }
{
    let t = scope.typed();
    let a = number(scope, u, e)?;
    if is_short_ones(t, width, other) && is_converted(t, e) {
        with_zero(scope, u, width, a)
    } else {
        Ok(a)
    }
}

// A number with 0 added to it.
fn with_zero(scope: &BodyNames, u: &mut Unit, width: Width, a: Rated) -> Result<Rated, NoMemory>
    requires { a.code.0 < length u.old.exprs }
    ensures grows { Grows u.old u.new }
    ensures made { IfOk result (λ it. HasRated u.new it (with_zero_of (bits_of width) (rated_in u.old a))) }
{
    let none = constant(u, 0)?;
    link(scope.alloc(), u, Op::Add, width, a, none)
}

// All ones of a width.
fn ones(width: Width) -> u64
    ensures { result ≡ 2 ^ bits_of width - 1 }
{
    match width {
        Width::W8 => 255,
        Width::W16 => 65535,
        Width::W32 => 4294967295,
        Width::W64 => 18446744073709551615,
    }
}

// Whether C calculates with this width in `int`.
fn is_small(width: Width) -> bool
    ensures { result ≡ nat_le (bits_of width) 16 }
{
    match width {
        Width::W8 | Width::W16 => true,
        Width::W32 | Width::W64 => false,
    }
}

// Whether a number is all ones of this width, and that is 8 or 16.
fn is_ones(t: &Typed, width: Width, e: ExprId) -> bool
    requires { IsTrue (is_number_at t.now e) }
    ensures { result ≡ is_ones_tree (bits_of width) (node_number t.now e) }
{
    let expr = t.expr(e);
    match t.constant(e) {
        Some(n) => is_small(width) && n == ones(width),
        None => match expr {
            Expr::Chain { .. } => false,
            Expr::Local(_) | Expr::Field(_) | Expr::Arg(_) => false,
            Expr::Index { .. } | Expr::Convert { .. } => false,
            Expr::Base { .. } => false,
            Expr::Number(_) | Expr::Const(_) | Expr::Status(_) => unreachable!(),
            Expr::Truth(_) | Expr::Cut { .. } | Expr::Not(_) => unreachable!(),
        },
    }
}

// Whether a number is all ones of fewer bits than this width.
fn is_short_ones(t: &Typed, width: Width, e: ExprId) -> bool
    requires { IsTrue (is_number_at t.now e) }
    ensures { result ≡ is_short_ones_tree (bits_of width) (node_number t.now e) }
{
    let expr = t.expr(e);
    match t.constant(e) {
        Some(n) => n == 255 || n == 65535 || (is_widest(width) && n == 4294967295),
        None => match expr {
            Expr::Chain { .. } => false,
            Expr::Local(_) | Expr::Field(_) | Expr::Arg(_) => false,
            Expr::Index { .. } | Expr::Convert { .. } => false,
            Expr::Base { .. } => false,
            Expr::Number(_) | Expr::Const(_) | Expr::Status(_) => unreachable!(),
            Expr::Truth(_) | Expr::Cut { .. } | Expr::Not(_) => unreachable!(),
        },
    }
}

fn is_widest(width: Width) -> bool
    ensures { result ≡ nat_eq (bits_of width) 64 }
{
    match width {
        Width::W8 | Width::W16 | Width::W32 => false,
        Width::W64 => true,
    }
}

// Whether a number is converted by an `as`.
fn is_converted(t: &Typed, e: ExprId) -> bool
    requires { IsTrue (is_number_at t.now e) }
    ensures { result ≡ is_converted_tree (node_number t.now e) }
{
    let expr = t.expr(e);
    match t.constant(e) {
        Some(_) => false,
        None => match expr {
            Expr::Chain { .. } => false,
            Expr::Local(_) | Expr::Field(_) | Expr::Arg(_) => false,
            Expr::Convert { .. } => true,
            Expr::Index { .. } | Expr::Base { .. } => false,
            Expr::Number(_) | Expr::Const(_) | Expr::Status(_) => unreachable!(),
            Expr::Truth(_) | Expr::Cut { .. } | Expr::Not(_) => unreachable!(),
        },
    }
}

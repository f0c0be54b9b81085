// What a number is, as far as facts tell numbers apart.

ghost use Rattle.std.specs.Prelude.{◌≡◌, ◌<◌, ◌+◌, ◌^◌, true, IfSome};
ghost use Rattle.wf_ast.specs.TypedTrees.{tree_of, num_in, type_of_node};
ghost use Rattle.wf_ast.specs.TypedInvariant.{is_io as type_is_io};
ghost use Rattle.wf_ast.specs.NodeKinds.{is_number_at};
ghost use Rattle.wf_facts_exprs.specs.Claims.{is_side, side_in, tree_of_side, length_in};
ghost use Rattle.wf_facts_exprs.specs.declared.facts.Side.TheVariants as sides;
ghost use Rattle.wf_facts.specs.Forms.{form_of, form_of_node, form_of_chain, form_of_method, number_in};

use wf_ast::{Expr, ExprId, Op, Ty, Typed};
use wf_base::BaseSig;
use wf_facts_exprs::Side;

/// What a number is.
#[derive(Clone, Copy)]
pub enum Form {
    /// A constant.
    Number,
    /// A local, a field or an argument.
    Variable,
    /// The `+` of two.
    Sum,
    /// The length of a reader or a writer.
    IoLength,
    /// The length of a slice or an array.
    ListLength,
    Other,
}

/// What a numeric expression is.
pub(crate) fn expr_form(t: &Typed, e: ExprId) -> Form
    requires { is_number_at t.now e ≡ true }
    ensures { result ≡ form_of (num_in (tree_of t.now e)) }
{
    let expr = t.expr(e);
    if t.constant(e).is_some() {
        return Form::Number;
    }
    node_form(expr)
}

fn node_form(expr: &Expr) -> Form
    ensures { result ≡ form_of_node expr.now }
{
    match expr {
        Expr::Local(_) | Expr::Field(_) | Expr::Arg(_) => Form::Variable,
        Expr::Chain { op, parts } => chain_form(*op, parts.as_slice().len()),
        Expr::Base { sig, .. } => method_form(*sig),
        _ => Form::Other,
    }
}

fn chain_form(op: Op, operands: usize) -> Form
    ensures { result ≡ form_of_chain op operands }
{
    if op as u8 == Op::Add as u8 && operands == 2 {
        Form::Sum
    } else {
        Form::Other
    }
}

fn method_form(sig: BaseSig) -> Form
    ensures { result ≡ form_of_method sig }
{
    match sig {
        BaseSig::ReaderLength | BaseSig::WriterLength => Form::IoLength,
        BaseSig::SliceLength(_) | BaseSig::ArrayLength(_) => Form::ListLength,
        _ => Form::Other,
    }
}

/// What a side of a comparison is.
pub(crate) fn side_form(t: &Typed, side: Side) -> Form
    requires { is_side t.now side ≡ true }
    ensures { result ≡ form_of (tree_of_side (side_in t.now side)) }
{
    match side {
        Side::Expr(e) => expr_form(t, e),
        Side::Sum(a, b) => sum_form(t, a, b),
        Side::Length(e) => length_form(t, e),
        Side::Num(_) => Form::Number,
    }
}

fn sum_form(t: &Typed, a: ExprId, b: ExprId) -> Form
    requires { is_side t.now (sides.Sum a b) ≡ true }
    ensures { result ≡ form_of (tree_of_side (side_in t.now (sides.Sum a b))) }
{
    match (number(t, a), number(t, b)) {
        (Some(_), Some(_)) => Form::Number,
        _ => Form::Sum,
    }
}

fn length_form(t: &Typed, e: ExprId) -> Form
    requires { is_side t.now (sides.Length e) ≡ true }
    ensures { result ≡ form_of (length_in t.now e (type_of_node t.now e.0) (tree_of t.now e)) }
{
    let _node = t.expr(e);
    if is_io(t.type_of(e)) {
        return Form::IoLength;
    }
    Form::ListLength
}

fn is_io(ty: Ty) -> bool
    ensures { result ≡ type_is_io ty }
{
    matches!(ty, Ty::Reader | Ty::Writer)
}

/// The number of a constant expression.
pub(crate) fn number(t: &Typed, e: ExprId) -> Option<u64>
    requires { is_number_at t.now e ≡ true }
    ensures { result ≡ number_in (num_in (tree_of t.now e)) }
{
    let _node = t.expr(e);
    t.constant(e)
}

/// The number that a side is; the sum of two constants may pass 64 bits.
pub(crate) fn side_number(t: &Typed, side: Side) -> Option<u128>
    requires { is_side t.now side ≡ true }
    ensures value { result ≡ number_in (tree_of_side (side_in t.now side)) }
    ensures small { IfSome result (λ n. n < 2 ^ 65) }
{
    match side {
        Side::Expr(e) => widened(number(t, e)),
        Side::Sum(a, b) => sum_number(t, a, b),
        Side::Length(e) => length_number(t, e),
        Side::Num(n) => Some(n as u128),
    }
}

fn widened(n: Option<u64>) -> Option<u128>
    ensures value { result ≡ n }
    ensures small { IfSome result (λ m. m < 2 ^ 64) }
{
    Some(n? as u128)
}

fn sum_number(t: &Typed, a: ExprId, b: ExprId) -> Option<u128>
    requires { is_side t.now (sides.Sum a b) ≡ true }
    ensures value { result ≡ number_in (tree_of_side (side_in t.now (sides.Sum a b))) }
    ensures small { IfSome result (λ n. n < 2 ^ 65) }
{
    match (number(t, a), number(t, b)) {
        (Some(m), Some(n)) => Some(m as u128 + n as u128),
        _ => None,
    }
}

// A length is no number.
fn length_number(t: &Typed, e: ExprId) -> Option<u128>
    requires { is_side t.now (sides.Length e) ≡ true }
    ensures value { result ≡ number_in (length_in t.now e (type_of_node t.now e.0) (tree_of t.now e)) }
    ensures none { result ≡ None }
{
    let _node = t.expr(e);
    None
}

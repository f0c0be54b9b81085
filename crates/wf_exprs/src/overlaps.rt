// Two comparisons of one number with constants, which decide what joins them: clang says so of the first two operands of an operation.

ghost use Rattle.std.specs.Prelude.{◌≡◌, ◌<◌, false, length, IfOk};
ghost use Rattle.c_text.specs.CNodes.{expr_of};
ghost use Rattle.wf_exprs.specs.Exprs.{asked_of as asked_of_op, begun as begun_code, bound_of as bound_of_trees, bounded as bounded_tree, constant_of as constant_of_tree, decides as decides_trees, excludes as excludes_each, is_bounded as is_bounded_tree, is_open as is_open_op, is_order as is_order_op, meets as meets_op, meets_both as meets_both_ops, opposite as opposite_op, order_of as order_of_op, turned as turned_op};
ghost use Rattle.wf_exprs.specs.Grown.{Grows, HasExpr};

use crate::alike::are_alike;
use crate::nodes::{is_held, is_literal, negated};
use crate::rated::literal_value;
use c_text::{CExpr, CExprId, COp, Unit};
use wf_text::NoMemory;

/// Whether a number is to a constant as a comparison asks.
fn meets(op: COp, n: u64, bound: u64) -> bool
    ensures { result ≡ meets_op op n bound }
{
    match op {
        COp::Lt => n < bound,
        COp::Le => n <= bound,
        COp::Gt => bound < n,
        COp::Ge => bound <= n,
        COp::Eq => n == bound,
        COp::Ne => n != bound,
        _ => false,
    }
}

/// Whether all numbers that are great enough meet a comparison with a constant.
fn is_open(op: COp) -> bool
    ensures { result ≡ is_open_op op }
{
    match op {
        COp::Gt | COp::Ge | COp::Ne => true,
        _ => false,
    }
}

fn meets_both(op: COp, bound: u64, other: COp, limit: u64, n: u64) -> bool
    ensures { result ≡ meets_both_ops op bound other limit n }
{
    meets(op, n, bound) && meets(other, n, limit)
}

/// Whether no number meets both of two comparisons with constants: neither one of these, nor the number below one of them, nor any
/// above both.
fn excludes(op: COp, bound: u64, other: COp, limit: u64) -> bool
    ensures { result ≡ excludes_each op bound other limit }
{
    !((is_open(op) && is_open(other))
        || ((meets_both(op, bound, other, limit, bound)
            || meets_both(op, bound, other, limit, bound.saturating_sub(1)))
            || (meets_both(op, bound, other, limit, limit)
                || meets_both(op, bound, other, limit, limit.saturating_sub(1)))))
}

fn opposite(op: COp) -> COp
    ensures { result ≡ opposite_op op }
{
    match op {
        COp::Lt => COp::Ge,
        COp::Le => COp::Gt,
        COp::Gt => COp::Le,
        COp::Ge => COp::Lt,
        COp::Eq => COp::Ne,
        COp::Ne => COp::Eq,
        _ => op,
    }
}

// What mustn't exclude what, for `and`: its operands. For `or` it is what they don't ask for.
fn asked_of(joint: COp, op: COp) -> COp
    ensures { result ≡ asked_of_op joint op }
{
    match joint {
        COp::Either => opposite(op),
        _ => op,
    }
}

fn is_order(op: COp) -> bool
    ensures { result ≡ is_order_op op }
{
    match op {
        COp::Lt | COp::Le | COp::Gt | COp::Ge | COp::Eq | COp::Ne => true,
        _ => false,
    }
}

// The same order with its operands the other way round.
fn turned(op: COp) -> COp
    ensures { result ≡ turned_op op }
{
    match op {
        COp::Lt => COp::Gt,
        COp::Le => COp::Ge,
        COp::Gt => COp::Lt,
        COp::Ge => COp::Le,
        _ => op,
    }
}

/// Whether an operation compares what is held with a constant.
fn is_bounded(u: &Unit, op: COp, a: CExprId, b: CExprId) -> bool
    requires left { a.0 < length u.now.exprs }
    requires right { b.0 < length u.now.exprs }
    ensures { result ≡ is_bounded_tree op (expr_of u.now a.0) (expr_of u.now b.0) }
{
    is_order(op)
        && if is_literal(u, a) {
            is_held(u, b) && !is_literal(u, b)
        } else {
            is_held(u, a) && is_literal(u, b)
        }
}

/// What is compared with a constant.
fn bounded(u: &Unit, a: CExprId, b: CExprId) -> CExprId
    requires left { a.0 < length u.now.exprs }
    requires right { b.0 < length u.now.exprs }
    ensures is { expr_of u.now result.0 ≡ bounded_tree (expr_of u.now a.0) (expr_of u.now b.0) }
    ensures there { result.0 < length u.now.exprs }
{
    if is_literal(u, a) { b } else { a }
}

// How it is compared, with the constant at the right.
fn order_of(u: &Unit, op: COp, a: CExprId) -> COp
    requires { a.0 < length u.now.exprs }
    ensures { result ≡ order_of_op op (expr_of u.now a.0) }
{
    if is_literal(u, a) { turned(op) } else { op }
}

// The number that a constant is.
fn constant_of(u: &Unit, e: CExprId) -> u64
    requires { e.0 < length u.now.exprs }
    ensures { result ≡ constant_of_tree (expr_of u.now e.0) }
{
    match u.expr(e) {
        CExpr::Number(n) => literal_value(*n),
        _ => 0,
    }
}

/// The constant that it is compared with.
fn bound_of(u: &Unit, a: CExprId, b: CExprId) -> u64
    requires left { a.0 < length u.now.exprs }
    requires right { b.0 < length u.now.exprs }
    ensures { result ≡ bound_of_trees (expr_of u.now a.0) (expr_of u.now b.0) }
{
    if is_literal(u, a) {
        constant_of(u, a)
    } else {
        constant_of(u, b)
    }
}

/// Whether two comparisons with constants decide what joins them.
fn decides(u: &Unit, joint: COp, e: CExprId, other: CExprId) -> bool
    requires one { e.0 < length u.now.exprs }
    requires other { other.0 < length u.now.exprs }
    ensures { result ≡ decides_trees joint (expr_of u.now e.0) (expr_of u.now other.0) }
{
    match (u.expr(e), u.expr(other)) {
        (
            CExpr::Operation {
                op,
                first,
                second,
                ..
            },
            CExpr::Operation {
                op: sign,
                first: left,
                second: right,
                ..
            },
        ) => {
            is_bounded(u, *op, *first, *second)
                && (is_bounded(u, *sign, *left, *right)
                    && (are_alike(u, bounded(u, *first, *second), bounded(u, *left, *right))
                        && excludes(
                            asked_of(joint, order_of(u, *op, *first)),
                            bound_of(u, *first, *second),
                            asked_of(joint, order_of(u, *sign, *left)),
                            bound_of(u, *left, *right),
                        )))
        }
        _ => false,
    }
}

/// The first operand of a chain of conditions, beside the second one. Where the two decide it is negated twice.
pub fn begun(u: &mut Unit, joint: COp, e: CExprId, second: CExprId) -> Result<CExprId, NoMemory>
    requires one { e.0 < length u.old.exprs }
    requires other { second.0 < length u.old.exprs }
    ensures grows { Grows u.old u.new }
    ensures made { IfOk result (λ it. HasExpr u.new it.0 (begun_code false joint (expr_of u.old e.0) (expr_of u.old second.0))) }
{
    if decides(u, joint, e, second) {
        let unmet = negated(u, e)?;
        negated(u, unmet)
    } else {
        Ok(e)
    }
}

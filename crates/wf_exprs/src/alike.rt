// Expressions of C that are alike. Compilers remark on a number that is compared with itself.

ghost use Rattle.std.specs.Prelude.{◌≡◌, ◌<◌, length};
ghost use Rattle.c_text.specs.CFits.{HasExprs};
ghost use Rattle.c_text.specs.CNodes.{expr_of, operands_in};
ghost use Rattle.wf_exprs.specs.Exprs.{alike, all_alike as all_alike_trees, is_itself as is_itself_tree, is_turned as is_turned_tree, same_op as same_operators};

use crate::rated::literal_value;
use c_text::{CExpr, CExprId, COp, Unit};

/// Whether compilers take two expressions for one: they are alike node by node, or two operands stand the other way round. It takes
/// no memory, and a time that is proportional to the smaller of the two.
pub(crate) fn is_itself(u: &Unit, e: CExprId, other: CExprId) -> bool
    requires one { e.0 < length u.now.exprs }
    requires other { other.0 < length u.now.exprs }
    ensures { result ≡ is_itself_tree (expr_of u.now e.0) (expr_of u.now other.0) }
{
    are_alike(u, e, other) || is_turned(u, e, other)
}

// Whether an operation is another one but for the order of its first two operands.
fn is_turned(u: &Unit, e: CExprId, other: CExprId) -> bool
    requires one { e.0 < length u.now.exprs }
    requires other { other.0 < length u.now.exprs }
    ensures { result ≡ is_turned_tree (expr_of u.now e.0) (expr_of u.now other.0) }
{
    match (u.expr(e), u.expr(other)) {
        (
            CExpr::Operation {
                op,
                first,
                second,
                others,
            },
            CExpr::Operation {
                op: sign,
                first: left,
                second: right,
                others: further,
            },
        ) => {
            same_op(*op, *sign)
                && (are_alike(u, *first, *right)
                    && (are_alike(u, *second, *left)
                        && all_alike(u, e, other, others.as_slice(), further.as_slice())))
        }
        _ => false,
    }
}

/// Whether two expressions are alike node by node. No two calls are. It recurses into parts, and so goes as deep as expressions stand
/// inside one another; the operands of a chain stand side by side.
#[cycle(alike)]
pub(crate) fn are_alike(u: &Unit, e: CExprId, other: CExprId) -> bool
    requires one { e.0 < length u.now.exprs }
    requires other { other.0 < length u.now.exprs }
    ensures { result ≡ alike (expr_of u.now e.0) (expr_of u.now other.0) }
{
    match (u.expr(e), u.expr(other)) {
        (CExpr::Number(n), CExpr::Number(k)) => literal_value(*n) == literal_value(*k),
        (CExpr::Name(n), CExpr::Name(k)) => u.same_name(*n, *k),
        (
            CExpr::Member { of, field },
            CExpr::Member {
                of: by,
                field: name,
            },
        ) => { u.same_name(*field, *name) && are_alike(u, *of, *by) }
        (CExpr::Index { of, at }, CExpr::Index { of: by, at: index }) => {
            are_alike(u, *of, *by) && are_alike(u, *at, *index)
        }
        (
            CExpr::Operation {
                op,
                first,
                second,
                others,
            },
            CExpr::Operation {
                op: sign,
                first: left,
                second: right,
                others: further,
            },
        ) => {
            same_op(*op, *sign)
                && (are_alike(u, *first, *left)
                    && (are_alike(u, *second, *right)
                        && all_alike(u, e, other, others.as_slice(), further.as_slice())))
        }
        (CExpr::Cast { of, .. }, CExpr::Cast { of: by, .. }) => are_alike(u, *of, *by),
        (CExpr::Choice { met, .. }, CExpr::Choice { met: by, .. }) => are_alike(u, *met, *by),
        _ => false,
    }
}

// Whether the further operands of two operations are alike, one by one.
#[cycle(alike)]
fn all_alike(u: &Unit, e: CExprId, other: CExprId, operands: &[CExprId], others: &[CExprId]) -> bool
    requires one { e.0 < length u.now.exprs }
    requires other { other.0 < length u.now.exprs }
    requires below { HasExprs e.0 operands.now }
    requires others { HasExprs other.0 others.now }
    ensures { result ≡ all_alike_trees (operands_in (expr_of u.now) operands.now) (operands_in (expr_of u.now) others.now) }
{
    if operands.len() != others.len() {
        return false;
    }
    for i in 0..operands.len() {
        if !are_alike(u, operands[i], others[i]) {
            return false;
        }
    }
    true
}

fn same_op(a: COp, b: COp) -> bool
    ensures { result ≡ same_operators a b }
{
    a as u8 == b as u8
}

// Ors in what is calculated. gcc remarks on one that becomes a constant as it is converted.

ghost use Rattle.std.specs.Prelude.{◌≡◌, ◌<◌, length};
ghost use Rattle.c_text.specs.CFits.{HasExprs};
ghost use Rattle.c_text.specs.CNodes.{expr_of, operands_in};
ghost use Rattle.wf_exprs.specs.Exprs.{any_or as any_or_tree, has_or as has_or_tree, is_or as is_or_op};

use c_text::{CExpr, CExprId, COp, Unit};

pub(crate) fn is_or(op: COp) -> bool
    ensures { result ≡ is_or_op op }
{
    match op {
        COp::BitOr => true,
        _ => false,
    }
}

/// Whether an or stands anywhere in what is calculated: not in what a call is given, nor in an index. It takes no memory, recurses into
/// parts, and so goes as deep as expressions stand inside one another; the operands of a chain stand side by side.
#[cycle(ors)]
pub(crate) fn has_or(u: &Unit, e: CExprId) -> bool
    requires { e.0 < length u.now.exprs }
    ensures { result ≡ has_or_tree (expr_of u.now e.0) }
{
    match u.expr(e) {
        CExpr::Operation {
            op,
            first,
            second,
            others,
        } => {
            is_or(*op)
                || (has_or(u, *first) || (has_or(u, *second) || any_or(u, e, others.as_slice())))
        }
        CExpr::Cast { of, .. } => has_or(u, *of),
        _ => false,
    }
}

/// Whether one stands in one of the further operands of an operation.
#[cycle(ors)]
pub(crate) fn any_or(u: &Unit, e: CExprId, operands: &[CExprId]) -> bool
    requires one { e.0 < length u.now.exprs }
    requires below { HasExprs e.0 operands.now }
    ensures { result ≡ any_or_tree (operands_in (expr_of u.now) operands.now) }
{
    for i in 0..operands.len() {
        if has_or(u, operands[i]) {
            return true;
        }
    }
    false
}

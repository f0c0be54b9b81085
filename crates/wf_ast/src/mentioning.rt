// What an expression mentions.

ghost use Rattle.std.specs.Prelude.{◌≡◌, ◌<◌, length};
ghost use Rattle.wf_ast.specs.TypedTrees.{tree_of};
ghost use Rattle.wf_ast.specs.Mentions.{mentions as tree_mentions};
ghost use Rattle.wf_ast.specs.SameNodes.{head_mentions};

use crate::numbers::ExprId;
use crate::things::Thing;
use crate::typed::Typed;
use crate::typed_code::Expr;
use crate::types::Ty;

/// Whether an expression mentions a thing. A constant expression, which counts as its number, mentions nothing, and a
/// length mentions what it is the length of. It takes no memory. It recurses into parts, and so goes as deep as
/// expressions stand inside one another; the operands of a chain stand side by side.
pub fn mentions(t: &Typed, e: ExprId, x: Thing) -> bool
    requires { e.0 < length t.now.exprs }
    ensures { result ≡ tree_mentions (tree_of t.now e) x }
{
    let expr = t.expr(e);
    if t.constant(e).is_some() {
        return false;
    }
    if is_named(expr, t.type_of(e), x) {
        return true;
    }
    for i in 0..expr.parts() {
        if mentions(t, expr.part(i), x) {
            return true;
        }
    }
    false
}

// Whether an expression, which is no constant number, mentions a thing by itself, whatever its parts mention.
fn is_named(expr: &Expr, ty: Ty, x: Thing) -> bool
    ensures { result ≡ head_mentions x ty expr.now }
{
    match (expr, x) {
        (Expr::Local(n), Thing::Local(m)) => m.0 == n.0,
        (Expr::Local(_), Thing::SliceLocals) => matches!(ty, Ty::Slice(_) | Ty::Array { .. }),
        (Expr::Field(n), Thing::Field(m)) => m.0 == n.0,
        (Expr::Field(_), Thing::This) => true,
        (Expr::Arg(n), Thing::Arg(m)) => m.0 == n.0,
        (Expr::Arg(_), Thing::Args) => true,
        (Expr::Index { .. }, Thing::Element) => true,
        _ => false,
    }
}

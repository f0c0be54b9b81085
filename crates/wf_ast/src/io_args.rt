// The reader or writer that an expression names.

ghost use Rattle.std.specs.Prelude.{◌≡◌, IsTrue};
ghost use Rattle.wf_ast.specs.TypedTree.{arg};
ghost use Rattle.wf_ast.specs.TypedTrees.{named, io_in, place_of_node, tree_of, type_of_node};
ghost use Rattle.wf_ast.specs.TypedInvariant.{is_expr, is_io};

use crate::numbers::ExprId;
use crate::typed::Typed;
use crate::typed_code::Expr;
use crate::types::Ty;
use crate::variables::ArgId;

/// The argument that a reader or a writer is.
pub fn io_arg(t: &Typed, on: ExprId) -> ArgId
    requires on { IsTrue (is_expr t.now on) }
    requires kind { IsTrue (is_io (type_of_node t.now on.0)) }
    ensures { result.0 ≡ io_in (tree_of t.now on) }
{
    let expr = t.expr(on);
    match t.constant(on) {
        Some(_) => unreachable!(),
        None => match expr {
            Expr::Arg(x) => named_io(t, on, *x),
            Expr::Number(_) | Expr::Const(_) | Expr::Status(_) => unreachable!(),
            Expr::Truth(_) | Expr::Local(_) | Expr::Field(_) => unreachable!(),
            Expr::Index { .. } | Expr::Cut { .. } | Expr::Chain { .. } => unreachable!(),
            Expr::Convert { .. } | Expr::Not(_) | Expr::Base { .. } => unreachable!(),
        },
    }
}

fn named_io(t: &Typed, on: ExprId, x: ArgId) -> ArgId
    requires on { IsTrue (is_expr t.now on) }
    requires kind { IsTrue (is_io (type_of_node t.now on.0)) }
    requires tree { tree_of t.now on ≡ named (place_of_node t.now on.0) (type_of_node t.now on.0) (arg x.0) }
    ensures { result.0 ≡ io_in (tree_of t.now on) }
{
    match t.type_of(on) {
        Ty::Reader => x,
        Ty::Writer => x,
        Ty::Num { .. } | Ty::Flag | Ty::Status => unreachable!(),
        Ty::Slice(_) | Ty::Array { .. } | Ty::Part(_) => unreachable!(),
    }
}

// Where expressions stand.

ghost use Rattle.std.specs.Prelude.{◌≡◌, IsTrue};
ghost use Rattle.wf_ast.specs.TypedTrees.{tree_of};
ghost use Rattle.wf_ast.specs.TypedInvariant.{is_expr};
ghost use Rattle.wf_bounds_stmts.specs.Requirements.{place_of};

use wf_ast::{ExprId, Typed};
use wf_text::Place;

/// The place of an expression.
pub(crate) fn place(t: &Typed, e: ExprId) -> Place
    requires there { IsTrue (is_expr t.now e) }
    ensures { result ≡ place_of (tree_of t.now e) }
{
    let _expr = t.expr(e);
    t.expr_place(e)
}

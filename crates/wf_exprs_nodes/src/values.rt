// An expression of any kind that is a single value in C.

ghost use Rattle.std.specs.Prelude.{IsTrue, IfOk};
ghost use Rattle.wf_ast.specs.TypedTrees.{tree_of, type_of_node};
ghost use Rattle.wf_ast.specs.TypedInvariant.{is_expr};
ghost use Rattle.wf_exprs.specs.Grown.{Grows, HasExpr};
ghost use Rattle.wf_exprs_nodes.specs.Trees.{is_single, lowered_value};

use crate::conditions::condition;
use crate::numbers::given;
use crate::statuses::status;
use c_text::{CExprId, Unit};
use wf_ast::{ExprId, Ty};
use wf_exprs::BodyNames;
use wf_text::NoMemory;

/// An expression that is a single value, as it is assigned, passed or returned: a number, a truth value or a status.
pub fn lower_expr(scope: &BodyNames, u: &mut Unit, e: ExprId) -> Result<CExprId, NoMemory>
    requires node { IsTrue (is_expr scope.now.nodes e) }
    requires single { IsTrue (is_single (type_of_node scope.now.nodes e.0)) }
    ensures grows { Grows u.old u.new }
    ensures made { IfOk result (λ it. HasExpr u.new it.0 (lowered_value scope.now.names (tree_of scope.now.nodes e))) }
{
    match scope.typed().type_of(e) {
        Ty::Num { .. } => given(scope, u, e),
        Ty::Flag => condition(scope, u, e),
        Ty::Status => status(scope, u, e),
        Ty::Slice(_) | Ty::Array { .. } => unreachable!(),
        Ty::Reader | Ty::Writer | Ty::Part(_) => unreachable!(),
    }
}

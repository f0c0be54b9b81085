// Whether two expressions are seen at once to be two, by what stands at the heads of their trees.

ghost use Rattle.std.specs.Prelude.{◌≡◌, false, IsTrue};
ghost use Rattle.wf_ast.specs.declared.types.Ty.{Ty};
ghost use Rattle.wf_ast.specs.TypedTrees.{num_in, tree_of};
ghost use Rattle.wf_ast.specs.Same.{same_num};
ghost use Rattle.wf_ast.specs.SameNodes.{same_head};
ghost use Rattle.wf_ast.specs.NodeKinds.{is_number_at};
ghost use Rattle.wf_facts_exprs.specs.Shapes.{is_plain};

use wf_ast::{Expr, ExprId, Typed};

/// Whether two numeric expressions, of which the second is no constant, are two variables, or one is a variable and the other a
/// chain. Those that need a longer look are told apart elsewhere.
pub(crate) fn are_other_variables(t: &Typed, a: ExprId, b: ExprId) -> bool
    requires left { IsTrue (is_number_at t.now a) }
    requires right { IsTrue (is_number_at t.now b) }
    requires plain { IsTrue (is_plain (num_in (tree_of t.now b))) }
    ensures { IsTrue result → same_num (num_in (tree_of t.now a)) (num_in (tree_of t.now b)) ≡ false }
{
    let one = t.expr(a);
    let other = t.expr(b);
    have_other_heads(one, other)
}

#[tactic(auto, using(crate::proofs::HeadLemmas::other_variable))]
fn have_other_heads(a: &Expr, b: &Expr) -> bool
    ensures { IsTrue result → (s u : Ty) → same_head s u a.now b.now ≡ false }
{
    match (a, b) {
        (Expr::Local(m), Expr::Local(n)) => m.0 != n.0,
        (Expr::Field(m), Expr::Field(n)) => m.0 != n.0,
        (Expr::Arg(m), Expr::Arg(n)) => m.0 != n.0,
        (Expr::Local(_), Expr::Chain { .. }) => true,
        (Expr::Field(_), Expr::Chain { .. }) => true,
        (Expr::Arg(_), Expr::Chain { .. }) => true,
        (Expr::Chain { .. }, Expr::Local(_)) => true,
        (Expr::Chain { .. }, Expr::Field(_)) => true,
        (Expr::Chain { .. }, Expr::Arg(_)) => true,
        _ => false,
    }
}

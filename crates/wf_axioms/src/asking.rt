// What an axiom asks for where it is used for a goal.

ghost use Rattle.std.specs.Prelude.{◌≡◌, ◌≤◌, false, true, List, None, length, option_map, All, IfOk, IfSome, IsTrue};
ghost use Rattle.wf_ast.specs.declared.typed_nodes.TypedNodes.{TypedNodes};
ghost use Rattle.wf_ast.specs.TypedTrees.{cond_in, num_in, tree_of};
ghost use Rattle.wf_ast.specs.NodeKinds.{is_condition_at};
ghost use Rattle.wf_facts_exprs.specs.Claims.{Claim, is_side, side_in};
ghost use Rattle.wf_facts_exprs.specs.Demands.{cond_refusal, num_refusal};
ghost use Rattle.wf_axioms.specs.Axioms.{row_of};
ghost use Rattle.wf_axioms.specs.Matching.{claim_of, claims_of, given_trees, premises_for, side_of_term};
ghost use Rattle.wf_axioms.specs.Bindings.{trees_in, is_given_number, AreNumbers};
ghost use Rattle.wf_axioms.specs.Items.{answered, claim_of_item, claims_of_items, is_item, AreFineItems};

use crate::asked::{AxiomFault, Premises};
use crate::axioms::{Axiom, Term, premises_of};
use crate::binding::Binding;
use crate::given::bind_given;
use crate::matching::match_goal;
use wf_ast::{ExprId, TextId, Typed};
use wf_facts_exprs::{Cmp, Side};

/// What the axiom asks for where it is used for the goal with these letters given, each with its expression. It takes no
/// memory.
pub fn premises(
    a: Axiom,
    t: &Typed,
    goal: ExprId,
    given: &[(TextId, ExprId)],
) -> Result<Premises, AxiomFault>
    requires goal { IsTrue (is_condition_at t.now goal) }
    requires given { All (λ g. is_given_number t.now g ≡ true) given.now }
    ensures premises { answered t.now result ≡ premises_for a (cond_in (tree_of t.now goal)) (given_trees t.now given.now) }
    ensures count { IfOk result (λ p. p.count ≡ length (row_of a).premises) }
    ensures few { IfOk result (λ p. p.count ≤ 3) }
    ensures sides { IfOk result (λ p. All (λ i. is_item t.now i ≡ true) p.items) }
    ensures fine { IfOk result (λ p. (known : List Claim) → cond_refusal known (cond_in (tree_of t.now goal)) ≡ None → All (λ g. num_refusal known false (num_in (tree_of t.now g.1)) ≡ None) given.now → AreFineItems t.now known p) }
{
    match match_goal(a, t, goal) {
        None => Err(AxiomFault::NotTheForm),
        Some(b) => match bind_given(a, t, given, b) {
            None => Err(AxiomFault::UnboundLetter),
            Some(bound) => match items(premises_of(a), bound) {
                None => Err(AxiomFault::UnboundLetter),
                Some(p) => Ok(p),
            },
        },
    }
}

// The premises where these expressions stand for the letters; None where one of their letters stands for none.
fn items(asked: &[(Term, Cmp, Term)], b: Binding) -> Option<Premises>
    requires { length asked.now ≤ 3 }
    ensures claims { (nodes : TypedNodes) → option_map (claims_of_items nodes) result ≡ claims_of (trees_in nodes b) asked.now }
    ensures count { IfSome result (λ p. p.count ≡ length asked.now) }
    ensures sides { (nodes : TypedNodes) → AreNumbers nodes b → IfSome result (λ p. All (λ i. is_item nodes i ≡ true) p.items) }
{
    let mut made = Premises::none();
    for c in asked {
        made.push(item(*c, b)?);
    }
    Some(made)
}

fn item(c: (Term, Cmp, Term), b: Binding) -> Option<(Side, Cmp, Side)>
    ensures claim { (nodes : TypedNodes) → option_map (claim_of_item nodes) result ≡ claim_of (trees_in nodes b) c }
    ensures sides { (nodes : TypedNodes) → AreNumbers nodes b → IfSome result (λ i. is_item nodes i ≡ true) }
{
    let (first, op, second) = c;
    Some((side(first, b)?, op, side(second, b)?))
}

fn side(term: Term, b: Binding) -> Option<Side>
    ensures tree { (nodes : TypedNodes) → option_map (side_in nodes) result ≡ side_of_term (trees_in nodes b) term }
    ensures fits { (nodes : TypedNodes) → AreNumbers nodes b → IfSome result (λ s. is_side nodes s ≡ true) }
{
    match term {
        Term::One(l) => Some(Side::Expr(b.get(l)?)),
        Term::Sum(l, m) => Some(Side::Sum(b.get(l)?, b.get(m)?)),
        Term::Zero => Some(Side::Num(0)),
    }
}

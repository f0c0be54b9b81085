// Matching a goal with what follows by an axiom.

ghost use Rattle.std.specs.Prelude.{◌≡◌, ◌&&◌, option_map, map, nat_lt, IsTrue, IfSome};
ghost use Rattle.std.specs.List.{list_all};
ghost use Rattle.wf_ast.specs.TypedTrees.{num_in, cond_in, tree_of, chain_of, place_of_node, signs_of_node, operator_kind, type_of_node};
ghost use Rattle.wf_ast.specs.TypedInvariant.{chain_fits, is_expr, is_numeric, is_tree_of};
ghost use Rattle.wf_ast.specs.Same.{same_order};
ghost use Rattle.wf_ast.specs.NodeKinds.{is_number_at, is_condition_at};
ghost use Rattle.wf_facts_exprs.specs.Claims.{order_of};
ghost use Rattle.wf_facts_exprs.specs.Shapes.{is_sum_of_two as adds_two};
ghost use Rattle.wf_axioms.specs.Matching.{summands as summands_of, comparison_in, order_by, matched, matched_sides, matched_term};
ghost use Rattle.wf_axioms.specs.Bindings.{trees_in, AreNumbers};

use crate::axioms::{Axiom, Term, goal_of};
use crate::binding::{Binding, bind};
use wf_ast::{Expr, ExprId, Op, Ty, Typed};
use wf_facts_exprs::Cmp;

/// What the letters stand for where a condition has the form of what follows by the axiom; None where it hasn't.
pub(crate) fn match_goal(a: Axiom, t: &Typed, goal: ExprId) -> Option<Binding>
    requires { IsTrue (is_condition_at t.now goal) }
    ensures trees { option_map (trees_in t.now) result ≡ matched a (cond_in (tree_of t.now goal)) }
    ensures numbers { IfSome result (λ r. AreNumbers t.now r) }
{
    let (left, op, right) = comparison(t, goal)?;
    match_sides(a, t, left, op, right)
}

fn match_sides(a: Axiom, t: &Typed, left: ExprId, op: Cmp, right: ExprId) -> Option<Binding>
    requires left { IsTrue (is_number_at t.now left) }
    requires right { IsTrue (is_number_at t.now right) }
    ensures trees { option_map (trees_in t.now) result ≡ matched_sides a (num_in (tree_of t.now left), order_of op, num_in (tree_of t.now right)) }
    ensures numbers { IfSome result (λ r. AreNumbers t.now r) }
{
    let (first, form, second) = goal_of(a);
    if !same_cmp(op, form) {
        return None;
    }
    let bound = bind_term(t, first, left, Binding::empty())?;
    bind_term(t, second, right, bound)
}

fn same_cmp(op: Cmp, other: Cmp) -> bool
    ensures { result ≡ same_order (order_of op) (order_of other) }
{
    op as u8 == other as u8
}

// Matches a term with a number; None where it has another form, or where a letter stands for another tree.
fn bind_term(t: &Typed, term: Term, e: ExprId, b: Binding) -> Option<Binding>
    requires node { IsTrue (is_number_at t.now e) }
    requires bound { AreNumbers t.now b }
    ensures trees { option_map (trees_in t.now) result ≡ matched_term term (num_in (tree_of t.now e)) (trees_in t.now b) }
    ensures numbers { IfSome result (λ r. AreNumbers t.now r) }
{
    match term {
        Term::One(l) => bind(t, l, e, b),
        Term::Sum(l, m) => {
            let (x, y) = summands(t, e)?;
            bind(t, m, y, bind(t, l, x, b)?)
        }
        Term::Zero => None,
    }
}

// The operands of a `+` between two.
fn summands(t: &Typed, e: ExprId) -> Option<(ExprId, ExprId)>
    requires { IsTrue (is_number_at t.now e) }
    ensures trees { option_map (λ p. (num_in (tree_of t.now p.0), num_in (tree_of t.now p.1))) result ≡ summands_of (num_in (tree_of t.now e)) }
    ensures numbers { IfSome result (λ p. IsTrue (is_number_at t.now p.0 && is_number_at t.now p.1)) }
{
    let expr = t.expr(e);
    match t.constant(e) {
        Some(_) => None,
        None => match expr {
            Expr::Chain { op, parts } => operands(t, e, *op, parts.as_slice()),
            Expr::Number(_) | Expr::Const(_) => unreachable!(),
            Expr::Status(_) | Expr::Truth(_) => None,
            Expr::Local(_) => None,
            Expr::Field(_) => None,
            Expr::Arg(_) => None,
            Expr::Index { .. } => None,
            Expr::Cut { .. } | Expr::Not(_) => None,
            Expr::Convert { .. } => None,
            Expr::Base { .. } => None,
        },
    }
}

fn operands(t: &Typed, e: ExprId, op: Op, parts: &[ExprId]) -> Option<(ExprId, ExprId)>
    requires node { IsTrue (is_number_at t.now e) }
    requires tree { tree_of t.now e ≡ chain_of (place_of_node t.now e.0) (signs_of_node t.now e.0) (type_of_node t.now e.0) (operator_kind op) (map (tree_of t.now) parts.now) }
    requires fits { IsTrue (chain_fits t.now (operator_kind op) parts.now (type_of_node t.now e.0)) }
    requires below { IsTrue (list_all (λ p. nat_lt p.0 e.0) parts.now) }
    ensures trees { option_map (λ p. (num_in (tree_of t.now p.0), num_in (tree_of t.now p.1))) result ≡ summands_of (num_in (tree_of t.now e)) }
    ensures numbers { IfSome result (λ p. IsTrue (is_number_at t.now p.0 && is_number_at t.now p.1)) }
{
    if is_sum_of_two(op, parts) {
        Some((parts[0], parts[1]))
    } else {
        None
    }
}

fn is_sum_of_two(op: Op, parts: &[ExprId]) -> bool
    ensures { result ≡ adds_two op parts.now }
{
    matches!(op, Op::Add) && parts.len() == 2
}

// The two sides of a goal that compares numbers.
fn comparison(t: &Typed, goal: ExprId) -> Option<(ExprId, Cmp, ExprId)>
    requires { IsTrue (is_condition_at t.now goal) }
    ensures trees { option_map (λ p. (num_in (tree_of t.now p.0), order_of p.1, num_in (tree_of t.now p.2))) result ≡ comparison_in (cond_in (tree_of t.now goal)) }
    ensures numbers { IfSome result (λ p. IsTrue (is_number_at t.now p.0 && is_number_at t.now p.2)) }
{
    let expr = t.expr(goal);
    match t.constant(goal) {
        Some(_) => unreachable!(),
        None => match expr {
            Expr::Chain { op, parts } => compared(t, goal, *op, parts.as_slice()),
            Expr::Not(_) | Expr::Truth(_) => None,
            Expr::Local(_) => None,
            Expr::Field(_) => None,
            Expr::Arg(_) => None,
            Expr::Base { .. } => None,
            Expr::Number(_) | Expr::Const(_) | Expr::Status(_) => unreachable!(),
            Expr::Index { .. } | Expr::Cut { .. } | Expr::Convert { .. } => unreachable!(),
        },
    }
}

fn compared(t: &Typed, e: ExprId, op: Op, parts: &[ExprId]) -> Option<(ExprId, Cmp, ExprId)>
    requires node { IsTrue (is_condition_at t.now e) }
    requires tree { tree_of t.now e ≡ chain_of (place_of_node t.now e.0) (signs_of_node t.now e.0) (type_of_node t.now e.0) (operator_kind op) (map (tree_of t.now) parts.now) }
    requires fits { IsTrue (chain_fits t.now (operator_kind op) parts.now (type_of_node t.now e.0)) }
    requires below { IsTrue (list_all (λ p. nat_lt p.0 e.0) parts.now) }
    ensures trees { option_map (λ p. (num_in (tree_of t.now p.0), order_of p.1, num_in (tree_of t.now p.2))) result ≡ comparison_in (cond_in (tree_of t.now e)) }
    ensures numbers { IfSome result (λ p. IsTrue (is_number_at t.now p.0 && is_number_at t.now p.2)) }
{
    let cmp = cmp_of(op)?;
    look_at(t, parts[0]);
    if is_number(t, parts[0]) {
        Some((parts[0], cmp, parts[1]))
    } else {
        None
    }
}

// How an operator compares.
fn cmp_of(op: Op) -> Option<Cmp>
    ensures { option_map order_of result ≡ order_by (operator_kind op) }
{
    match op {
        Op::Same => Some(Cmp::Eq),
        Op::Differs => Some(Cmp::Ne),
        Op::Less => Some(Cmp::Lt),
        Op::LessOrSame => Some(Cmp::Le),
        Op::Greater => Some(Cmp::Gt),
        Op::GreaterOrSame => Some(Cmp::Ge),
        Op::Add | Op::Mul | Op::BitAnd | Op::BitOr | Op::BitXor | Op::And | Op::Or => None,
        Op::Sub | Op::Div | Op::Rem | Op::Shl | Op::Shr | Op::ModAdd | Op::ModSub => None,
        Op::ModMul | Op::ModShl | Op::SatAdd | Op::SatSub => None,
    }
}

fn is_number(t: &Typed, e: ExprId) -> bool
    requires { IsTrue (is_expr t.now e) }
    ensures { result ≡ is_numeric (type_of_node t.now e.0) }
{
    matches!(t.type_of(e), Ty::Num { .. })
}

// An expression's tree is of the kind of its type.
fn look_at(t: &Typed, e: ExprId)
    requires { IsTrue (is_expr t.now e) }
    ensures { IsTrue (is_tree_of (type_of_node t.now e.0) (tree_of t.now e)) }
{
    let _expr = t.expr(e);
}

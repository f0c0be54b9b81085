// Which conditions a list of facts gives.

ghost use Rattle.std.specs.Prelude.{◌≡◌, ◌&&◌, ◌||◌, map, false, true, nat_lt, IsTrue, None};
ghost use Rattle.std.specs.List.{list_all};
ghost use Rattle.wf_ast.specs.Same.{same_cond};
ghost use Rattle.wf_ast.specs.TypedTrees.{chain_of, place_of_node, signs_of_node, operator_kind, tree_of, type_of_node};
ghost use Rattle.wf_ast.specs.TypedInvariant.{chain_fits};
ghost use Rattle.wf_ast.specs.NodeKinds.{is_condition_at, is_number_at, node_cond, node_number};
ghost use Rattle.wf_ast.specs.OperatorForms.{is_joining};
ghost use Rattle.wf_facts_exprs.specs.Knowledge.{IsKnown, told};
ghost use Rattle.wf_facts_exprs.specs.Claims.{claim_in, claims_in, is_fact, order_of, same_claim, single, stands as standing_claim};
ghost use Rattle.wf_facts_exprs.specs.Demands.{cond_refusal, num_refusal};
ghost use Rattle.wf_facts_exprs.specs.Given.{gives as given, gives_sides as sides_given, is_standing};
ghost use Rattle.wf_facts_exprs.specs.Operands.{all_given, any_given, conds_refusal, is_condition_below};

use crate::facts::{Cmp, Fact, Side};
use crate::given::first_rule_at;
use crate::known::Known;
use crate::operands::{compared_by, is_number, joins, needs_all};
use crate::ranges::gives_sides;
use crate::shapes::look_at;
use wf_ast::{Expr, ExprId, Op, Typed, same};

/// Whether the facts give that a condition, whose demands are met, has this answer: `true` is yes, `false` is no. All
/// operands of `and` with yes, and of `or` with no, have to be given; of `and` with no, and of `or` with yes, one of them,
/// or the condition itself stands among the facts. It takes no memory, and recurses as deep as brackets nest.
#[cycle(giving)]
pub fn gives(t: &Typed, facts: &Known, e: ExprId, answer: bool) -> bool
    requires known { IsKnown t.now facts.now }
    requires node { IsTrue (is_condition_at t.now e) }
    requires fine { cond_refusal (claims_in t.now (told facts.now)) (node_cond t.now e) ≡ None }
    ensures { result ≡ given (claims_in t.now (told facts.now)) (node_cond t.now e) answer }
{
    let expr = t.expr(e);
    match t.constant(e) {
        Some(_) => unreachable!(),
        None => match expr {
            Expr::Chain { op, parts } => gives_chain(t, facts, e, *op, parts.as_slice(), answer),
            Expr::Not(of) => gives(t, facts, *of, !answer),
            Expr::Truth(value) => *value == answer || stands(t, facts, e, answer),
            Expr::Local(_) => stands(t, facts, e, answer),
            Expr::Field(_) => stands(t, facts, e, answer),
            Expr::Arg(_) => stands(t, facts, e, answer),
            Expr::Base { .. } => stands(t, facts, e, answer),
            Expr::Number(_) | Expr::Const(_) | Expr::Status(_) => unreachable!(),
            Expr::Index { .. } | Expr::Cut { .. } | Expr::Convert { .. } => unreachable!(),
        },
    }
}

#[cycle(giving)]
fn gives_chain(t: &Typed, facts: &Known, e: ExprId, op: Op, parts: &[ExprId], answer: bool) -> bool
    requires known { IsKnown t.now facts.now }
    requires node { IsTrue (is_condition_at t.now e) }
    requires tree { tree_of t.now e ≡ chain_of (place_of_node t.now e.0) (signs_of_node t.now e.0) (type_of_node t.now e.0) (operator_kind op) (map (tree_of t.now) parts.now) }
    requires fits { IsTrue (chain_fits t.now (operator_kind op) parts.now (type_of_node t.now e.0)) }
    requires below { IsTrue (list_all (λ p. nat_lt p.0 e.0) parts.now) }
    requires fine { cond_refusal (claims_in t.now (told facts.now)) (node_cond t.now e) ≡ None }
    ensures { result ≡ given (claims_in t.now (told facts.now)) (node_cond t.now e) answer }
{
    if !joins(op) {
        gives_comparison(t, facts, e, op, parts, answer)
    } else if needs_all(op, answer) {
        gives_all(t, facts, e, parts, answer)
    } else {
        gives_any(t, facts, e, parts, answer) || stands(t, facts, e, answer)
    }
}

#[cycle(giving)]
fn gives_all(t: &Typed, facts: &Known, e: ExprId, parts: &[ExprId], answer: bool) -> bool
    requires known { IsKnown t.now facts.now }
    requires parts { IsTrue (list_all (is_condition_below t.now e) parts.now) }
    requires fine { conds_refusal (claims_in t.now (told facts.now)) t.now parts.now ≡ None }
    ensures { result ≡ all_given (claims_in t.now (told facts.now)) t.now parts.now answer }
{
    for i in 0..parts.len() {
        if !gives(t, facts, parts[i], answer) {
            return false;
        }
    }
    true
}

#[cycle(giving)]
fn gives_any(t: &Typed, facts: &Known, e: ExprId, parts: &[ExprId], answer: bool) -> bool
    requires known { IsKnown t.now facts.now }
    requires parts { IsTrue (list_all (is_condition_below t.now e) parts.now) }
    requires fine { conds_refusal (claims_in t.now (told facts.now)) t.now parts.now ≡ None }
    ensures { result ≡ any_given (claims_in t.now (told facts.now)) t.now parts.now answer }
{
    for i in 0..parts.len() {
        if gives(t, facts, parts[i], answer) {
            return true;
        }
    }
    false
}

// Numbers are compared by the two rules; statuses stand or not.
fn gives_comparison(
    t: &Typed,
    facts: &Known,
    e: ExprId,
    op: Op,
    parts: &[ExprId],
    answer: bool,
) -> bool
    requires known { IsKnown t.now facts.now }
    requires node { IsTrue (is_condition_at t.now e) }
    requires tree { tree_of t.now e ≡ chain_of (place_of_node t.now e.0) (signs_of_node t.now e.0) (type_of_node t.now e.0) (operator_kind op) (map (tree_of t.now) parts.now) }
    requires fits { IsTrue (chain_fits t.now (operator_kind op) parts.now (type_of_node t.now e.0)) }
    requires below { IsTrue (list_all (λ p. nat_lt p.0 e.0) parts.now) }
    requires compares { is_joining (operator_kind op) ≡ false }
    requires fine { cond_refusal (claims_in t.now (told facts.now)) (node_cond t.now e) ≡ None }
    ensures { result ≡ given (claims_in t.now (told facts.now)) (node_cond t.now e) answer }
{
    look_at(t, parts[0]);
    if is_number(t, parts[0]) {
        gives_numbers(t, facts, parts[0], compared_by(op, answer), parts[1])
    } else {
        stands(t, facts, e, answer)
    }
}

fn gives_numbers(t: &Typed, facts: &Known, a: ExprId, op: Cmp, b: ExprId) -> bool
    requires known { IsKnown t.now facts.now }
    requires left { IsTrue (is_number_at t.now a) }
    requires right { IsTrue (is_number_at t.now b) }
    requires left_fine { num_refusal (claims_in t.now (told facts.now)) false (node_number t.now a) ≡ None }
    requires right_fine { num_refusal (claims_in t.now (told facts.now)) false (node_number t.now b) ≡ None }
    ensures { result ≡ sides_given (claims_in t.now (told facts.now)) (single (node_number t.now a)) (order_of op) (single (node_number t.now b)) }
{
    gives_sides(t, facts, Side::Expr(a), op, Side::Expr(b))
}

/// Whether the fact at a place of the list is seen by itself to give a comparison of two numbers. Where it isn't, `gives` looks further.
pub fn gives_at(t: &Typed, facts: &Known, place: usize, e: ExprId) -> bool
    requires known { IsKnown t.now facts.now }
    requires node { IsTrue (is_condition_at t.now e) }
    ensures { IsTrue result → given (claims_in t.now (told facts.now)) (node_cond t.now e) true ≡ true }
{
    let expr = t.expr(e);
    match expr {
        Expr::Chain { op, parts } => chain_given_at(t, facts, place, e, *op, parts.as_slice()),
        _ => false,
    }
}

// The same of a chain. One that joins conditions isn't looked at.
fn chain_given_at(
    t: &Typed,
    facts: &Known,
    place: usize,
    e: ExprId,
    op: Op,
    parts: &[ExprId],
) -> bool
    requires known { IsKnown t.now facts.now }
    requires node { IsTrue (is_condition_at t.now e) }
    requires tree { tree_of t.now e ≡ chain_of (place_of_node t.now e.0) (signs_of_node t.now e.0) (type_of_node t.now e.0) (operator_kind op) (map (tree_of t.now) parts.now) }
    requires fits { IsTrue (chain_fits t.now (operator_kind op) parts.now (type_of_node t.now e.0)) }
    requires below { IsTrue (list_all (λ p. nat_lt p.0 e.0) parts.now) }
    ensures { IsTrue result → given (claims_in t.now (told facts.now)) (node_cond t.now e) true ≡ true }
{
    if joins(op) {
        false
    } else {
        comparison_given_at(t, facts, place, e, op, parts)
    }
}

// The same of a comparison. One of statuses isn't looked at.
fn comparison_given_at(
    t: &Typed,
    facts: &Known,
    place: usize,
    e: ExprId,
    op: Op,
    parts: &[ExprId],
) -> bool
    requires known { IsKnown t.now facts.now }
    requires node { IsTrue (is_condition_at t.now e) }
    requires tree { tree_of t.now e ≡ chain_of (place_of_node t.now e.0) (signs_of_node t.now e.0) (type_of_node t.now e.0) (operator_kind op) (map (tree_of t.now) parts.now) }
    requires fits { IsTrue (chain_fits t.now (operator_kind op) parts.now (type_of_node t.now e.0)) }
    requires below { IsTrue (list_all (λ p. nat_lt p.0 e.0) parts.now) }
    requires compares { is_joining (operator_kind op) ≡ false }
    ensures { IsTrue result → given (claims_in t.now (told facts.now)) (node_cond t.now e) true ≡ true }
{
    look_at(t, parts[0]);
    if is_number(t, parts[0]) {
        numbers_given_at(t, facts, place, parts[0], compared_by(op, true), parts[1])
    } else {
        false
    }
}

fn numbers_given_at(t: &Typed, facts: &Known, place: usize, a: ExprId, op: Cmp, b: ExprId) -> bool
    requires known { IsKnown t.now facts.now }
    requires left { IsTrue (is_number_at t.now a) }
    requires right { IsTrue (is_number_at t.now b) }
    ensures { IsTrue result → sides_given (claims_in t.now (told facts.now)) (single (node_number t.now a)) (order_of op) (single (node_number t.now b)) ≡ true }
{
    first_rule_at(t, facts, place, Side::Expr(a), op, Side::Expr(b))
}

// Whether the condition itself stands among the facts, with this answer. Conditions have the head of numbers.
fn stands(t: &Typed, facts: &Known, e: ExprId, answer: bool) -> bool
    requires known { IsKnown t.now facts.now }
    requires node { IsTrue (is_condition_at t.now e) }
    ensures { result ≡ is_standing (claims_in t.now (told facts.now)) (node_cond t.now e) answer }
{
    let set = facts.heads.at(0);
    let n = facts.list.len();
    let mut i = set.first_but(facts.gone, 0, n);
    while i < n {
        if is_fact_of(t, facts.list[i], e, answer) {
            return true;
        }
        i = set.first_but(facts.gone, i + 1, n);
    }
    false
}

fn is_fact_of(t: &Typed, fact: Fact, e: ExprId, answer: bool) -> bool
    requires known { IsTrue (is_fact t.now fact) }
    requires node { IsTrue (is_condition_at t.now e) }
    ensures { result ≡ same_claim (claim_in t.now fact) (standing_claim (node_cond t.now e) answer) }
{
    match fact {
        Fact::Compare { .. } => false,
        Fact::Cond {
            expr,
            answer: known,
        } => known == answer && same_conditions(t, expr, e),
    }
}

fn same_conditions(t: &Typed, a: ExprId, b: ExprId) -> bool
    requires left { IsTrue (is_condition_at t.now a) }
    requires right { IsTrue (is_condition_at t.now b) }
    ensures { result ≡ same_cond (node_cond t.now a) (node_cond t.now b) }
{
    look_at(t, a);
    look_at(t, b);
    same(t, a, b)
}

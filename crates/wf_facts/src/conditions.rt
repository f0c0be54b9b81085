// The facts of a condition come into the list.

ghost use Rattle.std.specs.Prelude.{◌≡◌, ◌∷◌, [], map, nat_lt, false, true, if◌then◌else◌, IsTrue, OnOk, OnErr};
ghost use Rattle.std.specs.List.{list_all};
ghost use Rattle.wf_ast.specs.TypedTrees.{chain_of, place_of_node, signs_of_node, operator_kind, tree_of, type_of_node};
ghost use Rattle.wf_ast.specs.TypedInvariant.{chain_fits};
ghost use Rattle.wf_ast.specs.Value.{same_truth};
ghost use Rattle.wf_ast.specs.NodeKinds.{is_condition_at, is_number_at, node_cond, node_number};
ghost use Rattle.wf_ast.specs.OperatorForms.{is_joining};
ghost use Rattle.wf_facts_exprs.specs.Claims.{claim_in, claims_in, facts_of, flip as flipped, is_fact, order_of, stands, turned};
ghost use Rattle.wf_facts_exprs.specs.Operands.{is_condition_below};
ghost use Rattle.wf_facts.specs.FactLists.{added, all_added, with_condition};
ghost use Rattle.wf_facts.specs.Conditions.{StopsAt, facts_of_all};
ghost use Rattle.wf_facts.specs.IndexedFacts.{IsOver};

use crate::adding::Full;
use crate::forms::number;
use crate::list::Facts;
use wf_ast::{Expr, ExprId, Op, Typed};
use wf_facts_exprs::{Cmp, Fact, Side, compared_by, is_number, joins, needs_all};

impl Facts {
    /// Adds the facts of a condition that has this answer, in order: `true` is yes, `false` is no. `Full` comes exactly where
    /// one of them that doesn't stand is to be added to 512 others; the list then holds those before it. It takes no memory,
    /// and recurses as deep as brackets nest.
    #[cycle(adding_conditions)]
    pub fn add_condition(&mut self, t: &Typed, e: ExprId, answer: bool) -> Result<(), Full>
        requires condition { is_condition_at t.now e ≡ true }
        requires over { IsOver t.now self.old }
        ensures over { IsOver t.now self.new }
        ensures ok { OnOk result (claims_in t.now self.new.list ≡ with_condition (claims_in t.now self.old.list) (node_cond t.now e) answer) }
        ensures full { OnErr result (StopsAt (claims_in t.now self.old.list) (facts_of (node_cond t.now e) answer) (claims_in t.now self.new.list)) }
    {
        let expr = t.expr(e);
        match t.constant(e) {
            Some(_) => unreachable!(),
            None => match expr {
                Expr::Chain { op, parts } => self.add_chain(t, e, *op, parts.as_slice(), answer),
                Expr::Not(of) => self.add_condition(t, *of, !answer),
                Expr::Truth(value) => self.add_truth(t, e, *value, answer),
                Expr::Local(_) => self.add_whole(t, e, answer),
                Expr::Field(_) => self.add_whole(t, e, answer),
                Expr::Arg(_) => self.add_whole(t, e, answer),
                Expr::Base { .. } => self.add_whole(t, e, answer),
                Expr::Number(_) | Expr::Const(_) | Expr::Status(_) => unreachable!(),
                Expr::Index { .. } | Expr::Cut { .. } | Expr::Convert { .. } => unreachable!(),
            },
        }
    }

    // The facts of `and` and `or`, and of comparisons.
    #[cycle(adding_conditions)]
    fn add_chain(
        &mut self,
        t: &Typed,
        e: ExprId,
        op: Op,
        parts: &[ExprId],
        answer: bool,
    ) -> Result<(), Full>
        requires condition { is_condition_at t.now e ≡ true }
        requires tree { tree_of t.now e ≡ chain_of (place_of_node t.now e.0) (signs_of_node t.now e.0) (type_of_node t.now e.0) (operator_kind op) (map (tree_of t.now) parts.now) }
        requires fits { IsTrue (chain_fits t.now (operator_kind op) parts.now (type_of_node t.now e.0)) }
        requires below { IsTrue (list_all (λ p. nat_lt p.0 e.0) parts.now) }
        requires over { IsOver t.now self.old }
        ensures over { IsOver t.now self.new }
        ensures ok { OnOk result (claims_in t.now self.new.list ≡ with_condition (claims_in t.now self.old.list) (node_cond t.now e) answer) }
        ensures full { OnErr result (StopsAt (claims_in t.now self.old.list) (facts_of (node_cond t.now e) answer) (claims_in t.now self.new.list)) }
    {
        if !joins(op) {
            self.add_comparison(t, e, op, parts, answer)
        } else if needs_all(op, answer) {
            self.add_all(t, e, parts, answer)
        } else {
            self.add_whole(t, e, answer)
        }
    }

    // Those of several conditions, in order.
    #[cycle(adding_conditions)]
    fn add_all(&mut self, t: &Typed, e: ExprId, parts: &[ExprId], answer: bool) -> Result<(), Full>
        requires parts { IsTrue (list_all (is_condition_below t.now e) parts.now) }
        requires over { IsOver t.now self.old }
        ensures over { IsOver t.now self.new }
        ensures ok { OnOk result (claims_in t.now self.new.list ≡ all_added (claims_in t.now self.old.list) (facts_of_all t.now answer parts.now)) }
        ensures full { OnErr result (StopsAt (claims_in t.now self.old.list) (facts_of_all t.now answer parts.now) (claims_in t.now self.new.list)) }
    {
        for i in 0..parts.len() {
            self.add_condition(t, parts[i], answer)?;
        }
        Ok(())
    }

    // A comparison of numbers is a fact of its own, with no its complement; one of statuses stands as it is.
    fn add_comparison(
        &mut self,
        t: &Typed,
        e: ExprId,
        op: Op,
        parts: &[ExprId],
        answer: bool,
    ) -> Result<(), Full>
        requires condition { is_condition_at t.now e ≡ true }
        requires tree { tree_of t.now e ≡ chain_of (place_of_node t.now e.0) (signs_of_node t.now e.0) (type_of_node t.now e.0) (operator_kind op) (map (tree_of t.now) parts.now) }
        requires fits { IsTrue (chain_fits t.now (operator_kind op) parts.now (type_of_node t.now e.0)) }
        requires below { IsTrue (list_all (λ p. nat_lt p.0 e.0) parts.now) }
        requires compares { is_joining (operator_kind op) ≡ false }
        requires over { IsOver t.now self.old }
        ensures over { IsOver t.now self.new }
        ensures ok { OnOk result (claims_in t.now self.new.list ≡ with_condition (claims_in t.now self.old.list) (node_cond t.now e) answer) }
        ensures full { OnErr result (StopsAt (claims_in t.now self.old.list) (facts_of (node_cond t.now e) answer) (claims_in t.now self.new.list)) }
    {
        let _first = t.expr(parts[0]);
        if is_number(t, parts[0]) {
            self.add_fact(
                t,
                comparison(t, parts[0], compared_by(op, answer), parts[1]),
            )
        } else {
            self.add_whole(t, e, answer)
        }
    }

    // What is plain has no facts.
    fn add_truth(&mut self, t: &Typed, e: ExprId, value: bool, answer: bool) -> Result<(), Full>
        requires condition { is_condition_at t.now e ≡ true }
        requires over { IsOver t.now self.old }
        ensures over { IsOver t.now self.new }
        ensures ok { OnOk result (claims_in t.now self.new.list ≡ all_added (claims_in t.now self.old.list) (if same_truth value answer then [] else stands (node_cond t.now e) answer ∷ [])) }
        ensures full { OnErr result (StopsAt (claims_in t.now self.old.list) (if same_truth value answer then [] else stands (node_cond t.now e) answer ∷ []) (claims_in t.now self.new.list)) }
    {
        if value == answer {
            Ok(())
        } else {
            self.add_whole(t, e, answer)
        }
    }

    // The condition itself, as a fact.
    fn add_whole(&mut self, t: &Typed, e: ExprId, answer: bool) -> Result<(), Full>
        requires condition { is_condition_at t.now e ≡ true }
        requires over { IsOver t.now self.old }
        ensures over { IsOver t.now self.new }
        ensures ok { OnOk result (claims_in t.now self.new.list ≡ added (claims_in t.now self.old.list) (stands (node_cond t.now e) answer)) }
        ensures full { OnErr result (StopsAt (claims_in t.now self.old.list) (stands (node_cond t.now e) answer ∷ []) (claims_in t.now self.new.list)) }
    {
        self.add_fact(t, Fact::Cond { expr: e, answer })
    }

    fn add_fact(&mut self, t: &Typed, f: Fact) -> Result<(), Full>
        requires fact { is_fact t.now f ≡ true }
        requires over { IsOver t.now self.old }
        ensures over { IsOver t.now self.new }
        ensures ok { OnOk result (claims_in t.now self.new.list ≡ added (claims_in t.now self.old.list) (claim_in t.now f)) }
        ensures full { OnErr result (StopsAt (claims_in t.now self.old.list) (claim_in t.now f ∷ []) (claims_in t.now self.new.list)) }
    {
        self.push(t, f)
    }
}

// A comparison of two numbers, turned round where a constant stands on the left.
fn comparison(t: &Typed, a: ExprId, op: Cmp, b: ExprId) -> Fact
    requires left { is_number_at t.now a ≡ true }
    requires right { is_number_at t.now b ≡ true }
    ensures claim { claim_in t.now result ≡ turned (node_number t.now a) (order_of op) (node_number t.now b) }
    ensures fact { is_fact t.now result ≡ true }
{
    match number(t, a) {
        Some(_) => Fact::Compare {
            left: Side::Expr(b),
            op: flip(op),
            right: Side::Expr(a),
        },
        None => Fact::Compare {
            left: Side::Expr(a),
            op,
            right: Side::Expr(b),
        },
    }
}

// The comparison with its sides exchanged.
fn flip(op: Cmp) -> Cmp
    ensures { order_of result ≡ flipped (order_of op) }
{
    match op {
        Cmp::Lt => Cmp::Gt,
        Cmp::Le => Cmp::Ge,
        Cmp::Eq => Cmp::Eq,
        Cmp::Ne => Cmp::Ne,
        Cmp::Ge => Cmp::Le,
        Cmp::Gt => Cmp::Lt,
    }
}

// Assertions, alone and by an axiom.

ghost use Rattle.std.specs.Prelude.{◌≡◌, ◌<◌, ◌≤◌, length, map, take, false, true, All, IsTrue, None};
ghost use Rattle.wf_text.specs.declared.rules.Rule.TheVariants.{B6, B7};
ghost use Rattle.wf_ast.specs.TypedTrees.{axiom_made, text_of, tree_of};
ghost use Rattle.wf_ast.specs.NodeKinds.{is_condition_at, is_number_at, node_cond, node_number};
ghost use Rattle.wf_facts_exprs.specs.Knowledge.{IsKnown, told};
ghost use Rattle.wf_facts_exprs.specs.Claims.{claims_in};
ghost use Rattle.wf_facts_exprs.specs.Demands.{cond_refusal, demand, num_refusal, or_else, unless_refused};
ghost use Rattle.wf_facts.specs.FactLists.{with_condition};
ghost use Rattle.wf_facts.specs.IndexedFacts.{IsOver};
ghost use Rattle.wf_axioms.specs.Axioms.{row_of};
ghost use Rattle.wf_axioms.specs.Bindings.{is_given_number};
ghost use Rattle.wf_axioms.specs.Items.{claim_of_item, claims_of_items, is_item, AreFineItems, IsFine};
ghost use Rattle.wf_axioms.specs.Matching.{given_trees, premises_for};
ghost use Rattle.wf_loops.specs.LoopRules.{required};
ghost use Rattle.wf_bounds_stmts.specs.Assertions.{axiom_named, axiom_refusal, claim_given, claim_refusal, given_refusal, inside_text as place_inside, matched_refusal, premise_offsets as offsets_of, premises_refusal};
ghost use Rattle.wf_bounds_stmts.specs.AssertionNodes.{IsAxiomOf, MayBeAxiomOf};
ghost use Rattle.wf_bounds_stmts.specs.Outcomes.{Answers};

use crate::limits::look_at;
use wf_ast::{AxiomRef, ExprId, TextId, Typed};
use wf_axioms::{Axiom, Premises, axiom, premises};
use wf_facts::Facts;
use wf_facts_exprs::{Cmp, Known, Side, check_value, gives, gives_sides};
use wf_text::{Place, Refusal, Rule};

/// An assertion. A refusal is the first of what it requires, or that of a list which would hold too much, at the statement's
/// first token `at`.
pub(crate) fn assert(
    t: &Typed,
    facts: &mut Facts,
    at: Place,
    goal: ExprId,
    by: &Option<AxiomRef>,
) -> Result<(), Refusal>
    requires goal { IsTrue (is_condition_at t.now goal) }
    requires by { MayBeAxiomOf t.now by.now }
    requires over { IsOver t.now facts.old }
    ensures over { IsOver t.now facts.new }
    ensures answers { Answers t.now at (claim_refusal (claims_in t.now facts.old.list) at (node_cond t.now goal) (axiom_made t.now (tree_of t.now) by.now)) (with_condition (claims_in t.now facts.old.list) (node_cond t.now goal) true) result facts.new }
{
    check_assertion(t, &facts.as_known(t), at, goal, by)?;
    facts
        .add_condition(t, goal, true)
        .map_err(|_| Refusal { rule: Rule::L8, at })?;
    facts.keeps_limit();
    Ok(())
}

/// Checks what an assertion requires.
fn check_assertion(
    t: &Typed,
    facts: &Known,
    at: Place,
    goal: ExprId,
    by: &Option<AxiomRef>,
) -> Result<(), Refusal>
    requires known { IsKnown t.now facts.now }
    requires goal { IsTrue (is_condition_at t.now goal) }
    requires by { MayBeAxiomOf t.now by.now }
    ensures { result ≡ unless_refused (claim_refusal (claims_in t.now (told facts.now)) at (node_cond t.now goal) (axiom_made t.now (tree_of t.now) by.now)) tt }
{
    match by {
        None => check_required(t, facts, at, goal),
        Some(by) => check_by_axiom(t, facts, goal, by),
    }
}

// Without an axiom the condition has a value, and is given.
fn check_required(t: &Typed, facts: &Known, at: Place, goal: ExprId) -> Result<(), Refusal>
    requires known { IsKnown t.now facts.now }
    requires goal { IsTrue (is_condition_at t.now goal) }
    ensures { result ≡ unless_refused (required (claims_in t.now (told facts.now)) B6 at (node_cond t.now goal)) tt }
{
    check_condition(t, facts, goal)?;
    if gives(t, facts, goal, true) {
        Ok(())
    } else {
        Err(Refusal { rule: Rule::B6, at })
    }
}

// By an axiom the condition and what is given for letters have values, and all premises are given.
fn check_by_axiom(t: &Typed, facts: &Known, goal: ExprId, by: &AxiomRef) -> Result<(), Refusal>
    requires known { IsKnown t.now facts.now }
    requires goal { IsTrue (is_condition_at t.now goal) }
    requires by { IsAxiomOf t.now by.now }
    ensures { result ≡ unless_refused (or_else (cond_refusal (claims_in t.now (told facts.now)) (node_cond t.now goal)) (or_else (given_refusal (claims_in t.now (told facts.now)) (given_trees t.now by.now.given)) (axiom_refusal (claims_in t.now (told facts.now)) by.now.at (node_cond t.now goal) (given_trees t.now by.now.given) (axiom_named (text_of t.now by.now.name))))) tt }
{
    check_condition(t, facts, goal)?;
    check_given(t, facts, by.given.as_slice())?;
    check_axiom(t, facts, goal, by)
}

// The axiom that is named is known, matches, and has its premises.
fn check_axiom(t: &Typed, facts: &Known, goal: ExprId, by: &AxiomRef) -> Result<(), Refusal>
    requires known { IsKnown t.now facts.now }
    requires goal { IsTrue (is_condition_at t.now goal) }
    requires by { IsAxiomOf t.now by.now }
    requires fine { cond_refusal (claims_in t.now (told facts.now)) (node_cond t.now goal) ≡ None }
    requires given_fine { given_refusal (claims_in t.now (told facts.now)) (given_trees t.now by.now.given) ≡ None }
    ensures { result ≡ unless_refused (axiom_refusal (claims_in t.now (told facts.now)) by.now.at (node_cond t.now goal) (given_trees t.now by.now.given) (axiom_named (text_of t.now by.now.name))) tt }
{
    let named = axiom(t.text(by.name));
    match named {
        Some(a) => check_matched(t, facts, by.at, a, goal, by.given.as_slice()),
        None => Err(Refusal {
            rule: Rule::B6,
            at: by.at,
        }),
    }
}

fn check_matched(
    t: &Typed,
    facts: &Known,
    text_at: Place,
    a: Axiom,
    goal: ExprId,
    given: &[(TextId, ExprId)],
) -> Result<(), Refusal>
    requires known { IsKnown t.now facts.now }
    requires goal { IsTrue (is_condition_at t.now goal) }
    requires given { All (λ g. is_given_number t.now g ≡ true) given.now }
    requires fine { cond_refusal (claims_in t.now (told facts.now)) (node_cond t.now goal) ≡ None }
    requires given_fine { given_refusal (claims_in t.now (told facts.now)) (given_trees t.now given.now) ≡ None }
    ensures { result ≡ unless_refused (matched_refusal (claims_in t.now (told facts.now)) text_at a (premises_for a (node_cond t.now goal) (given_trees t.now given.now))) tt }
{
    let p = premises(a, t, goal, given).map_err(|_| Refusal {
        rule: Rule::B6,
        at: text_at,
    })?;
    check_premises(t, facts, text_at, a, p)
}

// All premises are given, in order.
fn check_premises(
    t: &Typed,
    facts: &Known,
    text_at: Place,
    a: Axiom,
    p: Premises,
) -> Result<(), Refusal>
    requires known { IsKnown t.now facts.now }
    requires count { p.count ≡ length (row_of a).premises }
    requires few { p.count ≤ 3 }
    requires sides { All (λ i. is_item t.now i ≡ true) p.items }
    requires fine { AreFineItems t.now (claims_in t.now (told facts.now)) p }
    ensures { result ≡ unless_refused (premises_refusal (claims_in t.now (told facts.now)) (map (place_inside text_at) (offsets_of a)) (claims_of_items t.now p)) tt }
{
    let offsets = premise_offsets(a);
    for i in 0..p.count as usize {
        check_premise(t, facts, p.items[i], inside_text(text_at, offsets[i]))?;
    }
    Ok(())
}

fn check_premise(
    t: &Typed,
    facts: &Known,
    item: (Side, Cmp, Side),
    at: Place,
) -> Result<(), Refusal>
    requires known { IsKnown t.now facts.now }
    requires sides { IsTrue (is_item t.now item) }
    requires fine { IsFine (claims_in t.now (told facts.now)) (claim_of_item t.now item) }
    ensures { result ≡ unless_refused (demand (claim_given (claims_in t.now (told facts.now)) (claim_of_item t.now item)) B7 at) tt }
{
    let (left, op, right) = item;
    if gives_sides(t, facts, left, op, right) {
        Ok(())
    } else {
        Err(Refusal { rule: Rule::B7, at })
    }
}

// Where the premises of an axiom begin in its text. An axiom that has fewer than three needs only the first of these.
fn premise_offsets(a: Axiom) -> [u8; 3]
    ensures { take (length (row_of a).premises) result ≡ offsets_of a }
{
    match a {
        Axiom::LtByGt | Axiom::GtByLt => [7, 0, 0],
        Axiom::LtByLtLt | Axiom::LtByLtEq | Axiom::LtByLtLe => [7, 14, 0],
        Axiom::LtByEqLt | Axiom::LtByLeLt => [7, 15, 0],
        Axiom::LeByGe | Axiom::GeByLe | Axiom::LeByLt => [8, 0, 0],
        Axiom::LeByLeLe | Axiom::LeByLeEq | Axiom::LeByEqLe | Axiom::EqByLeLe => [8, 16, 0],
        Axiom::LtSum => [13, 20, 0],
        Axiom::LtSums => [13, 28, 37],
        Axiom::LeSum => [14, 0, 0],
        Axiom::SumsByLeLe => [20, 28, 0],
    }
}

// The place of a byte inside a text, whose opening quote stands at `text_at`.
fn inside_text(text_at: Place, offset: u8) -> Place
    ensures { result ≡ place_inside text_at offset }
{
    Place {
        file: text_at.file,
        line: text_at.line,
        col: text_at.col.saturating_add(1 + offset as u32),
    }
}

// What is given for letters has values, in written order.
fn check_given(t: &Typed, facts: &Known, given: &[(TextId, ExprId)]) -> Result<(), Refusal>
    requires known { IsKnown t.now facts.now }
    requires given { All (λ g. is_given_number t.now g ≡ true) given.now }
    ensures { result ≡ unless_refused (given_refusal (claims_in t.now (told facts.now)) (given_trees t.now given.now)) tt }
{
    for i in 0..given.len() {
        check_number(t, facts, given[i].1)?;
    }
    Ok(())
}

// A number has a value.
fn check_number(t: &Typed, facts: &Known, e: ExprId) -> Result<(), Refusal>
    requires known { IsKnown t.now facts.now }
    requires number { IsTrue (is_number_at t.now e) }
    ensures { result ≡ unless_refused (num_refusal (claims_in t.now (told facts.now)) false (node_number t.now e)) tt }
{
    look_at(t, e);
    check_value(t, facts, e)
}

// A condition has a value.
fn check_condition(t: &Typed, facts: &Known, e: ExprId) -> Result<(), Refusal>
    requires known { IsKnown t.now facts.now }
    requires condition { IsTrue (is_condition_at t.now e) }
    ensures { result ≡ unless_refused (cond_refusal (claims_in t.now (told facts.now)) (node_cond t.now e)) tt }
{
    look_at(t, e);
    check_value(t, facts, e)
}

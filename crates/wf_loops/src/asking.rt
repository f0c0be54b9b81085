// Which promises of a loop are required, and where.

ghost use Rattle.std.specs.Prelude.{◌≡◌, true, IsTrue};
ghost use Rattle.wf_ast.specs.NodeKinds.{is_condition_at, node_cond};
ghost use Rattle.wf_facts_exprs.specs.Knowledge.{IsKnown, told};
ghost use Rattle.wf_facts_exprs.specs.Claims.{claims_in};
ghost use Rattle.wf_facts_exprs.specs.Demands.{unless_refused};
ghost use Rattle.wf_facts_exprs.specs.Given.{gives as given};
ghost use Rattle.wf_facts.specs.IndexedFacts.{IsOver};
ghost use Rattle.wf_loops.specs.LoopRules.{is_asked as asked_at, rule_of as rule_of_clause, required, promises_refusal, entry_refusal, way_back_refusal, break_refusal, exit_refusal};
ghost use Rattle.wf_loops.specs.LoopNodes.{is_loop, head_at, place_at, are_conditions, promises_in, Decides};

use crate::lists::add;
use crate::loops::{head_of, is_word_true, place_of};
use crate::moments::Moment;
use std::alloc::Global;
use wf_ast::{Clause, ExprId, StmtId, Typed};
use wf_facts::Facts;
use wf_facts_exprs::{Known, check_value, gives, gives_at};
use wf_text::{PhaseFault, Place, Refusal, Rule};

/// Where a loop is entered under these facts: each `pre` and each `inv` in written order has a value, and is given. Err
/// tells the first that doesn't: a value's own rule and place, or B10 for a `pre` and B11 for an `inv`, at the `while`.
pub fn enter(facts: &Facts, t: &Typed, w: StmtId) -> Result<(), Refusal>
    requires known { IsOver t.now facts.now }
    requires is_loop { is_loop t.now w ≡ true }
    ensures { result ≡ unless_refused (entry_refusal (claims_in t.now facts.now.list) (place_at t.now w) (head_at t.now w)) tt }
{
    ask(facts, t, w, Moment::Test, place_of(t, w))
}

/// On a way back to a loop's head under these facts: what its entry asks. `at` is the place of the `continue`, or of the
/// body's closing brace.
pub fn way_back(facts: &Facts, t: &Typed, w: StmtId, at: Place) -> Result<(), Refusal>
    requires known { IsOver t.now facts.now }
    requires is_loop { is_loop t.now w ≡ true }
    ensures { result ≡ unless_refused (way_back_refusal (claims_in t.now facts.now.list) at (head_at t.now w)) tt }
{
    ask(facts, t, w, Moment::Test, at)
}

/// At a `break` under these facts: each `inv` and each `post` in written order has a value, and is given. Err tells the
/// first that doesn't: a value's own rule and place, or B11 for an `inv` and B12 for a `post`, at the place of the `break`.
pub fn at_break(facts: &Facts, t: &Typed, w: StmtId, at: Place) -> Result<(), Refusal>
    requires known { IsOver t.now facts.now }
    requires is_loop { is_loop t.now w ≡ true }
    ensures { result ≡ unless_refused (break_refusal (claims_in t.now facts.now.list) at (head_at t.now w)) tt }
{
    ask(facts, t, w, Moment::Leave, at)
}

/// Where a loop's condition ends it, under the facts of its head and those of the condition that doesn't hold: each `inv`
/// and each `post` has a value, and is given. The word `true` never ends a loop. Err tells the first that isn't met, as a
/// `break` does, at the `while`; or L8 there, where a list would get more than 512 facts.
pub fn at_exit(alloc: Global, head: &Facts, t: &Typed, w: StmtId) -> Result<(), PhaseFault>
    requires over { IsOver t.now head.now }
    requires is_loop { is_loop t.now w ≡ true }
    ensures { Decides (exit_refusal (claims_in t.now head.now.list) (place_at t.now w) (head_at t.now w)) result }
{
    let cond = head_of(t, w).cond;
    if is_word_true(t, cond) {
        return Ok(());
    }
    let at = place_of(t, w);
    let mut facts = head.copy(alloc)?;
    add(&mut facts, t, cond, false, at)?;
    ask(&facts, t, w, Moment::Leave, at)?;
    Ok(())
}

// The promises of a loop at a moment, under these facts.
fn ask(facts: &Facts, t: &Typed, w: StmtId, moment: Moment, at: Place) -> Result<(), Refusal>
    requires known { IsOver t.now facts.now }
    requires is_loop { is_loop t.now w ≡ true }
    ensures { result ≡ unless_refused (promises_refusal moment (claims_in t.now facts.now.list) at (head_at t.now w).clauses) tt }
{
    let head = head_of(t, w);
    require_promises(t, &facts.as_known(t), head.clauses.as_slice(), moment, at)
}

// The promises of a moment, in order. Most stand among the facts in the order in which the loop's head has them, so each is looked
// for first behind where the one before it stood.
fn require_promises(
    t: &Typed,
    facts: &Known,
    clauses: &[(Clause, ExprId)],
    moment: Moment,
    at: Place,
) -> Result<(), Refusal>
    requires known { IsKnown t.now facts.now }
    requires conditions { are_conditions t.now clauses.now ≡ true }
    ensures { result ≡ unless_refused (promises_refusal moment (claims_in t.now (told facts.now)) at (promises_in t.now clauses.now)) tt }
{
    let mut next = 0;
    for i in 0..clauses.len() {
        let (clause, cond) = clauses[i];
        let stands = gives_at(t, facts, next, cond);
        if is_asked(moment, clause) {
            require(t, facts, cond, stands, rule_of(clause), at)?;
        }
        next += stands as usize;
    }
    Ok(())
}

// Whether a promise is asked at a moment.
pub(crate) fn is_asked(moment: Moment, clause: Clause) -> bool
    ensures { result ≡ asked_at moment clause }
{
    match moment {
        Moment::Test => !matches!(clause, Clause::Post),
        Moment::Leave => !matches!(clause, Clause::Pre),
    }
}

// The rule of a promise that isn't given.
fn rule_of(clause: Clause) -> Rule
    ensures { result ≡ rule_of_clause clause }
{
    match clause {
        Clause::Pre => Rule::B10,
        Clause::Inv => Rule::B11,
        Clause::Post => Rule::B12,
    }
}

// A condition has a value under these facts, and is given: `stands` where that is known.
fn require(
    t: &Typed,
    facts: &Known,
    e: ExprId,
    stands: bool,
    rule: Rule,
    at: Place,
) -> Result<(), Refusal>
    requires known { IsKnown t.now facts.now }
    requires condition { is_condition_at t.now e ≡ true }
    requires stands { IsTrue stands → given (claims_in t.now (told facts.now)) (node_cond t.now e) true ≡ true }
    ensures { result ≡ unless_refused (required (claims_in t.now (told facts.now)) rule at (node_cond t.now e)) tt }
{
    let _node = t.expr(e);
    check_value(t, facts, e)?;
    if stands || gives(t, facts, e, true) {
        Ok(())
    } else {
        Err(Refusal { rule, at })
    }
}

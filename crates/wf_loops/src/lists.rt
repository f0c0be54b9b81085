// The facts that stand at a loop's head, and after it.

ghost use Rattle.std.specs.Prelude.{◌≡◌, ◌≤◌, length, true, OnOk};
ghost use Rattle.wf_ast.specs.NodeKinds.{is_condition_at, node_cond};
ghost use Rattle.wf_facts_exprs.specs.Claims.{claims_in};
ghost use Rattle.wf_facts_exprs.specs.Demands.{unless_refused};
ghost use Rattle.wf_facts.specs.FactLists.{with_condition};
ghost use Rattle.wf_facts.specs.IndexedFacts.{IsOver};
ghost use Rattle.wf_loops.specs.LoopRules.{with_promises, limit, head_list, after_list};
ghost use Rattle.wf_loops.specs.LoopNodes.{is_loop, head_at, place_at, are_conditions, promises_in, Makes};

use crate::asking::is_asked;
use crate::loops::{head_of, place_of};
use crate::moments::Moment;
use std::alloc::Global;
use wf_ast::{Clause, ExprId, StmtId, Typed};
use wf_facts::Facts;
use wf_text::{PhaseFault, Place, Refusal, Rule};

/// What is known at a loop's head: the facts of each `pre` and each `inv`, in written order. L8 at the `while` comes
/// exactly where they are more than 512.
pub fn head_facts(alloc: Global, t: &Typed, w: StmtId) -> Result<Facts, PhaseFault>
    requires { is_loop t.now w ≡ true }
    ensures { Makes t.now (place_at t.now w) (head_list (head_at t.now w)) result }
{
    let head = head_of(t, w);
    let at = place_of(t, w);
    let clauses = head.clauses.as_slice();
    let mut facts = Facts::new(alloc)?;
    add_promises(&mut facts, t, clauses, Moment::Test, at)?;
    Ok(facts)
}

/// What is known after a loop: the facts of each `inv` and each `post`, in written order, and, where no `break` leaves the
/// loop, those of its condition that doesn't hold. L8 at the `while` comes exactly where they are more than 512.
pub fn after_facts(alloc: Global, t: &Typed, w: StmtId) -> Result<Facts, PhaseFault>
    requires { is_loop t.now w ≡ true }
    ensures { Makes t.now (place_at t.now w) (after_list (head_at t.now w)) result }
{
    let head = head_of(t, w);
    let at = place_of(t, w);
    let clauses = head.clauses.as_slice();
    let mut facts = Facts::new(alloc)?;
    add_promises(&mut facts, t, clauses, Moment::Leave, at)?;
    if !head.has_break {
        add(&mut facts, t, head.cond, false, at)?;
    }
    Ok(facts)
}

// The facts of the promises of a moment, in order. L8 comes exactly where the list would have more than 512.
fn add_promises(
    facts: &mut Facts,
    t: &Typed,
    clauses: &[(Clause, ExprId)],
    moment: Moment,
    at: Place,
) -> Result<(), Refusal>
    requires few { length facts.old.list ≤ 512 }
    requires over { IsOver t.now facts.old }
    requires conditions { are_conditions t.now clauses.now ≡ true }
    ensures over { IsOver t.now facts.new }
    ensures limit { result ≡ unless_refused (limit at (with_promises moment (claims_in t.now facts.old.list) (promises_in t.now clauses.now))) tt }
    ensures claims { OnOk result (claims_in t.now facts.new.list ≡ with_promises moment (claims_in t.now facts.old.list) (promises_in t.now clauses.now)) }
{
    for i in 0..clauses.len() {
        let (clause, cond) = clauses[i];
        if is_asked(moment, clause) {
            add(facts, t, cond, true, at)?;
        }
    }
    Ok(())
}

/// Adds the facts of a condition with an answer, in order. L8 at `at` comes exactly where the list would have more than 512.
pub fn add(facts: &mut Facts, t: &Typed, e: ExprId, answer: bool, at: Place) -> Result<(), Refusal>
    requires over { IsOver t.now facts.old }
    requires condition { is_condition_at t.now e ≡ true }
    ensures over { IsOver t.now facts.new }
    ensures few { length facts.new.list ≤ 512 }
    ensures limit { result ≡ unless_refused (limit at (with_condition (claims_in t.now facts.old.list) (node_cond t.now e) answer)) tt }
    ensures claims { OnOk result (claims_in t.now facts.new.list ≡ with_condition (claims_in t.now facts.old.list) (node_cond t.now e) answer) }
{
    let added = facts.add_condition(t, e, answer);
    facts.keeps_limit();
    added.map_err(|_| Refusal { rule: Rule::L8, at })
}

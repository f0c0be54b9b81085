// What is known before a loop's body, and after the loop.

ghost use Rattle.std.specs.Prelude.{◌≡◌, ◌<◌, Ok, true, length, Result};
ghost use Rattle.wf_text.specs.declared.rules.Refusal.{Refusal};
ghost use Rattle.wf_facts_exprs.specs.Claims.{claims_in};
ghost use Rattle.wf_facts.specs.IndexedFacts.{IsOver};
ghost use Rattle.wf_loops.specs.LoopNodes.{is_loop, head_at, place_at};
ghost use Rattle.wf_bounds_stmts.specs.FactRules.{Known, behind_loop, limit_behind, unless};
ghost use Rattle.wf_bounds.specs.Walks.{Reached, going_on, passed};
ghost use Rattle.wf_bounds.specs.WalkAnswers.{Comes, Enters, Tests};
ghost use Rattle.wf_bounds.specs.WalkNodes.{left_loop};

use crate::conditions::check_condition;
use crate::walks::Walk;
use crate::ways::Way;
use wf_ast::StmtId;
use wf_facts::Facts;
use wf_loops::{
    add, after_facts, at_exit, enter, head_facts, head_of, is_word_true, place_of, way_back,
};
use wf_text::PhaseFault;

/// What is known before the body of a loop that is entered under these facts.
pub(crate) fn enter_body(walk: &Walk, w: StmtId, facts: &Facts) -> Result<Facts, PhaseFault>
    requires is_loop { is_loop walk.now.t.now w ≡ true }
    requires over { IsOver walk.now.t.now facts.now }
    ensures { Enters walk.now.t.now (claims_in walk.now.t.now facts.now.list) (place_at walk.now.t.now w) (head_at walk.now.t.now w) result }
{
    enter(facts, walk.t, w)?;
    let mut known = head_facts(walk.alloc, walk.t, w)?;
    test(walk, w, &mut known)?;
    Ok(known)
}

// What the test of a loop's condition requires of the facts at its head, which become those before its body.
fn test(walk: &Walk, w: StmtId, known: &mut Facts) -> Result<(), PhaseFault>
    requires is_loop { is_loop walk.now.t.now w ≡ true }
    requires over { IsOver walk.now.t.now known.old }
    ensures over { IsOver walk.now.t.now known.new }
    ensures tests { Tests walk.now.t.now (claims_in walk.now.t.now known.old.list) (place_at walk.now.t.now w) (head_at walk.now.t.now w) result known.new }
{
    let cond = head_of(walk.t, w).cond;
    check_condition(walk.t, &known.as_known(walk.t), cond)?;
    at_exit(walk.alloc, known, walk.t, w)?;
    add(known, walk.t, cond, true, place_of(walk.t, w))?;
    Ok(())
}

/// Where a loop's body has been walked through, with the facts `inside` at its end: the way back, and what is known after the
/// loop, which `facts` become. Where the walk has found what it looks for, they are those there.
pub(crate) fn leave_body(
    walk: &Walk,
    w: StmtId,
    way: Result<Way, PhaseFault>,
    inside: Facts,
    facts: &mut Facts,
) -> Result<Way, PhaseFault>
    requires known { w.0 < length walk.now.t.now.stmts }
    requires is_loop { is_loop walk.now.t.now w ≡ true }
    requires inside { IsOver walk.now.t.now inside }
    requires over { IsOver walk.now.t.now facts.old }
    ensures over { IsOver walk.now.t.now facts.new }
    ensures comes { (walked : Result (Reached Known) Refusal) → Comes walk.now.t.now walked way inside → Comes walk.now.t.now (going_on walked (left_loop (place_at walk.now.t.now w) (head_at walk.now.t.now w))) result facts.new }
{
    match way? {
        Way::GoesOn => {
            way_back(&inside, walk.t, w, walk.t.inner_place(w))?;
            go_behind(walk, w, facts)
        }
        Way::Stops => go_behind(walk, w, facts),
        Way::Found => {
            *facts = inside;
            Ok(Way::Found)
        }
    }
}

// What is known after a loop, if it goes on.
fn go_behind(walk: &Walk, w: StmtId, facts: &mut Facts) -> Result<Way, PhaseFault>
    requires is_loop { is_loop walk.now.t.now w ≡ true }
    requires over { IsOver walk.now.t.now facts.old }
    ensures over { IsOver walk.now.t.now facts.new }
    ensures comes { Comes walk.now.t.now (unless (limit_behind (place_at walk.now.t.now w) (behind_loop (head_at walk.now.t.now w))) (Ok (passed (behind_loop (head_at walk.now.t.now w))))) result facts.new }
{
    let head = head_of(walk.t, w);
    if is_word_true(walk.t, head.cond) && !head.has_break {
        return Ok(Way::Stops);
    }
    *facts = after_facts(walk.alloc, walk.t, w)?;
    Ok(Way::GoesOn)
}

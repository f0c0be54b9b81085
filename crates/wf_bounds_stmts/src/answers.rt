// What calls answer, and the targets that it goes to.

ghost use Rattle.std.specs.Prelude.{◌≡◌, None, IsTrue};
ghost use Rattle.wf_ast.specs.TypedTrees.{optional_target, target_of, tree_of};
ghost use Rattle.wf_ast.specs.TypedInvariant.{is_expr, is_optional_expr};
ghost use Rattle.wf_facts_exprs.specs.Knowledge.{IsKnown, told};
ghost use Rattle.wf_facts_exprs.specs.Claims.{claims_in};
ghost use Rattle.wf_facts_exprs.specs.Demands.{unless_refused};
ghost use Rattle.wf_facts.specs.IndexedFacts.{IsOver};
ghost use Rattle.wf_bounds_stmts.specs.Requirements.{number_type};
ghost use Rattle.wf_bounds_stmts.specs.Targets.{answer_refusal, holds_all as all_held, unwritten, written_by};
ghost use Rattle.wf_bounds_stmts.specs.Calls.{awaited, interrupted};
ghost use Rattle.wf_bounds_stmts.specs.Outcomes.{MayBeDropped, Settles};

use crate::interrupting::interrupt;
use crate::targets::{check_target, drop_written, taken, written};
use wf_ast::{ExprId, Ty, Typed};
use wf_facts::Facts;
use wf_facts_exprs::Known;
use wf_text::{Place, Refusal, Rule};

/// Checks a call's target under the list that the call leaves: its index, and that it takes all numbers that the call may
/// answer. `at` is the call's place.
pub(crate) fn check_answer(
    t: &Typed,
    facts: &Known,
    at: Place,
    target: Option<ExprId>,
    answers: Ty,
) -> Result<(), Refusal>
    requires known { IsKnown t.now facts.now }
    requires there { IsTrue (is_optional_expr t.now target) }
    ensures { result ≡ unless_refused (answer_refusal (claims_in t.now (told facts.now)) at (optional_target (tree_of t.now) target) (number_type answers)) tt }
{
    match target {
        None => Ok(()),
        Some(target) => check_taken(t, facts, at, target, answers),
    }
}

fn check_taken(
    t: &Typed,
    facts: &Known,
    at: Place,
    target: ExprId,
    answers: Ty,
) -> Result<(), Refusal>
    requires known { IsKnown t.now facts.now }
    requires there { IsTrue (is_expr t.now target) }
    ensures { result ≡ unless_refused (answer_refusal (claims_in t.now (told facts.now)) at (target_of (tree_of t.now target)) (number_type answers)) tt }
{
    check_target(t, facts, target)?;
    if holds_all(taken(t, target), answers) {
        Ok(())
    } else {
        Err(Refusal { rule: Rule::B1, at })
    }
}

// Whether a type holds all numbers of another one.
fn holds_all(of: Ty, answers: Ty) -> bool
    ensures { result ≡ all_held (number_type of) (number_type answers) }
{
    match of {
        Ty::Num { lo, hi, .. } => match answers {
            Ty::Num { lo: a, hi: b, .. } => lo <= a && b <= hi,
            _ => true,
        },
        _ => true,
    }
}

/// Drops what mentions a call's target.
pub(crate) fn drop_target(t: &Typed, facts: &mut Facts, target: Option<ExprId>)
    requires there { IsTrue (is_optional_expr t.now target) }
    requires few { MayBeDropped (written_by (optional_target (tree_of t.now) target)) }
    requires over { IsOver t.now facts.old }
    ensures over { IsOver t.now facts.new }
    ensures claims { claims_in t.now facts.new.list ≡ unwritten (optional_target (tree_of t.now) target) (claims_in t.now facts.old.list) }
{
    match target {
        None => {}
        Some(target) => {
            let x = written(t, target);
            drop_written(t, facts, x);
        }
    }
}

/// What stays known after a base method that may suspend, and its answer.
pub(crate) fn await_answer(
    t: &Typed,
    facts: &mut Facts,
    at: Place,
    target: Option<ExprId>,
    answers: Ty,
) -> Result<(), Refusal>
    requires there { IsTrue (is_optional_expr t.now target) }
    requires few { MayBeDropped (written_by (optional_target (tree_of t.now) target)) }
    requires over { IsOver t.now facts.old }
    ensures over { IsOver t.now facts.new }
    ensures settles { Settles t.now (answer_refusal (interrupted (claims_in t.now facts.old.list)) at (optional_target (tree_of t.now) target) (number_type answers)) (awaited (claims_in t.now facts.old.list) (optional_target (tree_of t.now) target)) result facts.new }
{
    interrupt(t, facts);
    check_answer(t, &facts.as_known(t), at, target, answers)?;
    drop_target(t, facts, target);
    Ok(())
}

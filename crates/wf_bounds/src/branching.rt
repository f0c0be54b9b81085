// The lists before the blocks of an `if`, and where these meet.

ghost use Rattle.std.specs.Prelude.{◌≡◌, ◌<◌, Result, true, false, IsTrue, IfOk, OnOk, length};
ghost use Rattle.wf_text.specs.declared.rules.Refusal.{Refusal};
ghost use Rattle.wf_ast.specs.NodeKinds.{is_condition_at, node_cond};
ghost use Rattle.wf_facts_exprs.specs.Claims.{claims_in};
ghost use Rattle.wf_facts.specs.FactLists.{with_condition};
ghost use Rattle.wf_facts.specs.IndexedFacts.{IsOver};
ghost use Rattle.wf_loops.specs.LoopNodes.{Decides};
ghost use Rattle.wf_bounds_stmts.specs.FactRules.{Known};
ghost use Rattle.wf_bounds_stmts.specs.Passing.{site_at};
ghost use Rattle.wf_bounds.specs.Walks.{Reached, going_on, passed, joined};
ghost use Rattle.wf_bounds.specs.WalkAnswers.{arms_fit, keeps_limit, known_of, Comes, ChecksArm, MayBeOver, MeetsArm};
ghost use Rattle.wf_bounds.specs.WalkNodes.{conditions_of, arms_refusal, have_conditions, joins_none_in};

use crate::conditions::check_condition;
use crate::walks::Walk;
use crate::ways::Way;
use wf_ast::{Arm, Expr, ExprId, StmtId, Typed};
use wf_facts::Facts;
use wf_facts_exprs::joins;
use wf_loops::add;
use wf_text::{NoMemory, PhaseFault, Place, Refusal, Rule};

/// Checks the conditions of an `if`, each where those before it have failed, and that the lists before its blocks keep to the
/// limit.
pub(crate) fn check_arms(
    walk: &Walk,
    s: StmtId,
    arms: &[Arm],
    facts: &Facts,
) -> Result<(), PhaseFault>
    requires known { s.0 < length walk.now.t.now.stmts }
    requires arms { IsTrue (have_conditions walk.now.t.now arms.now) }
    requires over { IsOver walk.now.t.now facts.now }
    ensures decides { Decides (arms_refusal (claims_in walk.now.t.now facts.now.list) (site_at walk.now.t.now s) (conditions_of walk.now.t.now arms.now)) result }
    ensures fit { OnOk result (arms_fit walk.now.t.now (claims_in walk.now.t.now facts.now.list) arms.now ≡ true) }
{
    let at = first_place(walk.t, s);
    let mut known = facts.copy(walk.alloc)?;
    let mut room = true;
    for arm in arms {
        let fits = check_arm(walk, at, arm.cond, &mut known)?;
        room = room && fits;
    }
    known.keeps_limit();
    if room {
        Ok(())
    } else {
        Err(PhaseFault::Refused(Refusal { rule: Rule::L8, at }))
    }
}

// The place of a statement's first token.
fn first_place(t: &Typed, s: StmtId) -> Place
    requires { s.0 < length t.now.stmts }
    ensures { result ≡ (site_at t.now s).at }
{
    t.stmt_place(s)
}

// Checks a condition, under the facts that then become those where it has failed. The answer tells whether the list before its
// block keeps to the limit.
fn check_arm(walk: &Walk, at: Place, cond: ExprId, known: &mut Facts) -> Result<bool, PhaseFault>
    requires condition { is_condition_at walk.now.t.now cond ≡ true }
    requires over { IsOver walk.now.t.now known.old }
    ensures over { IsOver walk.now.t.now known.new }
    ensures checks { ChecksArm walk.now.t.now at (claims_in walk.now.t.now known.old.list) (node_cond walk.now.t.now cond) result known.new }
{
    check_condition(walk.t, &known.as_known(walk.t), cond)?;
    let fits = has_room(walk, at, cond, known)?;
    add(known, walk.t, cond, false, at)?;
    Ok(fits)
}

// Whether the list where a condition holds keeps to the limit.
fn has_room(walk: &Walk, at: Place, cond: ExprId, known: &Facts) -> Result<bool, NoMemory>
    requires condition { is_condition_at walk.now.t.now cond ≡ true }
    requires over { IsOver walk.now.t.now known.now }
    ensures { IfOk result (λ fits. fits ≡ keeps_limit (with_condition (claims_in walk.now.t.now known.now.list) (node_cond walk.now.t.now cond) true)) }
{
    if known.has_room() && joins_none(walk.t.expr(cond)) {
        return Ok(true);
    }
    let mut front = known.copy(walk.alloc)?;
    match add(&mut front, walk.t, cond, true, at) {
        Ok(()) => Ok(true),
        Err(_) => Ok(false),
    }
}

// Whether a condition joins no others and negates none. Then it has one fact at most.
fn joins_none(condition: &Expr) -> bool
    ensures { result ≡ joins_none_in condition.now }
{
    match condition {
        Expr::Chain { op, .. } => !joins(*op),
        Expr::Not(_) => false,
        _ => true,
    }
}

/// The list where a condition holds; `facts` become those where it doesn't. Both keep to the limit.
pub(crate) fn split(walk: &Walk, cond: ExprId, facts: &mut Facts) -> Result<Facts, NoMemory>
    requires condition { is_condition_at walk.now.t.now cond ≡ true }
    requires over { IsOver walk.now.t.now facts.old }
    requires holds { keeps_limit (with_condition (claims_in walk.now.t.now facts.old.list) (node_cond walk.now.t.now cond) true) ≡ true }
    requires fails { keeps_limit (with_condition (claims_in walk.now.t.now facts.old.list) (node_cond walk.now.t.now cond) false) ≡ true }
    ensures over { IsOver walk.now.t.now facts.new }
    ensures fails { OnOk result (claims_in walk.now.t.now facts.new.list ≡ with_condition (claims_in walk.now.t.now facts.old.list) (node_cond walk.now.t.now cond) false) }
    ensures front { IfOk result (λ front. IsOver walk.now.t.now front) }
    ensures holds { IfOk result (λ front. claims_in walk.now.t.now front.list ≡ with_condition (claims_in walk.now.t.now facts.old.list) (node_cond walk.now.t.now cond) true) }
{
    let mut front = facts.copy(walk.alloc)?;
    add_fitting(walk.t, &mut front, cond, true);
    add_fitting(walk.t, facts, cond, false);
    Ok(front)
}

// Adds the facts of a condition with an answer, where they keep to the limit.
fn add_fitting(t: &Typed, facts: &mut Facts, cond: ExprId, answer: bool)
    requires condition { is_condition_at t.now cond ≡ true }
    requires over { IsOver t.now facts.old }
    requires fits { keeps_limit (with_condition (claims_in t.now facts.old.list) (node_cond t.now cond) answer) ≡ true }
    ensures over { IsOver t.now facts.new }
    ensures claims { claims_in t.now facts.new.list ≡ with_condition (claims_in t.now facts.old.list) (node_cond t.now cond) answer }
{
    match facts.add_condition(t, cond, answer) {
        Ok(()) => {}
        Err(_) => unreachable!(),
    }
}

/// What is known where the blocks of arms meet, once the block of another has been walked through to its end with the facts
/// `front`: `met` are those of the arms before it. Where the walk has found what it looks for, `facts` are those there.
pub(crate) fn meet_arm(
    t: &Typed,
    way: Result<Way, PhaseFault>,
    front: Facts,
    met: &mut Option<Facts>,
    facts: &mut Facts,
)
    requires front { IsOver t.now front }
    requires met { MayBeOver t.now met.old }
    requires over { IsOver t.now facts.old }
    ensures met { MayBeOver t.now met.new }
    ensures over { IsOver t.now facts.new }
    ensures meets { MeetsArm t.now way front (known_of t.now met.old) (known_of t.now met.new) facts.old facts.new }
{
    match way {
        Ok(Way::GoesOn) => match met {
            Some(first) => first.keep_common(t, &front),
            None => *met = Some(front),
        },
        Ok(Way::Stops) => {}
        Ok(Way::Found) => *facts = front,
        Err(_) => {}
    }
}

/// What is known where the last block of an `if` meets those before it, of which `met` is known.
pub(crate) fn meet_last(
    t: &Typed,
    way: Result<Way, PhaseFault>,
    met: Option<Facts>,
    facts: &mut Facts,
) -> Result<Way, PhaseFault>
    requires met { MayBeOver t.now met }
    requires over { IsOver t.now facts.old }
    ensures over { IsOver t.now facts.new }
    ensures comes { (walked : Result (Reached Known) Refusal) → Comes t.now walked way facts.old → Comes t.now (going_on walked (λ known. Ok (passed (joined (known_of t.now met) known)))) result facts.new }
{
    match way? {
        Way::GoesOn => {
            meet_end(t, met, facts);
            Ok(Way::GoesOn)
        }
        Way::Stops => match met {
            Some(first) => {
                *facts = first;
                Ok(Way::GoesOn)
            }
            None => Ok(Way::Stops),
        },
        Way::Found => Ok(Way::Found),
    }
}

// The facts that also stand where the blocks before meet.
fn meet_end(t: &Typed, met: Option<Facts>, facts: &mut Facts)
    requires met { MayBeOver t.now met }
    requires over { IsOver t.now facts.old }
    ensures over { IsOver t.now facts.new }
    ensures claims { Some (claims_in t.now facts.new.list) ≡ joined (known_of t.now met) (Some (claims_in t.now facts.old.list)) }
{
    match met {
        Some(first) => {
            let mut first = first;
            first.keep_common(t, facts);
            *facts = first;
        }
        None => {}
    }
}

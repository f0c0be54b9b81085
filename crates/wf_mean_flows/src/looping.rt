// Loops: what their heads come to, and each pass of their bodies.

ghost use Rattle.std.specs.Prelude.{◌≡◌, ◌≤◌, ◌<◌, ◌||◌, not, ℕ, IsTrue};
ghost use Rattle.std.specs.List.{list_all};
ghost use Rattle.turns.specs.Run.{Outcome};
ghost use Rattle.wf_text.specs.declared.place.Place.{Place};
ghost use Rattle.wf_ast.specs.declared.parsed.Clause.{Clause};
ghost use Rattle.wf_ast.specs.TypedTree.{Site, Block, end};
ghost use Rattle.wf_ast.specs.TypedTrees.{head_made, tree_of};
ghost use Rattle.wf_ast.specs.TypedInvariant.{IsTyped, is_expr};
ghost use Rattle.wf_ast.specs.Value.{truth_of};
ghost use Rattle.wf_ast.specs.NodeKinds.{node_cond};
ghost use Rattle.wf_meaning.specs.SourceState.{Behind, again};
ghost use Rattle.wf_meaning.specs.World.{World};
ghost use Rattle.wf_meaning.specs.SourceStep.{Ending, all_hold, at_exit, entered_loop, is_true, tested, went_back};
ghost use Rattle.wf_mean_stmts.specs.Stages.{body_on, shape, sight_on, vars_on};
ghost use Rattle.wf_mean_flows.specs.Flows.{Flows, calls_below, went};
ghost use Rattle.wf_mean_flows.specs.Loops.{Rounds, clauses_of, past_if, required, round_of, turned_on};

use crate::flows::Flow;
use wf_ast::{Clause, ExprId, LoopHead, StmtId, Typed};
use wf_mean_stmts::any::condition_on;
use wf_mean_stmts::stage::Stage;

/// What a loop's head comes to.
#[derive(Clone, Copy)]
pub enum Turned {
    /// The body follows.
    Into,
    /// What stands after the loop follows.
    Past,
    /// A way back needs a turn, and none is left.
    Out,
    Stuck,
}

/// What a pass of a loop's body comes to.
#[derive(Clone, Copy)]
pub enum Round {
    /// The body runs again.
    Again,
    /// The run of the loop ends so.
    Ends(Flow),
}

// Whether all required clauses of a loop are true.
fn clauses_hold(t: &Typed, stage: &Stage, clauses: &[(Clause, ExprId)], head: bool) -> bool
    requires typed { IsTyped t.now }
    requires clauses { IsTrue (list_all (λ c. is_expr t.now c.1) clauses.now) }
    ensures { result ≡ all_hold (sight_on t.now stage.now) (required head) (clauses_of t.now clauses.now) }
{
    for i in 0..clauses.len() {
        let (clause, promise) = clauses[i];
        if !holds(t, stage, clause, promise, head) {
            return false;
        }
    }
    true
}

fn holds(t: &Typed, stage: &Stage, clause: Clause, promise: ExprId, head: bool) -> bool
    requires typed { IsTyped t.now }
    requires node { IsTrue (is_expr t.now promise) }
    ensures { result ≡ (not (required head clause) || is_true (truth_of (sight_on t.now stage.now) (node_cond t.now promise))) }
{
    if is_required(clause, head) {
        is_certain(condition_on(t, stage, promise))
    } else {
        true
    }
}

fn is_certain(truth: Option<bool>) -> bool
    ensures { result ≡ is_true truth }
{
    matches!(truth, Some(true))
}

fn is_required(clause: Clause, head: bool) -> bool
    ensures { result ≡ required head clause }
{
    match clause {
        Clause::Pre => head,
        Clause::Inv => true,
        Clause::Post => !head,
    }
}

// The test of a loop's condition, at its entry or after a way back.
fn test_loop(t: &Typed, stage: &Stage, head: &LoopHead) -> Turned
    requires typed { IsTyped t.now }
    requires cond { IsTrue (is_expr t.now head.now.cond) }
    requires clauses { IsTrue (list_all (λ c. is_expr t.now c.1) head.now.clauses) }
    ensures { (level : ℕ) (site : Site) (close : Place) (body rest : Block) (behind : Behind) → went (body_on t.now stage.now) (calls_below t.now level) stage.now.turns (tested (body_on t.now stage.now) site (head_made (tree_of t.now) close head.now) body rest behind (vars_on t.now stage.now) (truth_of (sight_on t.now stage.now) (node_cond t.now head.now.cond))) ≡ turned_on t.now level stage.now site (head_made (tree_of t.now) close head.now) body rest behind result }
{
    match condition_on(t, stage, head.cond) {
        None => Turned::Stuck,
        Some(holds) => {
            if holds {
                Turned::Into
            } else {
                break_loop(t, stage, head)
            }
        }
    }
}

/// A loop is entered.
pub fn enter_loop(t: &Typed, stage: &Stage, head: &LoopHead) -> Turned
    requires typed { IsTyped t.now }
    requires cond { IsTrue (is_expr t.now head.now.cond) }
    requires clauses { IsTrue (list_all (λ c. is_expr t.now c.1) head.now.clauses) }
    ensures { (level : ℕ) (site : Site) (close : Place) (body rest : Block) (behind : Behind) → went (body_on t.now stage.now) (calls_below t.now level) stage.now.turns (entered_loop (body_on t.now stage.now) site (head_made (tree_of t.now) close head.now) body rest behind (vars_on t.now stage.now)) ≡ turned_on t.now level stage.now site (head_made (tree_of t.now) close head.now) body rest behind result }
{
    if clauses_hold(t, stage, head.clauses.as_slice(), true) {
        test_loop(t, stage, head)
    } else {
        Turned::Stuck
    }
}

// The way back to a loop's head, which is a turn.
fn go_back(t: &Typed, stage: &mut Stage, head: &LoopHead) -> Turned
    requires typed { IsTyped t.now }
    requires cond { IsTrue (is_expr t.now head.now.cond) }
    requires clauses { IsTrue (list_all (λ c. is_expr t.now c.1) head.now.clauses) }
    ensures runs { (level : ℕ) (site : Site) (close : Place) (body rest : Block) (behind : Behind) → went (body_on t.now stage.old) (calls_below t.now level) stage.old.turns (went_back (body_on t.now stage.old) stage.old.turns site (head_made (tree_of t.now) close head.now) body rest behind (vars_on t.now stage.old)) ≡ turned_on t.now level stage.new site (head_made (tree_of t.now) close head.now) body rest behind result }
    ensures shape { shape stage.new ≡ shape stage.old }
    ensures fewer { stage.new.turns ≤ stage.old.turns }
    ensures turn { result ≡ Turned.Into → stage.new.turns < stage.old.turns }
{
    if !clauses_hold(t, stage, head.clauses.as_slice(), true) {
        return Turned::Stuck;
    }
    if stage.turns == 0 {
        return Turned::Out;
    }
    stage.turns -= 1;
    test_loop(t, stage, head)
}

/// After a pass of a loop's body: the loop is the statement `s`.
pub fn close_round(t: &Typed, stage: &mut Stage, s: StmtId, head: &LoopHead, flow: Flow) -> Round
    requires typed { IsTyped t.now }
    requires cond { IsTrue (is_expr t.now head.now.cond) }
    requires clauses { IsTrue (list_all (λ c. is_expr t.now c.1) head.now.clauses) }
    ensures rounds { (level : ℕ) (at close : Place) (body rest : Block) (behind : Behind) (o : Outcome (Ending × World)) → Flows t.now level body end (again (record { number = s.0; at = at }) (head_made (tree_of t.now) close head.now) body rest behind) flow stage.old o → Rounds t.now level (record { number = s.0; at = at }) (head_made (tree_of t.now) close head.now) body rest behind stage.old stage.new result o }
    ensures shape { shape stage.new ≡ shape stage.old }
    ensures fewer { stage.new.turns ≤ stage.old.turns }
{
    match flow {
        Flow::Falls => turned_round(go_back(t, stage, head)),
        Flow::Continues(w) => {
            if w.0 == s.0 {
                turned_round(go_back(t, stage, head))
            } else {
                Round::Ends(flow)
            }
        }
        Flow::Breaks(w) => {
            if w.0 == s.0 {
                turned_round(break_loop(t, stage, head))
            } else {
                Round::Ends(flow)
            }
        }
        Flow::Returns(_) | Flow::Suspends { .. } | Flow::Out | Flow::Stuck => Round::Ends(flow),
    }
}

fn turned_round(turned: Turned) -> Round
    ensures { result ≡ round_of turned }
{
    match turned {
        Turned::Into => Round::Again,
        Turned::Past => Round::Ends(Flow::Falls),
        Turned::Out => Round::Ends(Flow::Out),
        Turned::Stuck => Round::Ends(Flow::Stuck),
    }
}

// A `break` of the loop.
fn break_loop(t: &Typed, stage: &Stage, head: &LoopHead) -> Turned
    requires typed { IsTyped t.now }
    requires clauses { IsTrue (list_all (λ c. is_expr t.now c.1) head.now.clauses) }
    ensures { result ≡ past_if (all_hold (sight_on t.now stage.now) at_exit (clauses_of t.now head.now.clauses)) }
{
    if clauses_hold(t, stage, head.clauses.as_slice(), false) {
        Turned::Past
    } else {
        Turned::Stuck
    }
}

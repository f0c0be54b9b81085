// The walk through the statements of a method, as deep as blocks nest: each under the list of what is known there, which
// goes along. It stops at the first refusal, after a statement that never goes on, and before one that it looks for.

ghost use Rattle.std.specs.Prelude.{◌≡◌, ◌<◌, true, false, IsTrue, List, length};
ghost use Rattle.wf_ast.specs.NodeKinds.{is_condition_at, node_cond};
ghost use Rattle.wf_facts_exprs.specs.Claims.{Claim, claims_in};
ghost use Rattle.wf_facts.specs.FactLists.{with_condition};
ghost use Rattle.wf_facts.specs.IndexedFacts.{IsOver};
ghost use Rattle.wf_loops.specs.LoopNodes.{is_loop, head_at, place_at};
ghost use Rattle.wf_bounds_stmts.specs.Passing.{site_at, is_single, has_no_block};
ghost use Rattle.wf_bounds.specs.Walks.{is_sought as is_sought_number};
ghost use Rattle.wf_bounds.specs.MethodWalks.{IsReady};
ghost use Rattle.wf_bounds.specs.WalkAnswers.{arms_fit, keeps_limit, known_of, Comes, MayBeOver, PassesArm};
ghost use Rattle.wf_bounds.specs.WalkNodes.{walked_at, walked_listed, walked_else, walked_arms, walked_if, walked_loop, walked_node, stands_well, block_stands, else_stands, have_conditions, arms_stand, parts_stand};

use crate::branching::{check_arms, meet_arm, meet_last, split};
use crate::looping::{enter_body, leave_body};
use crate::passing::pass_stmt;
use crate::walks::Walk;
use crate::ways::Way;
use wf_ast::{Arm, Block, Stmt, StmtId};
use wf_facts::Facts;
use wf_text::PhaseFault;

// Whether a statement is the one that is looked for.
fn is_sought(sought: Option<StmtId>, s: StmtId) -> bool
    ensures { result ≡ is_sought_number sought s.0 }
{
    match sought {
        Some(n) => s.0 == n.0,
        None => false,
    }
}

// A statement's node, with what it says of a walk.
fn node<'a>(walk: &Walk<'a>, s: StmtId) -> &'a Stmt
    requires ready { IsReady walk.now.t.now walk.now.m.0 }
    requires known { s.0 < length walk.now.t.now.stmts }
    requires stands { stands_well walk.now.t.now walk.now.m.0 s ≡ true }
    ensures walked { (fs : List Claim) → walked_at walk.now.t.now walk.now.m.0 walk.now.sought fs s ≡ walked_node walk.now.t.now walk.now.m.0 walk.now.sought (walked_at walk.now.t.now walk.now.m.0 walk.now.sought) fs s result.now }
    ensures alone { is_single walk.now.t.now s ≡ has_no_block result.now }
    ensures parts { IsTrue (parts_stand walk.now.t.now walk.now.m.0 s result.now) }
{
    walk.t.stmt(s)
}

// Walks through a statement and all that stands in it.
#[cycle(walking)]
fn walk_stmt(walk: &Walk, s: StmtId, facts: &mut Facts) -> Result<Way, PhaseFault>
    requires ready { IsReady walk.now.t.now walk.now.m.0 }
    requires known { s.0 < length walk.now.t.now.stmts }
    requires stands { stands_well walk.now.t.now walk.now.m.0 s ≡ true }
    requires over { IsOver walk.now.t.now facts.old }
    ensures over { IsOver walk.now.t.now facts.new }
    ensures comes { Comes walk.now.t.now (walked_at walk.now.t.now walk.now.m.0 walk.now.sought (claims_in walk.now.t.now facts.old.list) s) result facts.new }
{
    let stmt = node(walk, s);
    if is_sought(walk.sought, s) {
        return Ok(Way::Found);
    }
    match stmt {
        Stmt::If { arms, otherwise } => walk_if(walk, s, arms.as_slice(), otherwise, facts),
        Stmt::While { head: _, body } => walk_loop(walk, s, body, facts),
        Stmt::Assign { .. } => pass_stmt(walk, s, facts),
        Stmt::Call { .. } => pass_stmt(walk, s, facts),
        Stmt::Break(_) => pass_stmt(walk, s, facts),
        Stmt::Continue(_) => pass_stmt(walk, s, facts),
        Stmt::Return(_) => pass_stmt(walk, s, facts),
        Stmt::Yield(_) => pass_stmt(walk, s, facts),
        Stmt::Assert { .. } => pass_stmt(walk, s, facts),
    }
}

/// Walks through the statements of a block, which have numbers below `above`.
#[cycle(walking)]
pub(crate) fn walk_block(
    walk: &Walk,
    above: u32,
    block: &Block,
    facts: &mut Facts,
) -> Result<Way, PhaseFault>
    requires ready { IsReady walk.now.t.now walk.now.m.0 }
    requires stands { IsTrue (block_stands walk.now.t.now walk.now.m.0 above block.now) }
    requires over { IsOver walk.now.t.now facts.old }
    ensures over { IsOver walk.now.t.now facts.new }
    ensures comes { Comes walk.now.t.now (walked_listed (walked_at walk.now.t.now walk.now.m.0 walk.now.sought) (claims_in walk.now.t.now facts.old.list) block.now.items) result facts.new }
{
    for s in block.items.as_slice() {
        match walk_stmt(walk, *s, facts)? {
            Way::GoesOn => {}
            Way::Stops => return Ok(Way::Stops),
            Way::Found => return Ok(Way::Found),
        }
    }
    Ok(Way::GoesOn)
}

// Walks through an `if` with all its `else if`s, which is the statement `s`.
#[cycle(walking)]
fn walk_if(
    walk: &Walk,
    s: StmtId,
    arms: &[Arm],
    otherwise: &Option<Block>,
    facts: &mut Facts,
) -> Result<Way, PhaseFault>
    requires ready { IsReady walk.now.t.now walk.now.m.0 }
    requires known { s.0 < length walk.now.t.now.stmts }
    requires conditions { IsTrue (have_conditions walk.now.t.now arms.now) }
    requires arms { IsTrue (arms_stand walk.now.t.now walk.now.m.0 s.0 arms.now) }
    requires otherwise { IsTrue (else_stands walk.now.t.now walk.now.m.0 s.0 otherwise.now) }
    requires over { IsOver walk.now.t.now facts.old }
    ensures over { IsOver walk.now.t.now facts.new }
    ensures comes { Comes walk.now.t.now (walked_if walk.now.t.now (walked_at walk.now.t.now walk.now.m.0 walk.now.sought) (claims_in walk.now.t.now facts.old.list) (site_at walk.now.t.now s) arms.now otherwise.now) result facts.new }
{
    check_arms(walk, s, arms, facts)?;
    let way = walk_arms(walk, s, arms, otherwise, facts);
    facts.keeps_limit();
    way
}

// Walks through the blocks of an `if`, each under the list before it, and to where they meet.
#[cycle(walking)]
fn walk_arms(
    walk: &Walk,
    s: StmtId,
    arms: &[Arm],
    otherwise: &Option<Block>,
    facts: &mut Facts,
) -> Result<Way, PhaseFault>
    requires ready { IsReady walk.now.t.now walk.now.m.0 }
    requires conditions { IsTrue (have_conditions walk.now.t.now arms.now) }
    requires arms { IsTrue (arms_stand walk.now.t.now walk.now.m.0 s.0 arms.now) }
    requires otherwise { IsTrue (else_stands walk.now.t.now walk.now.m.0 s.0 otherwise.now) }
    requires fit { IsTrue (arms_fit walk.now.t.now (claims_in walk.now.t.now facts.old.list) arms.now) }
    requires over { IsOver walk.now.t.now facts.old }
    ensures over { IsOver walk.now.t.now facts.new }
    ensures comes { Comes walk.now.t.now (walked_arms walk.now.t.now (walked_at walk.now.t.now walk.now.m.0 walk.now.sought) None (claims_in walk.now.t.now facts.old.list) arms.now otherwise.now) result facts.new }
{
    let mut met = None;
    for arm in arms {
        match walk_arm(walk, s, arm, &mut met, facts)? {
            Way::GoesOn => {}
            Way::Stops => {}
            Way::Found => return Ok(Way::Found),
        }
    }
    let way = walk_else(walk, s, otherwise, facts);
    meet_last(walk.t, way, met, facts)
}

// Walks through the block of an arm, under the facts where its condition holds; `facts` become those where it doesn't, and
// `met` what is known where the block meets those before it.
#[cycle(walking)]
fn walk_arm(
    walk: &Walk,
    s: StmtId,
    arm: &Arm,
    met: &mut Option<Facts>,
    facts: &mut Facts,
) -> Result<Way, PhaseFault>
    requires ready { IsReady walk.now.t.now walk.now.m.0 }
    requires condition { is_condition_at walk.now.t.now arm.now.cond ≡ true }
    requires body { IsTrue (block_stands walk.now.t.now walk.now.m.0 s.0 arm.now.body) }
    requires holds { keeps_limit (with_condition (claims_in walk.now.t.now facts.old.list) (node_cond walk.now.t.now arm.now.cond) true) ≡ true }
    requires fails { keeps_limit (with_condition (claims_in walk.now.t.now facts.old.list) (node_cond walk.now.t.now arm.now.cond) false) ≡ true }
    requires met { MayBeOver walk.now.t.now met.old }
    requires over { IsOver walk.now.t.now facts.old }
    ensures met { MayBeOver walk.now.t.now met.new }
    ensures over { IsOver walk.now.t.now facts.new }
    ensures passes { PassesArm walk.now.t.now (walked_listed (walked_at walk.now.t.now walk.now.m.0 walk.now.sought) (with_condition (claims_in walk.now.t.now facts.old.list) (node_cond walk.now.t.now arm.now.cond) true) arm.now.body.items) (with_condition (claims_in walk.now.t.now facts.old.list) (node_cond walk.now.t.now arm.now.cond) false) result (known_of walk.now.t.now met.old) (known_of walk.now.t.now met.new) facts.new }
{
    let mut front = split(walk, arm.cond, facts)?;
    let way = walk_block(walk, s.0, &arm.body, &mut front);
    meet_arm(walk.t, way, front, met, facts);
    way
}

// Walks through what stands after `else`.
#[cycle(walking)]
fn walk_else(
    walk: &Walk,
    s: StmtId,
    otherwise: &Option<Block>,
    facts: &mut Facts,
) -> Result<Way, PhaseFault>
    requires ready { IsReady walk.now.t.now walk.now.m.0 }
    requires otherwise { IsTrue (else_stands walk.now.t.now walk.now.m.0 s.0 otherwise.now) }
    requires over { IsOver walk.now.t.now facts.old }
    ensures over { IsOver walk.now.t.now facts.new }
    ensures comes { Comes walk.now.t.now (walked_else (walked_at walk.now.t.now walk.now.m.0 walk.now.sought) (claims_in walk.now.t.now facts.old.list) otherwise.now) result facts.new }
{
    match otherwise {
        Some(block) => walk_block(walk, s.0, block, facts),
        None => Ok(Way::GoesOn),
    }
}

// Walks through a loop, which is the statement `w`.
#[cycle(walking)]
fn walk_loop(walk: &Walk, w: StmtId, body: &Block, facts: &mut Facts) -> Result<Way, PhaseFault>
    requires ready { IsReady walk.now.t.now walk.now.m.0 }
    requires known { w.0 < length walk.now.t.now.stmts }
    requires is_loop { is_loop walk.now.t.now w ≡ true }
    requires body { IsTrue (block_stands walk.now.t.now walk.now.m.0 w.0 body.now) }
    requires over { IsOver walk.now.t.now facts.old }
    ensures over { IsOver walk.now.t.now facts.new }
    ensures comes { Comes walk.now.t.now (walked_loop (walked_at walk.now.t.now walk.now.m.0 walk.now.sought) (claims_in walk.now.t.now facts.old.list) (place_at walk.now.t.now w) (head_at walk.now.t.now w) body.now.items) result facts.new }
{
    let mut inside = enter_body(walk, w, facts)?;
    let way = walk_block(walk, w.0, body, &mut inside);
    leave_body(walk, w, way, inside, facts)
}

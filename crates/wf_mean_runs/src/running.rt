// The run of bodies: their statements one after the other, from the beginning or from the point at which they have suspended, and
// the calls of methods in them, with no memory taken. The recursion goes as deep as statements stand inside one another, and as
// methods call one another.

ghost use Rattle.std.specs.Prelude.{◌≡◌, ◌<◌, ◌≤◌, ◌+◌, ◌&&◌, length, drop, map, slice_get, IsTrue};
ghost use Rattle.std.specs.List.{list_all};
ghost use Rattle.wf_ast.specs.TypedTree.{Block as TreeBlock, end, loop, plain};
ghost use Rattle.wf_ast.specs.TypedTrees.{call_made, head_made, if_made, onto, optional_target, otherwise_made, stmt_made, stmt_makers, tree_of};
ghost use Rattle.wf_ast.specs.TypedPackage.{package_of};
ghost use Rattle.wf_ast.specs.TypedInvariant.{IsTyped, block_below, callee_exists, is_expr, is_optional_expr, optional_block_below, stmt_below};
ghost use Rattle.wf_meaning.specs.SourceState.{Done, stop, untouched};
ghost use Rattle.wf_meaning.specs.SourceCall.{run_if as runs_if};
ghost use Rattle.wf_mean_exprs.specs.MachineState.{done_seen, slot_seen};
ghost use Rattle.wf_mean_stmts.specs.Stages.{body_on};
ghost use Rattle.wf_mean_flows.specs.Flows.{Flows, Runs, RunsBlock, RunsRounds, block_made_of, calls_below, inner_of, made_of, place_of, site_of};
ghost use Rattle.wf_mean_runs.specs.Bodies.{whole_run};
ghost use Rattle.wf_mean_runs.specs.Calls.{Called, CallsMethod, Entered, Through, ran_seen, world_on};
ghost use Rattle.wf_mean_runs.specs.Frames.{AreReady, Stays, is_falls, locals_of, sizes_for, sizes_of};
ghost use Rattle.wf_mean_runs.specs.Seeking.{SoughtBlock, SoughtIn};

use crate::answering::{admit, close_call, give_args, receiver, settle_ran};
use crate::awaits::run_base;
use crate::calls::{Call, Ran, frame_of, refuse};
use crate::keeping::{begin, leave, take_up};
use crate::picking::{past, pick};
use crate::seeking::{Point, is_at, seek_yield, suspends_at};
use wf_ast::{Arm, Block, Callee, LoopHead, Stmt, StmtId, Typed};
use wf_mean_exprs::objects::{Frame, Progress};
use wf_mean_flows::flows::Flow;
use wf_mean_flows::looping::{Round, Turned, close_round, enter_loop};
use wf_mean_flows::simple::{assign, claim, give_back, pause};
use wf_mean_stmts::base_calls::BaseCall;
use wf_mean_stmts::stage::Stage;
use wf_text::MethodId;

// An `if` as its statement has it: its arms, and what stands after the last `else`.
#[derive(Clone, Copy)]
struct Choice<'a> {
    arms: &'a [Arm],
    otherwise: &'a Option<Block>,
}

// A loop as its statement has it: what stands before its body, and its body.
#[derive(Clone, Copy)]
struct Loop<'a> {
    head: &'a LoopHead,
    body: &'a Block,
}

// A statement's node, with what it makes of the rest.
pub(crate) fn node(t: &Typed, s: StmtId) -> &Stmt
    requires typed { IsTyped t.now }
    requires known { s.0 < length t.now.stmts }
    ensures made { (rest : TreeBlock) → made_of t.now s rest ≡ stmt_made t.now (tree_of t.now) (onto (stmt_makers t.now)) s.0 (record { stmt = result.now; at = place_of t.now s.0; inner = inner_of t.now s.0 }) rest }
    ensures below { IsTrue (stmt_below t.now s.0 result.now) }
{
    t.stmt(s)
}

/// Runs a statement from its beginning.
#[cycle(running)]
pub(crate) fn run_stmt(t: &Typed, stage: &mut Stage, below: &mut [Frame], s: StmtId) -> Flow
    requires typed { IsTyped t.now }
    requires known { s.0 < length t.now.stmts }
    requires ready { AreReady t.now below.old stage.old }
    ensures runs { Runs t.now (length below.old) (made_of t.now s) untouched stage.old stage.new result }
    ensures stays { Stays below.old below.new stage.old stage.new }
{
    match node(t, s) {
        Stmt::Assign { target, op, value } => assign(t, stage, s, *target, *op, *value),
        Stmt::Call {
            target,
            keep,
            callee,
            args,
        } => {
            let call = Call {
                target: *target,
                keep: *keep,
                callee: *callee,
                args: args.as_slice(),
            };
            run_call(t, stage, below, s, call, Progress::Untouched)
        }
        Stmt::If { arms, otherwise } => {
            let it = Choice {
                arms: arms.as_slice(),
                otherwise,
            };
            run_if(t, stage, below, s, it)
        }
        Stmt::While { head, body } => run_while(t, stage, below, s, Loop { head, body }),
        Stmt::Break(w) => Flow::Breaks(*w),
        Stmt::Continue(w) => Flow::Continues(*w),
        Stmt::Return(value) => give_back(t, stage, s, *value),
        Stmt::Yield(status) => pause(t, stage, s, *status, Progress::Untouched),
        Stmt::Assert { goal, axiom } => claim(t, stage, s, *goal, axiom),
    }
}

/// Runs the statements of a block one after the other, from the one with the number `from` on. Their numbers as statements lie
/// below `top`.
#[cycle(running)]
pub(crate) fn run_block(
    t: &Typed,
    stage: &mut Stage,
    below: &mut [Frame],
    top: usize,
    block: &Block,
    from: usize,
) -> Flow
    requires typed { IsTyped t.now }
    requires known { top ≤ length t.now.stmts }
    requires inside { IsTrue (block_below top block.now) }
    requires from { from ≤ length block.now.items }
    requires ready { AreReady t.now below.old stage.old }
    ensures runs { RunsBlock t.now (length below.old) (block_made_of t.now (drop from block.now.items)) stage.old stage.new result }
    ensures stays { Stays below.old below.new stage.old stage.new }
{
    let items = block.items.as_slice();
    for i in from..items.len() {
        let flow = run_stmt(t, stage, below, items[i]);
        if !falls(flow) {
            return flow;
        }
    }
    Flow::Falls
}

pub(crate) fn falls(flow: Flow) -> bool
    ensures { result ≡ is_falls flow }
{
    matches!(flow, Flow::Falls)
}

/// Runs an `if`, the statement `s`. One without an arm stands for no statement.
#[cycle(running)]
fn run_if(t: &Typed, stage: &mut Stage, below: &mut [Frame], s: StmtId, it: Choice<'_>) -> Flow
    requires typed { IsTyped t.now }
    requires known { s.0 < length t.now.stmts }
    requires arms { IsTrue (list_all (λ a. is_expr t.now a.cond && block_below s.0 a.body) it.arms.now) }
    requires otherwise { IsTrue (optional_block_below s.0 it.otherwise.now) }
    requires made { (rest : TreeBlock) → made_of t.now s rest ≡ if_made (tree_of t.now) (onto (stmt_makers t.now)) (site_of t.now s) it.arms.now it.otherwise.now rest }
    requires ready { AreReady t.now below.old stage.old }
    ensures runs { Runs t.now (length below.old) (made_of t.now s) untouched stage.old stage.new result }
    ensures stays { Stays below.old below.new stage.old stage.new }
{
    if it.arms.is_empty() {
        return Flow::Stuck;
    }
    match pick(t, stage, s, it.arms) {
        None => Flow::Stuck,
        Some(i) => {
            if i < it.arms.len() {
                run_block(t, stage, below, s.0 as usize, &it.arms[i].body, 0)
            } else {
                match it.otherwise {
                    Some(block) => run_block(t, stage, below, s.0 as usize, block, 0),
                    None => Flow::Falls,
                }
            }
        }
    }
}

/// Runs a loop, the statement `s`.
#[cycle(running)]
fn run_while(t: &Typed, stage: &mut Stage, below: &mut [Frame], s: StmtId, it: Loop<'_>) -> Flow
    requires typed { IsTyped t.now }
    requires known { s.0 < length t.now.stmts }
    requires cond { IsTrue (is_expr t.now it.head.now.cond) }
    requires clauses { IsTrue (list_all (λ c. is_expr t.now c.1) it.head.now.clauses) }
    requires inside { IsTrue (block_below s.0 it.body.now) }
    requires made { (rest : TreeBlock) → made_of t.now s rest ≡ loop (site_of t.now s) (head_made (tree_of t.now) (inner_of t.now s.0) it.head.now) (block_made_of t.now it.body.now.items) rest }
    requires ready { AreReady t.now below.old stage.old }
    ensures runs { Runs t.now (length below.old) (made_of t.now s) untouched stage.old stage.new result }
    ensures stays { Stays below.old below.new stage.old stage.new }
{
    match enter_loop(t, stage, it.head) {
        Turned::Into => run_rounds(t, stage, below, s, it),
        Turned::Past => Flow::Falls,
        Turned::Out => Flow::Out,
        Turned::Stuck => Flow::Stuck,
    }
}

/// Runs the body of a loop, the statement `s`, pass after pass.
#[cycle(running)]
fn run_rounds(t: &Typed, stage: &mut Stage, below: &mut [Frame], s: StmtId, it: Loop<'_>) -> Flow
    requires typed { IsTyped t.now }
    requires known { s.0 < length t.now.stmts }
    requires cond { IsTrue (is_expr t.now it.head.now.cond) }
    requires clauses { IsTrue (list_all (λ c. is_expr t.now c.1) it.head.now.clauses) }
    requires inside { IsTrue (block_below s.0 it.body.now) }
    requires ready { AreReady t.now below.old stage.old }
    ensures runs { RunsRounds t.now (length below.old) (site_of t.now s) (head_made (tree_of t.now) (inner_of t.now s.0) it.entry.head.now) (block_made_of t.now it.entry.body.now.items) stage.old stage.new result }
    ensures stays { Stays below.old below.new stage.old stage.new }
{
    loop {
        let flow = run_block(t, stage, below, s.0 as usize, it.body, 0);
        match close_round(t, stage, s, it.head, flow) {
            Round::Again => {}
            Round::Ends(flow) => return flow,
        }
    }
}

/// Goes on with the statement `s` from a point in it. None where no such point stands in it, and then nothing has changed.
#[cycle(running)]
fn seek_stmt(
    t: &Typed,
    stage: &mut Stage,
    below: &mut [Frame],
    s: StmtId,
    point: Point,
) -> Option<Flow>
    requires typed { IsTyped t.now }
    requires known { s.0 < length t.now.stmts }
    requires ready { AreReady t.now below.old stage.old }
    ensures sought { SoughtIn t.now (length below.old) point.at (done_seen point.done) (made_of t.now s) stage.old result stage.new }
    ensures stays { Stays below.old below.new stage.old stage.new }
{
    match node(t, s) {
        Stmt::Call {
            target,
            keep,
            callee,
            args,
        } => {
            let call = Call {
                target: *target,
                keep: *keep,
                callee: *callee,
                args: args.as_slice(),
            };
            seek_call(t, stage, below, s, call, point)
        }
        Stmt::Yield(status) => seek_yield(t, stage, s, *status, point),
        Stmt::If { arms, otherwise } => {
            let it = Choice {
                arms: arms.as_slice(),
                otherwise,
            };
            seek_if(t, stage, below, s, it, point)
        }
        Stmt::While { head, body } => seek_while(t, stage, below, s, Loop { head, body }, point),
        Stmt::Assign { .. } => None,
        Stmt::Break(_) => None,
        Stmt::Continue(_) => None,
        Stmt::Return(_) => None,
        Stmt::Assert { .. } => None,
    }
}

#[cycle(running)]
fn seek_call(
    t: &Typed,
    stage: &mut Stage,
    below: &mut [Frame],
    s: StmtId,
    call: Call<'_>,
    point: Point,
) -> Option<Flow>
    requires typed { IsTyped t.now }
    requires known { s.0 < length t.now.stmts }
    requires target { IsTrue (is_optional_expr t.now call.target) }
    requires callee { IsTrue (callee_exists t.now call.callee) }
    requires args { IsTrue (list_all (is_expr t.now) call.args.now) }
    requires made { (rest : TreeBlock) → made_of t.now s rest ≡ plain (site_of t.now s) (call_made t.now (tree_of t.now) (inner_of t.now s.0) (optional_target (tree_of t.now) call.target) call.keep call.callee (map (tree_of t.now) call.args.now)) rest }
    requires ready { AreReady t.now below.old stage.old }
    ensures sought { SoughtIn t.now (length below.old) point.at (done_seen point.done) (made_of t.now s) stage.old result stage.new }
    ensures stays { Stays below.old below.new stage.old stage.new }
{
    if !suspends_at(t, call.keep, call.callee, call.args.len()) {
        return None;
    }
    if !is_at(t, s, point.at) {
        return None;
    }
    Some(run_call(t, stage, below, s, call, point.done))
}

/// Goes on in a block, whose statements have numbers below `top`.
#[cycle(running)]
pub(crate) fn seek_block(
    t: &Typed,
    stage: &mut Stage,
    below: &mut [Frame],
    top: usize,
    block: &Block,
    point: Point,
) -> Option<Flow>
    requires typed { IsTyped t.now }
    requires known { top ≤ length t.now.stmts }
    requires inside { IsTrue (block_below top block.now) }
    requires ready { AreReady t.now below.old stage.old }
    ensures sought { SoughtBlock t.now (length below.old) point.at (done_seen point.done) (block_made_of t.now block.now.items) stage.old result stage.new }
    ensures stays { Stays below.old below.new stage.old stage.new }
{
    let items = block.items.as_slice();
    for i in 0..items.len() {
        match seek_stmt(t, stage, below, items[i], point) {
            None => {}
            Some(flow) => {
                if falls(flow) {
                    return Some(run_block(t, stage, below, top, block, i + 1));
                }
                return Some(flow);
            }
        }
    }
    None
}

#[cycle(running)]
fn seek_if(
    t: &Typed,
    stage: &mut Stage,
    below: &mut [Frame],
    s: StmtId,
    it: Choice<'_>,
    point: Point,
) -> Option<Flow>
    requires typed { IsTyped t.now }
    requires known { s.0 < length t.now.stmts }
    requires arms { IsTrue (list_all (λ a. is_expr t.now a.cond && block_below s.0 a.body) it.arms.now) }
    requires otherwise { IsTrue (optional_block_below s.0 it.otherwise.now) }
    requires made { (rest : TreeBlock) → made_of t.now s rest ≡ if_made (tree_of t.now) (onto (stmt_makers t.now)) (site_of t.now s) it.arms.now it.otherwise.now rest }
    requires ready { AreReady t.now below.old stage.old }
    ensures sought { SoughtIn t.now (length below.old) point.at (done_seen point.done) (made_of t.now s) stage.old result stage.new }
    ensures stays { Stays below.old below.new stage.old stage.new }
{
    if it.arms.is_empty() {
        return None;
    }
    match seek_block(t, stage, below, s.0 as usize, &it.arms[0].body, point) {
        Some(flow) => Some(flow),
        None => seek_arms(t, stage, below, s, it, point),
    }
}

/// Goes on in an `if` after its first arm.
#[cycle(running)]
fn seek_arms(
    t: &Typed,
    stage: &mut Stage,
    below: &mut [Frame],
    s: StmtId,
    it: Choice<'_>,
    point: Point,
) -> Option<Flow>
    requires typed { IsTyped t.now }
    requires known { s.0 < length t.now.stmts }
    requires arms { IsTrue (list_all (λ a. is_expr t.now a.cond && block_below s.0 a.body) it.arms.now) }
    requires otherwise { IsTrue (optional_block_below s.0 it.otherwise.now) }
    requires ready { AreReady t.now below.old stage.old }
    ensures sought { SoughtBlock t.now (length below.old) point.at (done_seen point.done) (otherwise_made (tree_of t.now) (onto (stmt_makers t.now)) (site_of t.now s) (drop 1 it.entry.arms.now) it.entry.otherwise.now) stage.old result stage.new }
    ensures stays { Stays below.old below.new stage.old stage.new }
{
    for i in 1..it.arms.len() {
        if let Some(flow) = seek_block(t, stage, below, s.0 as usize, &it.arms[i].body, point) {
            return Some(flow);
        }
    }
    let block = it.otherwise.as_ref()?;
    seek_block(t, stage, below, s.0 as usize, block, point)
}

#[cycle(running)]
fn seek_while(
    t: &Typed,
    stage: &mut Stage,
    below: &mut [Frame],
    s: StmtId,
    it: Loop<'_>,
    point: Point,
) -> Option<Flow>
    requires typed { IsTyped t.now }
    requires known { s.0 < length t.now.stmts }
    requires cond { IsTrue (is_expr t.now it.head.now.cond) }
    requires clauses { IsTrue (list_all (λ c. is_expr t.now c.1) it.head.now.clauses) }
    requires inside { IsTrue (block_below s.0 it.body.now) }
    requires made { (rest : TreeBlock) → made_of t.now s rest ≡ loop (site_of t.now s) (head_made (tree_of t.now) (inner_of t.now s.0) it.head.now) (block_made_of t.now it.body.now.items) rest }
    requires ready { AreReady t.now below.old stage.old }
    ensures sought { SoughtIn t.now (length below.old) point.at (done_seen point.done) (made_of t.now s) stage.old result stage.new }
    ensures stays { Stays below.old below.new stage.old stage.new }
{
    let flow = seek_block(t, stage, below, s.0 as usize, it.body, point)?;
    match close_round(t, stage, s, it.head, flow) {
        Round::Again => Some(run_rounds(t, stage, below, s, it)),
        Round::Ends(flow) => Some(flow),
    }
}

/// Runs the call that is the statement `s`, which has done so much.
#[cycle(running)]
fn run_call(
    t: &Typed,
    stage: &mut Stage,
    below: &mut [Frame],
    s: StmtId,
    call: Call<'_>,
    done: Progress,
) -> Flow
    requires typed { IsTyped t.now }
    requires known { s.0 < length t.now.stmts }
    requires target { IsTrue (is_optional_expr t.now call.target) }
    requires callee { IsTrue (callee_exists t.now call.callee) }
    requires args { IsTrue (list_all (is_expr t.now) call.args.now) }
    requires made { (rest : TreeBlock) → made_of t.now s rest ≡ plain (site_of t.now s) (call_made t.now (tree_of t.now) (inner_of t.now s.0) (optional_target (tree_of t.now) call.target) call.keep call.callee (map (tree_of t.now) call.args.now)) rest }
    requires ready { AreReady t.now below.old stage.old }
    ensures runs { Runs t.now (length below.old) (made_of t.now s) (done_seen done) stage.old stage.new result }
    ensures stays { Stays below.old below.new stage.old stage.new }
{
    match call.callee {
        Callee::Base { on, sig } => {
            let base = BaseCall {
                target: call.target,
                on,
                sig,
                args: call.args,
            };
            run_base(t, stage, s, base, done)
        }
        Callee::Own(m) => run_invoke(t, stage, below, s, call, m),
        Callee::Sub { method, .. } => run_invoke(t, stage, below, s, call, method),
    }
}

/// Runs the call of the method `m` that is the statement `s`.
#[cycle(running)]
fn run_invoke(
    t: &Typed,
    stage: &mut Stage,
    below: &mut [Frame],
    s: StmtId,
    call: Call<'_>,
    m: MethodId,
) -> Flow
    requires typed { IsTyped t.now }
    requires known { s.0 < length t.now.stmts }
    requires target { IsTrue (is_optional_expr t.now call.target) }
    requires callee { CallsMethod call.callee m }
    requires method { m.0 < length t.now.methods }
    requires args { IsTrue (list_all (is_expr t.now) call.args.now) }
    requires made { (rest : TreeBlock) → made_of t.now s rest ≡ plain (site_of t.now s) (call_made t.now (tree_of t.now) (inner_of t.now s.0) (optional_target (tree_of t.now) call.target) call.keep call.callee (map (tree_of t.now) call.args.now)) rest }
    requires ready { AreReady t.now below.old stage.old }
    ensures runs { (done : Done) → Runs t.now (length below.old) (made_of t.now s) done stage.old stage.new result }
    ensures stays { Stays below.old below.new stage.old stage.new }
{
    if !give_args(t, stage, below, m, call.args) {
        return Flow::Stuck;
    }
    match receiver(stage, call.callee) {
        Some(object) => {
            let ran = run_through(t, stage, below, call.callee, m, object);
            close_call(t, stage, s, call, t.method(m).mark, ran)
        }
        None => Flow::Stuck,
    }
}

/// Runs a call of the method `m` in the struct state `object`: through the entry table where it goes through a field.
#[cycle(running)]
fn run_through(
    t: &Typed,
    stage: &mut Stage,
    below: &mut [Frame],
    callee: Callee,
    m: MethodId,
    object: u32,
) -> Ran
    requires typed { IsTyped t.now }
    requires known { m.0 < length t.now.methods }
    requires callee { CallsMethod callee m }
    requires ready { AreReady t.now below.old stage.old }
    ensures runs { Through t.now below.old callee m.0 object stage.old stage.new result }
    ensures stays { Stays below.old below.new stage.old stage.new }
    ensures frame { stage.new.frame ≡ stage.old.frame }
{
    match callee {
        Callee::Sub { .. } => enter_method(t, stage, below, m, object, true),
        Callee::Own(_) => run_method(t, stage, below, m, object),
        Callee::Base { .. } => Ran::Stuck,
    }
}

/// Runs a call of the method `m` in the struct state `object` that passes the entry table, as every call from the host does, and
/// every call through a field. `fit` tells that the arguments fit their types, and they then stand in the method's frame. The frames
/// below are those of the first methods in the package's order. The frame of the stage stays as it is.
#[cycle(running)]
pub fn enter_method(
    t: &Typed,
    stage: &mut Stage,
    below: &mut [Frame],
    m: MethodId,
    object: u32,
    fit: bool,
) -> Ran
    requires typed { IsTyped t.now }
    requires known { m.0 < length t.now.methods }
    requires ready { AreReady t.now below.old stage.old }
    ensures runs { Entered t.now below.old m.0 object fit stage.old stage.new result }
    ensures stays { Stays below.old below.new stage.old stage.new }
    ensures frame { stage.new.frame ≡ stage.old.frame }
    ensures ready { AreReady t.now below.new stage.new }
{
    if (object as usize) >= stage.objects.len() {
        return Ran::Stuck;
    }
    match admit(stage, t.method(m).mark, m, object, fit) {
        Some(status) => Ran::Answers(refuse(t, m, status)),
        None => {
            let ran = run_method(t, stage, below, m, object);
            settle_ran(t, stage, m, object, ran);
            ran
        }
    }
}

/// Runs a call of the method `m` in the struct state `object`; its arguments stand in its frame. It is stuck where the method has no
/// frame among those below.
#[cycle(running)]
fn run_method(t: &Typed, stage: &mut Stage, below: &mut [Frame], m: MethodId, object: u32) -> Ran
    requires typed { IsTyped t.now }
    requires known { m.0 < length t.now.methods }
    requires ready { AreReady t.now below.old stage.old }
    ensures runs { Called t.now below.old m.0 object stage.old stage.new result }
    ensures stays { Stays below.old below.new stage.old stage.new }
    ensures frame { stage.new.frame ≡ stage.old.frame }
{
    match frame_of(t, below.len(), m) {
        Some(at) => {
            let (front, back) = below.split_at_mut(at);
            run_in(t, stage, front, &mut back[0], m, object)
        }
        None => Ran::Stuck,
    }
}

/// Runs the body of the method `m` in a frame, in which its arguments stand. Its entry is a turn.
#[cycle(running)]
fn run_in(
    t: &Typed,
    stage: &mut Stage,
    below: &mut [Frame],
    frame: &mut Frame,
    m: MethodId,
    object: u32,
) -> Ran
    requires typed { IsTyped t.now }
    requires known { m.0 < length t.now.methods }
    requires ready { AreReady t.now below.old stage.old }
    requires sizes { sizes_of frame.old ≡ sizes_for t.now m.0 }
    ensures runs { runs_if (package_of t.now) (calls_below t.now (length below.old)) (slice_get (package_of t.now).methods m.0) (record { object = object; method = m.0; args = map slot_seen frame.old.args.items }) stage.old.turns (world_on t.now stage.old) ≡ ran_seen t.now result stage.new }
    ensures stays { Stays below.old below.new stage.old stage.new }
    ensures frame { stage.new.frame ≡ stage.old.frame }
    ensures sizes { sizes_of frame.new ≡ sizes_of frame.old }
{
    if stage.turns == 0 {
        return Ran::Out;
    }
    stage.turns -= 1;
    frame.method = m;
    frame.object = object;
    std::mem::swap(&mut stage.frame, frame);
    let flow = run_body(t, stage, below);
    let ran = leave(t, stage, flow);
    std::mem::swap(&mut stage.frame, frame);
    ran
}

/// Runs the body on the stage: it goes on from where it has suspended, or begins.
#[cycle(running)]
fn run_body(t: &Typed, stage: &mut Stage, below: &mut [Frame]) -> Flow
    requires typed { IsTyped t.now }
    requires known { stage.old.frame.method.0 < length t.now.methods }
    requires locals { length stage.old.frame.locals.items ≡ length (locals_of t.now stage.old.frame.method.0) }
    requires ready { AreReady t.now below.old stage.old }
    ensures runs { Flows t.now (length below.old) (body_on t.now stage.old).method.body end stop result stage.new (whole_run t.now (length below.old) stage.old) }
    ensures stays { Stays below.old below.new stage.old stage.new }
{
    let body = t.body(stage.frame.method);
    let top = past(body.items.as_slice());
    match take_up(stage) {
        Some((at, done)) => match seek_block(t, stage, below, top, body, Point { at, done }) {
            Some(flow) => flow,
            None => {
                begin(t, stage);
                run_block(t, stage, below, top, body, 0)
            }
        },
        None => {
            begin(t, stage);
            run_block(t, stage, below, top, body, 0)
        }
    }
}

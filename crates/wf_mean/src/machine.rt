// The source's machine as a host uses it: its receivers, and the room in which a call's bodies run.

ghost use Rattle.std.specs.Prelude.{◌≡◌, ◌<◌, ℕ, [], true, Some, length, map, is_some, slice_get, unwrap_or};
ghost use Rattle.wf_ast.specs.TypedInvariant.{IsTyped};
ghost use Rattle.wf_ast.specs.declared.typed_nodes.TypedNodes.{TypedNodes};
ghost use Rattle.wf_ast.specs.TypedPackage.{MethodTree, package_of, variable_of};
ghost use Rattle.wf_bufs.specs.HostViews.{arg_of, call_of};
ghost use Rattle.wf_bufs.specs.HostSeen.{host_of};
ghost use Rattle.wf_bufs.specs.EngineLaw.{Replies};
ghost use Rattle.wf_meaning.specs.SourceCall.{entry_of, host_values};
ghost use Rattle.wf_meaning.specs.World.{updated};
ghost use Rattle.wf_mean_exprs.specs.MachineState.{slot_seen, world_seen};
ghost use Rattle.wf_mean_stmts.specs.Arguments.{Fills};
ghost use Rattle.wf_mean_stmts.specs.Entries.{answer_seen};
ghost use Rattle.wf_mean_runs.specs.Calls.{HoldArgs, ran_seen, world_on};
ghost use Rattle.wf_mean_runs.specs.Frames.{args_of, sizes_of};
ghost use Rattle.wf_mean.specs.SourceEngines.{EngineState, call_gives, init_gives, kind_told, outcome_of, receiver_gives};
ghost use Rattle.wf_mean.specs.Machines.{AreFrames, IsReady, KeepAll, RanTo, receiver_seen, receivers_seen, reply_if};

use crate::answers::outcome;
use crate::arguments::{fill_from_host, fit_from_host};
use crate::receivers::{ReceiverState, clear_objects};
use wf_ast::{Typed, Var};
use wf_bufs::{Arg, Bufs, Call, Outcome, Reply};
use wf_mean_exprs::objects::{Frame, ObjectState};
use wf_mean_runs::calls::{Ran, frame_of, refuse};
use wf_mean_runs::running::enter_method;
use wf_mean_stmts::entry::Answer;
use wf_mean_stmts::stage::Stage;
use wf_surfaces::answer_kind;
use wf_text::{MethodId, StatusId};

/// Where a call's bodies run: a frame for each method, in the package's order of calls, and a stage, which has the struct states
/// of the call's receiver and the host's buffers and byte arrays while the call runs.
#[derive(Drop)]
pub(crate) struct Room {
    pub stage: Stage,
    pub frames: Vec<Frame>,
}

/// The machine's room and its receivers, by number.
#[derive(Drop)]
pub(crate) struct Machine {
    pub room: Room,
    pub receivers: Vec<ReceiverState>,
}

// Whether the arguments of a call from the host fit. They then stand in the frame of the method.
fn give_args(t: &Typed, stage: &Stage, frames: &mut [Frame], m: MethodId, args: &[Arg]) -> bool
    requires known { m.0 < length t.now.methods }
    requires frames { AreFrames t.now frames.old }
    ensures fit { result ≡ is_some (host_values (host_of stage.now.host).arrays (map (variable_of t.now) (args_of t.now m.0)) (map arg_of args.now)) }
    ensures given { result ≡ true → HoldArgs t.now frames.new m.0 (unwrap_or (host_values (host_of stage.now.host).arrays (map (variable_of t.now) (args_of t.now m.0)) (map arg_of args.now)) []) }
    ensures frames { AreFrames t.now frames.new }
{
    let declared = t.method(m).args.as_slice();
    match frame_of(t, frames.len(), m) {
        Some(at) => fill_frame(&stage.host, declared, args, &mut frames[at]),
        None => fit_from_host(&stage.host.arrays, declared, args),
    }
}

// Whether the arguments of a call from the host fit. They then stand in this frame of the method.
fn fill_frame(host: &Bufs, declared: &[Var], args: &[Arg], frame: &mut Frame) -> bool
    requires sizes { length frame.old.args.items ≡ length declared.now }
    ensures values { (nodes : TypedNodes) → Fills result (host_values (host_of host.now).arrays (map (variable_of nodes) declared.now) (map arg_of args.now)) (map slot_seen frame.new.args.items) }
    ensures sizes { sizes_of frame.new ≡ sizes_of frame.old }
{
    fill_from_host(&host.arrays, declared, args, frame.args.as_mut_slice())
}

// Runs the call of a method in the first struct state on the stage.
fn run_call(t: &Typed, stage: &mut Stage, frames: &mut [Frame], m: MethodId, args: &[Arg]) -> Ran
    requires typed { IsTyped t.now }
    requires known { m.0 < length t.now.methods }
    requires frames { AreFrames t.now frames.old }
    requires kept { KeepAll t.now stage.old.objects.items }
    ensures runs { (callee : MethodTree) → slice_get (package_of t.now).methods m.0 ≡ Some callee
        → entry_of (package_of t.now) callee m.0 (host_values (host_of stage.old.host).arrays callee.args (map arg_of args.now)) stage.old.turns (world_on t.now stage.old) ≡ ran_seen t.now result stage.new }
    ensures frames { AreFrames t.now frames.new }
    ensures kept { KeepAll t.now stage.new.objects.items }
{
    let fit = give_args(t, stage, frames, m, args);
    enter_method(t, stage, frames, m, 0, fit)
}

// Runs a call on the struct states of its receiver, which isn't null.
fn call_objects(
    t: &Typed,
    room: &mut Room,
    objects: &mut Vec<ObjectState>,
    what: &Call<'_>,
    bufs: &mut Bufs,
    turns: u64,
) -> Ran
    requires typed { IsTyped t.now }
    requires known { what.now.method.0 < length t.now.methods }
    requires frames { AreFrames t.now room.old.frames.items }
    requires kept { KeepAll t.now objects.old.items }
    ensures runs { (callee : MethodTree) → slice_get (package_of t.now).methods what.now.method.0 ≡ Some callee
        → RanTo t.now result objects.new.items bufs.new (entry_of (package_of t.now) callee what.now.method.0 (host_values (host_of bufs.old).arrays callee.args (map arg_of what.now.args.now)) turns (world_seen t.now objects.old.items bufs.old)) }
    ensures frames { AreFrames t.now room.new.frames.items }
    ensures kept { KeepAll t.now objects.new.items }
{
    std::mem::swap(&mut room.stage.objects, objects);
    std::mem::swap(&mut room.stage.host, bufs);
    room.stage.turns = turns;
    let ran = run_call(
        t,
        &mut room.stage,
        room.frames.as_mut_slice(),
        what.method,
        what.args,
    );
    std::mem::swap(&mut room.stage.host, bufs);
    std::mem::swap(&mut room.stage.objects, objects);
    ran
}

// The reply of a method with its answer.
fn reply_with(t: &Typed, m: MethodId, answer: Answer) -> Reply
    requires typed { IsTyped t.now }
    requires known { m.0 < length t.now.methods }
    ensures { (callee : MethodTree) → slice_get (package_of t.now).methods m.0 ≡ Some callee → result ≡ reply_if (outcome_of (package_of t.now) (kind_told callee) (answer_seen answer)) }
{
    let method = t.method(m);
    match outcome(t, answer_kind(method.mark, method.gives), answer) {
        Some(outcome) => Reply::Done(outcome),
        None => Reply::Undefined,
    }
}

// Calls a receiver.
fn call_receiver(
    t: &Typed,
    room: &mut Room,
    receiver: &mut ReceiverState,
    what: &Call<'_>,
    bufs: &mut Bufs,
    turns: u64,
) -> Reply
    requires typed { IsTyped t.now }
    requires known { what.now.method.0 < length t.now.methods }
    requires frames { AreFrames t.now room.old.frames.items }
    requires kept { KeepAll t.now receiver.old.objects.items }
    ensures gives { (e : EngineState) (callee : MethodTree) → e.package_tree ≡ package_of t.now → slice_get (package_of t.now).methods what.now.method.0 ≡ Some callee
        → slice_get e.objects what.now.receiver ≡ Some (receiver_seen (package_of t.now) receiver.old)
        → Replies (receiver_gives e callee (call_of what.now) (host_of bufs.old) turns (receiver_seen (package_of t.now) receiver.old)) result
        (record e { objects = updated (λ _. receiver_seen (package_of t.now) receiver.new) what.now.receiver e.objects }, host_of bufs.new) }
    ensures declared { receiver.new.decl ≡ receiver.old.decl }
    ensures frames { AreFrames t.now room.new.frames.items }
    ensures kept { KeepAll t.now receiver.new.objects.items }
{
    if receiver.decl.null {
        return reply_with(t, what.method, refuse(t, what.method, 4));
    }
    match call_objects(t, room, &mut receiver.objects, what, bufs, turns) {
        Ran::Answers(answer) => reply_with(t, what.method, answer),
        Ran::Out => Reply::Turns,
        Ran::Stuck => Reply::Undefined,
    }
}

impl Machine {
    /// One public call.
    #[tactic(auto, unfolding(crate::specs::SourceEngines::call_gives))]
    pub(crate) fn call(&mut self, t: &Typed, what: &Call<'_>, bufs: &mut Bufs, turns: u64) -> Reply
        requires typed { IsTyped t.now }
        requires ready { IsReady t.now self.old }
        ensures gives { (e : EngineState) → e.package_tree ≡ package_of t.now → e.objects ≡ receivers_seen (package_of t.now) self.old.receivers.items
            → Replies (call_gives e (call_of what.now) (host_of bufs.old) turns) result (record e { objects = receivers_seen (package_of t.now) self.new.receivers.items }, host_of bufs.new) }
        ensures declared { map (λ r. r.decl) self.new.receivers.items ≡ map (λ r. r.decl) self.old.receivers.items }
        ensures ready { IsReady t.now self.new }
    {
        if what.method.0 >= t.methods() {
            return Reply::Undefined;
        }
        let k = what.receiver as usize;
        if k >= self.receivers.len() {
            return Reply::Undefined;
        }
        call_receiver(t, &mut self.room, &mut self.receivers[k], what, bufs, turns)
    }

    /// Makes a receiver ready, whatever it was.
    #[tactic(auto, unfolding(crate::specs::SourceEngines::init_gives))]
    pub(crate) fn init(&mut self, t: &Typed, receiver: u16) -> Reply
        requires typed { IsTyped t.now }
        requires ready { IsReady t.now self.old }
        ensures gives { (e : EngineState) (turns : ℕ) → e.package_tree ≡ package_of t.now → e.objects ≡ receivers_seen (package_of t.now) self.old.receivers.items
            → Replies (init_gives e receiver turns) result (record e { objects = receivers_seen (package_of t.now) self.new.receivers.items }) }
        ensures declared { map (λ r. r.decl) self.new.receivers.items ≡ map (λ r. r.decl) self.old.receivers.items }
        ensures ready { IsReady t.now self.new }
    {
        let k = receiver as usize;
        if k >= self.receivers.len() {
            return Reply::Undefined;
        }
        if self.receivers[k].decl.null {
            return Reply::Done(Outcome::Status(StatusId(4)));
        }
        clear_objects(self.receivers[k].objects.as_mut_slice());
        Reply::Done(Outcome::Status(StatusId(0)))
    }
}

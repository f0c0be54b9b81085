// What is kept of a method between calls: how its body begins, or goes on, and how it ends.

ghost use Rattle.std.specs.Prelude.{◌≡◌, ◌<◌, ℕ, None, Some, length, map, slice_get, unwrap_or};
ghost use Rattle.turns.specs.Run.{Outcome};
ghost use Rattle.wf_ast.specs.declared.typed_nodes.TypedNodes.{TypedNodes};
ghost use Rattle.wf_ast.specs.TypedTree.{end};
ghost use Rattle.wf_ast.specs.TypedPackage.{PackageTree, package_of};
ghost use Rattle.wf_ast.specs.TypedInvariant.{IsTyped};
ghost use Rattle.wf_ast.specs.WellTyped.{is_coroutine as is_marked_coroutine};
ghost use Rattle.wf_meaning.specs.SourceState.{stop};
ghost use Rattle.wf_meaning.specs.World.{World, kept_locals, updated, with_object};
ghost use Rattle.wf_meaning.specs.SourceCall.{fresh_local, left_over, set_remaining, taken_up};
ghost use Rattle.wf_meaning.specs.SourceStep.{Ending};
ghost use Rattle.wf_mean_exprs.specs.MachineState.{no_method, object_seen, remaining_seen, slot_seen};
ghost use Rattle.wf_mean_stmts.specs.Stages.{body_on, kept_lengths, shape, vars_on};
ghost use Rattle.wf_mean_flows.specs.Flows.{Flows};
ghost use Rattle.wf_mean_runs.specs.Bodies.{HasRoom, TakesUp, call_on, end_value as value_at_end, kept_in, remaining_at};
ghost use Rattle.wf_mean_runs.specs.Calls.{ran_seen, world_on};
ghost use Rattle.wf_mean_runs.specs.Frames.{locals_of};

use crate::calls::Ran;
use wf_ast::Typed;
use wf_mean_exprs::locals::{begin_locals, keep_locals};
use wf_mean_exprs::objects::{KeptBody, ObjectState, Progress};
use wf_mean_exprs::values::Slot;
use wf_mean_flows::flows::Flow;
use wf_mean_flows::simple::own_mark;
use wf_mean_stmts::entry::{Answer, is_coroutine};
use wf_mean_stmts::stage::Stage;
use wf_text::{MethodId, Place};

/// Takes up what is kept of the method whose body is on the stage: the place of the point at which it has suspended, and what
/// the statement there has done; the locals are then the kept ones, and nothing is kept any more. None where nothing is kept.
pub(crate) fn take_up(stage: &mut Stage) -> Option<(Place, Progress)>
    requires room { HasRoom (kept_in stage.old.objects.items stage.old.frame.object stage.old.frame.method.0) (length stage.old.frame.locals.items) }
    ensures world { (nodes : TypedNodes) → world_on nodes stage.new ≡ taken_up (call_on stage.old) (world_on nodes stage.old) }
    ensures kept { TakesUp result stage.new.frame.locals.items (kept_in stage.old.objects.items stage.old.frame.object stage.old.frame.method.0) }
    ensures shape { shape stage.new ≡ shape stage.old }
    ensures turns { stage.new.turns ≡ stage.old.turns }
{
    let object = stage.frame.object;
    let m = stage.frame.method.0;
    take_in(
        stage.objects.as_mut_slice(),
        object,
        m,
        stage.frame.locals.as_mut_slice(),
    )
}

fn take_in(
    objects: &mut [ObjectState],
    object: u32,
    m: u32,
    locals: &mut [Slot],
) -> Option<(Place, Progress)>
    requires room { HasRoom (kept_in objects.old object m) (length locals.old) }
    ensures objects { (p : PackageTree) → map (object_seen p) objects.new ≡ updated (set_remaining m None) object (map (object_seen p) objects.old) }
    ensures kept { TakesUp result locals.new (kept_in objects.old object m) }
    ensures lengths { map kept_lengths objects.new ≡ map kept_lengths objects.old }
    ensures count { length locals.new ≡ length locals.old }
{
    if (object as usize) < objects.len() {
        take_of(&mut objects[object as usize], m, locals)
    } else {
        None
    }
}

fn take_of(state: &mut ObjectState, m: u32, locals: &mut [Slot]) -> Option<(Place, Progress)>
    requires room { HasRoom (slice_get state.old.kept.items m) (length locals.old) }
    ensures state { (p : PackageTree) → object_seen p state.new ≡ set_remaining m None (object_seen p state.old) }
    ensures kept { TakesUp result locals.new (slice_get state.old.kept.items m) }
    ensures lengths { kept_lengths state.new ≡ kept_lengths state.old }
    ensures count { length locals.new ≡ length locals.old }
{
    if (m as usize) < state.kept.len() {
        take_kept(&mut state.kept[m as usize], locals)
    } else {
        None
    }
}

fn take_kept(kept: &mut KeptBody, locals: &mut [Slot]) -> Option<(Place, Progress)>
    requires room { length kept.old.locals.items ≡ length locals.old }
    ensures none { (p : PackageTree) (m : ℕ) → remaining_seen p m kept.new ≡ None }
    ensures kept { TakesUp result locals.new (Some kept.old) }
    ensures lengths { length kept.new.locals.items ≡ length kept.old.locals.items }
    ensures count { length locals.new ≡ length locals.old }
{
    let at = kept.point?;
    kept.point = None;
    locals.copy_from_slice(kept.locals.as_slice());
    Some((at, kept.done))
}

/// The body on the stage begins: its locals are zero, false, ok and empty.
pub(crate) fn begin(t: &Typed, stage: &mut Stage)
    requires known { stage.old.frame.method.0 < length t.now.methods }
    requires typed { IsTyped t.now }
    requires count { length stage.old.frame.locals.items ≡ length (locals_of t.now stage.old.frame.method.0) }
    ensures vars { vars_on t.now stage.new ≡ record { locals = map (λ x. fresh_local x.ty) (body_on t.now stage.old).method.locals; world = world_on t.now stage.old } }
    ensures shape { shape stage.new ≡ shape stage.old }
    ensures turns { stage.new.turns ≡ stage.old.turns }
{
    begin_in(t, stage.frame.method, stage.frame.locals.as_mut_slice());
}

fn begin_in(t: &Typed, m: MethodId, locals: &mut [Slot])
    requires typed { IsTyped t.now }
    requires known { m.0 < length t.now.methods }
    requires count { length locals.old ≡ length (locals_of t.now m.0) }
    ensures locals { map slot_seen locals.new ≡ map (λ x. fresh_local x.ty) (unwrap_or (slice_get (package_of t.now).methods m.0) no_method).locals }
    ensures count { length locals.new ≡ length locals.old }
{
    begin_locals(t.method(m).locals.as_slice(), locals);
}

/// The body on the stage has run to a flow: the call of its method comes to an answer, and what it leaves at a suspension is kept.
pub(crate) fn leave(t: &Typed, stage: &mut Stage, flow: Flow) -> Ran
    requires typed { IsTyped t.now }
    requires known { stage.old.frame.method.0 < length t.now.methods }
    requires room { HasRoom (kept_in stage.old.objects.items stage.old.frame.object stage.old.frame.method.0) (length stage.old.frame.locals.items) }
    ensures ran { (level : ℕ) (o : Outcome (Ending × World)) → Flows t.now level (body_on t.now stage.old).method.body end stop flow stage.old o → left_over (call_on stage.old) o ≡ ran_seen t.now result stage.new }
    ensures shape { shape stage.new ≡ shape stage.old }
    ensures turns { stage.new.turns ≡ stage.old.turns }
{
    match flow {
        Flow::Falls => Ran::Answers(Answer::Returned(end_value(t, stage))),
        Flow::Returns(v) => Ran::Answers(Answer::Returned(v)),
        Flow::Suspends { status, at, done } => {
            keep(stage, at, done);
            Ran::Answers(Answer::Suspended(status))
        }
        Flow::Out => Ran::Out,
        Flow::Breaks(_) => Ran::Stuck,
        Flow::Continues(_) => Ran::Stuck,
        Flow::Stuck => Ran::Stuck,
    }
}

// A coroutine whose body comes to its end answers ok, and every other method nothing.
fn end_value(t: &Typed, stage: &Stage) -> Option<Slot>
    requires typed { IsTyped t.now }
    ensures { result ≡ value_at_end (is_marked_coroutine (body_on t.now stage.now).method.mark) }
{
    if is_coroutine(own_mark(t, stage)) {
        Some(Slot::Status(0))
    } else {
        None
    }
}

// Keeps the point at which the body on the stage suspends, what the statement there has done, and its locals.
fn keep(stage: &mut Stage, at: Place, done: Progress)
    requires room { HasRoom (kept_in stage.old.objects.items stage.old.frame.object stage.old.frame.method.0) (length stage.old.frame.locals.items) }
    ensures world { (nodes : TypedNodes) → world_on nodes stage.new ≡ with_object stage.old.frame.object (set_remaining stage.old.frame.method.0 (remaining_at (package_of nodes) stage.old.frame.method.0 at done (kept_locals (map slot_seen stage.old.frame.locals.items)))) (world_on nodes stage.old) }
    ensures shape { shape stage.new ≡ shape stage.old }
    ensures turns { stage.new.turns ≡ stage.old.turns }
{
    let object = stage.frame.object;
    let m = stage.frame.method.0;
    keep_in(
        stage.objects.as_mut_slice(),
        object,
        m,
        at,
        done,
        stage.frame.locals.as_slice(),
    );
}

fn keep_in(
    objects: &mut [ObjectState],
    object: u32,
    m: u32,
    at: Place,
    done: Progress,
    locals: &[Slot],
)
    requires room { HasRoom (kept_in objects.old object m) (length locals.now) }
    ensures objects { (p : PackageTree) → map (object_seen p) objects.new ≡ updated (set_remaining m (remaining_at p m at done (kept_locals (map slot_seen locals.now)))) object (map (object_seen p) objects.old) }
    ensures lengths { map kept_lengths objects.new ≡ map kept_lengths objects.old }
{
    if (object as usize) < objects.len() {
        keep_of(&mut objects[object as usize], m, at, done, locals);
    }
}

fn keep_of(state: &mut ObjectState, m: u32, at: Place, done: Progress, locals: &[Slot])
    requires room { HasRoom (slice_get state.old.kept.items m) (length locals.now) }
    ensures state { (p : PackageTree) → object_seen p state.new ≡ set_remaining m (remaining_at p m at done (kept_locals (map slot_seen locals.now))) (object_seen p state.old) }
    ensures lengths { kept_lengths state.new ≡ kept_lengths state.old }
{
    if (m as usize) < state.kept.len() {
        keep_body(&mut state.kept[m as usize], at, done, locals);
    }
}

fn keep_body(kept: &mut KeptBody, at: Place, done: Progress, locals: &[Slot])
    requires room { length kept.old.locals.items ≡ length locals.now }
    ensures kept { (p : PackageTree) (m : ℕ) → remaining_seen p m kept.new ≡ remaining_at p m at done (kept_locals (map slot_seen locals.now)) }
    ensures lengths { length kept.new.locals.items ≡ length kept.old.locals.items }
{
    kept.point = Some(at);
    kept.done = done;
    keep_locals(locals, kept.locals.as_mut_slice());
}

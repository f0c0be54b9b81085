// What stands before the call of a method and after it: its arguments, its struct state, and what becomes of its answer.

ghost use Rattle.std.specs.Prelude.{◌≡◌, ◌<◌, None, Some, false, IsTrue, is_some, length, map, option_and_then, option_map, slice_get};
ghost use Rattle.std.specs.List.{list_all};
ghost use Rattle.wf_ast.specs.declared.typed_nodes.TypedNodes.{TypedNodes};
ghost use Rattle.wf_ast.specs.TypedTrees.{optional_target, tree_of};
ghost use Rattle.wf_ast.specs.TypedPackage.{MethodTree, PackageTree, package_of, variable_of};
ghost use Rattle.wf_ast.specs.TypedInvariant.{IsTyped, is_expr, is_optional_expr};
ghost use Rattle.wf_ast.specs.WellTyped.{is_coroutine as is_marked_coroutine};
ghost use Rattle.wf_meaning.specs.SourceState.{Object};
ghost use Rattle.wf_meaning.specs.Entry.{admission, ended};
ghost use Rattle.wf_meaning.specs.World.{updated};
ghost use Rattle.wf_meaning.specs.SourceStep.{Call as SourceCall, kept_status as status_kept, put_answer, receiver_of, settled, values_of};
ghost use Rattle.wf_mean_exprs.specs.MachineState.{object_seen, slot_seen};
ghost use Rattle.wf_mean_stmts.specs.Arguments.{Fills, fitting_value};
ghost use Rattle.wf_mean_stmts.specs.Entries.{answer_seen};
ghost use Rattle.wf_mean_stmts.specs.Stages.{body_on, kept_lengths, shape, sight_on, vars_on};
ghost use Rattle.turns.specs.Run.{Got};
ghost use Rattle.wf_mean_runs.specs.Answers.{AdmitsAmong, Closes, Given, TakesValue, handed, part_at as part_among, part_of, value_or_buffer};
ghost use Rattle.wf_mean_runs.specs.Calls.{ran_seen, tree_called, world_on};
ghost use Rattle.wf_mean_runs.specs.Frames.{AreReady, args_of, sizes_of};

use crate::calls::{Call, Ran, frame_of};
use wf_ast::{Callee, ExprId, FieldId, StmtId, Ty, Typed, Var};
use wf_base::Mark;
use wf_mean_exprs::objects::{FieldState, Frame, ObjectState, Progress};
use wf_mean_exprs::values::Slot;
use wf_mean_flows::flows::Flow;
use wf_mean_stmts::any::value_on;
use wf_mean_stmts::arguments::{fill_args, fits_argument};
use wf_mean_stmts::entry::{Answer, enter, is_coroutine, settle};
use wf_mean_stmts::stage::Stage;
use wf_mean_stmts::targets::put_if_any;
use wf_text::MethodId;

/// Whether all arguments of a call of `m` have values that lie in their types. They then stand in the method's frame, if it has
/// one among those below.
pub(crate) fn give_args(
    t: &Typed,
    stage: &Stage,
    below: &mut [Frame],
    m: MethodId,
    args: &[ExprId],
) -> bool
    requires typed { IsTyped t.now }
    requires known { m.0 < length t.now.methods }
    requires args { IsTrue (list_all (is_expr t.now) args.now) }
    requires ready { AreReady t.now below.old stage.now }
    ensures values { Given result t.now below.new m.0 (values_of (sight_on t.now stage.now) (map (variable_of t.now) (args_of t.now m.0)) (map (tree_of t.now) args.now)) }
    ensures count { length below.new ≡ length below.old }
    ensures frames { map sizes_of below.new ≡ map sizes_of below.old }
{
    let declared = t.method(m).args.as_slice();
    match frame_of(t, below.len(), m) {
        Some(at) => give_in(t, stage, declared, args, &mut below[at]),
        None => have_values(t, stage, declared, args),
    }
}

// The values go to a frame that has a place for each.
fn give_in(t: &Typed, stage: &Stage, declared: &[Var], args: &[ExprId], frame: &mut Frame) -> bool
    requires typed { IsTyped t.now }
    requires args { IsTrue (list_all (is_expr t.now) args.now) }
    requires sizes { length frame.old.args.items ≡ length declared.now }
    ensures values { Fills result (values_of (sight_on t.now stage.now) (map (variable_of t.now) declared.now) (map (tree_of t.now) args.now)) (map slot_seen frame.new.args.items) }
    ensures sizes { sizes_of frame.new ≡ sizes_of frame.old }
{
    fill_args(t, stage, declared, args, frame.args.as_mut_slice())
}

fn have_values(t: &Typed, stage: &Stage, declared: &[Var], args: &[ExprId]) -> bool
    requires typed { IsTyped t.now }
    requires args { IsTrue (list_all (is_expr t.now) args.now) }
    ensures { result ≡ is_some (values_of (sight_on t.now stage.now) (map (variable_of t.now) declared.now) (map (tree_of t.now) args.now)) }
{
    if args.len() != declared.len() {
        return false;
    }
    for i in 0..args.len() {
        if !lies_in(declared[i].ty, value_on(t, stage, args[i])) {
            return false;
        }
    }
    true
}

// Whether there is a value, and lies in a type.
fn lies_in(ty: Ty, v: Option<Slot>) -> bool
    ensures { result ≡ is_some (fitting_value ty (option_map slot_seen v)) }
{
    match v {
        Some(v) => fits_argument(ty, v),
        None => false,
    }
}

/// The struct state that a call of a method means, by its number.
pub(crate) fn receiver(stage: &Stage, callee: Callee) -> Option<u32>
    ensures { (nodes : TypedNodes) → result ≡ receiver_of (body_on nodes stage.now) (tree_called callee) (vars_on nodes stage.now) }
{
    match callee {
        Callee::Sub { field, .. } => part_at(stage.objects.as_slice(), stage.frame.object, field),
        Callee::Own(_) => Some(stage.frame.object),
        Callee::Base { .. } => Some(stage.frame.object),
    }
}

fn part_at(objects: &[ObjectState], object: u32, field: FieldId) -> Option<u32>
    ensures { result ≡ part_among objects.now object field.0 }
{
    let state = objects.get(object as usize)?;
    part_in(state.fields.as_slice(), field)
}

fn part_in(fields: &[FieldState], field: FieldId) -> Option<u32>
    ensures { result ≡ option_and_then part_of (slice_get fields.now field.0) }
{
    match fields.get(field.0 as usize)? {
        FieldState::Part(object) => Some(*object),
        FieldState::Num(_) | FieldState::Truth(_) | FieldState::Status(_) => None,
        FieldState::Cells(_) => None,
    }
}

/// What the entry table says to a call in the struct state `object`, which is there: the status with which it is refused, or
/// None where the body is entered.
pub(crate) fn admit(
    stage: &mut Stage,
    mark: Mark,
    m: MethodId,
    object: u32,
    fit: bool,
) -> Option<u32>
    requires there { object < length stage.old.objects.items }
    ensures table { (nodes : TypedNodes) (o : Object) → slice_get (world_on nodes stage.old).objects object ≡ Some o → AdmitsAmong result (admission mark m.0 fit o) object (world_on nodes stage.old).objects (world_on nodes stage.new).objects }
    ensures host { stage.new.host ≡ stage.old.host }
    ensures frame { stage.new.frame ≡ stage.old.frame }
    ensures shape { shape stage.new ≡ shape stage.old }
    ensures turns { stage.new.turns ≡ stage.old.turns }
{
    admit_in(stage.objects.as_mut_slice(), mark, m, object, fit)
}

fn admit_in(
    objects: &mut [ObjectState],
    mark: Mark,
    m: MethodId,
    object: u32,
    fit: bool,
) -> Option<u32>
    requires there { object < length objects.old }
    ensures table { (p : PackageTree) (o : Object) → slice_get (map (object_seen p) objects.old) object ≡ Some o → AdmitsAmong result (admission mark m.0 fit o) object (map (object_seen p) objects.old) (map (object_seen p) objects.new) }
    ensures lengths { map kept_lengths objects.new ≡ map kept_lengths objects.old }
{
    enter(&mut objects[object as usize], mark, m.0, fit)
}

/// After a body of the method `m` that was entered through the table.
pub(crate) fn settle_ran(t: &Typed, stage: &mut Stage, m: MethodId, object: u32, ran: Ran)
    requires typed { IsTyped t.now }
    requires known { m.0 < length t.now.methods }
    ensures ran { (callee : MethodTree) (call : SourceCall) → slice_get (package_of t.now).methods m.0 ≡ Some callee → call.object ≡ object → call.method ≡ m.0 → ran_seen t.now ran stage.new ≡ settled (package_of t.now) callee call (ran_seen t.now ran stage.old) }
    ensures frame { stage.new.frame ≡ stage.old.frame }
    ensures shape { shape stage.new ≡ shape stage.old }
    ensures turns { stage.new.turns ≡ stage.old.turns }
{
    match ran {
        Ran::Answers(answer) => {
            let mark = t.method(m).mark;
            settle_on(t, stage, mark, m, object, answer);
        }
        Ran::Out => {}
        Ran::Stuck => {}
    }
}

fn settle_on(t: &Typed, stage: &mut Stage, mark: Mark, m: MethodId, object: u32, answer: Answer)
    ensures objects { map (object_seen (package_of t.now)) stage.new.objects.items ≡ updated (ended (package_of t.now) mark m.0 (answer_seen answer)) object (map (object_seen (package_of t.now)) stage.old.objects.items) }
    ensures host { stage.new.host ≡ stage.old.host }
    ensures frame { stage.new.frame ≡ stage.old.frame }
    ensures shape { shape stage.new ≡ shape stage.old }
    ensures turns { stage.new.turns ≡ stage.old.turns }
{
    settle_in(t, stage.objects.as_mut_slice(), mark, m, object, answer);
}

fn settle_in(
    t: &Typed,
    objects: &mut [ObjectState],
    mark: Mark,
    m: MethodId,
    object: u32,
    answer: Answer,
)
    ensures objects { map (object_seen (package_of t.now)) objects.new ≡ updated (ended (package_of t.now) mark m.0 (answer_seen answer)) object (map (object_seen (package_of t.now)) objects.old) }
    ensures lengths { map kept_lengths objects.new ≡ map kept_lengths objects.old }
{
    if (object as usize) < objects.len() {
        settle(t, &mut objects[object as usize], mark, m.0, answer);
    }
}

/// After the call of a method with this mark that is the statement `s`.
pub(crate) fn close_call(
    t: &Typed,
    stage: &mut Stage,
    s: StmtId,
    call: Call<'_>,
    mark: Mark,
    ran: Ran,
) -> Flow
    requires typed { IsTyped t.now }
    requires known { s.0 < length t.now.stmts }
    requires target { IsTrue (is_optional_expr t.now call.target) }
    ensures closes { Closes t.now s call.entry.target call.entry.keep mark stage.old stage.new (ran_seen t.now ran stage.old) result }
    ensures shape { shape stage.new ≡ shape stage.old }
    ensures turns { stage.new.turns ≡ stage.old.turns }
{
    match ran {
        Ran::Answers(answer) => take_answer(t, stage, s, call, mark, answer),
        Ran::Out => Flow::Out,
        Ran::Stuck => Flow::Stuck,
    }
}

fn take_answer(
    t: &Typed,
    stage: &mut Stage,
    s: StmtId,
    call: Call<'_>,
    mark: Mark,
    answer: Answer,
) -> Flow
    requires typed { IsTyped t.now }
    requires known { s.0 < length t.now.stmts }
    requires target { IsTrue (is_optional_expr t.now call.target) }
    ensures closes { Closes t.now s call.entry.target call.entry.keep mark stage.old stage.new (Got stage.old.turns (answer_seen answer, world_on t.now stage.old)) result }
    ensures shape { shape stage.new ≡ shape stage.old }
    ensures turns { stage.new.turns ≡ stage.old.turns }
{
    if call.keep {
        return take_value(t, stage, call.target, kept_status(answer));
    }
    if is_coroutine(mark) {
        return hand_on(t, stage, s, call.target, mark, answer);
    }
    match answer {
        Answer::Returned(v) => take_value(t, stage, call.target, v),
        Answer::Suspended(_) => Flow::Stuck,
    }
}

// The status that `=?` keeps.
fn kept_status(answer: Answer) -> Option<Slot>
    ensures { option_map slot_seen result ≡ status_kept (answer_seen answer) }
{
    match answer {
        Answer::Returned(v) => v,
        Answer::Suspended(status) => Some(Slot::Status(status)),
    }
}

// What becomes of a coroutine's answer without `=?`: after ok the next statement comes, a suspension is handed on by suspending,
// and every other status by returning it.
fn hand_on(
    t: &Typed,
    stage: &Stage,
    s: StmtId,
    target: Option<ExprId>,
    mark: Mark,
    answer: Answer,
) -> Flow
    requires known { s.0 < length t.now.stmts }
    requires coroutine { IsTrue (is_marked_coroutine mark) }
    ensures closes { Closes t.now s target false mark stage.now stage.now (Got stage.now.turns (answer_seen answer, world_on t.now stage.now)) result }
{
    let _unused = (stage.turns, target, mark);
    match answer {
        Answer::Suspended(status) => Flow::Suspends {
            status,
            at: t.stmt_place(s),
            done: Progress::Untouched,
        },
        Answer::Returned(v) => hand_value(v),
    }
}

fn hand_value(v: Option<Slot>) -> Flow
    ensures { result ≡ handed v }
{
    match v {
        Some(v) => hand_slot(v),
        None => Flow::Stuck,
    }
}

fn hand_slot(v: Slot) -> Flow
    ensures { result ≡ handed (Some v) }
{
    match v {
        Slot::Status(status) => {
            if status == 0 {
                Flow::Falls
            } else {
                Flow::Returns(Some(v))
            }
        }
        Slot::Num(_) | Slot::Truth(_) | Slot::Elements(_) | Slot::Buffer(_) => Flow::Stuck,
    }
}

// A value goes to a call's target, if it has one. No target takes a buffer, so one stands for the value of a method that gives
// none.
fn take_value(t: &Typed, stage: &mut Stage, target: Option<ExprId>, v: Option<Slot>) -> Flow
    requires typed { IsTyped t.now }
    requires target { IsTrue (is_optional_expr t.now target) }
    ensures value { TakesValue result (put_answer (body_on t.now stage.old) (optional_target (tree_of t.now) target) (option_map slot_seen v) (vars_on t.now stage.old)) (vars_on t.now stage.new) }
    ensures shape { shape stage.new ≡ shape stage.old }
    ensures turns { stage.new.turns ≡ stage.old.turns }
{
    if put_if_any(t, stage, target, or_buffer(v)) {
        Flow::Falls
    } else {
        Flow::Stuck
    }
}

fn or_buffer(v: Option<Slot>) -> Slot
    ensures { result ≡ value_or_buffer v }
{
    match v {
        Some(v) => v,
        None => Slot::Buffer(0),
    }
}

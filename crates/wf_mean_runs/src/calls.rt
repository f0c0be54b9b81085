// What calls of methods come to, and where their arguments go.

ghost use Rattle.std.specs.Prelude.{◌≡◌, ◌≤◌, ◌<◌, ℕ, Some, length, option_map, slice_get};
ghost use Rattle.wf_ast.specs.TypedPackage.{MethodTree, package_of};
ghost use Rattle.wf_ast.specs.TypedInvariant.{IsTyped};
ghost use Rattle.wf_meaning.specs.Entry.{refusal_of, zero_of as zero_value};
ghost use Rattle.wf_mean_exprs.specs.MachineState.{slot_seen};
ghost use Rattle.wf_mean_stmts.specs.Entries.{answer_seen};
ghost use Rattle.wf_mean_runs.specs.Calls.{frame_of as frame_in};

use wf_ast::{Callee, ExprId, Ty, Typed};
use wf_mean_exprs::values::Slot;
use wf_mean_stmts::entry::{Answer, is_coroutine};
use wf_text::MethodId;

/// A call as its statement has it: where its value goes, whether it is `=?`, what it calls, and what it hands over.
#[derive(Clone, Copy)]
pub(crate) struct Call<'a> {
    pub target: Option<ExprId>,
    pub keep: bool,
    pub callee: Callee,
    pub args: &'a [ExprId],
}

/// What a call comes to.
#[derive(Clone, Copy)]
pub enum Ran {
    Answers(Answer),
    /// It needs a turn, and none is left.
    Out,
    /// It takes a step that the meaning doesn't state.
    Stuck,
}

/// The number of the frame in which a method runs, among the first `level` frames: they follow the package's order.
pub fn frame_of(t: &Typed, level: usize, m: MethodId) -> Option<usize>
    requires level { level ≤ length t.now.order }
    ensures frame { result ≡ frame_in t.now level m.0 }
    ensures within { (at : ℕ) → result ≡ Some at → at < level }
{
    let order = t.order();
    let mut found = None;
    for i in 0..level {
        if order[i] == m.0 {
            found = Some(i);
        }
    }
    found
}

/// What a method answers to a call that is refused with a status.
pub fn refuse(t: &Typed, m: MethodId, status: u32) -> Answer
    requires typed { IsTyped t.now }
    requires known { m.0 < length t.now.methods }
    ensures { (callee : MethodTree) → slice_get (package_of t.now).methods m.0 ≡ Some callee → answer_seen result ≡ refusal_of callee status }
{
    let method = t.method(m);
    if is_coroutine(method.mark) {
        return Answer::Returned(Some(Slot::Status(status)));
    }
    Answer::Returned(zero_of(method.gives, status))
}

fn zero_of(gives: Option<Ty>, status: u32) -> Option<Slot>
    ensures { option_map slot_seen result ≡ zero_value status gives }
{
    Some(zero_in(gives?, status))
}

fn zero_in(ty: Ty, status: u32) -> Slot
    ensures { Some (slot_seen result) ≡ zero_value status (Some ty) }
{
    match ty {
        Ty::Num { .. } => Slot::Num(0),
        Ty::Flag => Slot::Truth(false),
        Ty::Status | Ty::Reader | Ty::Writer => Slot::Status(status),
        Ty::Slice(_) | Ty::Array { .. } | Ty::Part(_) => Slot::Status(status),
    }
}

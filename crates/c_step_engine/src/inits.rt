// The init of a receiver: the call of its struct's `initialize`.

ghost use Rattle.std.specs.Prelude.{◌≡◌, ◌≤◌, [], Some, option_map, slice_get, IfSome};
ghost use Rattle.wf_text.specs.Surface.{PublicStruct};
ghost use Rattle.wf_bufs.specs.EngineLaw.{Replies};
ghost use Rattle.c_meaning.specs.CRun.{Loaded, init_of, initialize_name};
ghost use Rattle.c_mem.specs.MemoryViews.{memory};
ghost use Rattle.c_step_exprs.specs.Resolving.{function_number};
ghost use Rattle.c_step_exprs.specs.Stacks.{on_stack, most};
ghost use Rattle.c_step_run.specs.Coding.{AreCoded};
ghost use Rattle.c_step_run.specs.Ready.{CanEnter, KeepsShape};
ghost use Rattle.c_step_engine.specs.Engines.{given, OnDone};
ghost use Rattle.c_step_engine.specs.Statuses.{AreStatuses};

use crate::answers::answer;
use crate::hosts::call_by_host;
use c_meaning::values::CValue;
use c_step_run::{Active, Code, Ended, Store};
use wf_bufs::{AnswerKind, Reply};
use wf_text::StatusId;

/// Calls the function that makes a receiver ready, within so many turns. `at` is that function with the number of the object
/// that its call makes; none where the text has no such function.
pub fn init_by_host(
    code: &Code,
    at: Option<Active>,
    receiver: CValue,
    statuses: &[Option<StatusId>],
    turns: u64,
    st: &mut Store,
) -> Reply
    requires ready { IfSome at (λ it. CanEnter code.now it st.old) }
    requires empty { on_stack st.old.stack ≡ [] }
    requires room { 1 ≤ most st.old.stack }
    ensures keeps { OnDone result (KeepsShape st.old st.new) }
    ensures gives { (it : Loaded) (s : PublicStruct) → option_map (λ a. a.own) at ≡ function_number it.program.functions (initialize_name it.surface s)
        → slice_get it.surface.statuses 0 ≡ Some [] → AreStatuses it.program it.surface statuses.now
        → AreCoded code.now st.old.frames.items st.old.args.items it.program it.program.functions
        → Replies (given it.surface (λ m. m) (init_of it (memory st.old.mem) s receiver turns)) result (memory st.new.mem) }
{
    let Some(active) = at else {
        return Reply::Undefined;
    };
    match call_by_host(code, active, &[receiver], turns, st) {
        Ended::Got { value, left: _ } => match answer(AnswerKind::Status, value, statuses) {
            Some(outcome) => Reply::Done(outcome),
            None => Reply::Undefined,
        },
        Ended::More => Reply::Turns,
        Ended::Lost => Reply::Undefined,
    }
}

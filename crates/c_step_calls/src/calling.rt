// Public calls and inits of a text by a host.

ghost use Rattle.std.specs.Prelude.{◌≡◌, ◌<◌, ◌≤◌, [], Some, length, map, slice_get, IfSome};
ghost use Rattle.wf_text.specs.Surface.{PublicStruct, PublicMethod};
ghost use Rattle.wf_base.specs.HostRun.{Host, HostCall};
ghost use Rattle.wf_base.specs.LawfulActions.{AreDistinct, named_buffers, named_arrays};
ghost use Rattle.wf_bufs.specs.EngineLaw.{SameSizes, Replies};
ghost use Rattle.wf_bufs.specs.HostViews.{arg_of};
ghost use Rattle.wf_bufs.specs.HostSeen.{host_of};
ghost use Rattle.wf_bufs.specs.SurfaceViews.{answer_kind_of};
ghost use Rattle.c_meaning.specs.CRun.{Loaded, init_of, call_of, most_args, initialize_name, function_name};
ghost use Rattle.c_meaning.specs.CMemory.{Memory};
ghost use Rattle.c_mem.specs.MemoryViews.{memory};
ghost use Rattle.c_step_exprs.specs.Resolving.{function_number};
ghost use Rattle.c_step_run.specs.Coding.{AreCoded};
ghost use Rattle.c_step_hosts.specs.Lending.{AreThere};
ghost use Rattle.c_step_engine.specs.Engines.{given, OnDone};
ghost use Rattle.c_step_engine.specs.Statuses.{AreStatuses};
ghost use Rattle.c_step_calls.specs.Resting.{IsResting, RestsAgain};

use crate::ends::end;
use crate::passing::{lend, pass};
use crate::room::Room;
use c_meaning::values::CValue;
use c_step_engine::answers::answer;
use c_step_engine::hosts::call_by_host;
use c_step_engine::inits::init_by_host;
use c_step_hosts::taking::Places;
use c_step_run::{Active, Code, Ended, Store};
use wf_bufs::{AnswerKind, Arg, Bufs, Reply};
use wf_text::StatusId;

/// A function that a host calls.
#[derive(Clone, Copy)]
pub struct Called {
    /// Its number.
    pub own: usize,
    /// What it answers.
    pub kind: AnswerKind,
    /// What is passed for its first parameter.
    pub receiver: CValue,
    /// The turns that it has.
    pub turns: u64,
}

/// What a text is executed by.
#[derive(Clone, Copy)]
pub struct TextCode<'a> {
    /// The code of its functions.
    pub code: &'a Code,
    /// The status of each of its strings that has one.
    pub statuses: &'a [Option<StatusId>],
}

/// Calls a public function of a text with a host's arguments.
pub fn call_on_host(
    text: TextCode<'_>,
    called: Called,
    args: &[Arg],
    host: &mut Bufs,
    room: &mut Room,
    st: &mut Store,
) -> Reply
    requires rests { IsResting text.code.now room.old st.old }
    requires own { called.own < length text.code.now.functions }
    requires few { length args.now ≤ room.old.most }
    requires there { AreThere (length host.old.bufs) (length host.old.arrays) (map arg_of args.now) }
    requires buffers { AreDistinct (named_buffers (map arg_of args.now)) }
    requires arrays { AreDistinct (named_arrays (map arg_of args.now)) }
    ensures rests { OnDone result (RestsAgain text.entry.code.now room.old room.new st.old st.new) }
    ensures sizes { OnDone result (SameSizes (host_of host.old) (host_of host.new)) }
    ensures replies { (it : Loaded) (s : PublicStruct) (method : PublicMethod) (what : HostCall)
        → function_number it.program.functions (function_name it.surface s method.name) ≡ Some called.own → answer_kind_of called.kind ≡ method.answers
        → room.old.most ≡ most_args it.surface.structs → what.args ≡ map arg_of args.now
        → slice_get it.surface.statuses 0 ≡ Some [] → AreStatuses it.program it.surface text.entry.statuses.now
        → AreCoded text.entry.code.now st.old.frames.items st.old.args.items it.program it.program.functions
        → Replies {After = Memory × Host} (given it.surface (λ x. x) (call_of it (memory st.old.mem) s method what (host_of host.old) called.turns called.receiver)) result (memory st.new.mem, host_of host.new) }
{
    let places = Places {
        buffer: room.objects,
        bytes: room.objects + room.most,
    };
    let active = Active {
        own: called.own,
        frame: places.bytes + args.len(),
    };
    pass(args, host, called.receiver, places, &mut room.given);
    lend(args, host, room.most, places, &mut st.mem, &mut room.spares);
    match call_by_host(text.code, active, room.given.as_slice(), called.turns, st) {
        Ended::Got { value, left: _ } => end(
            answer(called.kind, value, text.statuses),
            args,
            host,
            places,
            &mut st.mem,
            &mut room.spares,
        ),
        Ended::More => Reply::Turns,
        Ended::Lost => Reply::Undefined,
    }
}

/// Makes a receiver ready: `initialize` is the number of its struct's function for that, where the text has one.
pub fn init_receiver(
    text: TextCode<'_>,
    initialize: Option<usize>,
    receiver: CValue,
    turns: u64,
    room: &Room,
    st: &mut Store,
) -> Reply
    requires rests { IsResting text.code.now room.now st.old }
    requires own { IfSome initialize (λ own. own < length text.code.now.functions) }
    ensures rests { OnDone result (RestsAgain text.entry.code.now room.now room.now st.old st.new) }
    ensures replies { (it : Loaded) (s : PublicStruct) → initialize ≡ function_number it.program.functions (initialize_name it.surface s)
        → slice_get it.surface.statuses 0 ≡ Some [] → AreStatuses it.program it.surface text.entry.statuses.now
        → AreCoded text.entry.code.now st.old.frames.items st.old.args.items it.program it.program.functions
        → Replies (given it.surface (λ x. x) (init_of it (memory st.old.mem) s receiver turns)) result (memory st.new.mem) }
{
    let at = initialize.map(|own| Active {
        own,
        frame: room.objects,
    });
    init_by_host(text.code, at, receiver, text.statuses, turns, st)
}

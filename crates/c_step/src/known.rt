// What a machine knows of a text and its receivers, which doesn't change while it runs; and its inits and calls.

ghost use Rattle.std.specs.Prelude.{◌≡◌, ◌<◌, Some, length, map, slice_get};
ghost use Rattle.wf_text.specs.Surface.{status};
ghost use Rattle.wf_base.specs.LawfulActions.{CanCall};
ghost use Rattle.wf_base.specs.HostRun.{Host};
ghost use Rattle.wf_bufs.specs.EngineLaw.{Replies, DoneFits, FitsCalled, KeepsSizes};
ghost use Rattle.wf_bufs.specs.HostViews.{call_of};
ghost use Rattle.wf_bufs.specs.HostSeen.{host_of};
ghost use Rattle.wf_bufs.specs.SurfaceViews.{receiver_of};
ghost use Rattle.c_meaning.specs.CRun.{c_init, c_call};
ghost use Rattle.c_meaning.specs.CMemory.{Memory};
ghost use Rattle.c_mem.specs.MemoryViews.{memory};
ghost use Rattle.c_step_engine.specs.Engines.{given, OnDone};
ghost use Rattle.c_step_calls.specs.Resting.{RestsAgain};
ghost use Rattle.c_step.specs.Machines.{loaded_of, IsKnown, IsReady, HasEntry, IsCallee, IsInited};

use c_meaning::values::CValue;
use c_step_calls::{Called, Room, TextCode, call_on_host, init_receiver};
use c_step_run::{Code, Store};
use c_step_tables::{MethodEntry, StructEntry, struct_entry};
use c_text::Unit;
use std::snapshot::Snapshot;
use wf_bufs::{Bufs, Call, PublicSurface, ReceiverDecl, Reply};
use wf_text::StatusId;

/// A text, its package's public surface and the receivers, with tables of these.
pub(crate) struct Known {
    /// The text.
    pub(crate) unit: Unit,
    /// The package's public surface, of which the machine reads nothing while it runs.
    pub(crate) surface: Snapshot<PublicSurface>,
    /// The receivers.
    pub(crate) receivers: Vec<ReceiverDecl>,
    /// The pointers to them.
    pub(crate) pointers: Vec<CValue>,
    /// The public functions.
    pub(crate) structs: Vec<StructEntry>,
    /// The statuses of the strings that have one.
    pub(crate) statuses: Vec<Option<StatusId>>,
    /// The functions.
    pub(crate) code: Code,
    /// The greatest number of parameters and locals along a chain of calls.
    pub(crate) cells: u64,
}

impl Drop for Known {
    fn drop(self) {
        let Known {
            unit: _,
            surface: _,
            receivers: _,
            pointers: _,
            structs: _,
            statuses: _,
            code: _,
            cells: _,
        } = self;
    }
}

impl Known {
    /// The entry of the method that a call means.
    fn entry(&self, what: &Call<'_>) -> Option<MethodEntry>
        requires known { IsKnown self.now }
        requires exists { what.now.receiver < length self.now.receivers.items }
        ensures { HasEntry self.now (call_of what.now) result }
    {
        let it = struct_entry(&self.structs, self.receiver(what.receiver).of)?;
        it.method(what.method)
    }

    /// The function that a call means; none where the text hasn't it.
    fn callee(&self, what: &Call<'_>, turns: u64) -> Option<Called>
        requires known { IsKnown self.now }
        requires exists { what.now.receiver < length self.now.receivers.items }
        ensures { IsCallee self.now (call_of what.now) turns result }
    {
        let entry = self.entry(what)?;
        let own = entry.function?;
        Some(Called {
            own,
            kind: entry.kind,
            receiver: self.pointer(what.receiver),
            turns,
        })
    }

    /// A receiver as it was declared.
    fn receiver(&self, k: u16) -> ReceiverDecl
        requires { k < length self.now.receivers.items }
        ensures { slice_get self.now.receivers.items k ≡ Some result }
    {
        self.receivers[k as usize]
    }

    /// The pointer to a receiver.
    fn pointer(&self, receiver: u16) -> CValue
        requires known { IsKnown self.now }
        requires exists { receiver < length self.now.receivers.items }
        ensures { slice_get (loaded_of self.now).pointers receiver ≡ Some result }
    {
        self.pointer_at(receiver)
    }

    /// A pointer in the list.
    fn pointer_at(&self, k: u16) -> CValue
        requires { k < length self.now.pointers.items }
        ensures { slice_get self.now.pointers.items k ≡ Some result }
    {
        self.pointers[k as usize]
    }

    /// The number of the function that initializes a receiver.
    fn initializer(&self, receiver: u16) -> Option<usize>
        requires known { IsKnown self.now }
        requires exists { receiver < length self.now.receivers.items }
        ensures { IsInited self.now receiver result }
    {
        let it = struct_entry(&self.structs, self.receiver(receiver).of)?;
        it.initialize
    }

    /// Makes a receiver ready, within so many turns.
    pub(crate) fn init(&self, receiver: u16, turns: u64, room: &Room, st: &mut Store) -> Reply
        requires known { IsKnown self.now }
        requires ready { IsReady self.now room.now st.old }
        requires exists { receiver < length self.now.receivers.items }
        ensures rests { OnDone result (RestsAgain self.now.code room.now room.now st.old st.new) }
        ensures replies { Replies (given self.now.surface.value (λ x. x) (c_init (loaded_of self.now) (memory st.old.mem) receiver turns)) result (memory st.new.mem) }
        ensures kind { DoneFits self.now.surface.value status result }
    {
        let text = TextCode {
            code: &self.code,
            statuses: self.statuses.as_slice(),
        };
        init_receiver(
            text,
            self.initializer(receiver),
            self.pointer(receiver),
            turns,
            room,
            st,
        )
    }

    /// One public call, within so many turns.
    pub(crate) fn call(
        &self,
        what: &Call<'_>,
        host: &mut Bufs,
        turns: u64,
        room: &mut Room,
        st: &mut Store,
    ) -> Reply
        requires known { IsKnown self.now }
        requires ready { IsReady self.now room.old st.old }
        requires can { CanCall self.now.surface.value (map receiver_of self.now.receivers.items) (length host.old.bufs) (length host.old.arrays) (call_of what.now) }
        ensures rests { OnDone result (RestsAgain self.now.code room.old room.new st.old st.new) }
        ensures replies { Replies {After = Memory × Host} (given self.now.surface.value (λ x. x) (c_call (loaded_of self.now) (memory st.old.mem) (call_of what.now) (host_of host.old) turns)) result (memory st.new.mem, host_of host.new) }
        ensures kind { FitsCalled self.now.surface.value (map receiver_of self.now.receivers.items) (call_of what.now) result }
        ensures sizes { KeepsSizes result (host_of host.old) (host_of host.new) }
    {
        match self.callee(what, turns) {
            Some(called) => {
                let text = TextCode {
                    code: &self.code,
                    statuses: self.statuses.as_slice(),
                };
                call_on_host(text, called, what.args, host, room, st)
            }
            None => Reply::Undefined,
        }
    }
}

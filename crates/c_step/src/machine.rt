// The engine that executes a text of C.

ghost use Rattle.std.specs.Prelude.{◌≡◌, [], false, map, slice_get, Some, IfOk, OnOk, IfErr};
ghost use Rattle.wf_base.specs.LawfulActions.{AreDeclared};
ghost use Rattle.wf_bufs.specs.EngineLaw.{stops as stops_at};
ghost use Rattle.wf_bufs.specs.SurfaceViews.{receiver_of};
ghost use Rattle.c_text.specs.CNodes.{unit_tree};
ghost use Rattle.c_meaning.specs.CCall.{program_of};
ghost use Rattle.c_meaning.specs.UnitForm.{HasUnitForm};
ghost use Rattle.c_form.specs.Formed.{Refuses};
ghost use Rattle.c_step_engine.specs.Engines.{first_state};
ghost use Rattle.c_step.specs.Machines.{IsLoaded, state_of, program_cells};

use crate::known::Known;
use crate::loading::{LoadedText, Tables, copied, load_text};
use c_form::LoadFault;
use c_step_calls::Room;
use c_step_objects::Started;
use c_step_run::Store;
use c_text::Unit;
use std::alloc::Global;
use std::marker::Model;
use std::snapshot::Snapshot;
use wf_bufs::{Bufs, Call, Engine, PublicSurface, ReceiverDecl, Reply};

/// Executes a text of C that has the unit form for a package. It takes no memory while it runs.
#[derive(Drop)]
pub struct Machine {
    known: Known,
    room: Room,
    store: Store,
    stopped: bool,
}

impl Model for Machine {
    ghost use Rattle.std.specs.Prelude.{map};
    ghost use Rattle.wf_bufs.specs.SurfaceViews.{receiver_of};
    ghost use Rattle.c_mem.specs.MemoryViews.{memory};
    ghost use Rattle.c_step.specs.Machines.{MachineView, IsKnown, ReadyUnless};

    ghost Value = { MachineView };

    ghost view = { λ it. record { nodes = it.known.unit; surface = it.known.surface.value; receivers = map receiver_of it.known.receivers.items; memory = memory it.store.mem; stopped = it.stopped } };

    ghost invariant = { λ it. IsKnown it.known × ReadyUnless it.stopped it.known it.room it.store };
}

impl Machine {
    /// The machine of a text for the package with this surface, before anything has run: the receivers, of public structs, are
    /// zero or null. `NoSuchForm`: the text hasn't the unit form for the package; its number is that of the first item that
    /// breaks it, or of the items, where there is none or a public function is missing. `Memory`: memory was refused, or more
    /// than 4,096 functions call one another in a chain, for which the machine's own stack has no room.
    pub(crate) fn load(
        alloc: Global,
        u: Unit,
        surface: &PublicSurface,
        receivers: &[ReceiverDecl],
    ) -> Result<Machine, LoadFault>
        requires ok { slice_get surface.now.statuses 0 ≡ Some [] }
        requires declared { AreDeclared surface.now (map receiver_of receivers.now) }
        ensures form { OnOk result (HasUnitForm surface.now (unit_tree u)) }
        ensures state { IfOk result (λ it. state_of it ≡ first_state (unit_tree u) surface.now (map receiver_of receivers.now)) }
        ensures refused { IfErr result (Refuses surface.now (unit_tree u)) }
    {
        let text = load_text(alloc, &u, surface, receivers)?;
        let receivers = copied(alloc, receivers)?;
        Ok(Machine::begin(u, surface, receivers, text))
    }

    /// The machine of a text that has the unit form for the package with this surface, before anything has run.
    fn begin(
        unit: Unit,
        surface: &PublicSurface,
        receivers: Vec<ReceiverDecl>,
        text: LoadedText,
    ) -> Machine
        requires form { HasUnitForm surface.now (unit_tree unit) }
        requires ok { slice_get surface.now.statuses 0 ≡ Some [] }
        requires declared { AreDeclared surface.now (map receiver_of receivers.items) }
        requires loaded { IsLoaded unit surface.now (map receiver_of receivers.items) text }
        ensures { state_of result ≡ first_state (unit_tree unit) surface.now (map receiver_of receivers.items) }
    {
        let LoadedText {
            tables,
            started,
            cells,
        } = text;
        let Tables { structs, statuses } = tables;
        let Started {
            code,
            pointers,
            room,
            store,
        } = started;
        Machine {
            known: Known {
                unit,
                surface: Snapshot::of(surface),
                receivers,
                pointers,
                structs,
                statuses,
                code,
                cells,
            },
            room,
            store,
            stopped: false,
        }
    }

    /// How many parameters and locals at most the functions of one chain of calls have together, of the chains that begin at
    /// an external function of the text.
    pub fn frame_cells(&self) -> u64
        ensures { result ≡ program_cells (program_of (unit_tree self.now.nodes)) }
    {
        self.known.cells
    }
}

// Whether an engine has stopped after this reply.
fn stops(reply: Reply) -> bool
    ensures { result ≡ stops_at reply }
{
    match reply {
        Reply::Done(_) => false,
        Reply::Turns => true,
        Reply::Undefined => true,
    }
}

impl Engine for Machine {
    ghost use Rattle.c_step_engine.specs.Engines.{EngineState, surface_of, receivers_of, init_gives, call_gives};
    ghost use Rattle.c_step.specs.Machines.{state_of};

    ghost State = { EngineState };

    ghost state = { state_of };

    ghost surface = { surface_of };

    ghost receivers = { receivers_of };

    ghost stopped = { λ state. state.stopped };

    ghost init_gives = { init_gives };

    ghost call_gives = { call_gives };

    fn init(&mut self, receiver: u16, turns: u64) -> Reply {
        let reply = self
            .known
            .init(receiver, turns, &self.room, &mut self.store);
        self.stopped = stops(reply);
        reply
    }

    fn call(&mut self, what: &Call<'_>, bufs: &mut Bufs, turns: u64) -> Reply {
        let reply = self
            .known
            .call(what, bufs, turns, &mut self.room, &mut self.store);
        self.stopped = stops(reply);
        reply
    }
}

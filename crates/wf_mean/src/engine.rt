// The engine that executes a package's source.

ghost use Rattle.std.specs.Prelude.{◌≡◌, map, IfOk};
ghost use Rattle.wf_ast.specs.TypedInvariant.{IsTyped};
ghost use Rattle.wf_ast.specs.TypedPackage.{package_of};
ghost use Rattle.wf_bufs.specs.SurfaceViews.{receiver_of};
ghost use Rattle.wf_bufs.specs.EngineLaw.{stops as stops_at};
ghost use Rattle.wf_meaning.specs.SourceState.{fresh_state};
ghost use Rattle.wf_mean.specs.SourceEngines.{first_state};
ghost use Rattle.wf_mean.specs.Machines.{IsReady, receivers_seen, state_seen};

use crate::fresh::{empty_frame, new_frames, new_receivers};
use crate::machine::{Machine, Room};
use std::alloc::Global;
use std::marker::Model;
use wf_ast::Typed;
use wf_bounds::Accepted;
use wf_bufs::{BufList, Bufs, ByteArrays, Call, Engine, ReceiverDecl, Reply};
use wf_mean_stmts::stage::Stage;
use wf_text::NoMemory;

/// Executes an accepted package's source. It borrows the package.
#[derive(Drop)]
pub struct SourceEngine<'a> {
    t: &'a Typed,
    machine: Machine,
    stopped: bool,
}

impl<'a> Model for SourceEngine<'a> {
    ghost use Rattle.wf_ast.specs.TypedInvariant.{IsTyped};
    ghost use Rattle.wf_mean.specs.Machines.{EngineView, IsReady};

    ghost Value = { EngineView };

    ghost view = { λ it. record { nodes = it.t.now; receivers = it.machine.receivers.items; stopped = it.stopped } };

    ghost invariant = { λ it. IsTyped it.t.now × IsReady it.t.now it.machine };
}

// A stage on which nothing stands.
fn empty_stage(alloc: Global) -> Result<Stage, NoMemory> {
    let frame = empty_frame(alloc)?;
    Ok(Stage {
        frame,
        objects: Vec::new(alloc),
        host: Bufs {
            bufs: BufList::new(alloc),
            arrays: ByteArrays::new(alloc),
        },
        turns: 0,
    })
}

// A machine for a package, with these receivers, none of which is ready.
fn new_machine(alloc: Global, t: &Typed, receivers: &[ReceiverDecl]) -> Result<Machine, NoMemory>
    requires typed { IsTyped t.now }
    ensures declared { IfOk result (λ it. map (λ r. r.decl) it.receivers.items ≡ receivers.now) }
    ensures fresh { IfOk result (λ it. receivers_seen (package_of t.now) it.receivers.items ≡ fresh_state (package_of t.now) (map receiver_of receivers.now)) }
    ensures ready { IfOk result (IsReady t.now) }
{
    let stage = empty_stage(alloc)?;
    let frames = new_frames(alloc, t)?;
    let receivers = new_receivers(alloc, t, receivers)?;
    Ok(Machine {
        room: Room { stage, frames },
        receivers,
    })
}

impl<'a> SourceEngine<'a> {
    /// An engine for a package and receivers of its public structs, none of which is ready. It takes all memory that its calls
    /// need: the struct states of each receiver, what is kept of each method in them, and one frame for each method.
    pub fn load(
        alloc: Global,
        a: &'a Accepted,
        receivers: &[ReceiverDecl],
    ) -> Result<SourceEngine<'a>, NoMemory>
        ensures { IfOk result (λ it. state_seen it ≡ first_state (package_of a.now.nodes) (map receiver_of receivers.now)) }
    {
        let t = a.typed();
        let machine = new_machine(alloc, t, receivers)?;
        Ok(SourceEngine {
            t,
            machine,
            stopped: false,
        })
    }
}

// Whether an engine has stopped after this reply.
fn stops(reply: Reply) -> bool
    ensures { result ≡ stops_at reply }
{
    match reply {
        Reply::Done(_) => false,
        Reply::Turns => true,
        Reply::Undefined => true,
    }
}

impl<'a> Engine for SourceEngine<'a> {
    ghost use Rattle.wf_mean.specs.SourceEngines.{EngineState, call_gives, has_stopped, init_gives, receivers_told, surface_told};
    ghost use Rattle.wf_mean.specs.Machines.{state_seen};

    ghost State = { EngineState };

    ghost state = { state_seen };

    ghost surface = { surface_told };

    ghost receivers = { receivers_told };

    ghost stopped = { has_stopped };

    ghost init_gives = { init_gives };

    ghost call_gives = { call_gives };

    fn init(&mut self, receiver: u16, _turns: u64) -> Reply {
        let reply = self.machine.init(self.t, receiver);
        self.stopped = stops(reply);
        reply
    }

    fn call(&mut self, what: &Call<'_>, bufs: &mut Bufs, turns: u64) -> Reply {
        let reply = self.machine.call(self.t, what, bufs, turns);
        self.stopped = stops(reply);
        reply
    }
}

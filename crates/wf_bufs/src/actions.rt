// Lists of host actions, and what a host sees when an engine performs one.

ghost use Rattle.std.specs.Prelude.{◌≡◌, false, [], ◌∷◌, ◌++◌, length, map, IfOk, OnOk, OnErr};
ghost use Rattle.wf_base.specs.HostRun.{run, act as performed};
ghost use Rattle.wf_base.specs.LawfulActions.{AreLawful, MayAct, buffers_behind, arrays_behind};
ghost use Rattle.wf_bufs.specs.EngineLaw.{stops, steps_of};
ghost use Rattle.wf_bufs.specs.HostSeen.{host_of};
ghost use Rattle.wf_bufs.specs.ActionViews.{action_of, Responds, Leaves, seen_as};

use crate::bufs::Bufs;
use crate::calls::{BoundedCall, Call};
use crate::engine::Engine;
use crate::outcomes::{Outcome, Reply};
use std::alloc::Global;
use wf_text::NoMemory;

/// What a host does. Receivers, buffers and byte arrays are named by number, from 0.
#[derive(Drop)]
pub enum Action {
    /// The receiver becomes ready, within so many turns.
    Init { receiver: u16, turns: u64 },
    /// One public call.
    Call(BoundedCall),
    /// Bytes are appended to a buffer, as many as fit.
    Put { buffer: u16, bytes: Vec<u8> },
    /// Nothing more will be written to a buffer.
    Close { buffer: u16 },
    /// A buffer's unread bytes move to the front.
    Compact { buffer: u16 },
    /// Copies of these stand in place of the host's buffers and byte arrays.
    Replace { host: Bufs },
}

/// What a host sees of one action: the reply, and its buffers and byte arrays as they then stand.
#[derive(Drop)]
pub struct Saw {
    pub reply: Reply,
    pub host: Bufs,
}

/// Performs the actions in order, up to the first that needs more turns or isn't defined, and answers what is
/// seen of each. Where memory is refused, the actions before the one that needed it were performed.
pub fn perform<E: Engine>(
    alloc: Global,
    engine: &mut E,
    host: &mut Bufs,
    actions: &[Action],
) -> Result<Vec<Saw>, NoMemory>
    requires goes_on { E.stopped (E.state engine.old) ≡ false }
    requires lawful { AreLawful (E.surface (E.state engine.old)) (E.receivers (E.state engine.old)) (length host.old.bufs) (length host.old.arrays) (map action_of actions.now) }
    ensures { IfOk result (λ saw. map (seen_as (E.surface (E.state engine.old))) saw.items ≡ run (steps_of E.surface E.init_gives E.call_gives) (E.state engine.old) (host_of host.old) (map action_of actions.now)) }
{
    let mut seen = Vec::new(alloc);
    for action in actions {
        let reply = act(alloc, engine, host, action)?;
        note(alloc, &mut seen, reply, host)?;
        match reply {
            Reply::Done(_) => {}
            Reply::Turns | Reply::Undefined => return Ok(seen),
        }
    }
    Ok(seen)
}

fn note(alloc: Global, seen: &mut Vec<Saw>, reply: Reply, host: &Bufs) -> Result<(), NoMemory>
    ensures { OnOk result (seen.new.items ≡ seen.old.items ++ (record { reply = reply; host = host.now }) ∷ []) }
{
    let host = host.copy(alloc)?;
    seen.push(Saw { reply, host })?;
    Ok(())
}

// Performs one action. Where memory is refused nothing has changed.
fn act<E: Engine>(
    alloc: Global,
    engine: &mut E,
    host: &mut Bufs,
    action: &Action,
) -> Result<Reply, NoMemory>
    requires goes_on { E.stopped (E.state engine.old) ≡ false }
    requires may { MayAct (E.surface (E.state engine.old)) (E.receivers (E.state engine.old)) (length host.old.bufs) (length host.old.arrays) (action_of action.now) }
    ensures law { IfOk result (λ reply. Responds (E.surface (E.state engine.old)) (performed (steps_of E.surface E.init_gives E.call_gives) (E.state engine.old) (host_of host.old) (action_of action.now)) reply (E.state engine.new, host_of host.new)) }
    ensures stops { IfOk result (λ reply. E.stopped (E.state engine.new) ≡ stops reply) }
    ensures surface { OnOk result (E.surface (E.state engine.new) ≡ E.surface (E.state engine.old)) }
    ensures receivers { OnOk result (E.receivers (E.state engine.new) ≡ E.receivers (E.state engine.old)) }
    ensures leaves { IfOk result (λ reply. Leaves reply (buffers_behind (action_of action.now) (length host.old.bufs)) (arrays_behind (action_of action.now) (length host.old.arrays)) (host_of host.new)) }
    ensures stays { OnErr result ((E.state engine.new ≡ E.state engine.old) × (host.new ≡ host.old)) }
{
    match action {
        Action::Init { receiver, turns } => Ok(engine.init(*receiver, *turns)),
        Action::Call(it) => {
            let what = Call {
                receiver: it.receiver,
                method: it.method,
                args: it.args.as_slice(),
            };
            Ok(engine.call(&what, host, it.turns))
        }
        Action::Put { buffer, bytes } => {
            host.bufs.at_mut(*buffer as usize).put(bytes.as_slice());
            Ok(Reply::Done(Outcome::Nothing))
        }
        Action::Close { buffer } => {
            host.bufs.at_mut(*buffer as usize).close();
            Ok(Reply::Done(Outcome::Nothing))
        }
        Action::Compact { buffer } => {
            host.bufs.at_mut(*buffer as usize).compact();
            Ok(Reply::Done(Outcome::Nothing))
        }
        Action::Replace { host: other } => {
            *host = other.copy(alloc)?;
            Ok(Reply::Done(Outcome::Nothing))
        }
    }
}

// What a call has come to.

ghost use Rattle.std.specs.Prelude.{◌≡◌, ℕ, ◌+◌, ◌-◌, ◌^◌, ◌<◌, ◌≤◌, Option, length, map, take, option_map, MatchBool};
ghost use Rattle.wf_text.specs.Surface.{Surface};
ghost use Rattle.wf_text.specs.Seen.{Answer};
ghost use Rattle.wf_base.specs.HostRun.{Host};
ghost use Rattle.wf_base.specs.LawfulActions.{AreDistinct, named_buffers, named_arrays};
ghost use Rattle.wf_bufs.specs.EngineLaw.{SameSizes, Replies};
ghost use Rattle.wf_bufs.specs.HostViews.{arg_of};
ghost use Rattle.wf_bufs.specs.HostSeen.{host_of};
ghost use Rattle.c_meaning.specs.CRun.{args_left, answered_with};
ghost use Rattle.c_meaning.specs.CMemory.{Memory};
ghost use Rattle.c_mem.specs.MemoryViews.{memory, HasRoom};
ghost use Rattle.c_step_hosts.specs.Lending.{AreThere, all_lent};
ghost use Rattle.c_step_hosts.specs.Taking.{Gives, HaveShapes};
ghost use Rattle.c_step_hosts.specs.Leaving.{AreIosBetween};
ghost use Rattle.c_step_engine.specs.Engines.{outcome_for, given, OnDone};
ghost use Rattle.c_step_calls.specs.Resting.{AreLent, TakesMore, GivesSpares};

use crate::room::Spares;
use c_mem::Mem;
use c_step_hosts::leaving::leave_all;
use c_step_hosts::taking::{Places, take_back};
use wf_bufs::{Arg, Bufs, Outcome, Reply};

/// What a call has left of what its arguments name is taken back, and the objects of the call leave memory. False where what
/// is left isn't defined; nothing is said then of what stands.
fn take_all(
    args: &[Arg],
    host: &mut Bufs,
    places: Places,
    mem: &mut Mem,
    spares: &mut Spares,
) -> bool
    requires there { AreThere (length host.old.bufs) (length host.old.arrays) (map arg_of args.now) }
    requires buffers { AreDistinct (named_buffers (map arg_of args.now)) }
    requires arrays { AreDistinct (named_arrays (map arg_of args.now)) }
    requires apart { places.buffer + length args.now ≤ places.bytes }
    requires numbers { places.bytes + length args.now < 2 ^ 64 }
    requires size { length (memory mem.old) ≡ places.bytes + length args.now }
    requires structs { AreIosBetween places.buffer places.bytes (memory mem.old) }
    requires lent { AreLent (memory mem.old) places.bytes (host_of host.old) (map arg_of args.now) }
    requires spares { TakesMore (places.bytes - places.buffer) (length args.now) spares.old }
    ensures host { (was : Host) → host_of host.old ≡ all_lent (map arg_of args.now) was → HaveShapes (memory mem.old) places.bytes was (map arg_of args.now)
        → Gives (args_left (memory mem.old) places.buffer places.bytes (map arg_of args.now) was) result (λ left. (host_of host.new ≡ left) × SameSizes was left) }
    ensures memory { MatchBool result (memory mem.new ≡ take places.buffer (memory mem.old)) (Unit {0}) }
    ensures spares { MatchBool result (GivesSpares (places.bytes - places.buffer) (length args.now) spares.old spares.new) (Unit {0}) }
    ensures room { MatchBool result ((more now : ℕ) → HasRoom mem.old more → now + places.buffer ≡ more + (places.bytes + length args.now) → HasRoom mem.new now) (Unit {0}) }
{
    if !take_back(args, host, mem, places, &mut spares.hand) {
        return false;
    }
    leave_all(places, args.len(), mem, &mut spares.ios, &mut spares.bytes);
    true
}

/// The reply to a call whose function has answered this, or nothing that is defined.
pub(crate) fn end(
    outcome: Option<Outcome>,
    args: &[Arg],
    host: &mut Bufs,
    places: Places,
    mem: &mut Mem,
    spares: &mut Spares,
) -> Reply
    requires there { AreThere (length host.old.bufs) (length host.old.arrays) (map arg_of args.now) }
    requires buffers { AreDistinct (named_buffers (map arg_of args.now)) }
    requires arrays { AreDistinct (named_arrays (map arg_of args.now)) }
    requires apart { places.buffer + length args.now ≤ places.bytes }
    requires numbers { places.bytes + length args.now < 2 ^ 64 }
    requires size { length (memory mem.old) ≡ places.bytes + length args.now }
    requires structs { AreIosBetween places.buffer places.bytes (memory mem.old) }
    requires lent { AreLent (memory mem.old) places.bytes (host_of host.old) (map arg_of args.now) }
    requires spares { TakesMore (places.bytes - places.buffer) (length args.now) spares.old }
    ensures replies { (was : Host) (surface : Surface) (a : Option Answer) → host_of host.old ≡ all_lent (map arg_of args.now) was → HaveShapes (memory mem.old) places.bytes was (map arg_of args.now)
        → outcome ≡ option_map (outcome_for surface) a
        → Replies {After = Memory × Host} (given surface (λ x. x) (answered_with a (option_map (λ left. (take places.buffer (memory mem.old), left)) (args_left (memory mem.old) places.buffer places.bytes (map arg_of args.now) was)))) result (memory mem.new, host_of host.new) }
    ensures sizes { (was : Host) → host_of host.old ≡ all_lent (map arg_of args.now) was → HaveShapes (memory mem.old) places.bytes was (map arg_of args.now) → OnDone result (SameSizes was (host_of host.new)) }
    ensures memory { OnDone result (memory mem.new ≡ take places.buffer (memory mem.old)) }
    ensures spares { OnDone result (GivesSpares (places.bytes - places.buffer) (length args.now) spares.old spares.new) }
    ensures room { OnDone result ((more now : ℕ) → HasRoom mem.old more → now + places.buffer ≡ more + (places.bytes + length args.now) → HasRoom mem.new now) }
{
    let Some(outcome) = outcome else {
        return Reply::Undefined;
    };
    if take_all(args, host, places, mem, spares) {
        Reply::Done(outcome)
    } else {
        Reply::Undefined
    }
}

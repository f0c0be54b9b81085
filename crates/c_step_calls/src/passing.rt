// What is passed to a function, and what is lent to it.

ghost use Rattle.std.specs.Prelude.{◌≡◌, ℕ, ◌+◌, ◌^◌, ◌<◌, ◌≤◌, ◌∷◌, [], length, map, vec_capacity};
ghost use Rattle.wf_base.specs.LawfulActions.{AreDistinct, named_buffers, named_arrays};
ghost use Rattle.wf_bufs.specs.HostViews.{arg_of};
ghost use Rattle.wf_bufs.specs.HostSeen.{host_of};
ghost use Rattle.c_meaning.specs.CRun.{all_values, call_memory};
ghost use Rattle.c_mem.specs.MemoryViews.{memory, HasRoom};
ghost use Rattle.c_step_hosts.specs.Lending.{AreThere, all_lent};
ghost use Rattle.c_step_calls.specs.Resting.{AreSpare, TakesSpares};

use crate::room::Spares;
use c_meaning::values::CValue;
use c_mem::Mem;
use c_step_hosts::givens::add_all;
use c_step_hosts::ios::enter_ios;
use c_step_hosts::lending::lend_all;
use c_step_hosts::taking::Places;
use wf_bufs::{Arg, Bufs};

/// The first value that is passed; there is room for it.
fn begin(receiver: CValue, given: &mut Vec<CValue>)
    requires { 0 < vec_capacity given.old }
    ensures values { given.new.items ≡ receiver ∷ [] }
    ensures room { vec_capacity given.old ≤ vec_capacity given.new }
{
    given.clear();
    let _ = given.push(receiver);
}

/// The values that are passed: the receiver, and those of the arguments.
pub(crate) fn pass(
    args: &[Arg],
    host: &Bufs,
    receiver: CValue,
    places: Places,
    given: &mut Vec<CValue>,
)
    requires there { AreThere (length host.now.bufs) (length host.now.arrays) (map arg_of args.now) }
    requires room { length args.now + length args.now < vec_capacity given.old }
    requires order { places.buffer ≤ places.bytes }
    requires numbers { places.bytes + length args.now < 2 ^ 64 }
    ensures values { given.new.items ≡ receiver ∷ all_values (host_of host.now) places.buffer places.bytes (map arg_of args.now) }
    ensures room { vec_capacity given.old ≤ vec_capacity given.new }
{
    begin(receiver, given);
    add_all(args, host, places.buffer, places.bytes, given);
}

/// What the arguments name comes to stand in memory: the structs of io buffers from `places.buffer` on, `most` of them,
/// and the bytes from `places.bytes` on.
pub(crate) fn lend(
    args: &[Arg],
    host: &mut Bufs,
    most: usize,
    places: Places,
    mem: &mut Mem,
    spares: &mut Spares,
)
    requires there { AreThere (length host.old.bufs) (length host.old.arrays) (map arg_of args.now) }
    requires buffers { AreDistinct (named_buffers (map arg_of args.now)) }
    requires arrays { AreDistinct (named_arrays (map arg_of args.now)) }
    requires few { length args.now ≤ most }
    requires fits { HasRoom mem.old (most + length args.now) }
    requires spare { AreSpare most spares.old }
    requires numbers { places.bytes + length args.now < 2 ^ 64 }
    requires after { places.bytes ≡ length (memory mem.old) + most }
    ensures memory { memory mem.new ≡ call_memory (host_of host.old) (memory mem.old) most (map arg_of args.now) }
    ensures host { host_of host.new ≡ all_lent (map arg_of args.now) (host_of host.old) }
    ensures room { (more : ℕ) → HasRoom mem.old (more + (most + length args.now)) → HasRoom mem.new more }
    ensures spares { TakesSpares most (length args.now) spares.old spares.new }
{
    enter_ios(args, host, most, places.bytes, mem, &mut spares.ios);
    lend_all(args, host, mem, &mut spares.bytes, &mut spares.hand);
}

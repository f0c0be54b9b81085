// Bytes of a host that are lent to memory.

ghost use Rattle.std.specs.Prelude.{◌≡◌, ℕ, ◌+◌, ◌<◌, ◌≤◌, [], ◌++◌, length, map, vec_capacity, Some, slice_get, slice_set, List};
ghost use Rattle.wf_base.specs.BaseOps.{Buffer};
ghost use Rattle.wf_base.specs.LawfulActions.{AreDistinct, named_buffers, named_arrays};
ghost use Rattle.wf_bufs.specs.HostViews.{arg_of};
ghost use Rattle.wf_bufs.specs.HostSeen.{host_of};
ghost use Rattle.c_meaning.specs.CRun.{arg_bytes, byte_objects};
ghost use Rattle.c_mem.specs.MemoryViews.{memory, HasRoom};
ghost use Rattle.c_step_hosts.specs.Lending.{IsThere, AreThere, lent_buffer, lent_for, all_lent};
ghost use Rattle.c_step_hosts.specs.Spares.{HaveBytes};

use crate::spares::take_spare;
use c_mem::{Mem, Object};
use wf_bufs::{Arg, BufList, Bufs, ByteArrays};

/// A buffer's cells are taken into an empty hand.
fn take_cells(bufs: &mut BufList, k: usize, hand: &mut Vec<u8>)
    requires there { k < length bufs.old }
    requires empty { hand.old.items ≡ [] }
    ensures bufs { (b : Buffer) → slice_get bufs.old k ≡ Some b → bufs.new ≡ slice_set bufs.old k (lent_buffer b) }
    ensures cells { (b : Buffer) → slice_get bufs.old k ≡ Some b → hand.new.items ≡ b.cells }
{
    bufs.at_mut(k).swap_cells(hand);
}

/// The same of a byte array.
fn take_array(arrays: &mut ByteArrays, k: usize, hand: &mut Vec<u8>)
    requires there { k < length arrays.old }
    requires empty { hand.old.items ≡ [] }
    ensures arrays { arrays.new ≡ slice_set arrays.old k [] }
    ensures cells { (them : List ℕ) → slice_get arrays.old k ≡ Some them → hand.new.items ≡ them }
{
    arrays.at_mut(k).swap_bytes(hand);
}

/// The bytes that an argument names are taken into the hand; none where it names none.
fn take_bytes(arg: Arg, host: &mut Bufs, hand: &mut Vec<u8>)
    requires there { IsThere (length host.old.bufs) (length host.old.arrays) (arg_of arg) }
    ensures host { host_of host.new ≡ lent_for (arg_of arg) (host_of host.old) }
    ensures cells { hand.new.items ≡ arg_bytes (host_of host.old) (arg_of arg) }
{
    hand.clear();
    match arg {
        Arg::Io(Some(k)) => take_cells(&mut host.bufs, k as usize, hand),
        Arg::Bytes(Some(k)) => take_array(&mut host.arrays, k as usize, hand),
        Arg::Io(None) | Arg::Bytes(None) | Arg::Num(_) | Arg::Flag(_) => {}
    }
}

/// The bytes that the arguments of a call name come to stand in memory, an object for each argument.
pub fn lend_all(
    args: &[Arg],
    host: &mut Bufs,
    mem: &mut Mem,
    spares: &mut Vec<Object>,
    hand: &mut Vec<u8>,
)
    requires there { AreThere (length host.old.bufs) (length host.old.arrays) (map arg_of args.now) }
    requires buffers { AreDistinct (named_buffers (map arg_of args.now)) }
    requires arrays { AreDistinct (named_arrays (map arg_of args.now)) }
    requires room { HasRoom mem.old (length args.now) }
    requires some { length args.now ≤ length spares.old.items }
    requires spare { HaveBytes spares.old.items }
    ensures memory { memory mem.new ≡ memory mem.old ++ byte_objects (host_of host.old) (map arg_of args.now) }
    ensures host { host_of host.new ≡ all_lent (map arg_of args.now) (host_of host.old) }
    ensures room { (more : ℕ) → HasRoom mem.old (more + length args.now) → HasRoom mem.new more }
    ensures spare { HaveBytes spares.new.items }
    ensures count { length spares.new.items + length args.now ≡ length spares.old.items }
    ensures kept { vec_capacity spares.new ≡ vec_capacity spares.old }
{
    for arg in args {
        let mut object = take_spare(spares);
        take_bytes(*arg, host, hand);
        object.swap_bytes(hand);
        mem.enter(object);
    }
}

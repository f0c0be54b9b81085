// The objects of a call are taken out of memory, and kept for later calls.

ghost use Rattle.std.specs.Prelude.{◌≡◌, ℕ, ◌+◌, ◌<◌, ◌≤◌, length, take, vec_capacity};
ghost use Rattle.c_mem.specs.MemoryViews.{memory, HasRoom};
ghost use Rattle.c_step_hosts.specs.Spares.{AreIos, HaveBytes};
ghost use Rattle.c_step_hosts.specs.Taking.{HaveBytesBetween};
ghost use Rattle.c_step_hosts.specs.Leaving.{MovesLast, AreIosBetween};

use crate::spares::keep_spare;
use crate::taking::Places;
use c_mem::{Mem, Object};

/// The last object is taken out of memory and kept.
fn leave_one(mem: &mut Mem, spares: &mut Vec<Object>)
    requires some { 0 < length (memory mem.old) }
    requires fits { length spares.old.items < vec_capacity spares.old }
    ensures moves { MovesLast 1 (memory mem.old) (memory mem.new) spares.old.items spares.new.items }
    ensures room { (more : ℕ) → HasRoom mem.old more → HasRoom mem.new (more + 1) }
    ensures kept { vec_capacity spares.old ≤ vec_capacity spares.new }
{
    match mem.leave() {
        Some(object) => keep_spare(spares, object),
        None => unreachable!(),
    }
}

/// The last so many objects are.
fn leave_some(count: usize, mem: &mut Mem, spares: &mut Vec<Object>)
    requires some { count ≤ length (memory mem.old) }
    requires fits { length spares.old.items + count ≤ vec_capacity spares.old }
    ensures moves { MovesLast count (memory mem.old) (memory mem.new) spares.old.items spares.new.items }
    ensures room { (more : ℕ) → HasRoom mem.old more → HasRoom mem.new (more + count) }
    ensures kept { vec_capacity spares.old ≤ vec_capacity spares.new }
{
    for _ in 0..count {
        leave_one(mem, spares);
    }
}

/// The structs of io buffers that a call has had from `places.buffer` on, and the bytes of its arguments, so many, are taken
/// out of memory and kept. Memory is what it was before them.
pub fn leave_all(
    places: Places,
    count: usize,
    mem: &mut Mem,
    ios: &mut Vec<Object>,
    bytes: &mut Vec<Object>,
)
    requires there { length (memory mem.old) ≡ places.bytes + count }
    requires order { places.buffer ≤ places.bytes }
    requires structs { AreIosBetween places.buffer places.bytes (memory mem.old) }
    requires set { HaveBytesBetween places.bytes (places.bytes + count) (memory mem.old) }
    requires ios { AreIos ios.old.items }
    requires bytes { HaveBytes bytes.old.items }
    requires few { length ios.old.items + places.bytes ≤ vec_capacity ios.old + places.buffer }
    requires few_bytes { length bytes.old.items + count ≤ vec_capacity bytes.old }
    ensures memory { memory mem.new ≡ take places.buffer (memory mem.old) }
    ensures ios { AreIos ios.new.items }
    ensures bytes { HaveBytes bytes.new.items }
    ensures count { length ios.new.items + places.buffer ≡ length ios.old.items + places.bytes }
    ensures count_bytes { length bytes.new.items ≡ length bytes.old.items + count }
    ensures room { (more now : ℕ) → HasRoom mem.old more → now + places.buffer ≡ more + (places.bytes + count) → HasRoom mem.new now }
    ensures kept { (vec_capacity ios.old ≤ vec_capacity ios.new) × (vec_capacity bytes.old ≤ vec_capacity bytes.new) }
{
    leave_some(count, mem, bytes);
    leave_some(places.bytes - places.buffer, mem, ios);
}

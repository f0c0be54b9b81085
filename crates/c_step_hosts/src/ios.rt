// The structs of io buffers in memory.

ghost use Rattle.std.specs.Prelude.{◌≡◌, ℕ, ◌+◌, ◌-◌, ◌*◌, ◌^◌, ◌<◌, ◌≤◌, ◌∷◌, [], ◌++◌, List, if◌then◌else◌, length, map, replicate, vec_capacity, Some};
ghost use Rattle.wf_bufs.specs.HostViews.{arg_of};
ghost use Rattle.wf_bufs.specs.HostSeen.{host_of};
ghost use Rattle.c_meaning.specs.CMemory.{Object as ObjectOfMemory};
ghost use Rattle.c_meaning.specs.CRun.{no_buffer, buffer_object, bytes_pointer, io_object, io_objects};
ghost use Rattle.c_mem.specs.FieldParts.{FitsObject, stored_at_field};
ghost use Rattle.c_mem.specs.MemoryViews.{memory, HasRoom};
ghost use Rattle.c_step_hosts.specs.Lending.{IsThere, AreThere};
ghost use Rattle.c_step_hosts.specs.Spares.{IsIo, AreIos};

use crate::spares::take_spare;
use c_meaning::cells::Cell;
use c_meaning::values::Pointer;
use c_mem::{Mem, Object};
use wf_bufs::{Arg, Buf, Bufs};

/// Writes the only cell of a field.
#[tactic(auto, using(crate::proofs::Structs::stored_is))]
fn set(object: &mut Object, field: usize, cell: Cell)
    requires { FitsObject object.old field cell }
    ensures { (it : ObjectOfMemory) → stored_at_field object.old field 0 cell ≡ Some it → object.new ≡ it }
{
    let _ = object.store(field, 0, cell);
}

/// The cell that leads to an object of so many bytes; null where there are none.
pub(crate) fn start_of(size: usize, object: usize) -> Cell
    ensures { (them : List ℕ) → length them ≡ size → result ≡ bytes_pointer them object }
{
    if size == 0 {
        return Cell::Null;
    }
    Cell::At(Pointer {
        object,
        field: 0,
        index: 0,
    })
}

/// The number of a flag.
fn bit(flag: bool) -> u64
    ensures { result ≡ (if flag then 1 else 0) }
{
    if flag { 1 } else { 0 }
}

/// Writes what C sees of a buffer, whose bytes are this object.
fn write(object: &mut Object, b: &Buf, bytes: usize)
    requires { object.old ≡ no_buffer }
    ensures { object.new ≡ buffer_object b.now bytes }
{
    let size = b.bytes().len();
    set(object, 0, start_of(size, bytes));
    set(object, 1, Cell::Num(size as u64));
    set(object, 2, Cell::Num(b.wi()));
    set(object, 3, Cell::Num(b.ri()));
    set(object, 4, Cell::Num(b.pos()));
    set(object, 5, Cell::Num(bit(b.is_closed())));
}

/// A struct of an io buffer once it is unset.
#[tactic(auto, using(crate::proofs::Structs::io_unset, crate::proofs::Structs::io_small))]
fn unset(object: Object) -> Object
    requires { IsIo object }
    ensures { result ≡ no_buffer }
{
    let mut it = object;
    it.unset();
    it
}

/// The struct of the io buffer that an argument names comes to stand in memory; else an unset one.
fn enter_io(arg: Arg, host: &Bufs, bytes: usize, mem: &mut Mem, spares: &mut Vec<Object>)
    requires there { IsThere (length host.now.bufs) (length host.now.arrays) (arg_of arg) }
    requires room { HasRoom mem.old 1 }
    requires some { 0 < length spares.old.items }
    requires spare { AreIos spares.old.items }
    ensures memory { memory mem.new ≡ memory mem.old ++ io_object (host_of host.now) bytes (arg_of arg) ∷ [] }
    ensures room { (more : ℕ) → HasRoom mem.old (more + 1) → HasRoom mem.new more }
    ensures spare { AreIos spares.new.items }
    ensures count { length spares.new.items + 1 ≡ length spares.old.items }
    ensures kept { vec_capacity spares.new ≡ vec_capacity spares.old }
{
    let mut object = unset(take_spare(spares));
    if let Arg::Io(Some(k)) = arg {
        write(&mut object, host.bufs.at(k as usize), bytes);
    }
    mem.enter(object);
}

/// The same of all arguments. The bytes of the first one are the object `bytes`, and so on.
fn enter_named(args: &[Arg], host: &Bufs, bytes: usize, mem: &mut Mem, spares: &mut Vec<Object>)
    requires there { AreThere (length host.now.bufs) (length host.now.arrays) (map arg_of args.now) }
    requires room { HasRoom mem.old (length args.now) }
    requires some { length args.now ≤ length spares.old.items }
    requires spare { AreIos spares.old.items }
    requires numbers { bytes + length args.now < 2 ^ 64 }
    ensures memory { memory mem.new ≡ memory mem.old ++ io_objects (host_of host.now) bytes (map arg_of args.now) }
    ensures room { (more : ℕ) → HasRoom mem.old (more + length args.now) → HasRoom mem.new more }
    ensures spare { AreIos spares.new.items }
    ensures count { length spares.new.items + length args.now ≡ length spares.old.items }
    ensures kept { vec_capacity spares.new ≡ vec_capacity spares.old }
{
    let mut object = bytes;
    for arg in args {
        enter_io(*arg, host, object, mem, spares);
        object += 1;
    }
}

/// So many unset ones.
fn enter_others(count: usize, mem: &mut Mem, spares: &mut Vec<Object>)
    requires room { HasRoom mem.old count }
    requires some { count ≤ length spares.old.items }
    requires spare { AreIos spares.old.items }
    ensures memory { memory mem.new ≡ memory mem.old ++ replicate count no_buffer }
    ensures room { (more : ℕ) → HasRoom mem.old (more + count) → HasRoom mem.new more }
    ensures spare { AreIos spares.new.items }
    ensures count { length spares.new.items + count ≡ length spares.old.items }
    ensures kept { vec_capacity spares.new ≡ vec_capacity spares.old }
{
    for _ in 0..count {
        let object = unset(take_spare(spares));
        mem.enter(object);
    }
}

/// The structs of io buffers come to stand in memory, `most` of them: one for each argument, and the others unset.
pub fn enter_ios(
    args: &[Arg],
    host: &Bufs,
    most: usize,
    bytes: usize,
    mem: &mut Mem,
    spares: &mut Vec<Object>,
)
    requires there { AreThere (length host.now.bufs) (length host.now.arrays) (map arg_of args.now) }
    requires few { length args.now ≤ most }
    requires room { HasRoom mem.old most }
    requires some { most ≤ length spares.old.items }
    requires spare { AreIos spares.old.items }
    requires numbers { bytes + length args.now < 2 ^ 64 }
    ensures memory { memory mem.new ≡ memory mem.old ++ (io_objects (host_of host.now) bytes (map arg_of args.now) ++ replicate (most - length args.now) no_buffer) }
    ensures room { (more : ℕ) → HasRoom mem.old (more + most) → HasRoom mem.new more }
    ensures spare { AreIos spares.new.items }
    ensures count { length spares.new.items + most ≡ length spares.old.items }
    ensures kept { vec_capacity spares.new ≡ vec_capacity spares.old }
{
    enter_named(args, host, bytes, mem, spares);
    enter_others(most - args.len(), mem, spares);
}

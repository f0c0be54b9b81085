// What a call has left of a host's io buffers is taken back.

ghost use Rattle.std.specs.Prelude.{◌≡◌, ℕ, ◌+◌, ◌^◌, ◌<◌, ◌≤◌, ◌&&◌, [], ◌∷◌, List, length, map, take, nat_le, Some, slice_get, slice_set, MatchBool};
ghost use Rattle.wf_text.specs.HostActions.{HostArg};
ghost use Rattle.wf_base.specs.HostRun.{Host};
ghost use Rattle.wf_base.specs.LawfulActions.{AreDistinct, named_buffers, named_arrays};
ghost use Rattle.wf_bufs.specs.EngineLaw.{SameSizes};
ghost use Rattle.wf_bufs.specs.HostViews.{arg_of};
ghost use Rattle.wf_bufs.specs.HostSeen.{host_of};
ghost use Rattle.c_meaning.specs.CMemory.{Object as ObjectOfMemory};
ghost use Rattle.c_meaning.specs.CValues.{same_pointer};
ghost use Rattle.wf_base.specs.BaseOps.{Buffer};
ghost use Rattle.c_meaning.specs.CRun.{bytes_object, bytes_pointer, number_in, keeps_pointer, is_same_cell, field_cell, arg_bytes, bytes_in, buffer_left, arg_left, args_left};
ghost use Rattle.c_meaning.specs.Typed.{object_shape};
ghost use Rattle.c_mem.specs.MemoryViews.{memory, HasRoom};
ghost use Rattle.c_step_hosts.specs.Lending.{IsThere, AreThere, all_lent};
ghost use Rattle.c_step_hosts.specs.Taking.{indices_of, has_length, indices_left, buffer_with, Gives, bytes_back, HasShape, HaveShapes, HaveBytesBetween};

use crate::ios::start_of;
use c_meaning::cells::Cell;
use c_meaning::values::Pointer;
use c_mem::Mem;
use wf_bufs::{Arg, BufList, Bufs, ByteArrays};

/// The numbers of an io buffer's struct.
#[derive(Clone, Copy)]
pub(crate) struct Indices {
    /// The cell that is written next.
    pub(crate) wi: u64,
    /// The cell that is read next.
    pub(crate) ri: u64,
    /// The place of the first cell in the stream.
    pub(crate) pos: u64,
    /// 0 where more may be written.
    pub(crate) closed: u64,
}

/// The number in the first cell of a field.
fn number_at(mem: &Mem, object: usize, field: usize) -> Option<u64>
    ensures { result ≡ number_in (field_cell (memory mem.now) object field) }
{
    match mem.cell(Pointer {
        object,
        field,
        index: 0,
    }) {
        Some((_, Cell::Num(n))) => Some(n),
        Some((_, Cell::Null)) => None,
        Some((_, Cell::At(_))) => None,
        Some((_, Cell::Unset)) => None,
        None => None,
    }
}

/// Whether two pointers lead to one cell.
fn is_one_place(p: Pointer, q: Pointer) -> bool
    ensures { result ≡ same_pointer p q }
{
    p.object == q.object && (p.field == q.field && p.index == q.index)
}

/// Whether two cells hold the same pointer, or null both.
fn is_same(a: Cell, b: Cell) -> bool
    ensures { result ≡ is_same_cell a b }
{
    match (a, b) {
        (Cell::Null, Cell::Null) => true,
        (Cell::At(p), Cell::At(q)) => is_one_place(p, q),
        (_, _) => false,
    }
}

/// Whether the first cell of a struct still leads to an object of so many bytes.
fn leads_to(mem: &Mem, io: usize, size: usize, bytes: usize) -> bool
    ensures { (them : List ℕ) → length them ≡ size → result ≡ keeps_pointer (bytes_pointer them bytes) (field_cell (memory mem.now) io 0) }
{
    match mem.cell(Pointer {
        object: io,
        field: 0,
        index: 0,
    }) {
        Some((_, cell)) => is_same(start_of(size, bytes), cell),
        None => false,
    }
}

/// Whether a number is this size.
fn is_size(n: Option<u64>, size: usize) -> bool
    ensures { result ≡ has_length n size }
{
    match n {
        Some(n) => n == size as u64,
        None => false,
    }
}

/// All four numbers.
fn all_indices(
    wi: Option<u64>,
    ri: Option<u64>,
    pos: Option<u64>,
    closed: Option<u64>,
) -> Option<Indices>
    ensures { result ≡ indices_of wi ri pos closed }
{
    Some(Indices {
        wi: wi?,
        ri: ri?,
        pos: pos?,
        closed: closed?,
    })
}

/// What is left of the struct of an io buffer of so many bytes, which are an object; none where it leads elsewhere or
/// isn't set.
fn read_indices(mem: &Mem, io: usize, size: usize, bytes: usize) -> Option<Indices>
    ensures { (them : List ℕ) → length them ≡ size → result ≡ indices_left (memory mem.now) io bytes them }
{
    if !leads_to(mem, io, size, bytes) {
        return None;
    }
    if !is_size(number_at(mem, io, 1), size) {
        return None;
    }
    all_indices(
        number_at(mem, io, 2),
        number_at(mem, io, 3),
        number_at(mem, io, 4),
        number_at(mem, io, 5),
    )
}

/// A buffer gets its cells back, with what is left of the struct. False where the numbers aren't in order.
fn give_buffer(bufs: &mut BufList, k: usize, left: Indices, hand: &mut Vec<u8>) -> bool
    requires { k < length bufs.old }
    ensures lawful { result ≡ (nat_le left.ri left.wi && nat_le left.wi (length hand.old.items)) }
    ensures bufs { MatchBool result (bufs.new ≡ slice_set bufs.old k (buffer_with hand.old.items left)) (Unit {0}) }
{
    let buf = bufs.at_mut(k);
    buf.swap_cells(hand);
    buf.place(left.ri, left.wi, left.pos, left.closed != 0)
}

/// What is left of an io buffer is taken back from memory: its struct is one object, its bytes another one, which has none
/// then. False where what is left isn't defined.
fn take_buffer(
    mem: &mut Mem,
    io: usize,
    bytes: usize,
    bufs: &mut BufList,
    k: usize,
    hand: &mut Vec<u8>,
) -> bool
    requires there { k < length bufs.old }
    requires apart { io < bytes }
    ensures taken { (was : Buffer) (o : ObjectOfMemory) → slice_get (memory mem.old) bytes ≡ Some o → object_shape o ≡ object_shape (bytes_object was.cells)
        → Gives (buffer_left (memory mem.old) io bytes was) result (λ b. bufs.new ≡ slice_set bufs.old k b) }
    ensures many { MatchBool result (length bufs.new ≡ length bufs.old) (Unit {0}) }
    ensures memory { MatchBool result (memory mem.new ≡ slice_set (memory mem.old) bytes (bytes_object [])) (Unit {0}) }
    ensures room { (more : ℕ) → HasRoom mem.old more → HasRoom mem.new more }
{
    hand.clear();
    if !mem.swap_bytes(bytes, hand) {
        return false;
    }
    let Some(left) = read_indices(mem, io, hand.len(), bytes) else {
        return false;
    };
    give_buffer(bufs, k, left, hand)
}

/// The bytes of a byte array are taken back from memory: they are an object, which has none then. False where what is left
/// isn't defined.
#[tactic(auto, using(crate::proofs::Taken::bytes_there))]
fn take_array(
    mem: &mut Mem,
    bytes: usize,
    arrays: &mut ByteArrays,
    k: usize,
    hand: &mut Vec<u8>,
) -> bool
    requires there { k < length arrays.old }
    ensures taken { (was : List ℕ) (o : ObjectOfMemory) → slice_get (memory mem.old) bytes ≡ Some o → object_shape o ≡ object_shape (bytes_object was)
        → Gives (bytes_in (memory mem.old) bytes) result (λ them. arrays.new ≡ slice_set arrays.old k them) }
    ensures many { MatchBool result (length arrays.new ≡ length arrays.old) (Unit {0}) }
    ensures memory { MatchBool result (memory mem.new ≡ slice_set (memory mem.old) bytes (bytes_object [])) (Unit {0}) }
    ensures room { (more : ℕ) → HasRoom mem.old more → HasRoom mem.new more }
{
    hand.clear();
    if !mem.swap_bytes(bytes, hand) {
        return false;
    }
    arrays.at_mut(k).swap_bytes(hand);
    true
}

/// Where the objects of a call's first argument stand in memory; those of the others follow.
#[derive(Clone, Copy)]
pub struct Places {
    /// The struct of its io buffer.
    pub buffer: usize,
    /// Its bytes.
    pub bytes: usize,
}

/// What is left of what an argument names is taken back. False where that isn't defined.
fn take_argument(
    arg: Arg,
    host: &mut Bufs,
    mem: &mut Mem,
    io: usize,
    bytes: usize,
    hand: &mut Vec<u8>,
) -> bool
    requires there { IsThere (length host.old.bufs) (length host.old.arrays) (arg_of arg) }
    requires apart { io < bytes }
    ensures host { (was : Host) (rest : List HostArg) → host_of host.old ≡ all_lent (arg_of arg ∷ rest) was → AreDistinct (named_buffers (arg_of arg ∷ rest)) → AreDistinct (named_arrays (arg_of arg ∷ rest))
        → HasShape (memory mem.old) bytes (arg_bytes was (arg_of arg)) → Gives (arg_left (memory mem.old) io bytes (arg_of arg) was) result (λ left. host_of host.new ≡ all_lent rest left) }
    ensures many { MatchBool result ((length host.new.bufs ≡ length host.old.bufs) × (length host.new.arrays ≡ length host.old.arrays)) (Unit {0}) }
    ensures memory { MatchBool result (memory mem.new ≡ bytes_back (arg_of arg) (memory mem.old) bytes) (Unit {0}) }
    ensures room { (more : ℕ) → HasRoom mem.old more → HasRoom mem.new more }
{
    match arg {
        Arg::Io(Some(k)) => take_buffer(mem, io, bytes, &mut host.bufs, k as usize, hand),
        Arg::Bytes(Some(k)) => take_array(mem, bytes, &mut host.arrays, k as usize, hand),
        Arg::Io(None) | Arg::Bytes(None) | Arg::Num(_) | Arg::Flag(_) => true,
    }
}

/// What a call has left of what its arguments name is taken back from memory. False where that isn't defined; nothing is
/// said then of what stands.
pub fn take_back(
    args: &[Arg],
    host: &mut Bufs,
    mem: &mut Mem,
    places: Places,
    hand: &mut Vec<u8>,
) -> bool
    requires there { AreThere (length host.old.bufs) (length host.old.arrays) (map arg_of args.now) }
    requires buffers { AreDistinct (named_buffers (map arg_of args.now)) }
    requires arrays { AreDistinct (named_arrays (map arg_of args.now)) }
    requires apart { places.buffer + length args.now ≤ places.bytes }
    requires numbers { places.bytes + length args.now < 2 ^ 64 }
    ensures host { (was : Host) → host_of host.old ≡ all_lent (map arg_of args.now) was → HaveShapes (memory mem.old) places.bytes was (map arg_of args.now)
        → Gives (args_left (memory mem.old) places.buffer places.bytes (map arg_of args.now) was) result (λ left. (host_of host.new ≡ left) × SameSizes was left × HaveBytesBetween places.bytes (places.bytes + length args.now) (memory mem.new)) }
    ensures below { MatchBool result (take places.bytes (memory mem.new) ≡ take places.bytes (memory mem.old)) (Unit {0}) }
    ensures count { MatchBool result (length (memory mem.new) ≡ length (memory mem.old)) (Unit {0}) }
    ensures room { (more : ℕ) → HasRoom mem.old more → HasRoom mem.new more }
{
    let mut io = places.buffer;
    let mut object = places.bytes;
    for arg in args {
        if !take_argument(*arg, host, mem, io, object, hand) {
            return false;
        }
        io += 1;
        object += 1;
    }
    true
}

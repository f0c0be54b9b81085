// `memmove` (ISO/IEC 9899:1999, 7.21.2.2).

ghost use Rattle.std.specs.Prelude.{◌≡◌, ℕ, ◌+◌, ◌<◌, ◌≤◌, ◌&&◌, ◌||◌, if◌then◌else◌, Bool, Some, None, List, length, nat_eq, nat_lt, nat_le, IfSome, slice_range, false};
ghost use Rattle.std.specs.List.{list_all};
ghost use Rattle.c_meaning.specs.declared.cells.CellType.TheVariants.{U8 as u8};
ghost use Rattle.c_meaning.specs.CMemory.{cells, bytes_of, whole_cells, same_type, is_set, move_bytes};
ghost use Rattle.c_mem.specs.FieldViews.{byte_cells};
ghost use Rattle.c_mem.specs.Leaving.{Leaves};
ghost use Rattle.c_mem.specs.MemoryViews.{memory, HasRoom};
ghost use Rattle.c_mem.specs.Moving.{counted, count_moved, moved_field, moved_at, PastesIn, pasted, paste_cells, Swaps, moved_from, same_field};

use crate::fields::{Field, Held};
use crate::mem::Mem;
use crate::objects::Object;
use c_meaning::cells::{Cell, CellType};
use c_meaning::values::Pointer;

/// How many bytes a cell has; None where nothing says it (7.18.1.1).
fn cell_bytes(ty: CellType) -> Option<u64>
    ensures bytes { result ≡ bytes_of ty }
    ensures some { IfSome result (λ n. 0 < n) }
{
    match ty {
        CellType::U8 => Some(1),
        CellType::U16 => Some(2),
        CellType::U32 => Some(4),
        CellType::U64 => Some(8),
        CellType::Flag | CellType::Pointer => None,
    }
}

/// How many whole cells so many bytes are.
fn cells_in(ty: CellType, bytes: u64) -> Option<u64>
    ensures { result ≡ whole_cells ty bytes }
{
    let size = cell_bytes(ty)?;
    if bytes % size == 0 {
        Some(bytes / size)
    } else {
        None
    }
}

/// Whether two types are one.
fn is_same_type(a: CellType, b: CellType) -> bool
    ensures { result ≡ same_type a b }
{
    match (a, b) {
        (CellType::U8, CellType::U8)
        | (CellType::U16, CellType::U16)
        | (CellType::U32, CellType::U32)
        | (CellType::U64, CellType::U64)
        | (CellType::Flag, CellType::Flag)
        | (CellType::Pointer, CellType::Pointer) => true,
        (_, _) => false,
    }
}

/// Whether so many cells from an index on are among `most`.
fn are_within(at: u64, count: u64, most: u64) -> bool
    ensures { result ≡ nat_le (at + count) most }
{
    count <= most && at <= most - count
}

/// Whether a cell is set.
fn is_set_cell(cell: &Cell) -> bool
    ensures { result ≡ is_set cell.now }
{
    match *cell {
        Cell::Unset => false,
        Cell::Num(_) | Cell::Null | Cell::At(_) => true,
    }
}

/// Whether so many cells from an index on are set.
fn are_set(cells: &[Cell], at: usize, count: usize) -> bool
    requires { at + count ≤ length cells.now }
    ensures { result ≡ list_all is_set (slice_range cells.now at (at + count)) }
{
    cells[at..at + count].iter().all(|cell| is_set_cell(cell))
}

/// A place among cells of one type, where bytes are moved from or to.
#[derive(Clone, Copy)]
struct CellPlace<'a> {
    /// The type of each cell.
    ty: CellType,
    /// The cells.
    cells: &'a [Cell],
    /// The index of the first cell that is moved.
    at: u64,
}

/// How many cells so many bytes are that may come from `source` to `target`; None where `memmove` isn't defined.
fn count_cells(target: CellPlace<'_>, source: CellPlace<'_>, bytes: u64) -> Option<u64>
    ensures { result ≡ counted target.entry.ty target.entry.cells.now target.entry.at source.entry.ty source.entry.cells.now source.entry.at bytes }
{
    if bytes == 0 {
        return if target.at <= target.cells.len() as u64 && source.at <= source.cells.len() as u64 {
            Some(0)
        } else {
            None
        };
    }
    let count = cells_in(source.ty, bytes)?;
    if !is_same_type(target.ty, source.ty) {
        return None;
    }
    if !are_within(source.at, count, source.cells.len() as u64) {
        return None;
    }
    if !are_within(target.at, count, target.cells.len() as u64) {
        return None;
    }
    if are_set(source.cells, source.at as usize, count as usize) {
        Some(count)
    } else {
        None
    }
}

/// So many cells of one list come to stand in another.
fn copy_cells(target: &mut [Cell], to: usize, source: &[Cell], from: usize, count: usize)
    requires target { to + count ≤ length target.old }
    requires source { from + count ≤ length source.now }
    ensures { target.new ≡ paste_cells target.old to source.now from count }
{
    target[to..to + count].copy_from_slice(&source[from..from + count]);
}

/// Whether so many bytes may be moved from a list to another one. `set`: the source's are set.
fn are_movable(target: u64, to: u64, source: u64, set: bool, from: u64, bytes: u64) -> bool
    ensures { result ≡ (nat_le (to + bytes) target && (nat_le (from + bytes) source && (nat_eq bytes 0 || set))) }
{
    if !are_within(to, bytes, target) {
        return false;
    }
    are_within(from, bytes, source) && (bytes == 0 || set)
}

/// How many bytes these are; None where `memmove` isn't defined.
#[tactic(auto, using(crate::proofs::Bytes::counts_bytes))]
fn count_bytes(target: u64, to: u64, source: u64, set: bool, from: u64, bytes: u64) -> Option<u64>
    ensures { (it them : List ℕ) (b : Bool) → length it ≡ target → length them ≡ source → result ≡ counted u8 (byte_cells it b) to u8 (byte_cells them set) from bytes }
{
    if are_movable(target, to, source, set, from, bytes) {
        Some(bytes)
    } else {
        None
    }
}

/// The same between cells of different types: 0 bytes from a place that is there to another one.
fn count_none(target: u64, to: u64, source: u64, from: u64, bytes: u64) -> Option<u64>
    ensures { result ≡ (if nat_eq bytes 0 && (nat_le to target && nat_le from source) then Some 0 else None) }
{
    if bytes == 0 && (to <= target && from <= source) {
        Some(0)
    } else {
        None
    }
}

/// Whether bytes are set once so many that are set have come to stand among them.
fn is_set_after(set: bool, count: u64) -> bool
    ensures { result ≡ (set || nat_lt 0 count) }
{
    set || count > 0
}

/// So many bytes of one list come to stand in another.
fn copy_bytes(target: &mut [u8], to: usize, source: &[u8], from: usize, count: usize)
    requires target { to + count ≤ length target.old }
    requires source { from + count ≤ length source.now }
    ensures { target.new ≡ paste_cells target.old to source.now from count }
{
    target[to..to + count].copy_from_slice(&source[from..from + count]);
}

impl Field {
    /// How many cells `memmove` moves to this field, where it is defined.

    fn movable(&self, to: u64, source: &Field, from: u64, bytes: u64) -> Option<u64>
        ensures { result ≡ count_moved self.now to source.now from bytes }
    {
        match &self.held {
            Held::Cells(ty, target) => match &source.held {
                Held::Cells(from_ty, cells) => {
                    let target = CellPlace {
                        ty: *ty,
                        cells: target.as_slice(),
                        at: to,
                    };
                    let source = CellPlace {
                        ty: *from_ty,
                        cells: cells.as_slice(),
                        at: from,
                    };
                    count_cells(target, source, bytes)
                }
                Held::Bytes(them, _) => count_none(
                    target.len() as u64,
                    to,
                    them.len() as u64,
                    from,
                    bytes,
                ),
                Held::Part(_) => None,
            },
            Held::Bytes(target, _) => source.movable_to_bytes(target.len() as u64, to, from, bytes),
            Held::Part(_) => None,
        }
    }

    /// The same from this field to one of so many bytes.
    fn movable_to_bytes(&self, target: u64, to: u64, from: u64, bytes: u64) -> Option<u64>
        ensures { (it : List ℕ) (b : Bool) → length it ≡ target → result ≡ count_moved (cells u8 (byte_cells it b)) to self.now from bytes }
    {
        match &self.held {
            Held::Cells(_, cells) => count_none(target, to, cells.len() as u64, from, bytes),
            Held::Bytes(them, set) => count_bytes(target, to, them.len() as u64, *set, from, bytes),
            Held::Part(_) => None,
        }
    }

    /// Cells of another field come to stand in this one.
    #[tactic(auto, using(crate::proofs::Bytes::copies_bytes))]
    fn paste(&mut self, to: u64, source: &Field, from: u64, count: u64)
        requires { PastesIn self.old to source.now from count }
        ensures { self.new ≡ pasted self.old to source.now from count }
    {
        match &mut self.held {
            Held::Cells(_, target) => match &source.held {
                Held::Cells(_, cells) => copy_cells(
                    target.as_mut_slice(),
                    to as usize,
                    cells.as_slice(),
                    from as usize,
                    count as usize,
                ),
                Held::Bytes(_, _) => {}
                Held::Part(_) => {}
            },
            Held::Bytes(target, set) => match &source.held {
                Held::Bytes(them, _) => {
                    copy_bytes(
                        target.as_mut_slice(),
                        to as usize,
                        them.as_slice(),
                        from as usize,
                        count as usize,
                    );
                    *set = is_set_after(*set, count);
                }
                Held::Cells(_, _) => {}
                Held::Part(_) => {}
            },
            Held::Part(_) => {}
        }
    }

    /// Cells of this field come to stand elsewhere in it.
    #[tactic(auto, using(crate::proofs::Moved::within_cells, crate::proofs::Bytes::pastes_within))]
    fn paste_within(&mut self, to: u64, from: u64, count: u64)
        requires { PastesIn self.old to self.old from count }
        ensures { self.new ≡ pasted self.old to self.old from count }
    {
        match &mut self.held {
            Held::Cells(_, cells) => {
                let start = from as usize;
                let end = start + count as usize;
                cells.as_mut_slice().copy_within(start..end, to as usize);
            }
            Held::Bytes(them, _) => {
                let start = from as usize;
                let end = start + count as usize;
                them.as_mut_slice().copy_within(start..end, to as usize);
            }
            Held::Part(_) => {}
        }
    }

    /// `memmove` from another field to this one.
    #[tactic(auto, using(crate::proofs::Moved::moves_fit))]
    fn move_from(&mut self, to: u64, source: &Field, from: u64, bytes: u64) -> Option<()>
        ensures { Leaves (moved_field self.old to source.now from bytes) self.old result self.new }
    {
        let count = self.movable(to, source, from, bytes)?;
        self.paste(to, source, from, count);
        Some(())
    }

    /// `memmove` within this field.
    #[tactic(auto, using(crate::proofs::Moved::moves_fit))]
    fn move_within(&mut self, to: u64, from: u64, bytes: u64) -> Option<()>
        ensures { Leaves (moved_field self.old to self.old from bytes) self.old result self.new }
    {
        let count = self.movable(to, self, from, bytes)?;
        self.paste_within(to, from, count);
        Some(())
    }
}

impl Object {
    /// `memmove` within a field.
    fn move_within(&mut self, field: usize, to: u64, from: u64, bytes: u64) -> Option<()>
        ensures { Leaves (moved_at self.old field to from bytes) self.old result self.new }
    {
        if field >= self.fields.len() {
            return None;
        }
        self.fields[field].move_within(to, from, bytes)
    }

    /// Swaps a field for another one; false, and both stay, where there is none.
    fn swap_field(&mut self, field: usize, other: &mut Field) -> bool
        ensures { Swaps self.old field other.old result self.new other.new }
    {
        if field >= self.fields.len() {
            return false;
        }
        std::mem::swap(&mut self.fields[field], other);
        true
    }
}

/// `memmove` to a field from one of these objects.
fn move_to(target: &mut Field, to: u64, objects: &[Object], from: Pointer, bytes: u64) -> Option<()>
    ensures { Leaves (moved_from target.old to objects.now from bytes) target.old result target.new }
{
    let source = objects.get(from.object)?.fields.get(from.field)?;
    target.move_from(to, source, from.index, bytes)
}

/// Whether two pointers lead to one field.
fn is_one_field(p: Pointer, q: Pointer) -> bool
    ensures { result ≡ same_field p q }
{
    p.object == q.object && p.field == q.field
}

impl Mem {
    /// `memmove(to, from, bytes)` (7.21.2.2): whole cells that are set come to stand at `to`, as they were before. None, and
    /// the memory is as before, beyond a field, at a part of a cell, at an unset cell, and between cells of different
    /// types. 0 bytes ask for two places that are there.
    pub fn move_bytes(&mut self, to: Pointer, from: Pointer, bytes: u64) -> Option<()>
        ensures objects { Leaves (move_bytes (memory self.old) to from bytes) (memory self.old) result (memory self.new) }
        ensures room { (more : ℕ) → HasRoom self.old more → HasRoom self.new more }
    {
        if to.object >= self.objects.len() {
            return None;
        }
        if is_one_field(to, from) {
            return self.objects[to.object].move_within(to.field, to.index, from.index, bytes);
        }
        self.move_across(to, from, bytes)
    }

    /// The same between two fields: the one that cells come to is taken out of the memory meanwhile.
    fn move_across(&mut self, to: Pointer, from: Pointer, bytes: u64) -> Option<()>
        requires there { to.object < length (memory self.old) }
        requires apart { same_field to from ≡ false }
        ensures objects { Leaves (move_bytes (memory self.old) to from bytes) (memory self.old) result (memory self.new) }
        ensures room { (more : ℕ) → HasRoom self.old more → HasRoom self.new more }
    {
        if !self.objects[to.object].swap_field(to.field, &mut self.spare) {
            return None;
        }
        let moved = move_to(
            &mut self.spare,
            to.index,
            self.objects.as_slice(),
            from,
            bytes,
        );
        let _back = self.objects[to.object].swap_field(to.field, &mut self.spare);
        moved
    }
}

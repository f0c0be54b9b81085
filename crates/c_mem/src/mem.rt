// The memory.

ghost use Rattle.std.specs.Prelude.{◌≡◌, vec_len};

use crate::decls::ObjDecl;
use crate::fields::Field;
use crate::objects::Object;
use c_meaning::cells::{Cell, CellType};
use c_meaning::values::Pointer;
use std::alloc::Global;
use wf_text::NoMemory;

/// A memory.
#[derive(Drop)]
pub struct Mem {
    pub(crate) objects: Vec<Object>,
    // What `zero` has to come to, by the numbers of objects.
    pub(crate) marks: Vec<bool>,
    // Stands in for the field that cells are moved to.
    pub(crate) spare: Field,
    ghost marked: { vec_len marks ≡ vec_len objects },
}

impl Mem {
    ghost use Rattle.std.specs.Prelude.{ℕ, ◌+◌, ◌^◌, ◌<◌, [], ◌∷◌, ◌++◌, length, map, option_to_list, IfOk, IfNone, IsSome, ◌≤ℤ◌, ◌<ℤ◌, pos, negsuc};
    ghost use Rattle.c_meaning.specs.CMemory.{load, store, offset, cell_at, part_at};
    ghost use Rattle.c_mem.specs.FieldParts.{declared_object, FitsPlace};
    ghost use Rattle.c_mem.specs.Leaving.{Leaves};
    ghost use Rattle.c_mem.specs.MemoryViews.{memory, HasRoom};
    ghost use Rattle.c_mem.specs.Trading.{Trades};

    /// The memory of these objects, each numbered by its place, and with room for so many more. Cells are unset, but two
    /// bytes or more of a field are 0.
    pub fn reserve(alloc: Global, objects: &[ObjDecl], more: usize) -> Result<Mem, NoMemory>
        requires { length objects.now + more < 2 ^ 64 }
        ensures objects { IfOk result (λ mem. memory mem ≡ map declared_object objects.now) }
        ensures room { IfOk result (λ mem. HasRoom mem more) }
    {
        let count = objects.len() + more;
        let mut made = Vec::with_capacity(alloc, count)?;
        let mut marks = Vec::with_capacity(alloc, count)?;
        for object in objects {
            made.push(Object::new(alloc, object)?)?;
            marks.push(false)?;
        }
        Ok(Mem {
            objects: made,
            marks,
            spare: Field::part(0),
        })
    }

    /// Adds an object after the others; there is room for it.
    pub fn enter(&mut self, object: Object)
        requires { HasRoom self.old 1 }
        ensures objects { memory self.new ≡ memory self.old ++ object ∷ [] }
        ensures room { (more : ℕ) → HasRoom self.old (more + 1) → HasRoom self.new more }
    {
        let _ = self.objects.push(object);
        let _ = self.marks.push(false);
    }

    /// Takes the last object out, which leaves room for it; None where there is none.
    pub fn leave(&mut self) -> Option<Object>
        ensures objects { memory self.old ≡ memory self.new ++ option_to_list result }
        ensures none { IfNone result (memory self.old ≡ []) }
        ensures room { (more : ℕ) → HasRoom self.old more → IsSome result → HasRoom self.new (more + 1) }
    {
        let _ = self.marks.pop();
        self.objects.pop()
    }

    /// The cell that a pointer names, and its type; None outside every field.
    pub fn cell(&self, p: Pointer) -> Option<(CellType, Cell)>
        ensures { result ≡ cell_at (memory self.now) p }
    {
        self.objects.get(p.object)?.cell(p.field, p.index)
    }

    /// The cell that a pointer names; None outside every field, and where the cell is unset (6.3.2.1p2, 6.5.3.2p4).
    pub(crate) fn load(&self, p: Pointer) -> Option<Cell>
        ensures { result ≡ load (memory self.now) p }
    {
        self.objects.get(p.object)?.load(p.field, p.index)
    }

    /// Writes the cell that a pointer names; None, and the memory is as before, outside every field (6.5.3.2p4).
    pub fn store(&mut self, p: Pointer, cell: Cell) -> Option<()>
        requires { FitsPlace (memory self.old) p cell }
        ensures objects { Leaves (store (memory self.old) p cell) (memory self.old) result (memory self.new) }
        ensures room { (more : ℕ) → HasRoom self.old more → HasRoom self.new more }
    {
        if p.object >= self.objects.len() {
            return None;
        }
        self.objects[p.object].store(p.field, p.index, cell)
    }

    /// Trades the bytes of an object that is one field of them, all set, for others, in constant time. False, and all stays,
    /// where there is no such object.
    pub fn swap_bytes(&mut self, object: usize, bytes: &mut Vec<u8>) -> bool
        ensures trades { Trades (memory self.old) object bytes.old.items result (memory self.new) bytes.new.items }
        ensures room { (more : ℕ) → HasRoom self.old more → HasRoom self.new more }
    {
        if object >= self.objects.len() {
            return false;
        }
        if !self.objects[object].has_bytes() {
            return false;
        }
        self.objects[object].swap_bytes(bytes);
        true
    }

    /// The pointer so many cells on; None outside the field and one past it (6.5.6p8).
    pub fn offset(&self, p: Pointer, by: i128) -> Option<Pointer>
        requires low { negsuc (2 ^ 64) ≤ℤ by }
        requires high { by <ℤ pos (2 ^ 64) }
        ensures { result ≡ offset (memory self.now) p by }
    {
        let index = self.objects.get(p.object)?.offset(p.field, p.index, by)?;
        Some(Pointer { index, ..p })
    }

    /// The object inside that a field holds; None where no such object, field or object inside is there (6.5.2.3).
    pub fn part(&self, object: usize, field: usize) -> Option<usize>
        ensures { result ≡ part_at (memory self.now) object field }
    {
        self.objects.get(object)?.part(field)
    }
}

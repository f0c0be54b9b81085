// An object: its fields in order.

ghost use Rattle.std.specs.Prelude.{◌≡◌, ◌^◌, true, map, IfOk, ◌≤ℤ◌, ◌<ℤ◌, pos, negsuc};
ghost use Rattle.c_meaning.specs.CMemory.{zero_field};
ghost use Rattle.c_meaning.specs.CRun.{bytes_object};
ghost use Rattle.c_mem.specs.FieldParts.{FitsObject, AreSmall, has_bytes, cell_at_field, load_at_field, stored_at_field, part_at_field, moved_at_field, declared_object, unset_field};
ghost use Rattle.c_mem.specs.Leaving.{Leaves};

use crate::decls::ObjDecl;
use crate::fields::Field;
use c_meaning::cells::{Cell, CellType};
use std::alloc::Global;
use std::marker::Model;
use wf_text::NoMemory;

/// An object, as it stands in a memory or will.
#[derive(Drop)]
pub struct Object {
    pub(crate) fields: Vec<Field>,
}

impl Model for Object {
    ghost use Rattle.std.specs.Prelude.{List};
    ghost use Rattle.c_meaning.specs.CMemory.{Field as FieldOfMemory};

    ghost Value = { List FieldOfMemory };

    ghost view = { λ o. o.fields.items };
}

impl Object {
    /// An object as it is declared: cells are unset, but two bytes or more of a field are 0.
    pub fn new(alloc: Global, decl: &ObjDecl) -> Result<Object, NoMemory>
        ensures { IfOk result (λ object. object ≡ declared_object decl.now) }
    {
        let mut fields = Vec::new(alloc);
        for field in &decl.fields {
            fields.push(Field::new(alloc, *field)?)?;
        }
        Ok(Object { fields })
    }

    /// The cell of a field, and its type; None where there is none.
    pub(crate) fn cell(&self, field: usize, index: u64) -> Option<(CellType, Cell)>
        ensures { result ≡ cell_at_field self.now field index }
    {
        self.fields.get(field)?.cell(index)
    }

    /// The same where the cell is set.
    pub(crate) fn load(&self, field: usize, index: u64) -> Option<Cell>
        ensures { result ≡ load_at_field self.now field index }
    {
        self.fields.get(field)?.load(index)
    }

    /// The object inside that a field holds.
    pub(crate) fn part(&self, field: usize) -> Option<usize>
        ensures { result ≡ part_at_field self.now field }
    {
        self.fields.get(field)?.object()
    }

    /// The index so many cells on in a field; None outside it and one past it.
    pub(crate) fn offset(&self, field: usize, index: u64, by: i128) -> Option<u64>
        requires low { negsuc (2 ^ 64) ≤ℤ by }
        requires high { by <ℤ pos (2 ^ 64) }
        ensures { result ≡ moved_at_field self.now field index by }
    {
        self.fields.get(field)?.offset(index, by)
    }

    /// Writes a cell of a field; None, and the object is as before, where there is none.
    pub fn store(&mut self, field: usize, index: u64, cell: Cell) -> Option<()>
        requires { FitsObject self.old field cell }
        ensures { Leaves (stored_at_field self.old field index cell) self.old result self.new }
    {
        if field >= self.fields.len() {
            return None;
        }
        self.fields[field].store(index, cell)
    }

    /// Makes every cell zero, false or null.
    pub(crate) fn zero(&mut self)
        ensures { self.new ≡ map zero_field self.old }
    {
        for field in self.fields.iter_mut() {
            field.zero();
        }
    }

    /// Makes every cell unset. No field has more than one byte.
    pub fn unset(&mut self)
        requires { AreSmall self.old }
        ensures { self.new ≡ map unset_field self.old }
    {
        for field in self.fields.iter_mut() {
            field.clear();
        }
    }

    /// Whether the object is one field of bytes, all set.
    pub(crate) fn has_bytes(&self) -> bool
        ensures { result ≡ has_bytes self.now }
    {
        self.fields.len() == 1 && self.fields[0].has_bytes()
    }

    /// Trades the bytes of an object that is one field of them for others, in constant time.
    pub fn swap_bytes(&mut self, bytes: &mut Vec<u8>)
        requires { has_bytes self.old ≡ true }
        ensures now { self.new ≡ bytes_object bytes.old.items }
        ensures was { self.old ≡ bytes_object bytes.new.items }
    {
        self.fields[0].swap_bytes(bytes);
    }
}

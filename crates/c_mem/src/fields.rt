// A field of an object: cells of one type, or an object inside.

ghost use Rattle.std.specs.Prelude.{◌≡◌, ◌+◌, ◌^◌, ◌<◌, ◌≤◌, true, false, map, nat_lt, replicate, IfOk, ◌≤ℤ◌, ◌<ℤ◌, ◌+ℤ◌, pos, negsuc};
ghost use Rattle.c_meaning.specs.declared.cells.CellType.TheVariants.{U8 as u8};
ghost use Rattle.c_meaning.specs.declared.cells.Cell.TheVariants.{Num as num, Unset as unset};
ghost use Rattle.c_meaning.specs.CMemory.{cells, part, part_of, within, zero_field, zero_cell as zeroed_cell};
ghost use Rattle.c_mem.specs.FieldParts.{is_byte, IsByte, FitsField, IsSmall, are_bytes, cell_in, load_in, stored_in, moved_index, declared_field, unset_field};
ghost use Rattle.c_mem.specs.FieldViews.{byte_cell, byte_cells};
ghost use Rattle.c_mem.specs.Leaving.{Leaves};

use crate::decls::FieldDecl;
use c_meaning::cells::{Cell, CellType};
use std::alloc::Global;
use std::marker::Model;
use wf_text::NoMemory;

/// What a field holds.
#[derive(Drop)]
pub(crate) enum Held {
    /// Cells of one type, which isn't `uint8_t`.
    Cells(CellType, Vec<Cell>),
    /// Cells of `uint8_t` by their bytes. All are set; or none is, and then there is one at most.
    Bytes(Vec<u8>, bool),
    /// The object of this number.
    Part(usize),
}

/// A field.
#[derive(Drop)]
pub(crate) struct Field {
    pub(crate) held: Held,
}

impl Model for Field {
    ghost use Rattle.c_meaning.specs.CMemory.{Field as FieldOfMemory};
    ghost use Rattle.c_mem.specs.FieldViews.{field_of, IsHeld};

    ghost Value = { FieldOfMemory };

    ghost view = { λ f. field_of f.held };

    ghost invariant = { λ f. IsHeld f.held };
}

impl Field {
    /// The field that holds the object of this number.
    pub(crate) fn part(object: usize) -> Field
        ensures { result ≡ part object }
    {
        Field {
            held: Held::Part(object),
        }
    }

    /// A field as it is declared: cells are unset, but two bytes or more are 0.
    #[tactic(auto, using(crate::proofs::Bytes::declared_bytes, crate::proofs::Bytes::declared_others))]
    pub(crate) fn new(alloc: Global, decl: FieldDecl) -> Result<Field, NoMemory>
        ensures { IfOk result (λ field. field ≡ declared_field decl) }
    {
        match decl {
            FieldDecl::Cells { ty, count } => {
                if is_byte_type(ty) {
                    Field::zeros(alloc, count)
                } else {
                    Field::unset(alloc, ty, count)
                }
            }
            FieldDecl::Part(object) => Ok(Field::part(object)),
        }
    }

    /// A field of so many bytes that are 0; a single one is unset.
    fn zeros(alloc: Global, count: u32) -> Result<Field, NoMemory>
        ensures { IfOk result (λ field. field ≡ cells u8 (byte_cells (replicate count 0) (nat_lt 1 count))) }
    {
        let them = vec![in alloc; 0; count as usize]?;
        Ok(Field {
            held: Held::Bytes(them, count > 1),
        })
    }

    /// A field of so many unset cells of a type that isn't `uint8_t`.
    #[tactic(auto, using(crate::proofs::Copies::one_more))]
    fn unset(alloc: Global, ty: CellType, count: u32) -> Result<Field, NoMemory>
        requires { is_byte ty ≡ false }
        ensures { IfOk result (λ field. field ≡ cells ty (replicate count unset)) }
    {
        let mut cells = Vec::new(alloc);
        for _ in 0..count {
            cells.push(Cell::Unset)?;
        }
        Ok(Field {
            held: Held::Cells(ty, cells),
        })
    }

    /// The object inside, where the field holds one.
    pub(crate) fn object(&self) -> Option<usize>
        ensures { result ≡ part_of self.now }
    {
        match &self.held {
            Held::Cells(_, _) | Held::Bytes(_, _) => None,
            Held::Part(object) => Some(*object),
        }
    }

    /// The cell with this index, and its type; None where there is none.
    pub(crate) fn cell(&self, index: u64) -> Option<(CellType, Cell)>
        ensures { result ≡ cell_in self.now index }
    {
        match &self.held {
            Held::Cells(ty, cells) => {
                let cell = cells.get(index as usize).copied()?;
                Some((*ty, cell))
            }
            Held::Bytes(them, set) => {
                let byte = them.get(index as usize).copied()?;
                Some((CellType::U8, cell_with(*set, byte)))
            }
            Held::Part(_) => None,
        }
    }

    /// The same where the cell is set.
    pub(crate) fn load(&self, index: u64) -> Option<Cell>
        ensures { result ≡ load_in self.now index }
    {
        match self.cell(index) {
            None | Some((_, Cell::Unset)) => None,
            Some((_, cell)) => Some(cell),
        }
    }

    /// Writes the cell with this index; None, and the field is as before, where there is none.
    #[tactic(auto, using(crate::proofs::Bytes::writes_byte))]
    pub(crate) fn store(&mut self, index: u64, cell: Cell) -> Option<()>
        requires { FitsField self.old cell }
        ensures { Leaves (stored_in self.old index cell) self.old result self.new }
    {
        match &mut self.held {
            Held::Cells(_, cells) => {
                if index >= cells.len() as u64 {
                    return None;
                }
                cells[index as usize] = cell;
                Some(())
            }
            Held::Bytes(them, set) => {
                if index >= them.len() as u64 {
                    return None;
                }
                them[index as usize] = byte_in(cell);
                *set = true;
                Some(())
            }
            Held::Part(_) => None,
        }
    }

    /// The index so many cells on; None outside the cells and one past them.
    pub(crate) fn offset(&self, index: u64, by: i128) -> Option<u64>
        requires low { negsuc (2 ^ 64) ≤ℤ by }
        requires high { by <ℤ pos (2 ^ 64) }
        ensures { result ≡ moved_index self.now index by }
    {
        match &self.held {
            Held::Cells(_, cells) => moved_within(cells.len() as u64, index, by),
            Held::Bytes(them, _) => moved_within(them.len() as u64, index, by),
            Held::Part(_) => None,
        }
    }

    /// Makes every cell zero, false or null.
    #[tactic(auto, using(crate::proofs::Bytes::zeroes))]
    pub(crate) fn zero(&mut self)
        ensures { self.new ≡ zero_field self.old }
    {
        match &mut self.held {
            Held::Cells(ty, cells) => fill(cells.as_mut_slice(), zero_cell(*ty)),
            Held::Bytes(them, set) => {
                zero_bytes(them.as_mut_slice());
                *set = true;
            }
            Held::Part(_) => {}
        }
    }

    /// Makes every cell unset.
    #[tactic(auto, using(crate::proofs::Bytes::clears))]
    pub(crate) fn clear(&mut self)
        requires { IsSmall self.old }
        ensures { self.new ≡ unset_field self.old }
    {
        match &mut self.held {
            Held::Cells(_, cells) => fill(cells.as_mut_slice(), Cell::Unset),
            Held::Bytes(_, set) => *set = false,
            Held::Part(_) => {}
        }
    }

    /// Whether the field has bytes, all set.
    #[tactic(auto, using(crate::proofs::Bytes::all_set, crate::proofs::Bytes::none_set))]
    pub(crate) fn has_bytes(&self) -> bool
        ensures { result ≡ are_bytes self.now }
    {
        match &self.held {
            Held::Bytes(them, set) => *set || them.is_empty(),
            Held::Cells(_, _) | Held::Part(_) => false,
        }
    }

    /// Trades the field's bytes for others.
    #[tactic(auto, using(crate::proofs::Bytes::set_bytes))]
    pub(crate) fn swap_bytes(&mut self, bytes: &mut Vec<u8>)
        requires { are_bytes self.old ≡ true }
        ensures now { self.new ≡ cells u8 (map num bytes.old.items) }
        ensures was { self.old ≡ cells u8 (map num bytes.new.items) }
    {
        match &mut self.held {
            Held::Bytes(them, set) => {
                std::mem::swap(them, bytes);
                *set = true;
            }
            Held::Cells(_, _) => {}
            Held::Part(_) => {}
        }
    }
}

/// Whether cells of a type are bytes.
fn is_byte_type(ty: CellType) -> bool
    ensures { result ≡ is_byte ty }
{
    match ty {
        CellType::U8 => true,
        CellType::U16 | CellType::U32 | CellType::U64 | CellType::Flag | CellType::Pointer => false,
    }
}

/// The cell that a byte stands for.
fn cell_with(set: bool, byte: u8) -> Cell
    ensures { result ≡ byte_cell set byte }
{
    if set {
        Cell::Num(byte as u64)
    } else {
        Cell::Unset
    }
}

/// The byte that a cell holds.
fn byte_in(cell: Cell) -> u8
    requires { IsByte cell }
    ensures { num result ≡ cell }
{
    match cell {
        Cell::Num(n) => n as u8,
        Cell::Null | Cell::At(_) | Cell::Unset => 0,
    }
}

/// An index moved by so many of `most` cells; None outside these and one past them.
fn moved_within(most: u64, index: u64, by: i128) -> Option<u64>
    requires low { negsuc (2 ^ 64) ≤ℤ by }
    requires high { by <ℤ pos (2 ^ 64) }
    ensures { result ≡ within most (pos index +ℤ by) }
{
    let moved = index as i128 + by;
    if moved < 0 || moved > most as i128 {
        return None;
    }
    Some(moved as u64)
}

/// Makes every cell this one.
fn fill(cells: &mut [Cell], it: Cell)
    ensures { cells.new ≡ map (λ _. it) cells.old }
{
    for cell in cells.iter_mut() {
        *cell = it;
    }
}

/// Makes every byte 0.
fn zero_bytes(them: &mut [u8])
    ensures { them.new ≡ map (λ _. 0) them.old }
{
    for byte in them.iter_mut() {
        *byte = 0;
    }
}

/// The cell of a type that is zero, false or null.
fn zero_cell(ty: CellType) -> Cell
    ensures { result ≡ zeroed_cell ty }
{
    match ty {
        CellType::Pointer => Cell::Null,
        CellType::U8 | CellType::U16 | CellType::U32 | CellType::U64 | CellType::Flag => Cell::Num(
            0,
        ),
    }
}

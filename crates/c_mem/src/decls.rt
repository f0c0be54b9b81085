// What a memory is made of.

use c_meaning::cells::CellType;

/// A field of an object.
#[derive(Clone, Copy)]
pub enum FieldDecl {
    /// So many cells of a type.
    Cells {
        /// The type of each.
        ty: CellType,
        /// How many there are.
        count: u32,
    },
    /// The object of this number, which is inside the one that has the field.
    Part(usize),
}

/// An object: its fields in order.
#[derive(Drop)]
pub struct ObjDecl {
    /// The fields.
    pub fields: Vec<FieldDecl>,
}

// The values of C as a machine holds them: numbers and pointers (ISO/IEC 9899:1999, 6.2.5).

use wf_num::CTy;

/// A number of `int`, `unsigned int` or `unsigned long long`, by its bits. Numbers of narrower types don't stand here,
/// since every use of one promotes it to int (6.3.1.1p2).
#[derive(Clone, Copy)]
pub struct Number {
    /// The type.
    pub ty: CTy,
    /// The bits that carry the value.
    pub bits: u64,
}

/// A pointer names a cell: an object, one of its fields and a cell of that field. One to a whole object of a struct has
/// field 0 and index 0 (6.2.5p20, 6.5.6).
#[derive(Clone, Copy)]
pub struct Pointer {
    /// The object.
    pub object: usize,
    /// The field of the object.
    pub field: usize,
    /// The cell of the field, from 0.
    pub index: u64,
}

/// A value: a number, or a pointer, which may be null (6.2.5).
#[derive(Clone, Copy)]
pub enum CValue {
    /// A number.
    Numeric(Number),
    /// A pointer to a cell.
    Address(Pointer),
    /// A null pointer (6.3.2.3p3).
    NullPointer,
}

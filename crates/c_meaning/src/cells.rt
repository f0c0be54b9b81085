// The cells of memory as a machine holds them (ISO/IEC 9899:1999, 6.2.6).

use crate::values::Pointer;

/// What the cells of a field hold. `uint64_t` and `size_t` are one kind of cell, and so are `uint8_t` and the bytes of
/// a string (6.2.5).
#[derive(Clone, Copy)]
pub enum CellType {
    /// `uint8_t`
    U8,
    /// `uint16_t`
    U16,
    /// `uint32_t`
    U32,
    /// `uint64_t` and `size_t`
    U64,
    /// `_Bool`
    Flag,
    /// A pointer.
    Pointer,
}

/// A cell: a number, null, a pointer, or unset (6.2.6.1, 6.3.2.3p3).
#[derive(Clone, Copy)]
pub enum Cell {
    /// A number of the cell's type.
    Num(u64),
    /// A null pointer.
    Null,
    /// A pointer.
    At(Pointer),
    /// Nothing that was ever assigned.
    Unset,
}

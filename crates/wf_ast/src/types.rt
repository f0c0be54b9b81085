// The types of the language.

use wf_base::Width;
use wf_text::StructId;

/// The type of an expression, a local, an argument, a field or a result. A number's type tells the least and the
/// greatest number that it holds; an array's tells these of its elements, and how many elements it has.
#[derive(Clone, Copy, PartialEq, Eq)]
pub enum Ty {
    Num {
        width: Width,
        lo: u64,
        hi: u64,
    },
    /// `base.bool`
    Flag,
    /// `base.status`
    Status,
    /// `base.io_reader`
    Reader,
    /// `base.io_writer`
    Writer,
    /// A slice of numbers that hold every number of the width.
    Slice(Width),
    Array {
        width: Width,
        lo: u64,
        hi: u64,
        len: u32,
    },
    /// A struct of the package.
    Part(StructId),
}

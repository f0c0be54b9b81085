//! The numbers that the checker and the machine for C rest on: ranges of whole numbers with the range of each operator
//! of the language, and the arithmetic of C's types. Nothing here takes memory.
#![tactic(auto)]

mod c_arithmetic;
mod ranges;
mod spans;
pub mod trials;

pub use c_arithmetic::{CTy, c_add, c_div, c_mul, c_rem, c_shl, c_shr, c_sub};
pub use ranges::Range;

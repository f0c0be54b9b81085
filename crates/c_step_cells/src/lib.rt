//! How many parameters and locals can stand at once while a host's call of a C text runs: the greatest number along a chain of
//! calls that begins at an external function. A function calls only functions before it in the text (ISO/IEC 9899:1999,
//! 6.2.1), so they are gone through once, in its order.
#![tactic(auto)]

mod called;
mod chains;
mod depths;

pub use chains::frame_cells;

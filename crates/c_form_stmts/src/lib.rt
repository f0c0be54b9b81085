//! The statements of a C function (ISO/IEC 9899:1999, 6.8): types of what is assigned, passed and returned, labels,
//! cases and calls, exactly as the unit form has them. A body's statements are listed in the order of the text, so that
//! nothing here goes as deep as they nest.
#![tactic(auto)]

pub mod calls;
mod cases;
pub mod functions;
mod labels;
mod lines;
mod statements;

pub use calls::is_library;
pub use functions::{Parts, is_formed_function};

//! Names of a C text in tables, and the types of its forms by those of their parts (ISO/IEC 9899:1999, 6.2.1, 6.5),
//! exactly as `CTypes` has them. A name of a unit is looked up by its number there, in a `NameTable`; a `SpellingTable` looks
//! names up by their bytes.
#![tactic(auto)]

mod callable;
mod exprs;
pub mod front;
mod operators;
mod parts;
pub mod scope;
pub mod spellings;
pub mod tables;
pub mod types;

pub use front::{Front, Head};
pub use scope::CScope;
pub use spellings::SpellingTable;
pub use tables::NameTable;
pub use types::{ExprType, Held, Target};

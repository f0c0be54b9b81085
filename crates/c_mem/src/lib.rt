//! The memory of a machine for C (ISO/IEC 9899:1999, 6.2.4, 6.5.2, 6.5.6, 7.21): objects, their fields, and the cells of
//! these, each reached by its numbers in constant time. Contracts see the memory of `CMemory`. Where that leaves a step
//! undefined the answer is None, and the memory is as before. Only `Mem::reserve` and `Object::new` take memory. Cells of
//! `uint8_t` are kept by their bytes, which an object can trade for others at once.
#![tactic(auto)]

mod decls;
mod fields;
mod mem;
mod moving;
mod objects;
mod zeroing;

pub use decls::{FieldDecl, ObjDecl};
pub use mem::Mem;
pub use objects::Object;

//! A host's public calls of a text of C: the buffers and the bytes that the arguments name are lent to memory, the function is
//! called, and what it has left is taken back. What they answer is of the kind of the method's answer. No memory is taken.
#![tactic(auto)]

pub mod calling;
mod ends;
pub mod laws;
mod passing;
pub mod room;

pub use calling::{Called, TextCode, call_on_host, init_receiver};
pub use room::{Room, Spares};

//! What a host's call puts in a machine's memory and takes back from it: the io buffers and the bytes that the arguments
//! name, and the values that stand for the arguments. The bytes themselves are traded, not copied, and no memory is taken.
#![tactic(auto)]

pub mod givens;
pub mod ios;
pub mod leaving;
pub mod lending;
mod spares;
pub mod taking;

// From the bytes of a package's files to its tree. The tokens of each file are read by the machine of the grammar:
// what is still wanted stands on one stack, what is made of the tokens on another.
#![tactic(auto)]

pub mod forms;
pub mod laws;
mod lexing;
pub mod machine;
pub mod parsing;
mod recent;
mod token_kinds;

pub use parsing::parse;

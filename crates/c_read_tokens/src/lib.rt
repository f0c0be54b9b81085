// The tokens of a C text: the three lines that it begins with, and the token that stands at the front of bytes, with
// what stands after it.
#![tactic(auto)]

pub mod headers;
pub mod kinds;
pub mod lexing;
mod numbers;
pub mod operators;
pub mod runs;
mod symbols;
mod words;

pub use headers::behind_lines;
pub use kinds::Kind;
pub use lexing::first_piece;
pub use operators::repeats;
pub use runs::gap_len;

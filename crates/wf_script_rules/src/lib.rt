// The rules of scripts: lines and words, what a line is by what the lines before it declared, and the report of a
// script by what is seen of its host actions. The code here reads words; what is above it reads lines.
#![tactic(auto)]

pub mod faults;
pub mod rules;
pub mod text;
pub mod words;

pub use faults::LineFault;
pub use rules::{Thing, Verb, XRule};
pub use text::{Lines, Words};

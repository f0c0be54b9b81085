// How deep brackets stand inside one another, from the files of a package to its text in C. Laws alone, on functions that do nothing.
#![tactic(auto)]

pub mod examples;
pub mod laws;

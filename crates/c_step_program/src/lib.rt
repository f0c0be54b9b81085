//! The code of a whole program of C (ISO/IEC 9899:1999, 6.9): what a loader puts down, and that each function stands in it
//! under its number.
#![tactic(auto)]

pub mod laws;

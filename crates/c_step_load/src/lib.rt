//! A unit of C that has the unit form as the program that a machine runs: its code, with each function under its number,
//! exactly as `Programs` has it, and what calls of its functions are made of. The work takes time in proportion to the
//! text, and nothing calls itself but for expressions, whose brackets bound it.
#![tactic(auto)]

mod frames;
mod functions;
mod initials;
pub mod laws;
mod loading;
pub mod numbered;
pub mod programs;

pub use laws::names_are_alike;
pub use numbered::Numbered;
pub use programs::{Program, load};

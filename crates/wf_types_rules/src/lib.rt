// The rules of types and effects over resolved packages, as definitions: what a package breaks and where, and the
// first refusal. The notions that code shares with them are types of this crate.
#![tactic(auto)]

pub mod examples;
pub mod laws;
pub mod meanings;
pub mod settings;

pub use meanings::{Bound, Constant, Meaning, MethodType, Operand, PlacedMeaning};
pub use settings::{Around, Form, Role, Setting};

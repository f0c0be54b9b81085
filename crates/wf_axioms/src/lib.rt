// The axioms: comparisons that are given where their premises are.
#![tactic(auto)]

mod asked;
mod asking;
mod axioms;
mod binding;
mod finding;
mod given;
pub mod laws;
mod matching;

pub use asked::Premises;
pub use asking::premises;
pub use axioms::Axiom;
pub use finding::axiom;

// The phase of bounds: a typed package goes through the rules of facts, method by method, and then has its points numbered.
#![tactic(auto)]

pub mod accepted;
mod branching;
mod conditions;
mod deciding;
mod looking;
mod looping;
mod methods;
mod passing;
mod starting;
mod walking;
mod walks;
mod ways;

pub use accepted::Accepted;
pub use deciding::check;
pub use looking::facts_at;

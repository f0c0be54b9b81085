// The resolved package of a parsed one: its declarations with their names and types, each where its own scope is known.
#![tactic(auto)]

mod adding;
pub mod declarations;
pub mod laws;
pub mod packages;
mod variables;

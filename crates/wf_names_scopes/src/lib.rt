// What is known of a package and at a place in it: the tables of its declarations and scopes, which tell what the
// declarations mean, and the walk over every use of a name by them, which makes the graph of the calls of its methods.
#![tactic(auto)]

mod declared_uses;
pub mod laws;
mod numbers;
pub mod scopes;
pub mod tables;
pub mod uses;
mod variables;
pub mod written;

// The meaning of a package: what remains of a coroutine at each point where it may suspend, the steps of the
// source, public entry, and what a host sees of a list of actions. The meaning stands in specs/; the functions
// here are its laws.
#![tactic(auto)]

pub mod examples;
pub mod laws;

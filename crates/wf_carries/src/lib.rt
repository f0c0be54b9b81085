// What it means that a C text carries a package, and that the meanings of both agree on worked examples.
#![tactic(auto)]

pub mod examples;
pub mod laws;

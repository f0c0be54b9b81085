// That a package is never stuck: laws alone, on functions that do nothing.
#![tactic(auto)]

pub mod examples;
pub mod laws;

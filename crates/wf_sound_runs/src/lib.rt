// That a package which the rules of facts accept is never stuck: laws alone, on functions that do nothing.
#![tactic(auto)]

pub mod examples;
pub mod laws;

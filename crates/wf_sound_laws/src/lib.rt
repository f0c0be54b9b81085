// That what the rules of names, types and bounds accept is never stuck: laws alone, on functions that do nothing.
#![tactic(auto)]

pub mod laws;

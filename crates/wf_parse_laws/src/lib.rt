// That reading has an answer: laws alone, on functions that do nothing.
#![tactic(auto)]

pub mod laws;

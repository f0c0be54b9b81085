// That the rules of names have an answer: laws alone, on functions that do nothing.
#![tactic(auto)]

pub mod laws;

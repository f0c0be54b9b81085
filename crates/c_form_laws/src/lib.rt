// That the unit form is the one of its rules: laws alone, on functions that do nothing.
#![tactic(auto)]

pub mod laws;

// The names and texts of a package as its C text spells them. Laws alone, on functions that do nothing.
#![tactic(auto)]

pub mod laws;

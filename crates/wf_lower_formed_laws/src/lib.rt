// What holds of the C text of every accepted package. Laws alone, on functions that do nothing.
#![tactic(auto)]

pub mod laws;

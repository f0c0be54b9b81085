// What the rules of names keep of the sizes of typed packages. Laws alone, on functions that do nothing.
#![tactic(auto)]

pub mod examples;
pub mod laws;

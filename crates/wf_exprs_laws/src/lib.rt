// The law of expressions: what an expression of the source becomes in C has the source's value.
#![tactic(auto)]

pub mod laws;

// The lengths of arrays and the sizes of structs, by the values of constant expressions.
#![tactic(auto)]

mod arrays;
pub mod chains;
mod constants;
pub mod environment;
pub mod holding;
pub mod large;
pub mod laws;
pub mod numbers;
pub mod parts;
pub mod setting;
mod struct_sizes;
pub mod tables;
mod values;

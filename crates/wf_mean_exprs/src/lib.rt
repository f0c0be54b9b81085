// The ground of the source's machine: its state as plain data, and the values of expressions in it, exactly as the source's
// meaning has them. Nothing here takes memory.
#![tactic(auto)]

mod arithmetic;
mod asking;
pub mod conditions;
pub mod evaluating;
pub mod locals;
pub mod numbers;
pub mod objects;
pub mod reading;
pub mod values;

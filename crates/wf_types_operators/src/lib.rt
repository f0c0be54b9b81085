// What operators take and give, worked out: each function answers what a definition of the rules of types says of
// meanings and operands.
#![tactic(auto)]

pub mod fitting;
pub mod given;
pub mod meanings;
pub mod taken;
mod values;
mod widths;

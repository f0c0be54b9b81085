// The rules of types and effects on expressions, types and calls: one walk finds the first refusal among all their
// parts, and what they mean. Each expression is visited once.
#![tactic(auto)]

pub mod found;
pub mod here;
pub mod operands;
pub mod parts;
pub mod reading;
mod types;
pub mod walk;
pub mod whole;

pub use here::Here;

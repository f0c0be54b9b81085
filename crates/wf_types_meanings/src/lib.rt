// What names, types and calls mean to the rules of types, worked out: each function answers what a definition says of
// meanings, types and settings.
#![tactic(auto)]

pub mod arguments;
pub mod calls;
pub mod marks;
pub mod places;
pub mod types;
pub mod values;
pub mod variables;

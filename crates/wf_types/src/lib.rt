// The phase of types: a resolved package is refused by the rules of types and effects, or becomes its typed tree.
#![tactic(auto)]

pub mod bodies;
mod declared;
mod declaring;
mod locals;
mod texts;
pub mod typing;

// The phase of names: a parsed package is refused by the rules of names, or its names are resolved.
#![tactic(auto)]

pub mod findings;
pub mod resolving;

// What the uses of names in a package break: the first refusal of all that the table of the rules of names
// has of them.
#![tactic(auto)]

pub mod examples;
pub mod laws;

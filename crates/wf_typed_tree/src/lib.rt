// The typed tree that a resolved package stands for, as a definition: a function over trees. wf_types makes it.
#![tactic(auto)]

pub mod examples;
pub mod laws;

// Of the C text of a package: where its jumps lead, how many loops, labels, cases, names and brackets it has, and what of the unit
// form it keeps; and worked examples of what the laws of expressions suppose. Laws alone, on functions that do nothing.
#![tactic(auto)]

pub mod examples;
pub mod laws;

// Which structs hold themselves and which methods can reach themselves by calls: the rule N4 of names, over the
// graphs of the structs and of the methods of a parsed package.
#![tactic(auto)]

pub mod cycles_found;
pub mod laws;

// What the numbers in a resolved package stand for: each has the number of the one declaration that its name means by scoping.
#![tactic(auto)]

pub mod laws;

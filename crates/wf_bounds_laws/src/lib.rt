// What the rules of bounds and of suspension points refuse of a resolved package, and its laws: it is what they refuse of the
// package's typed nodes, in whatever order the methods are told, and it stands in one of the package's files.
#![tactic(auto)]

pub mod refusals;

// Where no rule of names is broken the resolved package is well named, and an order of the graph of calls is one of the
// package. Resolving keeps the form that the grammar gives, and the order of statements.
#![tactic(auto)]

pub mod forms;
pub mod orders;
pub mod well_named;

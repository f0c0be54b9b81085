// What holds of every package that is read: the files in which its parts stand, the order of its statements, and that
// it resolves to a package as the grammar gives.
#![tactic(auto)]

pub mod examples;
pub mod form;
pub mod order;
pub mod places;
pub mod type_places;

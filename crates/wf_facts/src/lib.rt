// What is known at a place of a method: a list of facts, with the sets of those that mention a local, a field, an
// argument, an element or a slice.
#![tactic(auto)]

mod adding;
mod changes;
mod changing;
mod conditions;
mod dropping;
pub mod examples;
mod forms;
mod indexed;
pub mod laws;
mod list;
mod marking;
mod mentioning;
mod sameness;

pub use adding::Full;
pub use changes::Change;
pub use list::Facts;

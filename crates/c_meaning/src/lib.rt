// The meaning of C: values and memory, the steps of a function's body, calls within a number of turns, the unit form,
// and what is seen of a text when a host performs a list of actions. All of it is definitions in specs/, over the values
// and cells that a machine holds; the functions here do nothing, and their contracts are the laws and the examples.
#![tactic(auto)]

pub mod cells;
pub mod examples;
pub mod laws;
pub mod values;

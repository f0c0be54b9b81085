// Graphs over numbers, each walked once: an order in which each number stands after those that it goes to, and the
// numbers that have a way back to themselves.
#![tactic(auto)]

pub mod cycles;
mod labels;
pub mod laws;
pub mod rows;
mod turned;
mod walk;

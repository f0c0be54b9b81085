// The loop rules: what the promises `pre`, `inv` and `post` of a loop ask where it is entered, on each way back, where
// its condition ends it and at each `break`; and the facts that stand at its head and after it.
#![tactic(auto)]

mod asking;
pub mod examples;
pub mod laws;
mod lists;
mod loops;
pub mod moments;

pub use asking::{at_break, at_exit, enter, way_back};
pub use lists::{add, after_facts, head_facts};
pub use loops::{head_of, is_word_true, place_of};

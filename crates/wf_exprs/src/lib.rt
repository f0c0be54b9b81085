// Expressions of the source as expressions of C: the definition, with worked examples, and what makes them in a unit: names, nodes,
// operators, and what a method's expressions name.
#![tactic(auto)]

mod alike;
pub mod examples;
pub mod names;
pub mod nodes;
mod ors;
pub mod overlaps;
pub mod rated;
pub mod scope;

pub use rated::{Pair, Rated};
pub use scope::{BodyNames, Path};

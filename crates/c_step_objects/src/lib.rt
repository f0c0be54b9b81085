//! What a machine for a text of C begins with: the objects of the text's strings and those of the receivers with the objects
//! inside them, all zero; and what is kept for a host's calls, so that these take no memory. The work takes time in proportion
//! to the text, to the package's public surface and to the objects.
#![tactic(auto)]

mod names;
mod objects;
mod receivers;
mod rooms;
mod shapes;
pub mod starting;
mod texts;
mod types;

pub use starting::{Started, start};

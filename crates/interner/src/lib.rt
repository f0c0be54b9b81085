// A table of texts without repeats, in which a text is looked up by its bytes.
#![tactic(auto)]

mod places;
pub mod table;
mod texts;

pub use table::{Interner, digest};

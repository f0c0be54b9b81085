// The reader of C text: from bytes to the tree of a unit. The tokens are read by the machine of the grammar: what is
// still wanted stands on one stack, what is made of the tokens on another.
#![tactic(auto)]

pub mod faults;
pub mod laws;
pub mod machine;
pub mod reading;

pub use faults::ReadFault;
pub use laws::{every_text_is_read_back, what_is_printed_is_read_back};
pub use reading::read;

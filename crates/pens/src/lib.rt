// Writing a text into a sink, in pieces of at most 4,096 bytes and without memory.
#![tactic(auto)]

pub mod writing;

pub use writing::{Pen, SinkPen};

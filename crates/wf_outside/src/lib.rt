// The outside: where a program's bytes come from and where they go. Two traits say what an input and a sink
// promise; four types in memory keep the promise exactly, and two adapters reach real files and standard
// output, of whose contents nothing is told.
#![tactic(auto)]

mod entries;
pub mod file_inputs;
pub mod inputs;
pub mod mem_inputs;
pub mod mem_sink;
pub mod pure_inputs;
pub mod pure_sink;
pub mod sinks;
pub mod std_sink;

pub use file_inputs::FileInputs;
pub use inputs::{Inputs, TakeFault};
pub use mem_inputs::MemInputs;
pub use mem_sink::MemSink;
pub use pure_inputs::PureInputs;
pub use pure_sink::PureSink;
pub use sinks::{Sink, SinkFault};
pub use std_sink::StdSink;

// From an accepted package to the C text that carries it: the definition, with worked examples, and the code that makes the text.
#![tactic(auto, using(wf_exprs::proofs::Growing::grows_on))]

pub mod agreement;
mod bodies;
mod called;
mod coroutines;
mod declaring;
mod entries;
pub mod examples;
mod flags;
mod initializing;
mod locals;
mod lowering;
mod shared;
mod source;
mod structs;

pub use lowering::lower;

// What statements of the source are as statements of C: the definition with the laws of labels, and what stands round every
// statement: the body's names, points and kept locals, statements of C, the places of buffers, what a coroutine keeps, and targets.
#![tactic(auto, using(wf_exprs::proofs::Growing::grows_on))]

pub mod body;
pub mod code;
pub mod keeping;
pub mod laws;
pub mod places;
pub mod spelling;
pub mod targets;
pub mod walks;

pub use body::Body;

//! A text of C as an engine (wf_bufs): its state, what its inits and calls give, and that what is seen of such an engine is
//! what is seen of the text by the meaning of C. Calls of functions by a host, and what they answer.
#![tactic(auto)]

pub mod answers;
pub mod hosts;
pub mod inits;
pub mod laws;

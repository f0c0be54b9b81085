// The source's machine runs whole bodies, and the calls of methods in them, exactly as the source's meaning has them. Nothing here
// takes memory: the frame in which a method's body runs is made once.
#![tactic(auto)]

mod answering;
mod awaits;
pub mod calls;
mod keeping;
mod picking;
pub mod running;
mod seeking;

//! The rules of facts, statement by statement, and the code of single statements.
#![tactic(auto)]

mod answers;
mod asserting;
mod assigning;
mod awaiting;
mod base_calls;
mod calling;
mod calls;
mod copying;
pub mod examples;
mod fast_calls;
mod handed;
mod interrupting;
pub mod laws;
mod limits;
mod passing;
mod places;
mod returning;
mod stepping;
mod targets;

pub use passing::pass;

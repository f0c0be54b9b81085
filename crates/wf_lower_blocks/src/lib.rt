// Statements and blocks of the source as statements of C.
#![tactic(auto, using(wf_exprs::proofs::Growing::grows_on))]

mod any;
mod awaiting;
mod blocks;
mod calling;
pub mod ending;
mod performing;
mod returning;
mod statements;

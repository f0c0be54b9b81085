// The engine that executes an accepted package's source: `SourceEngine::load` takes all its memory, and its inits and calls are the
// source's meaning.
#![tactic(auto)]

mod answers;
mod arguments;
mod engine;
mod fresh;
pub mod laws;
mod machine;
mod receivers;
mod sizes;

pub use engine::SourceEngine;

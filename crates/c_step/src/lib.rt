//! The machine that executes a text of C, as an engine (wf_bufs), and what loads texts into engines.
#![tactic(auto)]

pub mod c_machine;
mod known;
pub mod loader;
mod loading;
pub mod machine;
mod surface_copies;
pub mod zero_loader;

pub use c_machine::CMachine;
pub use loader::Loader;
pub use zero_loader::ZeroLoader;

// What the statements of a body do that runs in the source's machine, loops and branches apart: writes, base calls, the
// arguments of calls, and the entry table, exactly as the source's meaning has them. Nothing here takes memory.
#![tactic(auto)]

pub mod any;
pub mod arguments;
pub mod awaiting;
pub mod base_calls;
mod bytes;
mod copying;
pub mod entry;
mod performing;
pub mod stage;
mod storing;
pub mod targets;

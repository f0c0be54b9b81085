// What drives a machine, and what it is driven on: buffers as a host holds them, its calls and what they answer,
// and the trait under which one script drives the machine of the source or that of the C text.
#![tactic(auto)]

pub mod actions;
pub mod buffers;
pub mod bufs;
pub mod calls;
pub mod engine;
pub mod outcomes;
pub mod surfaces;
pub mod zero_engine;

pub use actions::{Action, Saw, perform};
pub use buffers::Buf;
pub use bufs::{BufList, Bufs, ByteArray, ByteArrays};
pub use calls::{Arg, BoundedCall, Call, ReceiverDecl};
pub use engine::Engine;
pub use outcomes::{Outcome, Reply};
pub use surfaces::{AnswerKind, ArgDecl, ArgKind, MethodDecl, PublicSurface, StructDecl};
pub use zero_engine::ZeroEngine;

//! What a machine keeps of a package's public structs and methods: the numbers of their functions among those of a C text.
#![tactic(auto)]

pub mod tables;

pub use tables::{MethodEntry, StructEntry, struct_entry};

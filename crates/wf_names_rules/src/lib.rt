// The rules of names: their table, and the passes and walks over parts of a package. What each rule asks stands as
// definitions over the mathematical tree; each pass of this crate is exact against its part of them.
#![tactic(auto)]

mod arguments;
pub mod callees;
pub mod here;
mod labels;
pub mod laws;
pub mod lists;
mod reserved;
pub mod seen;
pub mod sorts;
pub mod tables;
pub mod types;
pub mod walk_exprs;
pub mod walk_stmts;

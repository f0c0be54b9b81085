// The table of the machine of the C grammar as code: for each symbol that is wanted, what the next token does to it.
#![tactic(auto)]

pub mod moves;
pub mod table;
mod table_exprs;
mod table_items;
mod table_stmts;
mod table_tokens;
mod table_types;
pub mod wants;

pub use moves::Move;
pub use table::{may_end, move_of};
pub use wants::Wants;

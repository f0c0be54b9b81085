// The grammar of the language and its machine. The grammar (in specs/) is a set of inductive types, one
// constructor for each production, each object with the tokens that it spells and the tree that it means.
// The machine (in specs/ too) is the stack of what is still open, with one table that says what the next token
// does to it. The laws that tie the two together stand in proofs/. The code here is the tokens, the symbols and the
// table.
#![tactic(auto)]

pub mod builds;
pub mod laws;
pub mod symbols;
pub mod table;
mod table_decls;
mod table_exprs;
mod table_loops;
mod table_stmts;
mod table_tokens;
mod table_types;
pub mod tokens;
pub mod wants;

pub use builds::Build;
pub use symbols::{Action, Sym, Want};
pub use tokens::{Kind, Token};
pub use wants::{Lead, Wants};

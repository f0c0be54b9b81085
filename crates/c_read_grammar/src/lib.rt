// The machine that reads the C grammar: the stack of what is still wanted, one table that says what the next token
// does to its top, and what is done with the values read so far. The definitions stand in specs/, and the laws that
// tie the machine to the grammar in proofs/. The code here is the symbols and actions.
#![tactic(auto)]

pub mod actions;
pub mod laws;
pub mod symbols;

pub use actions::{Action, ExprAction, ItemAction, StmtAction, TypeAction, Want};
pub use laws::{
    bytes_have_one_outcome, bytes_have_one_spelling, bytes_have_one_tree, every_text_is_read,
    tokens_have_one_tree, what_ends_too_early_is_no_text, what_is_read_begins_a_text,
    what_is_read_is_a_text, what_is_refused_goes_on_in_no_text,
};
pub use symbols::{ExprSym, ItemSym, StmtSym, Sym, TokenSym};

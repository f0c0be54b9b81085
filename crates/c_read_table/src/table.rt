// The table of the grammar's machine: for each symbol, what the next token does to it.

ghost use Rattle.std.specs.Prelude.{◌≡◌};
ghost use Rattle.c_read_grammar.specs.Machine.{move, may_end};
ghost use Rattle.c_read_tokens.specs.Kinds.{bare};
ghost use Rattle.c_read_table.specs.Moves.{seen};

use crate::moves::Move;
use crate::{table_exprs, table_items, table_stmts, table_tokens};
use c_read_grammar::{ItemSym, Sym};
use c_read_tokens::Kind;

/// What a token of this kind does to `symbol` on top of the stack.
pub fn move_of(symbol: Sym, kind: Kind) -> Move
    ensures { seen result ≡ move symbol (bare kind) }
{
    match symbol {
        Sym::Expr(symbol) => table_exprs::expr_sym(symbol, kind),
        Sym::Stmt(symbol) => table_stmts::stmt_sym(symbol, kind),
        Sym::Item(symbol) => table_items::item_sym(symbol, kind),
        Sym::Token(symbol) => table_tokens::token(symbol, kind),
    }
}

/// Whether `symbol` may be wanted at the end of a text.
pub fn may_end(symbol: Sym) -> bool
    ensures { result ≡ may_end symbol }
{
    match symbol {
        Sym::Item(ItemSym::Unit) => true,
        _ => false,
    }
}

// What a token does to a single token that is wanted.

ghost use Rattle.std.specs.Prelude.{◌≡◌};
ghost use Rattle.c_read_grammar.specs.Machine.{name_move, number_move, quoted_move, struct_move, char_move, star_move, maybe_star_move, mark_move, token_move};
ghost use Rattle.c_read_tokens.specs.Kinds.{bare};
ghost use Rattle.c_read_table.specs.Moves.{seen};

use crate::moves::Move;
use c_read_grammar::Want::Perform;
use c_read_grammar::{Action, TokenSym, TypeAction};
use c_read_tokens::Kind;
use c_text::{CMark, COp, CWord};

// A name.
pub(crate) fn name(kind: Kind) -> Move
    ensures { seen result ≡ name_move (bare kind) }
{
    match kind {
        Kind::Name => Move::done(),
        _ => Move::Stop,
    }
}

// A literal.
pub(crate) fn number(kind: Kind) -> Move
    ensures { seen result ≡ number_move (bare kind) }
{
    match kind {
        Kind::Number(_) => Move::done(),
        _ => Move::Stop,
    }
}

// A string.
pub(crate) fn quoted(kind: Kind) -> Move
    ensures { seen result ≡ quoted_move (bare kind) }
{
    match kind {
        Kind::Text => Move::done(),
        _ => Move::Stop,
    }
}

// `struct`
pub(crate) fn struct_word(kind: Kind) -> Move
    ensures { seen result ≡ struct_move (bare kind) }
{
    match kind {
        Kind::Keyword(CWord::Struct) => Move::done(),
        _ => Move::Stop,
    }
}

// `char`
pub(crate) fn char_word(kind: Kind) -> Move
    ensures { seen result ≡ char_move (bare kind) }
{
    match kind {
        Kind::Keyword(CWord::Char) => Move::done(),
        _ => Move::Stop,
    }
}

// `*`
pub(crate) fn star(kind: Kind) -> Move
    ensures { seen result ≡ star_move (bare kind) }
{
    match kind {
        Kind::Operator(COp::Mul) => Move::done(),
        _ => Move::Stop,
    }
}

// `*`, or nothing.
pub(crate) fn maybe_star(kind: Kind) -> Move
    ensures { seen result ≡ maybe_star_move (bare kind) }
{
    match kind {
        Kind::Operator(COp::Mul) => Move::take(&[Perform(Action::Type(
            TypeAction::MakeUintPointer,
        ))]),
        _ => Move::Pass,
    }
}

// This mark.
pub(crate) fn this_mark(mark: CMark, kind: Kind) -> Move
    ensures { seen result ≡ mark_move mark (bare kind) }
{
    match kind {
        Kind::Mark(other) if mark == other => Move::done(),
        _ => Move::Stop,
    }
}

// What `kind` does to a single token that is wanted.
pub(crate) fn token(symbol: TokenSym, kind: Kind) -> Move
    ensures { seen result ≡ token_move symbol (bare kind) }
{
    match symbol {
        TokenSym::Name => name(kind),
        TokenSym::Number => number(kind),
        TokenSym::Quoted => quoted(kind),
        TokenSym::StructWord => struct_word(kind),
        TokenSym::CharWord => char_word(kind),
        TokenSym::Star => star(kind),
        TokenSym::MaybeStar => maybe_star(kind),
        TokenSym::Mark(mark) => this_mark(mark, kind),
    }
}

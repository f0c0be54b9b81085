// What a token does to a type that is wanted.

ghost use Rattle.std.specs.Prelude.{◌≡◌};
ghost use Rattle.c_read_grammar.specs.Machine.{followed, word_type_move, type_move};
ghost use Rattle.c_read_tokens.specs.Kinds.{bare};
ghost use Rattle.c_read_table.specs.Moves.{seen};

use crate::moves::Move;
use crate::wants::After;
use c_read_grammar::Want::{Perform, Read};
use c_read_grammar::{Action, Sym, TokenSym, TypeAction};
use c_read_tokens::Kind;
use c_text::{CUint, CWord};

// A type that begins with a word.
pub(crate) fn word_type(word: CWord, after: After) -> Move
    ensures { seen result ≡ followed (word_type_move word) after }
{
    match word {
        CWord::Uint8 => Move::then(
            &[
                Perform(Action::Type(TypeAction::MakeUint(CUint::U8))),
                Read(Sym::Token(TokenSym::MaybeStar)),
            ],
            after,
        ),
        CWord::Uint16 => Move::then(
            &[
                Perform(Action::Type(TypeAction::MakeUint(CUint::U16))),
                Read(Sym::Token(TokenSym::MaybeStar)),
            ],
            after,
        ),
        CWord::Uint32 => Move::then(
            &[
                Perform(Action::Type(TypeAction::MakeUint(CUint::U32))),
                Read(Sym::Token(TokenSym::MaybeStar)),
            ],
            after,
        ),
        CWord::Uint64 => Move::then(
            &[
                Perform(Action::Type(TypeAction::MakeUint(CUint::U64))),
                Read(Sym::Token(TokenSym::MaybeStar)),
            ],
            after,
        ),
        CWord::SizeT => Move::then(&[Perform(Action::Type(TypeAction::MakeSize))], after),
        CWord::Bool => Move::then(&[Perform(Action::Type(TypeAction::MakeBool))], after),
        CWord::Const => Move::then(
            &[
                Read(Sym::Token(TokenSym::CharWord)),
                Read(Sym::Token(TokenSym::Star)),
                Perform(Action::Type(TypeAction::MakeText)),
            ],
            after,
        ),
        _ => Move::Stop,
    }
}

// A type.
pub(crate) fn any_type(kind: Kind, after: After) -> Move
    ensures { seen result ≡ followed (type_move (bare kind)) after }
{
    match kind {
        Kind::Keyword(word) => word_type(word, after),
        Kind::Name => Move::then(
            &[
                Read(Sym::Token(TokenSym::Star)),
                Perform(Action::Type(TypeAction::MakeStructPointer)),
            ],
            after,
        ),
        _ => Move::Stop,
    }
}

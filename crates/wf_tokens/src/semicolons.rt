// The semicolons that line ends add: after which tokens a statement can end with its line.

ghost use Rattle.std.specs.Prelude.{◌≡◌};
ghost use Rattle.wf_tokens.specs.Spelling.{word_ends_statement, symbol_ends_statement, ends_statement};

use crate::kinds::TokenKind;
use crate::symbols::Symbol;
use crate::words::Word;

/// Whether a line end, or the file's end, adds a semicolon after a token of this kind: after names, numbers,
/// texts, closing brackets, and the words that can end a statement.
pub(crate) fn ends_statement(kind: TokenKind) -> bool
    ensures { result ≡ ends_statement kind }
{
    match kind {
        TokenKind::Name | TokenKind::Number(_) | TokenKind::Text => true,
        TokenKind::Keyword(word) => word_ends_statement(word),
        TokenKind::Symbol(symbol) => symbol_ends_statement(symbol),
    }
}

fn word_ends_statement(word: Word) -> bool
    ensures { result ≡ word_ends_statement word }
{
    match word {
        Word::Args
        | Word::Break
        | Word::Continue
        | Word::Endwhile
        | Word::False
        | Word::Nothing
        | Word::Ok
        | Word::Return
        | Word::Status
        | Word::This
        | Word::True => true,
        _ => false,
    }
}

fn symbol_ends_statement(symbol: Symbol) -> bool
    ensures { result ≡ symbol_ends_statement symbol }
{
    match symbol {
        Symbol::CloseParen | Symbol::CloseBracket | Symbol::CloseBrace => true,
        _ => false,
    }
}

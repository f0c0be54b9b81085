// What a token is.

use crate::symbols::Symbol;
use crate::words::Word;

/// The kind of a token, with the value of a number.
#[derive(Clone, Copy)]
pub enum TokenKind {
    /// A letter or `_`, then letters, digits and `_`; and no word of the language.
    Name,
    /// A number, in decimal, hexadecimal or binary.
    Number(u64),
    /// A text between quotes, on one line.
    Text,
    /// A word of the language.
    Keyword(Word),
    /// A bracket, a punctuation mark or an operator.
    Symbol(Symbol),
}

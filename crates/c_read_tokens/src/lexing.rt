// The first token of bytes.

ghost use Rattle.std.specs.Prelude.{◌≡◌, ◌<◌, true, false, length, IfSome, IfNone};
ghost use Rattle.c_text.specs.CSpelling.{is_word_byte};
ghost use Rattle.c_read_grammar.specs.FirstToken.{Stands, begins, run_token, word_token};
ghost use Rattle.c_read_tokens.specs.Kinds.{token_of};
ghost use Rattle.c_read_tokens.specs.Lexing.{token_in, is_quote, double_from, NoToken, StandsSomehow};
ghost use Rattle.c_read_tokens.specs.Symbols.{symbol_token_of};

use crate::kinds::Kind;
use crate::numbers::literal_of;
use crate::runs::{first_byte, is_digit, is_word_byte, string_len, word_len};
use crate::symbols::{Symbol, symbol_of};
use crate::words::{is_reserved, word_of};

/// A token that bytes begin with, and what stands after it. `text` are the bytes of a name, or those between the quotes
/// of a string.
#[derive(Clone, Copy)]
pub struct Piece<'a> {
    pub kind: Kind,
    pub text: &'a [u8],
    pub rest: &'a [u8],
}

/// The keyword that is spelt so, or a name where none is.
fn word_kind(text: &[u8]) -> Option<Kind>
    ensures { token_in result text.now ≡ word_token text.now }
{
    if !is_reserved(text) {
        return Some(Kind::Name);
    }
    Some(Kind::Keyword(word_of(text)?))
}

/// What a run of letters, digits and `_` is.
fn run_kind(text: &[u8]) -> Option<Kind>
    ensures { token_in result text.now ≡ run_token text.now }
{
    match text.first() {
        Some(first) if is_digit(*first) => Some(Kind::Number(literal_of(text)?)),
        _ => word_kind(text),
    }
}

/// A word, a name or a literal at the front, if it is one of the subset.
fn run_piece(bytes: &[u8]) -> Option<Piece<'_>>
    requires { begins is_word_byte bytes.now ≡ true }
    ensures some { IfSome result (λ p. Stands (token_of p.kind p.text.now) bytes.now p.rest.now) }
    ensures none { IfNone result (NoToken bytes.now) }
{
    let (text, rest) = bytes.split_at(word_len(bytes));
    let kind = run_kind(text)?;
    Some(Piece { kind, text, rest })
}

/// Whether two `?` stand side by side.
fn has_double_question(text: &[u8]) -> bool
    ensures { result ≡ double_from false false text.now }
{
    let mut found = false;
    let mut previous = false;
    for byte in text {
        let question = *byte == b'?';
        found = found || (previous && question);
        previous = question;
    }
    found
}

/// Whether a letter, a digit or `_` stands at the front.
fn begins_with_word(bytes: &[u8]) -> bool
    ensures { result ≡ begins is_word_byte bytes.now }
{
    match bytes.first() {
        Some(byte) => is_word_byte(*byte),
        None => false,
    }
}

/// Whether a quote stands at the front.
fn begins_with_quote(bytes: &[u8]) -> bool
    ensures { result ≡ begins is_quote bytes.now }
{
    match bytes.first() {
        Some(byte) => *byte == b'"',
        None => false,
    }
}

/// A string at the front, if it is one of the subset.
fn string_piece(bytes: &[u8]) -> Option<Piece<'_>>
    requires { begins is_quote bytes.now ≡ true }
    ensures some { IfSome result (λ p. Stands (token_of p.kind p.text.now) bytes.now p.rest.now) }
    ensures none { IfNone result (NoToken bytes.now) }
{
    let (_, inner) = bytes.split_at(1);
    let (text, behind) = inner.split_at(string_len(inner));
    if !begins_with_quote(behind) {
        return None;
    }
    if has_double_question(text) {
        return None;
    }
    let (_, rest) = behind.split_at(1);
    Some(Piece {
        kind: Kind::Text,
        text,
        rest,
    })
}

/// This symbol at the front.
fn symbol_in_front(symbol: Symbol, bytes: &[u8]) -> Option<Piece<'_>>
    requires { StandsSomehow (symbol_token_of symbol) bytes.now }
    ensures some { IfSome result (λ p. Stands (token_of p.kind p.text.now) bytes.now p.rest.now) }
    ensures none { IfNone result ⊥ }
{
    let (_, rest) = bytes.split_at(symbol.len());
    Some(Piece {
        kind: symbol.kind(),
        text: &[],
        rest,
    })
}

/// A symbol at the front, if there is one.
fn symbol_piece(bytes: &[u8]) -> Option<Piece<'_>>
    requires some { 0 < length bytes.now }
    requires run { begins is_word_byte bytes.now ≡ false }
    requires quote { begins is_quote bytes.now ≡ false }
    ensures some { IfSome result (λ p. Stands (token_of p.kind p.text.now) bytes.now p.rest.now) }
    ensures none { IfNone result (NoToken bytes.now) }
{
    let first = first_byte(bytes);
    let (_, others) = bytes.split_at(1);
    symbol_in_front(symbol_of(first, others)?, bytes)
}

/// The token that bytes without a gap before it begin with; none where no token of the subset stands there.
pub fn first_piece(bytes: &[u8]) -> Option<Piece<'_>>
    requires { 0 < length bytes.now }
    ensures some { IfSome result (λ p. Stands (token_of p.kind p.text.now) bytes.now p.rest.now) }
    ensures none { IfNone result (NoToken bytes.now) }
{
    if begins_with_word(bytes) {
        return run_piece(bytes);
    }
    if begins_with_quote(bytes) {
        return string_piece(bytes);
    }
    symbol_piece(bytes)
}

// Pieces: the bytes of one token, the longest that can stand at the front.

ghost use Rattle.std.specs.Prelude.{◌≡◌, ◌<◌, true, false, IfOk, IfErr};
ghost use Rattle.std.specs.List.{list_all};
ghost use Rattle.wf_tokens.specs.Runs.{is_run, is_digit, is_quote, begins};
ghost use Rattle.wf_tokens.specs.Pieces.{IsFrontPiece, IsRefused, IsRunKind, RefusesRun};

use crate::kinds::TokenKind;
use crate::numbers::number_of;
use crate::runs::{begins_with_quote, is_digit, is_run, run_len, text_len};
use crate::symbols::{longest_symbol, text_of_symbol};
use crate::words::word_of;
use wf_text::Rule;

/// A piece: the kind of its token, and how many bytes it has.
#[derive(Clone, Copy)]
pub(crate) struct Piece {
    pub kind: TokenKind,
    pub len: usize,
}

/// The piece that the bytes begin with. Where they begin with none: S2 where they begin with a quote, S3 or S4
/// where they begin with a digit, else S1.
pub(crate) fn first_piece(bytes: &[u8]) -> Result<Piece, Rule>
    ensures piece { IfOk result (λ piece. IsFrontPiece piece.kind piece.len bytes.now) }
    ensures none { IfErr result (λ rule. IsRefused rule bytes.now) }
{
    match bytes.first() {
        Some(b'"') => text_piece(bytes),
        Some(byte) if is_run(*byte) => run_piece(bytes),
        _ => symbol_piece(bytes),
    }
}

/// The text at the front. S2 where it isn't closed on its line.
fn text_piece(bytes: &[u8]) -> Result<Piece, Rule>
    requires { begins is_quote bytes.now ≡ true }
    ensures piece { IfOk result (λ piece. IsFrontPiece piece.kind piece.len bytes.now) }
    ensures none { IfErr result (λ rule. IsRefused rule bytes.now) }
{
    let inner = text_len(&bytes[1..]);
    let (_, behind) = bytes.split_at(inner + 1);
    if begins_with_quote(behind) {
        Ok(Piece {
            kind: TokenKind::Text,
            len: inner + 2,
        })
    } else {
        Err(Rule::S2)
    }
}

/// The name, word or number at the front. S3 where a number is misspelt, S4 where it is 2^64 or more.
fn run_piece(bytes: &[u8]) -> Result<Piece, Rule>
    requires { begins is_run bytes.now ≡ true }
    ensures piece { IfOk result (λ piece. IsFrontPiece piece.kind piece.len bytes.now) }
    ensures none { IfErr result (λ rule. IsRefused rule bytes.now) }
{
    let len = run_len(bytes);
    let kind = run_kind(&bytes[..len])?;
    Ok(Piece { kind, len })
}

/// The kind of a run of letters, digits and `_`. S3 where a number is misspelt, S4 where it is 2^64 or more.
fn run_kind(text: &[u8]) -> Result<TokenKind, Rule>
    requires some { begins is_run text.now ≡ true }
    requires run { list_all is_run text.now ≡ true }
    ensures kind { IfOk result (λ kind. IsRunKind kind text.now) }
    ensures none { IfErr result (λ rule. RefusesRun rule text.now) }
{
    if is_digit(text[0]) {
        let value = number_of(text)?;
        return Ok(TokenKind::Number(value));
    }
    match word_of(text) {
        Some(word) => Ok(TokenKind::Keyword(word)),
        None => Ok(TokenKind::Name),
    }
}

/// The symbol at the front. S1 where there is none.
fn symbol_piece(bytes: &[u8]) -> Result<Piece, Rule>
    requires run { begins is_run bytes.now ≡ false }
    requires quote { begins is_quote bytes.now ≡ false }
    ensures piece { IfOk result (λ piece. IsFrontPiece piece.kind piece.len bytes.now) }
    ensures none { IfErr result (λ rule. IsRefused rule bytes.now) }
{
    match longest_symbol(bytes) {
        Some(symbol) => Ok(Piece {
            kind: TokenKind::Symbol(symbol),
            len: text_of_symbol(symbol).len(),
        }),
        None => Err(Rule::S1),
    }
}

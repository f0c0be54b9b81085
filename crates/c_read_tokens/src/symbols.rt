// The symbols that bytes may begin with: operators with two operands, and other marks.

ghost use Rattle.std.specs.Prelude.{◌≡◌, length};
ghost use Rattle.std.specs.Option.{option_map};
ghost use Rattle.c_text.specs.CSpelling.{op_bytes, mark_bytes, token_bytes};
ghost use Rattle.c_read_grammar.specs.FirstToken.{next_is, symbol_token};
ghost use Rattle.c_read_tokens.specs.Kinds.{bare};
ghost use Rattle.c_read_tokens.specs.Symbols.{symbol_token_of};

use crate::kinds::Kind;
use c_text::{CMark, COp};

/// A symbol.
#[derive(Clone, Copy, PartialEq, Eq)]
pub(crate) enum Symbol {
    /// An operator with two operands.
    Operator(COp),
    /// Another mark.
    Mark(CMark),
}

impl Symbol {
    /// The symbol as a token.
    pub(crate) fn kind(self) -> Kind
        ensures { bare result ≡ symbol_token_of self }
    {
        match self {
            Symbol::Operator(op) => Kind::Operator(op),
            Symbol::Mark(mark) => Kind::Mark(mark),
        }
    }

    /// How many bytes it has.
    pub(crate) fn len(self) -> usize
        ensures { result ≡ length (token_bytes (symbol_token_of self)) }
    {
        match self {
            Symbol::Operator(op) => operator_len(op),
            Symbol::Mark(mark) => mark_len(mark),
        }
    }
}

/// Whether this byte is the first one.
fn next_is(byte: u8, rest: &[u8]) -> bool
    ensures { result ≡ next_is byte rest.now }
{
    match rest.first() {
        Some(next) => *next == byte,
        None => false,
    }
}

/// The symbol that a byte and those after it begin with, the longest there is.
pub(crate) fn symbol_of(first: u8, rest: &[u8]) -> Option<Symbol>
    ensures { option_map symbol_token_of result ≡ symbol_token first rest.now }
{
    match first {
        b'+' => Some(Symbol::Operator(COp::Add)),
        b'-' if next_is(b'>', rest) => Some(Symbol::Mark(CMark::Arrow)),
        b'-' => Some(Symbol::Operator(COp::Sub)),
        b'*' => Some(Symbol::Operator(COp::Mul)),
        b'/' => Some(Symbol::Operator(COp::Div)),
        b'%' => Some(Symbol::Operator(COp::Rem)),
        b'<' if next_is(b'<', rest) => Some(Symbol::Operator(COp::Shl)),
        b'<' if next_is(b'=', rest) => Some(Symbol::Operator(COp::Le)),
        b'<' => Some(Symbol::Operator(COp::Lt)),
        b'>' if next_is(b'>', rest) => Some(Symbol::Operator(COp::Shr)),
        b'>' if next_is(b'=', rest) => Some(Symbol::Operator(COp::Ge)),
        b'>' => Some(Symbol::Operator(COp::Gt)),
        b'&' if next_is(b'&', rest) => Some(Symbol::Operator(COp::Both)),
        b'&' => Some(Symbol::Operator(COp::BitAnd)),
        b'|' if next_is(b'|', rest) => Some(Symbol::Operator(COp::Either)),
        b'|' => Some(Symbol::Operator(COp::BitOr)),
        b'^' => Some(Symbol::Operator(COp::BitXor)),
        b'=' if next_is(b'=', rest) => Some(Symbol::Operator(COp::Eq)),
        b'=' => Some(Symbol::Mark(CMark::Assign)),
        b'!' if next_is(b'=', rest) => Some(Symbol::Operator(COp::Ne)),
        b'!' => Some(Symbol::Mark(CMark::Not)),
        b'(' => Some(Symbol::Mark(CMark::OpenParen)),
        b')' => Some(Symbol::Mark(CMark::CloseParen)),
        b'[' => Some(Symbol::Mark(CMark::OpenBracket)),
        b']' => Some(Symbol::Mark(CMark::CloseBracket)),
        b'{' => Some(Symbol::Mark(CMark::OpenBrace)),
        b'}' => Some(Symbol::Mark(CMark::CloseBrace)),
        b',' => Some(Symbol::Mark(CMark::Comma)),
        b';' => Some(Symbol::Mark(CMark::Semicolon)),
        b':' => Some(Symbol::Mark(CMark::Colon)),
        b'?' => Some(Symbol::Mark(CMark::Question)),
        b'~' => Some(Symbol::Mark(CMark::Complement)),
        _ => None,
    }
}

/// How many bytes an operator has.
fn operator_len(op: COp) -> usize
    ensures { result ≡ length (op_bytes op) }
{
    match op {
        COp::Shl | COp::Shr | COp::Le | COp::Ge | COp::Eq | COp::Ne | COp::Both | COp::Either => 2,
        _ => 1,
    }
}

/// How many bytes another mark has.
fn mark_len(mark: CMark) -> usize
    ensures { result ≡ length (mark_bytes mark) }
{
    match mark {
        CMark::Arrow => 2,
        _ => 1,
    }
}

// The symbols of the language: brackets, punctuation, comparisons and operators, each also as an assignment.

ghost use Rattle.std.specs.Prelude.{◌≡◌, nat_eq, if◌then◌else◌, IfSome, IfNone, find};
ghost use Rattle.std.specs.List.{starts_with};
ghost use Rattle.wf_tokens.specs.Runs.{first_byte};
ghost use Rattle.wf_tokens.specs.declared.symbols.Operator.TheVariants as operator;
ghost use Rattle.wf_tokens.specs.declared.symbols.Comparison.TheVariants as comparison;
ghost use Rattle.wf_tokens.specs.declared.symbols.Symbol.TheVariants as symbol;
ghost use Rattle.wf_tokens.specs.Symbols.{operator_text, assign_text, comparison_text, symbol_text, symbols_from, IsLongestSymbol, BeginsNoSymbol};

use crate::runs::{byte_at, first_byte};

/// An operator that takes two numbers and gives a number. Each can stand directly before `=`, which
/// makes an assignment of it.
#[derive(Clone, Copy)]
pub enum Operator {
    /// `+`
    Add,
    /// `-`
    Sub,
    /// `*`
    Mul,
    /// `/`
    Div,
    /// `%`
    Rem,
    /// `<<`
    ShiftLeft,
    /// `>>`
    ShiftRight,
    /// `&`
    BitAnd,
    /// `|`
    BitOr,
    /// `^`
    BitXor,
    /// `~mod+`
    ModAdd,
    /// `~mod-`
    ModSub,
    /// `~mod*`
    ModMul,
    /// `~mod<<`
    ModShiftLeft,
    /// `~sat+`
    SatAdd,
    /// `~sat-`
    SatSub,
}

/// A comparison of two numbers; the first two also compare statuses.
#[derive(Clone, Copy)]
pub enum Comparison {
    /// `==`
    Equal,
    /// `<>`
    NotEqual,
    /// `<`
    Less,
    /// `<=`
    LessOrEqual,
    /// `>`
    Greater,
    /// `>=`
    GreaterOrEqual,
}

/// A symbol of the language.
#[derive(Clone, Copy)]
pub enum Symbol {
    /// `(`
    OpenParen,
    /// `)`
    CloseParen,
    /// `[`
    OpenBracket,
    /// `]`
    CloseBracket,
    /// `{`
    OpenBrace,
    /// `}`
    CloseBrace,
    /// `,`
    Comma,
    /// `.`
    Dot,
    /// `:`
    Colon,
    /// `;`
    Semicolon,
    /// `?`
    Question,
    /// `!`
    Exclamation,
    /// `=`
    Equals,
    /// `=?`
    EqualsQuestion,
    /// `..`
    DotDot,
    /// `..=`
    DotDotEquals,
    /// One of the six comparisons.
    Compare(Comparison),
    /// An operator that stands by itself.
    Operator(Operator),
    /// An operator directly followed by `=`.
    Assign(Operator),
}

/// The operator as it is written, in ASCII.
pub(crate) fn text_of_operator(operator: Operator) -> &'static str
    ensures { result.now ≡ operator_text operator }
{
    match operator {
        Operator::Add => "+",
        Operator::Sub => "-",
        Operator::Mul => "*",
        Operator::Div => "/",
        Operator::Rem => "%",
        Operator::ShiftLeft => "<<",
        Operator::ShiftRight => ">>",
        Operator::BitAnd => "&",
        Operator::BitOr => "|",
        Operator::BitXor => "^",
        Operator::ModAdd => "~mod+",
        Operator::ModSub => "~mod-",
        Operator::ModMul => "~mod*",
        Operator::ModShiftLeft => "~mod<<",
        Operator::SatAdd => "~sat+",
        Operator::SatSub => "~sat-",
    }
}

/// The assignment by an operator as it is written, in ASCII.
pub(crate) fn text_of_assign(operator: Operator) -> &'static str
    ensures { result.now ≡ assign_text operator }
{
    match operator {
        Operator::Add => "+=",
        Operator::Sub => "-=",
        Operator::Mul => "*=",
        Operator::Div => "/=",
        Operator::Rem => "%=",
        Operator::ShiftLeft => "<<=",
        Operator::ShiftRight => ">>=",
        Operator::BitAnd => "&=",
        Operator::BitOr => "|=",
        Operator::BitXor => "^=",
        Operator::ModAdd => "~mod+=",
        Operator::ModSub => "~mod-=",
        Operator::ModMul => "~mod*=",
        Operator::ModShiftLeft => "~mod<<=",
        Operator::SatAdd => "~sat+=",
        Operator::SatSub => "~sat-=",
    }
}

/// The comparison as it is written, in ASCII.
pub(crate) fn text_of_comparison(comparison: Comparison) -> &'static str
    ensures { result.now ≡ comparison_text comparison }
{
    match comparison {
        Comparison::Equal => "==",
        Comparison::NotEqual => "<>",
        Comparison::Less => "<",
        Comparison::LessOrEqual => "<=",
        Comparison::Greater => ">",
        Comparison::GreaterOrEqual => ">=",
    }
}

/// The symbol as it is written, in ASCII.
#[inline(always)]
pub(crate) fn text_of_symbol(symbol: Symbol) -> &'static str
    ensures { result.now ≡ symbol_text symbol }
{
    match symbol {
        Symbol::OpenParen => "(",
        Symbol::CloseParen => ")",
        Symbol::OpenBracket => "[",
        Symbol::CloseBracket => "]",
        Symbol::OpenBrace => "{",
        Symbol::CloseBrace => "}",
        Symbol::Comma => ",",
        Symbol::Dot => ".",
        Symbol::Colon => ":",
        Symbol::Semicolon => ";",
        Symbol::Question => "?",
        Symbol::Exclamation => "!",
        Symbol::Equals => "=",
        Symbol::EqualsQuestion => "=?",
        Symbol::DotDot => "..",
        Symbol::DotDotEquals => "..=",
        Symbol::Compare(comparison) => text_of_comparison(comparison),
        Symbol::Operator(operator) => text_of_operator(operator),
        Symbol::Assign(operator) => text_of_assign(operator),
    }
}

/// The symbols that begin with `~`, the longer ones first.
fn tilde_symbols() -> &'static [Symbol]
    ensures { result.now ≡ symbols_from 126 }
{
    &[
        Symbol::Assign(Operator::ModShiftLeft),
        Symbol::Operator(Operator::ModShiftLeft),
        Symbol::Assign(Operator::ModAdd),
        Symbol::Assign(Operator::ModSub),
        Symbol::Assign(Operator::ModMul),
        Symbol::Assign(Operator::SatAdd),
        Symbol::Assign(Operator::SatSub),
        Symbol::Operator(Operator::ModAdd),
        Symbol::Operator(Operator::ModSub),
        Symbol::Operator(Operator::ModMul),
        Symbol::Operator(Operator::SatAdd),
        Symbol::Operator(Operator::SatSub),
    ]
}

/// The first of the symbols that begin with `~` with which the bytes begin.
fn tilde_symbol(bytes: &[u8]) -> Option<Symbol>
    ensures { result ≡ find (λ symbol. starts_with nat_eq bytes.now (symbol_text symbol)) (symbols_from 126) }
{
    tilde_symbols().iter().copied().find(|symbol| bytes.starts_with(text_of_symbol(
        *symbol,
    ).as_bytes()))
}

/// The symbol of an operator of one byte, after which `next` stands.
fn operator_symbol(operator: Operator, next: u8) -> Symbol
    ensures { result ≡ if nat_eq next 61 then symbol.Assign operator else symbol.Operator operator }
{
    if next == b'=' {
        Symbol::Assign(operator)
    } else {
        Symbol::Operator(operator)
    }
}

/// The symbol that begins with `.`, after which `next` and `after` stand.
fn dot_symbol(next: u8, after: u8) -> Symbol
    ensures { result ≡ if nat_eq next 46 then (if nat_eq after 61 then symbol.DotDotEquals else symbol.DotDot) else symbol.Dot }
{
    if next == b'.' {
        if after == b'=' {
            Symbol::DotDotEquals
        } else {
            Symbol::DotDot
        }
    } else {
        Symbol::Dot
    }
}

/// The symbol that begins with `=`, after which `next` stands.
fn equals_symbol(next: u8) -> Symbol
    ensures { result ≡ if nat_eq next 63 then symbol.EqualsQuestion else if nat_eq next 61 then symbol.Compare comparison.Equal else symbol.Equals }
{
    if next == b'?' {
        Symbol::EqualsQuestion
    } else if next == b'=' {
        Symbol::Compare(Comparison::Equal)
    } else {
        Symbol::Equals
    }
}

/// The symbol that begins with `<`, after which `next` and `after` stand.
fn less_symbol(next: u8, after: u8) -> Symbol
    ensures { result ≡ if nat_eq next 60 then (if nat_eq after 61 then symbol.Assign operator.ShiftLeft else symbol.Operator operator.ShiftLeft) else if nat_eq next 62 then symbol.Compare comparison.NotEqual else if nat_eq next 61 then symbol.Compare comparison.LessOrEqual else symbol.Compare comparison.Less }
{
    if next == b'<' {
        operator_symbol(Operator::ShiftLeft, after)
    } else if next == b'>' {
        Symbol::Compare(Comparison::NotEqual)
    } else if next == b'=' {
        Symbol::Compare(Comparison::LessOrEqual)
    } else {
        Symbol::Compare(Comparison::Less)
    }
}

/// The symbol that begins with `>`, after which `next` and `after` stand.
fn greater_symbol(next: u8, after: u8) -> Symbol
    ensures { result ≡ if nat_eq next 62 then (if nat_eq after 61 then symbol.Assign operator.ShiftRight else symbol.Operator operator.ShiftRight) else if nat_eq next 61 then symbol.Compare comparison.GreaterOrEqual else symbol.Compare comparison.Greater }
{
    if next == b'>' {
        operator_symbol(Operator::ShiftRight, after)
    } else if next == b'=' {
        Symbol::Compare(Comparison::GreaterOrEqual)
    } else {
        Symbol::Compare(Comparison::Greater)
    }
}

/// The first symbol with which the bytes begin of those that begin with their first byte, the longer ones first. But
/// for those that begin with `~`, the first three bytes tell which it is.
fn find_symbol(bytes: &[u8]) -> Option<Symbol>
    ensures { result ≡ find (λ symbol. starts_with nat_eq bytes.now (symbol_text symbol)) (symbols_from (first_byte bytes.now)) }
{
    let next = byte_at(bytes, 1);
    match first_byte(bytes) {
        b'!' => Some(Symbol::Exclamation),
        b'(' => Some(Symbol::OpenParen),
        b')' => Some(Symbol::CloseParen),
        b',' => Some(Symbol::Comma),
        b':' => Some(Symbol::Colon),
        b';' => Some(Symbol::Semicolon),
        b'?' => Some(Symbol::Question),
        b'[' => Some(Symbol::OpenBracket),
        b']' => Some(Symbol::CloseBracket),
        b'{' => Some(Symbol::OpenBrace),
        b'}' => Some(Symbol::CloseBrace),
        b'%' => Some(operator_symbol(Operator::Rem, next)),
        b'&' => Some(operator_symbol(Operator::BitAnd, next)),
        b'*' => Some(operator_symbol(Operator::Mul, next)),
        b'+' => Some(operator_symbol(Operator::Add, next)),
        b'-' => Some(operator_symbol(Operator::Sub, next)),
        b'/' => Some(operator_symbol(Operator::Div, next)),
        b'^' => Some(operator_symbol(Operator::BitXor, next)),
        b'|' => Some(operator_symbol(Operator::BitOr, next)),
        b'.' => Some(dot_symbol(next, byte_at(bytes, 2))),
        b'=' => Some(equals_symbol(next)),
        b'<' => Some(less_symbol(next, byte_at(bytes, 2))),
        b'>' => Some(greater_symbol(next, byte_at(bytes, 2))),
        b'~' => tilde_symbol(bytes),
        _ => None,
    }
}

/// The longest symbol with which the bytes begin, if they begin with one.
pub(crate) fn longest_symbol(bytes: &[u8]) -> Option<Symbol>
    ensures found { IfSome result (λ symbol. IsLongestSymbol symbol bytes.now) }
    ensures none { IfNone result (BeginsNoSymbol bytes.now) }
{
    find_symbol(bytes)
}

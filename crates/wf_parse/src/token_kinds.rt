// What the tokens of a file are for the grammar.

ghost use Rattle.std.specs.Prelude.{◌≡◌, ◌<◌, ◌≤◌, ◌^◌, Some, length, slice_get, OnOk, IfOk};
ghost use Rattle.wf_tokens.specs.Spelling.{item_of};
ghost use Rattle.wf_parse.specs.Kinds.{word_kind, operator_of, operator_kind, comparison_kind, symbol_kind, unquoted, KindIs, IsReadable};
ghost use Rattle.wf_parse.specs.Lexing.{ChangesTexts};
ghost use Rattle.wf_parse.specs.Texts.{text_of, with_text};

use crate::recent::Recent;
use std::alloc::AllocError;
use wf_ast::{Op, PackageNodes, TextId};
use wf_parse_grammar::Kind;
use wf_tokens::{Comparison, Operator, Symbol, Token, TokenKind, Word};

fn word_kind(word: Word) -> Kind
    ensures { result ≡ word_kind word }
{
    match word {
        Word::And => Kind::Chain(Op::And),
        Word::Args => Kind::Args,
        Word::Array => Kind::Array,
        Word::As => Kind::As,
        Word::Assert => Kind::Assert,
        Word::Base => Kind::Base,
        Word::Break => Kind::Break,
        Word::Const => Kind::Const,
        Word::Continue => Kind::Continue,
        Word::Else => Kind::Else,
        Word::Endwhile => Kind::Endwhile,
        Word::False => Kind::False,
        Word::Func => Kind::Func,
        Word::If => Kind::If,
        Word::Inv => Kind::Inv,
        Word::Not => Kind::Not,
        Word::Nothing => Kind::Nothing,
        Word::Ok => Kind::Ok,
        Word::Or => Kind::Chain(Op::Or),
        Word::Post => Kind::Post,
        Word::Pre => Kind::Pre,
        Word::Pri => Kind::Pri,
        Word::Pub => Kind::Pub,
        Word::Return => Kind::Return,
        Word::Slice => Kind::Slice,
        Word::Status => Kind::Status,
        Word::Struct => Kind::Struct,
        Word::This => Kind::This,
        Word::True => Kind::True,
        Word::Var => Kind::Var,
        Word::Via => Kind::Via,
        Word::While => Kind::While,
        Word::Yield => Kind::Yield,
    }
}

/// The operator of the tree.
fn operator_of(operator: Operator) -> Op
    ensures { result ≡ operator_of operator }
{
    match operator {
        Operator::Add => Op::Add,
        Operator::Sub => Op::Sub,
        Operator::Mul => Op::Mul,
        Operator::Div => Op::Div,
        Operator::Rem => Op::Rem,
        Operator::ShiftLeft => Op::Shl,
        Operator::ShiftRight => Op::Shr,
        Operator::BitAnd => Op::BitAnd,
        Operator::BitOr => Op::BitOr,
        Operator::BitXor => Op::BitXor,
        Operator::ModAdd => Op::ModAdd,
        Operator::ModSub => Op::ModSub,
        Operator::ModMul => Op::ModMul,
        Operator::ModShiftLeft => Op::ModShl,
        Operator::SatAdd => Op::SatAdd,
        Operator::SatSub => Op::SatSub,
    }
}

/// Whether it makes chains, or stands between two operands.
fn operator_kind(operator: Operator) -> Kind
    ensures { result ≡ operator_kind operator }
{
    let op = operator_of(operator);
    match operator {
        Operator::Add | Operator::Mul | Operator::BitAnd | Operator::BitOr | Operator::BitXor =>
            Kind::Chain(op),
        _ => Kind::Binary(op),
    }
}

fn comparison_kind(comparison: Comparison) -> Kind
    ensures { result ≡ comparison_kind comparison }
{
    match comparison {
        Comparison::Equal => Kind::Binary(Op::Same),
        Comparison::NotEqual => Kind::Binary(Op::Differs),
        Comparison::Less => Kind::Binary(Op::Less),
        Comparison::LessOrEqual => Kind::Binary(Op::LessOrSame),
        Comparison::Greater => Kind::Binary(Op::Greater),
        Comparison::GreaterOrEqual => Kind::Binary(Op::GreaterOrSame),
    }
}

fn symbol_kind(symbol: Symbol) -> Kind
    ensures { result ≡ symbol_kind symbol }
{
    match symbol {
        Symbol::OpenParen => Kind::OpenRound,
        Symbol::CloseParen => Kind::CloseRound,
        Symbol::OpenBracket => Kind::OpenSquare,
        Symbol::CloseBracket => Kind::CloseSquare,
        Symbol::OpenBrace => Kind::OpenCurly,
        Symbol::CloseBrace => Kind::CloseCurly,
        Symbol::Comma => Kind::Comma,
        Symbol::Dot => Kind::Dot,
        Symbol::Colon => Kind::Colon,
        Symbol::Semicolon => Kind::Semicolon,
        Symbol::Question => Kind::Question,
        Symbol::Exclamation => Kind::Exclamation,
        Symbol::Equals => Kind::Equals,
        Symbol::EqualsQuestion => Kind::KeepEquals,
        Symbol::DotDot => Kind::Dots,
        Symbol::DotDotEquals => Kind::DotsEquals,
        Symbol::Compare(comparison) => comparison_kind(comparison),
        Symbol::Operator(operator) => operator_kind(operator),
        Symbol::Assign(operator) => Kind::Update(operator_of(operator)),
    }
}

/// The bytes between the quotes.
fn unquoted(text: &[u8]) -> &[u8]
    requires { 2 ≤ length text.now }
    ensures { result.now ≡ unquoted text.now }
{
    &text[1..text.len() - 1]
}

/// The number of a text, which joins the package's texts at their end where it isn't among them.
fn number_of(
    recent: &mut Recent,
    parsed: &mut PackageNodes,
    text: &[u8],
) -> Result<TextId, AllocError>
    requires { length parsed.old.texts < 2 ^ 32 }
    ensures number { IfOk result (λ number. slice_get parsed.new.texts number.0 ≡ Some text.now) }
    ensures texts { OnOk result (parsed.new.texts ≡ with_text parsed.old.texts (Some text.now)) }
    ensures same { OnOk result (ChangesTexts parsed.old parsed.new) }
{
    if let Some(number) = recent.find(parsed, text) {
        return Ok(number);
    }
    let number = parsed.intern(text)?;
    recent.keep(text, number);
    // Equal texts have equal numbers.
    let _count = parsed.texts();
    Ok(number)
}

/// What a token is for the grammar. Its text joins the package's texts. `recent` makes that quicker where it was seen of
/// late.
pub(crate) fn kind_of(
    recent: &mut Recent,
    parsed: &mut PackageNodes,
    token: Token<'_>,
) -> Result<Kind, AllocError>
    requires room { length parsed.old.texts < 2 ^ 32 }
    requires quoted { IsReadable (item_of token) }
    ensures kind { IfOk result (λ kind. KindIs parsed.new.texts token.entry.kind token.entry.bytes.now kind) }
    ensures texts { OnOk result (parsed.new.texts ≡ with_text parsed.old.texts (text_of token.entry.kind token.entry.bytes.now)) }
    ensures same { OnOk result (ChangesTexts parsed.old parsed.new) }
{
    match token.kind {
        TokenKind::Name => Ok(Kind::Name(number_of(recent, parsed, token.bytes)?)),
        TokenKind::Number(value) => Ok(Kind::Number(value)),
        TokenKind::Text => Ok(Kind::Text(number_of(recent, parsed, unquoted(token.bytes))?)),
        TokenKind::Keyword(word) => Ok(word_kind(word)),
        TokenKind::Symbol(symbol) => Ok(symbol_kind(symbol)),
    }
}

// What a token does to the symbols that are one token each.

ghost use Rattle.std.specs.Prelude.{◌≡◌};
ghost use Rattle.wf_parse_grammar.specs.Building.{name_build, text_build, dot_build, colon_build, semicolon_build, equals_build, question_build, dots_equals_build, right_round_build, right_square_build};

use crate::builds::Build;
use crate::symbols::Action;
use crate::tokens::{Kind, Token};
use crate::wants::{Lead, Wants};
use wf_ast::parsed::Name;
use wf_text::Rule;

// A name.
pub(crate) fn a_name(token: Token) -> Build
    ensures { result ≡ name_build token.kind token.at }
{
    match token.kind {
        Kind::Name(text) => Build::Take(Wants::led(
            Lead::One(Action::PushName(Name { text, at: token.at })),
            &[],
            &[],
        )),
        _ => Build::Stop(Rule::S5),
    }
}

// A text.
pub(crate) fn a_text(token: Token) -> Build
    ensures { result ≡ text_build token.kind token.at }
{
    match token.kind {
        Kind::Text(text) => Build::Take(Wants::led(
            Lead::One(Action::PushName(Name { text, at: token.at })),
            &[],
            &[],
        )),
        _ => Build::Stop(Rule::S5),
    }
}

// `.`
pub(crate) fn a_dot(token: Token) -> Build
    ensures { result ≡ dot_build token.kind token.at }
{
    match token.kind {
        Kind::Dot => Build::done(),
        _ => Build::Stop(Rule::S5),
    }
}

// `:`
pub(crate) fn a_colon(token: Token) -> Build
    ensures { result ≡ colon_build token.kind token.at }
{
    match token.kind {
        Kind::Colon => Build::done(),
        _ => Build::Stop(Rule::S5),
    }
}

// `;`
pub(crate) fn a_semicolon(token: Token) -> Build
    ensures { result ≡ semicolon_build token.kind token.at }
{
    match token.kind {
        Kind::Semicolon => Build::done(),
        _ => Build::Stop(Rule::S5),
    }
}

// `=`
pub(crate) fn an_equals(token: Token) -> Build
    ensures { result ≡ equals_build token.kind token.at }
{
    match token.kind {
        Kind::Equals => Build::done(),
        _ => Build::Stop(Rule::S5),
    }
}

// `?`
pub(crate) fn a_question(token: Token) -> Build
    ensures { result ≡ question_build token.kind token.at }
{
    match token.kind {
        Kind::Question => Build::done(),
        _ => Build::Stop(Rule::S5),
    }
}

// `..=`
pub(crate) fn a_dots_equals(token: Token) -> Build
    ensures { result ≡ dots_equals_build token.kind token.at }
{
    match token.kind {
        Kind::DotsEquals => Build::done(),
        _ => Build::Stop(Rule::S5),
    }
}

// `)`
pub(crate) fn right_round(token: Token) -> Build
    ensures { result ≡ right_round_build token.kind token.at }
{
    match token.kind {
        Kind::CloseRound => Build::done(),
        _ => Build::Stop(Rule::S5),
    }
}

// `]`
pub(crate) fn right_square(token: Token) -> Build
    ensures { result ≡ right_square_build token.kind token.at }
{
    match token.kind {
        Kind::CloseSquare => Build::done(),
        _ => Build::Stop(Rule::S5),
    }
}

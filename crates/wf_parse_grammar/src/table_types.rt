// What a token does to the symbols of types.

ghost use Rattle.std.specs.Prelude.{◌≡◌};
ghost use Rattle.wf_parse_grammar.specs.Building.{followed, type_build, array_length_build, base_name_build, bounds_build, low_build};

use crate::builds::Build;
use crate::symbols::Want::{Make, Read};
use crate::symbols::{Action, Sym, Want};
use crate::table_exprs::operand;
use crate::tokens::{Kind, Token};
use crate::wants::{Lead, Wants};
use wf_ast::parsed::Name;
use wf_text::Rule;

// A type.
pub(crate) fn whole_type(token: Token, after: &'static [Want]) -> Build
    ensures { result ≡ followed (type_build token.kind token.at) after.now }
{
    match token.kind {
        Kind::Base => Build::Take(Wants::led(
            Lead::One(Action::PushPlace(token.at)),
            &[Read(Sym::ADot), Read(Sym::BaseName)],
            after,
        )),
        Kind::Slice => Build::Take(Wants::led(
            Lead::One(Action::AddSlice(token.at)),
            &[Read(Sym::WholeType)],
            after,
        )),
        Kind::Array => Build::Take(Wants::led(
            Lead::One(Action::PushPlace(token.at)),
            &[
                Read(Sym::ArrayLength),
                Make(Action::AddArray),
                Read(Sym::WholeType),
            ],
            after,
        )),
        Kind::Name(text) => Build::Take(Wants::led(
            Lead::One(Action::StructType(Name { text, at: token.at })),
            &[],
            after,
        )),
        _ => Build::Stop(Rule::S5),
    }
}

// The length of an array, in brackets.
pub(crate) fn array_length(token: Token) -> Build
    ensures { result ≡ array_length_build token.kind token.at }
{
    match token.kind {
        Kind::OpenSquare => Build::take(&[Read(Sym::Expr), Read(Sym::RightSquare)]),
        _ => Build::Stop(Rule::S5),
    }
}

// What follows `base .` in a type.
pub(crate) fn base_name(token: Token) -> Build
    ensures { result ≡ base_name_build token.kind token.at }
{
    match token.kind {
        Kind::Name(text) => Build::Take(Wants::led(
            Lead::One(Action::BaseCore(Name { text, at: token.at })),
            &[Read(Sym::BoundsPart), Make(Action::FinishType)],
            &[],
        )),
        Kind::Status => Build::take(&[
            Make(Action::StatusCore),
            Read(Sym::BoundsPart),
            Make(Action::FinishType),
        ]),
        _ => Build::Stop(Rule::S5),
    }
}

// The bounds of a type, if any.
pub(crate) fn bounds(token: Token) -> Build
    ensures { result ≡ bounds_build token.kind token.at }
{
    match token.kind {
        Kind::OpenSquare => Build::take(&[Read(Sym::Low)]),
        _ => Build::Pass,
    }
}

// The bounds of a type, after their `[`.
pub(crate) fn low(token: Token) -> Build
    ensures { result ≡ low_build token.kind token.at }
{
    match token.kind {
        Kind::DotsEquals => Build::take(&[
            Make(Action::NoPart),
            Read(Sym::Expr),
            Read(Sym::RightSquare),
            Make(Action::SomeBounds),
        ]),
        _ => operand(
            token,
            &[
                Read(Sym::Rest),
                Make(Action::SomePart),
                Read(Sym::ADotsEquals),
                Read(Sym::Expr),
                Read(Sym::RightSquare),
                Make(Action::SomeBounds),
            ],
        ),
    }
}

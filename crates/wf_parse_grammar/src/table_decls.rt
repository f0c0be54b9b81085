// What a token does to the symbols of declarations.

ghost use Rattle.std.specs.Prelude.{◌≡◌};
ghost use Rattle.wf_parse_grammar.specs.Building.{file_build, decl_build, fields_open_build, fields_mark_build, fields_build, more_fields_build, plus_build, other_fields_build, body_build, method_tail_build};

use crate::builds::Build;
use crate::symbols::Want::{Make, Read};
use crate::symbols::{Action, Sym};
use crate::table_types::whole_type;
use crate::tokens::{Kind, Token};
use crate::wants::{Lead, Wants};
use wf_ast::Op;
use wf_ast::parsed::{Name, WrittenMark};
use wf_text::Rule;

// A declaration of a file, if any.
pub(crate) fn file(token: Token) -> Build
    ensures { result ≡ file_build token.kind token.at }
{
    match token.kind {
        Kind::Pub => Build::take(&[
            Make(Action::PushPublic(true)),
            Read(Sym::Decl),
            Read(Sym::ASemicolon),
            Read(Sym::File),
        ]),
        Kind::Pri => Build::take(&[
            Make(Action::PushPublic(false)),
            Read(Sym::Decl),
            Read(Sym::ASemicolon),
            Read(Sym::File),
        ]),
        _ => Build::Pass,
    }
}

// What follows `pub` or `pri`.
pub(crate) fn decl(token: Token) -> Build
    ensures { result ≡ decl_build token.kind token.at }
{
    match token.kind {
        Kind::Status => Build::Take(Wants::led(
            Lead::One(Action::PushPlace(token.at)),
            &[Read(Sym::AText), Make(Action::StatusDecl)],
            &[],
        )),
        Kind::Const => Build::Take(Wants::led(
            Lead::One(Action::PushPlace(token.at)),
            &[
                Read(Sym::AName),
                Read(Sym::AColon),
                Make(Action::StartType),
                Read(Sym::WholeType),
                Read(Sym::AnEquals),
                Read(Sym::Expr),
                Make(Action::ConstDecl),
            ],
            &[],
        )),
        Kind::Struct => Build::Take(Wants::led(
            Lead::One(Action::PushPlace(token.at)),
            &[
                Read(Sym::AName),
                Read(Sym::FieldsMark),
                Read(Sym::OtherFields),
                Make(Action::StructDecl),
            ],
            &[],
        )),
        Kind::Func => Build::Take(Wants::led(
            Lead::One(Action::PushPlace(token.at)),
            &[
                Read(Sym::AName),
                Read(Sym::ADot),
                Read(Sym::AName),
                Read(Sym::FieldsMark),
                Make(Action::StartType),
                Read(Sym::MethodTail),
                Make(Action::MethodDecl),
            ],
            &[],
        )),
        _ => Build::Stop(Rule::S5),
    }
}

// The `(` of a list of fields.
pub(crate) fn fields_open(token: Token) -> Build
    ensures { result ≡ fields_open_build token.kind token.at }
{
    match token.kind {
        Kind::OpenRound => Build::take(&[Read(Sym::Fields)]),
        _ => Build::Stop(Rule::S5),
    }
}

// A mark, if any, and the `(` of a list of fields.
pub(crate) fn fields_mark(token: Token) -> Build
    ensures { result ≡ fields_mark_build token.kind token.at }
{
    match token.kind {
        Kind::Exclamation => Build::take(&[
            Make(Action::PushMark(WrittenMark::Exclamation)),
            Make(Action::StartFields),
            Read(Sym::FieldsOpen),
        ]),
        Kind::Question => Build::take(&[
            Make(Action::PushMark(WrittenMark::Question)),
            Make(Action::StartFields),
            Read(Sym::FieldsOpen),
        ]),
        Kind::OpenRound => Build::take(&[
            Make(Action::PushMark(WrittenMark::Unmarked)),
            Make(Action::StartFields),
            Read(Sym::Fields),
        ]),
        _ => Build::Stop(Rule::S5),
    }
}

// A field, or the `)` of its list.
pub(crate) fn fields(token: Token) -> Build
    ensures { result ≡ fields_build token.kind token.at }
{
    match token.kind {
        Kind::Name(text) => Build::Take(Wants::led(
            Lead::One(Action::PushName(Name { text, at: token.at })),
            &[
                Read(Sym::AColon),
                Make(Action::StartType),
                Read(Sym::WholeType),
                Make(Action::AddField),
                Read(Sym::MoreFields),
            ],
            &[],
        )),
        Kind::CloseRound => Build::done(),
        _ => Build::Stop(Rule::S5),
    }
}

// What follows a field.
pub(crate) fn more_fields(token: Token) -> Build
    ensures { result ≡ more_fields_build token.kind token.at }
{
    match token.kind {
        Kind::Comma => Build::take(&[Read(Sym::Fields)]),
        Kind::CloseRound => Build::done(),
        _ => Build::Stop(Rule::S5),
    }
}

// The operator before a second list of fields, if any.
pub(crate) fn plus(op: Op) -> Build
    ensures { result ≡ plus_build op }
{
    match op {
        Op::Add => Build::take(&[Read(Sym::FieldsOpen)]),
        _ => Build::Pass,
    }
}

// A second list of fields, if any.
pub(crate) fn other_fields(token: Token) -> Build
    ensures { result ≡ other_fields_build token.kind token.at }
{
    match token.kind {
        Kind::Chain(op) => plus(op),
        _ => Build::Pass,
    }
}

// The block of a method.
pub(crate) fn body(token: Token) -> Build
    ensures { result ≡ body_build token.kind token.at }
{
    match token.kind {
        Kind::OpenCurly => Build::enter(&[Make(Action::StartItems), Read(Sym::Vars)]),
        _ => Build::Stop(Rule::S5),
    }
}

// What a method gives, if anything, and its block.
pub(crate) fn method_tail(token: Token) -> Build
    ensures { result ≡ method_tail_build token.kind token.at }
{
    match token.kind {
        Kind::OpenCurly => Build::enter(&[
            Make(Action::NoResult),
            Make(Action::StartItems),
            Read(Sym::Vars),
        ]),
        _ => whole_type(token, &[Make(Action::SomeResult), Read(Sym::Body)]),
    }
}

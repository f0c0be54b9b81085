// What a token does to the symbols of loops, jumps and assertions.

ghost use Rattle.std.specs.Prelude.{◌≡◌};
ghost use Rattle.wf_parse_grammar.specs.Building.{while_build, label_head_build, clauses_build, clause_tail_build, end_part_build, end_label_build, label_build, label_part_build, result_build, via_build};

use crate::builds::Build;
use crate::symbols::Want::{Make, Read};
use crate::symbols::{Action, Sym};
use crate::table_exprs::operand;
use crate::tokens::{Kind, Token};
use crate::wants::{Lead, Wants};
use wf_ast::TextId;
use wf_ast::parsed::{Clause, Name};
use wf_text::Rule;

// What follows `while`.
pub(crate) fn while_head(token: Token) -> Build
    ensures { result ≡ while_build token.kind token.at }
{
    match token.kind {
        Kind::Dot => Build::take(&[Read(Sym::LabelHead)]),
        _ => operand(
            token,
            &[
                Read(Sym::Rest),
                Make(Action::StartClauses),
                Read(Sym::Clauses),
                Read(Sym::EndPart),
                Make(Action::LoopStmt),
            ],
        ),
    }
}

// What follows `while .`.
pub(crate) fn label_head(token: Token) -> Build
    ensures { result ≡ label_head_build token.kind token.at }
{
    match token.kind {
        Kind::Name(text) => Build::Take(Wants::around(
            Lead::One(Action::PushName(Name { text, at: token.at })),
            &[
                Read(Sym::Expr),
                Make(Action::StartClauses),
                Read(Sym::Clauses),
            ],
            Sym::EndLabel(text),
            &[Make(Action::LabelledStmt)],
        )),
        _ => Build::Stop(Rule::S5),
    }
}

// What follows the condition or a promise of a loop.
pub(crate) fn clauses(token: Token) -> Build
    ensures { result ≡ clauses_build token.kind token.at }
{
    match token.kind {
        Kind::Comma => Build::take(&[Read(Sym::ClauseTail)]),
        Kind::OpenCurly => Build::take(&[Make(Action::StartItems), Read(Sym::Items)]),
        _ => Build::Stop(Rule::S5),
    }
}

// What follows a `,` there.
pub(crate) fn clause_tail(token: Token) -> Build
    ensures { result ≡ clause_tail_build token.kind token.at }
{
    match token.kind {
        Kind::Pre => Build::Take(Wants::led(
            Lead::One(Action::PushPlace(token.at)),
            &[
                Read(Sym::Expr),
                Make(Action::AddClause(Clause::Pre)),
                Read(Sym::Clauses),
            ],
            &[],
        )),
        Kind::Inv => Build::Take(Wants::led(
            Lead::One(Action::PushPlace(token.at)),
            &[
                Read(Sym::Expr),
                Make(Action::AddClause(Clause::Inv)),
                Read(Sym::Clauses),
            ],
            &[],
        )),
        Kind::Post => Build::Take(Wants::led(
            Lead::One(Action::PushPlace(token.at)),
            &[
                Read(Sym::Expr),
                Make(Action::AddClause(Clause::Post)),
                Read(Sym::Clauses),
            ],
            &[],
        )),
        Kind::OpenCurly => Build::take(&[Make(Action::StartItems), Read(Sym::Items)]),
        _ => Build::Stop(Rule::S5),
    }
}

// An `endwhile`, if any, of a loop without a label.
pub(crate) fn end_part(token: Token) -> Build
    ensures { result ≡ end_part_build token.kind token.at }
{
    match token.kind {
        Kind::Endwhile => Build::done(),
        _ => Build::Pass,
    }
}

// The `endwhile` of a loop with this label.
pub(crate) fn end_label(label: TextId, token: Token) -> Build
    ensures { result ≡ end_label_build label token.kind token.at }
{
    match token.kind {
        Kind::Endwhile => Build::Take(Wants::around(
            Lead::Empty,
            &[Read(Sym::ADot)],
            Sym::Label(label),
            &[],
        )),
        _ => Build::Stop(Rule::S5),
    }
}

// This name, after `endwhile .`.
pub(crate) fn label(label: TextId, token: Token) -> Build
    ensures { result ≡ label_build label token.kind token.at }
{
    match token.kind {
        Kind::Name(text) => {
            if label.0 == text.0 {
                Build::done()
            } else {
                Build::Stop(Rule::S5)
            }
        }
        _ => Build::Stop(Rule::S5),
    }
}

// A label, if any, after `break` or `continue`.
pub(crate) fn label_part(token: Token) -> Build
    ensures { result ≡ label_part_build token.kind token.at }
{
    match token.kind {
        Kind::Dot => Build::take(&[Read(Sym::AName), Make(Action::SomeLabel)]),
        _ => Build::Pass,
    }
}

// What `return` gives, if anything.
pub(crate) fn result_part(token: Token) -> Build
    ensures { result ≡ result_build token.kind token.at }
{
    match token.kind {
        Kind::Nothing => Build::take(&[Make(Action::NoPart)]),
        _ => operand(token, &[Read(Sym::Rest), Make(Action::SomePart)]).or_pass(),
    }
}

// A `via`, if any.
pub(crate) fn via(token: Token) -> Build
    ensures { result ≡ via_build token.kind token.at }
{
    match token.kind {
        Kind::Via => Build::take(&[
            Read(Sym::AText),
            Read(Sym::GivensOpen),
            Make(Action::SomeVia),
        ]),
        _ => Build::Pass,
    }
}

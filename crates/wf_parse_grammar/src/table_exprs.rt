// What a token does to the symbols of expressions and calls.

ghost use Rattle.std.specs.Prelude.{◌≡◌};
ghost use Rattle.wf_ast.specs.Operators.{same_op};
ghost use Rattle.wf_parse_grammar.specs.Building.{followed, atom_build, operand_build, expr_build, path_atom_build, call_open_build, this_atom_build, cut_build, cut_tail_build, cut_end_build, rest_build, links_build, end_build, givens_open_build, givens_build, more_givens_build};

use crate::builds::Build;
use crate::symbols::Want::{Make, Read};
use crate::symbols::{Action, Sym, Want};
use crate::tokens::{Kind, Token};
use crate::wants::{Lead, Wants};
use wf_ast::Op;
use wf_ast::parsed::{Name, WrittenMark};
use wf_text::Rule;

// An operand, apart from `not`.
pub(crate) fn atom(token: Token, after: &'static [Want]) -> Build
    ensures { result ≡ followed (atom_build token.kind token.at) after.now }
{
    match token.kind {
        Kind::Number(value) => Build::Take(Wants::led(
            Lead::One(Action::NumberExpr {
                value,
                at: token.at,
            }),
            &[],
            after,
        )),
        Kind::Text(text) => Build::Take(Wants::led(
            Lead::One(Action::OwnStatusExpr(Name { text, at: token.at })),
            &[],
            after,
        )),
        Kind::Ok => Build::Take(Wants::led(Lead::One(Action::FineExpr(token.at)), &[], after)),
        Kind::True => Build::Take(Wants::led(
            Lead::One(Action::TruthExpr {
                value: true,
                at: token.at,
            }),
            &[],
            after,
        )),
        Kind::False => Build::Take(Wants::led(
            Lead::One(Action::TruthExpr {
                value: false,
                at: token.at,
            }),
            &[],
            after,
        )),
        Kind::Base => Build::Take(Wants::led(
            Lead::One(Action::PushPlace(token.at)),
            &[
                Read(Sym::ADot),
                Read(Sym::AText),
                Make(Action::BaseStatusExpr),
            ],
            after,
        )),
        Kind::Name(text) => Build::Take(Wants::led(
            Lead::One(Action::BarePath(Name { text, at: token.at })),
            &[Read(Sym::PathAtom)],
            after,
        )),
        Kind::This => Build::Take(Wants::led(
            Lead::One(Action::PushPlace(token.at)),
            &[Read(Sym::ADot), Read(Sym::AName), Read(Sym::ThisAtom)],
            after,
        )),
        Kind::Args => Build::Take(Wants::led(
            Lead::One(Action::PushPlace(token.at)),
            &[
                Read(Sym::ADot),
                Read(Sym::AName),
                Make(Action::ArgsPath),
                Read(Sym::PathAtom),
            ],
            after,
        )),
        Kind::OpenRound => Build::Take(Wants::of(&[Read(Sym::Expr), Read(Sym::RightRound)], after)),
        _ => Build::Stop(Rule::S5),
    }
}

// An operand.
pub(crate) fn operand(token: Token, after: &'static [Want]) -> Build
    ensures { result ≡ followed (operand_build token.kind token.at) after.now }
{
    match token.kind {
        Kind::Not => Build::Take(Wants::led(
            Lead::One(Action::PushPlace(token.at)),
            &[Read(Sym::Atom), Make(Action::NotExpr)],
            after,
        )),
        _ => atom(token, after),
    }
}

// An expression.
pub(crate) fn expr(token: Token) -> Build
    ensures { result ≡ expr_build token.kind token.at }
{
    operand(token, &[Read(Sym::Rest)])
}

// What may follow a path that is an operand.
pub(crate) fn path_atom(token: Token) -> Build
    ensures { result ≡ path_atom_build token.kind token.at }
{
    match token.kind {
        Kind::OpenSquare => Build::Take(Wants::led(
            Lead::One(Action::PushPlace(token.at)),
            &[Read(Sym::Cut)],
            &[],
        )),
        Kind::Dot => Build::take(&[
            Make(Action::PathReceiver),
            Read(Sym::AName),
            Read(Sym::CallOpen),
            Make(Action::CallExpr),
        ]),
        _ => Build::Pass,
    }
}

// A mark, if any, and the `(` of a call.
pub(crate) fn call_open(token: Token) -> Build
    ensures { result ≡ call_open_build token.kind token.at }
{
    match token.kind {
        Kind::Exclamation => Build::take(&[
            Make(Action::PushMark(WrittenMark::Exclamation)),
            Read(Sym::GivensOpen),
            Make(Action::FinishCall),
        ]),
        Kind::Question => Build::take(&[
            Make(Action::PushMark(WrittenMark::Question)),
            Read(Sym::GivensOpen),
            Make(Action::FinishCall),
        ]),
        Kind::OpenRound => Build::take(&[
            Make(Action::PushMark(WrittenMark::Unmarked)),
            Make(Action::StartGivens),
            Read(Sym::Givens),
            Make(Action::FinishCall),
        ]),
        _ => Build::Stop(Rule::S5),
    }
}

// What may follow `this . NAME` in an operand.
pub(crate) fn this_atom(token: Token) -> Build
    ensures { result ≡ this_atom_build token.kind token.at }
{
    match token.kind {
        Kind::Exclamation => Build::take(&[
            Make(Action::ThisMethod),
            Make(Action::PushMark(WrittenMark::Exclamation)),
            Read(Sym::GivensOpen),
            Make(Action::FinishCall),
            Make(Action::CallExpr),
        ]),
        Kind::Question => Build::take(&[
            Make(Action::ThisMethod),
            Make(Action::PushMark(WrittenMark::Question)),
            Read(Sym::GivensOpen),
            Make(Action::FinishCall),
            Make(Action::CallExpr),
        ]),
        Kind::OpenRound => Build::take(&[
            Make(Action::ThisMethod),
            Make(Action::PushMark(WrittenMark::Unmarked)),
            Make(Action::StartGivens),
            Read(Sym::Givens),
            Make(Action::FinishCall),
            Make(Action::CallExpr),
        ]),
        Kind::OpenSquare => Build::Take(Wants::led(
            Lead::ThisPath(token.at),
            &[Read(Sym::Cut)],
            &[],
        )),
        Kind::Dot => Build::take(&[
            Make(Action::ThisPath),
            Make(Action::PathReceiver),
            Read(Sym::AName),
            Read(Sym::CallOpen),
            Make(Action::CallExpr),
        ]),
        _ => Build::Pass,
    }
}

// An index or a slice, after its `[`.
pub(crate) fn cut(token: Token) -> Build
    ensures { result ≡ cut_build token.kind token.at }
{
    match token.kind {
        Kind::Dots => Build::take(&[Make(Action::NoPart), Read(Sym::CutEnd)]),
        _ => operand(token, &[Read(Sym::Rest), Read(Sym::CutTail)]),
    }
}

// The same, after its first expression.
pub(crate) fn cut_tail(token: Token) -> Build
    ensures { result ≡ cut_tail_build token.kind token.at }
{
    match token.kind {
        Kind::CloseSquare => Build::take(&[Make(Action::IndexExpr)]),
        Kind::Dots => Build::take(&[Make(Action::SomePart), Read(Sym::CutEnd)]),
        _ => Build::Stop(Rule::S5),
    }
}

// The same, after its `..`.
pub(crate) fn cut_end(token: Token) -> Build
    ensures { result ≡ cut_end_build token.kind token.at }
{
    match token.kind {
        Kind::CloseSquare => Build::take(&[Make(Action::NoPart), Make(Action::SliceExpr)]),
        _ => operand(
            token,
            &[
                Read(Sym::Rest),
                Make(Action::SomePart),
                Read(Sym::RightSquare),
                Make(Action::SliceExpr),
            ],
        ),
    }
}

// What may follow the first operand.
pub(crate) fn rest(token: Token) -> Build
    ensures { result ≡ rest_build token.kind token.at }
{
    match token.kind {
        Kind::Chain(op) => Build::Take(Wants::around(
            Lead::Chain { op, at: token.at },
            &[Read(Sym::Operand), Make(Action::AddLink)],
            Sym::Links(op),
            &[],
        )),
        Kind::Binary(op) => Build::Take(Wants::led(
            Lead::Chain { op, at: token.at },
            &[
                Read(Sym::Operand),
                Make(Action::AddLink),
                Make(Action::FinishChain),
                Read(Sym::End),
            ],
            &[],
        )),
        Kind::As => Build::Take(Wants::led(
            Lead::One(Action::PushPlace(token.at)),
            &[
                Make(Action::StartType),
                Read(Sym::WholeType),
                Make(Action::ConvertExpr),
                Read(Sym::End),
            ],
            &[],
        )),
        _ => Build::Pass,
    }
}

// What may follow an operand of a chain of `op`.
pub(crate) fn links(op: Op, token: Token) -> Build
    ensures { result ≡ links_build op token.kind token.at }
{
    match token.kind {
        Kind::Chain(next) => {
            if same(op, next) {
                Build::Take(Wants::around(
                    Lead::One(Action::PushPlace(token.at)),
                    &[Read(Sym::Operand), Make(Action::AddLink)],
                    Sym::Links(op),
                    &[],
                ))
            } else {
                Build::Stop(Rule::S6)
            }
        }
        Kind::Binary(_) | Kind::As => Build::Stop(Rule::S6),
        _ => Build::Pass,
    }
}

// What may follow a whole operation.
pub(crate) fn end(token: Token) -> Build
    ensures { result ≡ end_build token.kind token.at }
{
    match token.kind {
        Kind::Chain(_) | Kind::Binary(_) | Kind::As => Build::Stop(Rule::S6),
        _ => Build::Pass,
    }
}

// The `(` of a call, after its mark.
pub(crate) fn givens_open(token: Token) -> Build
    ensures { result ≡ givens_open_build token.kind token.at }
{
    match token.kind {
        Kind::OpenRound => Build::take(&[Make(Action::StartGivens), Read(Sym::Givens)]),
        _ => Build::Stop(Rule::S5),
    }
}

// An argument, or the `)` of a call.
pub(crate) fn givens(token: Token) -> Build
    ensures { result ≡ givens_build token.kind token.at }
{
    match token.kind {
        Kind::Name(text) => Build::Take(Wants::led(
            Lead::One(Action::PushName(Name { text, at: token.at })),
            &[
                Read(Sym::AColon),
                Read(Sym::Expr),
                Make(Action::AddGiven),
                Read(Sym::MoreGivens),
            ],
            &[],
        )),
        Kind::CloseRound => Build::done(),
        _ => Build::Stop(Rule::S5),
    }
}

// What follows an argument.
pub(crate) fn more_givens(token: Token) -> Build
    ensures { result ≡ more_givens_build token.kind token.at }
{
    match token.kind {
        Kind::Comma => Build::take(&[Read(Sym::Givens)]),
        Kind::CloseRound => Build::done(),
        _ => Build::Stop(Rule::S5),
    }
}

// Whether two operators are the same.
fn same(one: Op, other: Op) -> bool
    ensures { result ≡ same_op one other }
{
    one == other
}

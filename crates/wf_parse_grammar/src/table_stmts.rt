// What a token does to the symbols of statements and blocks.

ghost use Rattle.std.specs.Prelude.{◌≡◌};
ghost use Rattle.wf_parse_grammar.specs.declared.symbols.Action.TheVariants as does;
ghost use Rattle.wf_parse_grammar.specs.Building.{followed, led, stmt_build, vars_build, more_vars_build, block_build, items_build, more_items_build, target_stmt_build, path_stmt_build, call_mark_build, this_stmt_build, call_build, call_this_build, else_build, else_tail_build};

use crate::builds::Build;
use crate::symbols::Want::{Make, Read};
use crate::symbols::{Action, Sym, Want};
use crate::tokens::{Kind, Token};
use crate::wants::{Lead, Wants};
use wf_ast::parsed::{Name, WrittenMark};
use wf_text::Rule;

// A statement.
pub(crate) fn stmt(token: Token, after: &'static [Want]) -> Build
    ensures { result ≡ followed (stmt_build token.kind token.at) after.now }
{
    match token.kind {
        Kind::Name(text) => Build::Begin(Wants::led(
            Lead::PlacedPath(Name { text, at: token.at }),
            &[Read(Sym::PathStmt)],
            after,
        )),
        Kind::This => Build::Begin(Wants::led(
            Lead::Places(token.at),
            &[Read(Sym::ADot), Read(Sym::AName), Read(Sym::ThisStmt)],
            after,
        )),
        Kind::Args => Build::Begin(Wants::led(
            Lead::Places(token.at),
            &[
                Read(Sym::ADot),
                Read(Sym::AName),
                Make(Action::ArgsPath),
                Read(Sym::PathStmt),
            ],
            after,
        )),
        Kind::If => Build::Begin(Wants::led(
            Lead::One(Action::PushPlace(token.at)),
            &[
                Make(Action::StartArms),
                Read(Sym::Expr),
                Read(Sym::Block),
                Make(Action::AddArm),
                Read(Sym::Else),
                Make(Action::IfStmt),
            ],
            after,
        )),
        Kind::While => Build::Begin(Wants::led(
            Lead::One(Action::PushPlace(token.at)),
            &[Read(Sym::WhileHead)],
            after,
        )),
        Kind::Break => Build::Begin(Wants::led(
            Lead::One(Action::PushPlace(token.at)),
            &[Read(Sym::LabelPart), Make(Action::BreakStmt)],
            after,
        )),
        Kind::Continue => Build::Begin(Wants::led(
            Lead::One(Action::PushPlace(token.at)),
            &[Read(Sym::LabelPart), Make(Action::ContinueStmt)],
            after,
        )),
        Kind::Return => Build::Begin(Wants::led(
            Lead::One(Action::PushPlace(token.at)),
            &[Read(Sym::Result), Make(Action::ReturnStmt)],
            after,
        )),
        Kind::Yield => Build::Begin(Wants::led(
            Lead::One(Action::PushPlace(token.at)),
            &[
                Read(Sym::AQuestion),
                Read(Sym::Expr),
                Make(Action::YieldStmt),
            ],
            after,
        )),
        Kind::Assert => Build::Begin(Wants::led(
            Lead::One(Action::PushPlace(token.at)),
            &[Read(Sym::Expr), Read(Sym::Via), Make(Action::AssertStmt)],
            after,
        )),
        _ => Build::Stop(Rule::S5),
    }
}

// A statement of a method, where a `var` may still stand, or the `}` of its block.
pub(crate) fn vars(token: Token) -> Build
    ensures { result ≡ vars_build token.kind token.at }
{
    match token.kind {
        Kind::CloseCurly => Build::Take(Wants::led(
            Lead::One(Action::CloseBlock(token.at)),
            &[],
            &[],
        )),
        Kind::Var => Build::Begin(Wants::led(
            Lead::One(Action::PushPlace(token.at)),
            &[
                Read(Sym::AName),
                Read(Sym::AColon),
                Make(Action::StartType),
                Read(Sym::WholeType),
                Make(Action::VarStmt),
                Make(Action::AddStmt),
                Read(Sym::MoreVars),
            ],
            &[],
        )),
        _ => stmt(token, &[Make(Action::AddStmt), Read(Sym::MoreItems)]),
    }
}

// What follows a `var`.
pub(crate) fn more_vars(token: Token) -> Build
    ensures { result ≡ more_vars_build token.kind token.at }
{
    match token.kind {
        Kind::Semicolon => Build::take(&[Read(Sym::Vars)]),
        Kind::CloseCurly => Build::Take(Wants::led(
            Lead::One(Action::CloseBlock(token.at)),
            &[],
            &[],
        )),
        _ => Build::Stop(Rule::S5),
    }
}

// A block.
pub(crate) fn block(token: Token) -> Build
    ensures { result ≡ block_build token.kind token.at }
{
    match token.kind {
        Kind::OpenCurly => Build::take(&[Make(Action::StartItems), Read(Sym::Items)]),
        _ => Build::Stop(Rule::S5),
    }
}

// A statement, or the `}` of its block.
pub(crate) fn items(token: Token) -> Build
    ensures { result ≡ items_build token.kind token.at }
{
    match token.kind {
        Kind::CloseCurly => Build::Take(Wants::led(
            Lead::One(Action::CloseBlock(token.at)),
            &[],
            &[],
        )),
        _ => stmt(token, &[Make(Action::AddStmt), Read(Sym::MoreItems)]),
    }
}

// What follows a statement.
pub(crate) fn more_items(token: Token) -> Build
    ensures { result ≡ more_items_build token.kind token.at }
{
    match token.kind {
        Kind::Semicolon => Build::take(&[Read(Sym::Items)]),
        Kind::CloseCurly => Build::Take(Wants::led(
            Lead::One(Action::CloseBlock(token.at)),
            &[],
            &[],
        )),
        _ => Build::Stop(Rule::S5),
    }
}

// What follows the target of a statement.
pub(crate) fn target_stmt(token: Token) -> Build
    ensures { result ≡ target_stmt_build token.kind token.at }
{
    match token.kind {
        Kind::Equals => Build::Take(Wants::led(
            Lead::One(Action::PushSign {
                op: None,
                at: token.at,
            }),
            &[Read(Sym::Expr), Make(Action::AssignStmt)],
            &[],
        )),
        Kind::Update(op) => Build::Take(Wants::led(
            Lead::One(Action::PushSign {
                op: Some(op),
                at: token.at,
            }),
            &[Read(Sym::Expr), Make(Action::AssignStmt)],
            &[],
        )),
        Kind::KeepEquals => Build::take(&[Read(Sym::Call), Make(Action::KeepStmt)]),
        _ => Build::Stop(Rule::S5),
    }
}

// The same, where the target is the path that was read.
fn path_target(token: Token) -> Build
    ensures { result ≡ led does.PathTarget (target_stmt_build token.kind token.at) }
{
    match token.kind {
        Kind::Equals => Build::Take(Wants::led(
            Lead::Target {
                op: None,
                at: token.at,
            },
            &[Read(Sym::Expr), Make(Action::AssignStmt)],
            &[],
        )),
        Kind::Update(op) => Build::Take(Wants::led(
            Lead::Target {
                op: Some(op),
                at: token.at,
            },
            &[Read(Sym::Expr), Make(Action::AssignStmt)],
            &[],
        )),
        Kind::KeepEquals => Build::take(&[
            Make(Action::PathTarget),
            Read(Sym::Call),
            Make(Action::KeepStmt),
        ]),
        _ => Build::Stop(Rule::S5),
    }
}

// What follows the path that begins a statement.
pub(crate) fn path_stmt(token: Token) -> Build
    ensures { result ≡ path_stmt_build token.kind token.at }
{
    match token.kind {
        Kind::OpenSquare => Build::Take(Wants::led(
            Lead::One(Action::PushPlace(token.at)),
            &[
                Read(Sym::Expr),
                Read(Sym::RightSquare),
                Make(Action::ElementTarget),
                Read(Sym::TargetStmt),
            ],
            &[],
        )),
        Kind::Dot => Build::take(&[
            Make(Action::PathReceiver),
            Read(Sym::AName),
            Read(Sym::CallMark),
            Make(Action::CallStmt),
        ]),
        _ => path_target(token),
    }
}

// The mark of a call.
pub(crate) fn call_mark(token: Token) -> Build
    ensures { result ≡ call_mark_build token.kind token.at }
{
    match token.kind {
        Kind::Exclamation => Build::take(&[
            Make(Action::PushMark(WrittenMark::Exclamation)),
            Read(Sym::GivensOpen),
            Make(Action::FinishCall),
        ]),
        Kind::Question => Build::take(&[
            Make(Action::PushMark(WrittenMark::Question)),
            Read(Sym::GivensOpen),
            Make(Action::FinishCall),
        ]),
        _ => Build::Stop(Rule::S5),
    }
}

// What follows `this . NAME` at the head of a statement.
pub(crate) fn this_stmt(token: Token) -> Build
    ensures { result ≡ this_stmt_build token.kind token.at }
{
    match token.kind {
        Kind::Exclamation => Build::take(&[
            Make(Action::ThisMethod),
            Make(Action::PushMark(WrittenMark::Exclamation)),
            Read(Sym::GivensOpen),
            Make(Action::FinishCall),
            Make(Action::CallStmt),
        ]),
        Kind::Question => Build::take(&[
            Make(Action::ThisMethod),
            Make(Action::PushMark(WrittenMark::Question)),
            Read(Sym::GivensOpen),
            Make(Action::FinishCall),
            Make(Action::CallStmt),
        ]),
        _ => this_path_stmt(token),
    }
}

// The same, where `this . NAME` is a path.
fn this_path_stmt(token: Token) -> Build
    ensures { result ≡ led does.ThisPath (path_stmt_build token.kind token.at) }
{
    match token.kind {
        Kind::OpenSquare => Build::Take(Wants::led(
            Lead::ThisPath(token.at),
            &[
                Read(Sym::Expr),
                Read(Sym::RightSquare),
                Make(Action::ElementTarget),
                Read(Sym::TargetStmt),
            ],
            &[],
        )),
        Kind::Dot => Build::take(&[
            Make(Action::ThisPath),
            Make(Action::PathReceiver),
            Read(Sym::AName),
            Read(Sym::CallMark),
            Make(Action::CallStmt),
        ]),
        Kind::Equals => Build::Take(Wants::led(
            Lead::ThisTarget {
                op: None,
                at: token.at,
            },
            &[Read(Sym::Expr), Make(Action::AssignStmt)],
            &[],
        )),
        Kind::Update(op) => Build::Take(Wants::led(
            Lead::ThisTarget {
                op: Some(op),
                at: token.at,
            },
            &[Read(Sym::Expr), Make(Action::AssignStmt)],
            &[],
        )),
        Kind::KeepEquals => Build::take(&[
            Make(Action::ThisPath),
            Make(Action::PathTarget),
            Read(Sym::Call),
            Make(Action::KeepStmt),
        ]),
        _ => Build::Stop(Rule::S5),
    }
}

// The call after `=?`.
pub(crate) fn call(token: Token) -> Build
    ensures { result ≡ call_build token.kind token.at }
{
    match token.kind {
        Kind::Name(text) => Build::Take(Wants::led(
            Lead::One(Action::BarePath(Name { text, at: token.at })),
            &[
                Make(Action::PathReceiver),
                Read(Sym::ADot),
                Read(Sym::AName),
                Read(Sym::CallMark),
            ],
            &[],
        )),
        Kind::This => Build::Take(Wants::led(
            Lead::One(Action::PushPlace(token.at)),
            &[Read(Sym::ADot), Read(Sym::AName), Read(Sym::CallThis)],
            &[],
        )),
        Kind::Args => Build::Take(Wants::led(
            Lead::One(Action::PushPlace(token.at)),
            &[
                Read(Sym::ADot),
                Read(Sym::AName),
                Make(Action::ArgsPath),
                Make(Action::PathReceiver),
                Read(Sym::ADot),
                Read(Sym::AName),
                Read(Sym::CallMark),
            ],
            &[],
        )),
        _ => Build::Stop(Rule::S5),
    }
}

// What follows `this . NAME` in that call.
pub(crate) fn call_this(token: Token) -> Build
    ensures { result ≡ call_this_build token.kind token.at }
{
    match token.kind {
        Kind::Dot => Build::take(&[
            Make(Action::ThisPath),
            Make(Action::PathReceiver),
            Read(Sym::AName),
            Read(Sym::CallMark),
        ]),
        Kind::Exclamation => Build::take(&[
            Make(Action::ThisMethod),
            Make(Action::PushMark(WrittenMark::Exclamation)),
            Read(Sym::GivensOpen),
            Make(Action::FinishCall),
        ]),
        Kind::Question => Build::take(&[
            Make(Action::ThisMethod),
            Make(Action::PushMark(WrittenMark::Question)),
            Read(Sym::GivensOpen),
            Make(Action::FinishCall),
        ]),
        _ => Build::Stop(Rule::S5),
    }
}

// An `else`, if any.
pub(crate) fn else_part(token: Token) -> Build
    ensures { result ≡ else_build token.kind token.at }
{
    match token.kind {
        Kind::Else => Build::take(&[Read(Sym::ElseTail)]),
        _ => Build::Pass,
    }
}

// What follows an `else`.
pub(crate) fn else_tail(token: Token) -> Build
    ensures { result ≡ else_tail_build token.kind token.at }
{
    match token.kind {
        Kind::If => Build::take(&[
            Read(Sym::Expr),
            Read(Sym::Block),
            Make(Action::AddArm),
            Read(Sym::Else),
        ]),
        Kind::OpenCurly => Build::take(&[
            Make(Action::StartItems),
            Read(Sym::Items),
            Make(Action::SomeElse),
        ]),
        _ => Build::Stop(Rule::S5),
    }
}

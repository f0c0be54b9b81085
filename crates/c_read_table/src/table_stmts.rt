// What a token does to a part of a statement that is wanted.

ghost use Rattle.std.specs.Prelude.{◌≡◌};
ghost use Rattle.c_read_grammar.specs.Machine.{followed, word_stmt_move, mark_stmt_move, stmt_move, stmts_move, stmt_name_move, stmt_paren_move, becomes_move, value_move, value_name_move, returned_move, else_move, else_tail_move, stmt_sym_move};
ghost use Rattle.c_read_tokens.specs.Kinds.{bare};
ghost use Rattle.c_read_table.specs.Moves.{seen};

use crate::moves::Move;
use crate::table_exprs;
use crate::wants::After;
use c_read_grammar::Want::{Perform, Read};
use c_read_grammar::{Action, ExprAction, ExprSym, StmtAction, StmtSym, Sym, TokenSym, Want};
use c_read_tokens::Kind;
use c_text::{CMark, COp, CWord};

// A statement that begins with a word.
pub(crate) fn word_stmt(word: CWord, after: &'static [Want]) -> Move
    ensures { seen result ≡ followed (word_stmt_move word) after.now }
{
    match word {
        CWord::Goto => Move::then(
            &[
                Read(Sym::Token(TokenSym::Name)),
                Read(Sym::Token(TokenSym::Mark(CMark::Semicolon))),
                Perform(Action::Stmt(StmtAction::MakeGoto)),
            ],
            After::of(after, &[]),
        ),
        CWord::If => Move::then(
            &[
                Read(Sym::Token(TokenSym::Mark(CMark::OpenParen))),
                Read(Sym::Expr(ExprSym::Expr)),
                Read(Sym::Token(TokenSym::Mark(CMark::CloseParen))),
                Read(Sym::Token(TokenSym::Mark(CMark::OpenBrace))),
                Perform(Action::Stmt(StmtAction::StartBlock)),
                Read(Sym::Stmt(StmtSym::Stmts)),
                Perform(Action::Stmt(StmtAction::AddArm)),
                Read(Sym::Stmt(StmtSym::Else)),
                Perform(Action::Stmt(StmtAction::MakeIf)),
            ],
            After::of(after, &[]),
        ),
        CWord::While => Move::then(
            &[
                Read(Sym::Token(TokenSym::Mark(CMark::OpenParen))),
                Read(Sym::Expr(ExprSym::Expr)),
                Read(Sym::Token(TokenSym::Mark(CMark::CloseParen))),
                Read(Sym::Token(TokenSym::Mark(CMark::OpenBrace))),
                Perform(Action::Stmt(StmtAction::StartBlock)),
                Read(Sym::Stmt(StmtSym::Stmts)),
                Perform(Action::Stmt(StmtAction::MakeWhile)),
            ],
            After::of(after, &[]),
        ),
        CWord::Switch => Move::then(
            &[
                Read(Sym::Token(TokenSym::Mark(CMark::OpenParen))),
                Read(Sym::Expr(ExprSym::Expr)),
                Read(Sym::Token(TokenSym::Mark(CMark::CloseParen))),
                Read(Sym::Token(TokenSym::Mark(CMark::OpenBrace))),
                Perform(Action::Stmt(StmtAction::StartBlock)),
                Read(Sym::Stmt(StmtSym::Stmts)),
                Perform(Action::Stmt(StmtAction::MakeSwitch)),
            ],
            After::of(after, &[]),
        ),
        CWord::Return => Move::then(&[Read(Sym::Stmt(StmtSym::Returned))], After::of(after, &[])),
        CWord::Case => Move::then(
            &[
                Read(Sym::Token(TokenSym::Number)),
                Read(Sym::Token(TokenSym::Mark(CMark::Colon))),
                Perform(Action::Stmt(StmtAction::MakeCase)),
                Read(Sym::Stmt(StmtSym::Stmt)),
            ],
            After::of(after, &[]),
        ),
        CWord::Default => Move::then(
            &[
                Read(Sym::Token(TokenSym::Mark(CMark::Colon))),
                Perform(Action::Stmt(StmtAction::MakeDefault)),
                Read(Sym::Stmt(StmtSym::Stmt)),
            ],
            After::of(after, &[]),
        ),
        _ => Move::Stop,
    }
}

// A statement that begins with a mark.
pub(crate) fn mark_stmt(mark: CMark, after: &'static [Want]) -> Move
    ensures { seen result ≡ followed (mark_stmt_move mark) after.now }
{
    match mark {
        CMark::OpenBrace => Move::then(
            &[
                Perform(Action::Stmt(StmtAction::StartBlock)),
                Read(Sym::Stmt(StmtSym::Stmts)),
                Perform(Action::Stmt(StmtAction::MakeNested)),
            ],
            After::of(after, &[]),
        ),
        CMark::Semicolon => Move::then(
            &[Perform(Action::Stmt(StmtAction::MakeEmpty))],
            After::of(after, &[]),
        ),
        CMark::OpenParen => Move::then(
            &[Read(Sym::Stmt(StmtSym::StmtParen))],
            After::of(after, &[]),
        ),
        _ => Move::Stop,
    }
}

// A statement.
pub(crate) fn stmt(kind: Kind, after: &'static [Want]) -> Move
    ensures { seen result ≡ followed (stmt_move (bare kind)) after.now }
{
    match kind {
        Kind::Keyword(word) => word_stmt(word, after),
        Kind::Mark(mark) => mark_stmt(mark, after),
        Kind::Name => Move::then(&[Read(Sym::Stmt(StmtSym::StmtName))], After::of(after, &[])),
        _ => Move::Stop,
    }
}

// The statements of a block and its `}`.
pub(crate) fn stmts(kind: Kind) -> Move
    ensures { seen result ≡ stmts_move (bare kind) }
{
    match kind {
        Kind::Mark(CMark::CloseBrace) => Move::take(&[Perform(Action::Stmt(StmtAction::EndBlock))]),
        _ => stmt(kind, &[Read(Sym::Stmt(StmtSym::Stmts))]),
    }
}

// What is left of a statement after a NAME.
#[tactic(auto, using(crate::proofs::MoveLemmas::followed_variable_twice))]
pub(crate) fn stmt_name(kind: Kind, after: &'static [Want]) -> Move
    ensures { seen result ≡ followed (stmt_name_move (bare kind)) after.now }
{
    match kind {
        Kind::Mark(CMark::Colon) => Move::then(
            &[
                Perform(Action::Stmt(StmtAction::MakeLabel)),
                Read(Sym::Stmt(StmtSym::Stmt)),
            ],
            After::of(after, &[]),
        ),
        Kind::Mark(CMark::OpenParen) => Move::then(
            &[
                Perform(Action::Expr(ExprAction::StartArgs)),
                Read(Sym::Expr(ExprSym::Args)),
                Read(Sym::Token(TokenSym::Mark(CMark::Semicolon))),
                Perform(Action::Stmt(StmtAction::MakeCall)),
            ],
            After::of(after, &[]),
        ),
        Kind::Mark(CMark::Assign) => Move::then(
            &[
                Perform(Action::Expr(ExprAction::MakeVariable)),
                Read(Sym::Stmt(StmtSym::Value)),
            ],
            After::of(after, &[]),
        ),
        _ => table_exprs::first_tail(
            &[Perform(Action::Expr(ExprAction::MakeVariable))],
            kind,
            After::of(&[Read(Sym::Stmt(StmtSym::Becomes))], after),
        ),
    }
}

// What is left of a statement after a `(`.
pub(crate) fn stmt_paren(kind: Kind) -> Move
    ensures { seen result ≡ stmt_paren_move (bare kind) }
{
    match kind {
        Kind::Operator(COp::Mul) => Move::take(&[
            Read(Sym::Expr(ExprSym::Post)),
            Read(Sym::Token(TokenSym::Mark(CMark::CloseParen))),
            Perform(Action::Expr(ExprAction::MakePointed)),
            Read(Sym::Expr(ExprSym::Tail)),
            Read(Sym::Stmt(StmtSym::Becomes)),
        ]),
        _ => table_exprs::paren(
            kind,
            &[
                Read(Sym::Expr(ExprSym::FirstTail)),
                Read(Sym::Stmt(StmtSym::Becomes)),
            ],
        ),
    }
}

// `=` and what is assigned.
pub(crate) fn becomes(kind: Kind) -> Move
    ensures { seen result ≡ becomes_move (bare kind) }
{
    match kind {
        Kind::Mark(CMark::Assign) => Move::take(&[Read(Sym::Stmt(StmtSym::Value))]),
        _ => Move::Stop,
    }
}

// What is assigned, after the `=`.
pub(crate) fn value(kind: Kind) -> Move
    ensures { seen result ≡ value_move (bare kind) }
{
    match kind {
        Kind::Name => Move::take(&[Read(Sym::Stmt(StmtSym::ValueName))]),
        _ => table_exprs::expr(
            kind,
            After::of(
                &[
                    Read(Sym::Token(TokenSym::Mark(CMark::Semicolon))),
                    Perform(Action::Stmt(StmtAction::MakeAssign)),
                ],
                &[],
            ),
        ),
    }
}

// The same, after its NAME.
#[tactic(auto, using(crate::proofs::MoveLemmas::followed_variable))]
pub(crate) fn value_name(kind: Kind) -> Move
    ensures { seen result ≡ value_name_move (bare kind) }
{
    match kind {
        Kind::Mark(CMark::OpenParen) => Move::take(&[
            Perform(Action::Expr(ExprAction::StartArgs)),
            Read(Sym::Expr(ExprSym::Args)),
            Read(Sym::Token(TokenSym::Mark(CMark::Semicolon))),
            Perform(Action::Stmt(StmtAction::MakeCallInto)),
        ]),
        Kind::Mark(CMark::Semicolon) => Move::take(&[
            Perform(Action::Expr(ExprAction::MakeVariable)),
            Perform(Action::Stmt(StmtAction::MakeAssign)),
        ]),
        _ => table_exprs::first_tail(
            &[Perform(Action::Expr(ExprAction::MakeVariable))],
            kind,
            After::of(
                &[
                    Read(Sym::Token(TokenSym::Mark(CMark::Semicolon))),
                    Perform(Action::Stmt(StmtAction::MakeAssign)),
                ],
                &[],
            ),
        ),
    }
}

// What is left of a `return` after its word.
pub(crate) fn returned(kind: Kind) -> Move
    ensures { seen result ≡ returned_move (bare kind) }
{
    match kind {
        Kind::Mark(CMark::Semicolon) => Move::take(&[Perform(Action::Stmt(
            StmtAction::MakeReturn,
        ))]),
        _ => table_exprs::expr(
            kind,
            After::of(
                &[
                    Read(Sym::Token(TokenSym::Mark(CMark::Semicolon))),
                    Perform(Action::Stmt(StmtAction::MakeReturnValue)),
                ],
                &[],
            ),
        ),
    }
}

// What may follow the block of an `if`.
pub(crate) fn else_part(kind: Kind) -> Move
    ensures { seen result ≡ else_move (bare kind) }
{
    match kind {
        Kind::Keyword(CWord::Else) => Move::take(&[Read(Sym::Stmt(StmtSym::ElseTail))]),
        _ => Move::Pass,
    }
}

// What is left of an `else` after its word.
pub(crate) fn else_tail(kind: Kind) -> Move
    ensures { seen result ≡ else_tail_move (bare kind) }
{
    match kind {
        Kind::Keyword(CWord::If) => Move::take(&[
            Read(Sym::Token(TokenSym::Mark(CMark::OpenParen))),
            Read(Sym::Expr(ExprSym::Expr)),
            Read(Sym::Token(TokenSym::Mark(CMark::CloseParen))),
            Read(Sym::Token(TokenSym::Mark(CMark::OpenBrace))),
            Perform(Action::Stmt(StmtAction::StartBlock)),
            Read(Sym::Stmt(StmtSym::Stmts)),
            Perform(Action::Stmt(StmtAction::AddArm)),
            Read(Sym::Stmt(StmtSym::Else)),
        ]),
        Kind::Mark(CMark::OpenBrace) => Move::take(&[
            Perform(Action::Stmt(StmtAction::StartBlock)),
            Read(Sym::Stmt(StmtSym::Stmts)),
        ]),
        _ => Move::Stop,
    }
}

// What `kind` does to a part of a statement.
#[tactic(auto, using(crate::proofs::MoveLemmas::followed_nothing))]
pub(crate) fn stmt_sym(symbol: StmtSym, kind: Kind) -> Move
    ensures { seen result ≡ stmt_sym_move symbol (bare kind) }
{
    match symbol {
        StmtSym::Stmts => stmts(kind),
        StmtSym::Stmt => stmt(kind, &[]),
        StmtSym::StmtName => stmt_name(kind, &[]),
        StmtSym::StmtParen => stmt_paren(kind),
        StmtSym::Becomes => becomes(kind),
        StmtSym::Value => value(kind),
        StmtSym::ValueName => value_name(kind),
        StmtSym::Returned => returned(kind),
        StmtSym::Else => else_part(kind),
        StmtSym::ElseTail => else_tail(kind),
    }
}

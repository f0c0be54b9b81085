// What a token does to a part of an expression that is wanted.

ghost use Rattle.std.specs.Prelude.{◌≡◌};
ghost use Rattle.c_read_grammar.specs.Machine.{followed, behind_variable, post_move, expr_move, first_tail_move, tail_move, operator_move, operands_move, paren_op_move, paren_mark_move, paren_move, variable_move, paren_name_move, paren_paren_move, paren_paren_name_move, paren_paren_star_move, arg_move, args_move, more_args_move, expr_sym_move};
ghost use Rattle.c_read_tokens.specs.Kinds.{bare};
ghost use Rattle.c_read_table.specs.Moves.{seen, around};

use crate::moves::Move;
use crate::table_types;
use crate::wants::{After, Wants};
use c_read_grammar::Want::{Perform, Read};
use c_read_grammar::{Action, ExprAction, ExprSym, Sym, TokenSym, TypeAction, Want};
use c_read_tokens::{Kind, repeats};
use c_text::{CMark, COp, CUnary, CWord};

// An expression that isn't a literal.
pub(crate) fn post(kind: Kind, after: After) -> Move
    ensures { seen result ≡ followed (post_move (bare kind)) after }
{
    match kind {
        Kind::Name => Move::then(
            &[
                Perform(Action::Expr(ExprAction::MakeVariable)),
                Read(Sym::Expr(ExprSym::Tail)),
            ],
            after,
        ),
        Kind::Mark(CMark::OpenParen) => Move::then(
            &[
                Read(Sym::Expr(ExprSym::Paren)),
                Read(Sym::Expr(ExprSym::Tail)),
            ],
            after,
        ),
        _ => Move::Stop,
    }
}

// An expression.
pub(crate) fn expr(kind: Kind, after: After) -> Move
    ensures { seen result ≡ followed (expr_move (bare kind)) after }
{
    match kind {
        Kind::Number(_) => Move::then(&[Perform(Action::Expr(ExprAction::MakeNumber))], after),
        _ => post(kind, after),
    }
}

// The same, at least one.
pub(crate) fn first_tail(lead: &'static [Want], kind: Kind, after: After) -> Move
    ensures { seen result ≡ around lead.now (first_tail_move (bare kind)) after }
{
    match kind {
        Kind::Mark(CMark::Arrow) => Move::Take(Wants::led(
            lead,
            &[
                Read(Sym::Token(TokenSym::Name)),
                Perform(Action::Expr(ExprAction::MakeMember)),
                Read(Sym::Expr(ExprSym::Tail)),
            ],
            after,
        )),
        Kind::Mark(CMark::OpenBracket) => Move::Take(Wants::led(
            lead,
            &[
                Read(Sym::Expr(ExprSym::Expr)),
                Read(Sym::Token(TokenSym::Mark(CMark::CloseBracket))),
                Perform(Action::Expr(ExprAction::MakeElement)),
                Read(Sym::Expr(ExprSym::Tail)),
            ],
            after,
        )),
        _ => Move::Stop,
    }
}

// Any number of `->` NAME and `[` expr `]`.
pub(crate) fn tail(kind: Kind) -> Move
    ensures { seen result ≡ tail_move (bare kind) }
{
    match kind {
        Kind::Mark(CMark::Arrow) => Move::take(&[
            Read(Sym::Token(TokenSym::Name)),
            Perform(Action::Expr(ExprAction::MakeMember)),
            Read(Sym::Expr(ExprSym::Tail)),
        ]),
        Kind::Mark(CMark::OpenBracket) => Move::take(&[
            Read(Sym::Expr(ExprSym::Expr)),
            Read(Sym::Token(TokenSym::Mark(CMark::CloseBracket))),
            Perform(Action::Expr(ExprAction::MakeElement)),
            Read(Sym::Expr(ExprSym::Tail)),
        ]),
        _ => Move::Pass,
    }
}

// What is left of an expression after `(` and its first operand.
pub(crate) fn operator(lead: &'static [Want], kind: Kind, after: &'static [Want]) -> Move
    ensures { seen result ≡ around lead.now (operator_move (bare kind)) after.now }
{
    match kind {
        Kind::Operator(op) => Move::Take(Wants::led(
            lead,
            &[
                Read(Sym::Expr(ExprSym::Expr)),
                Perform(Action::Expr(ExprAction::StartOperation)),
            ],
            After::led(Read(Sym::Expr(ExprSym::Operands(op))), after, &[]),
        )),
        Kind::Mark(CMark::Question) => Move::Take(Wants::led(
            lead,
            &[
                Read(Sym::Expr(ExprSym::Expr)),
                Read(Sym::Token(TokenSym::Mark(CMark::Colon))),
                Read(Sym::Expr(ExprSym::Expr)),
                Read(Sym::Token(TokenSym::Mark(CMark::CloseParen))),
                Perform(Action::Expr(ExprAction::MakeChoice)),
            ],
            After::of(after, &[]),
        )),
        _ => Move::Stop,
    }
}

// More operands of this operator, where it repeats, and `)`.
pub(crate) fn operands(op: COp, kind: Kind) -> Move
    ensures { seen result ≡ operands_move op (bare kind) }
{
    match kind {
        Kind::Operator(next) if op == next && repeats(op) => Move::then(
            &[
                Read(Sym::Expr(ExprSym::Expr)),
                Perform(Action::Expr(ExprAction::AddOperand)),
            ],
            After::led(Read(Sym::Expr(ExprSym::Operands(op))), &[], &[]),
        ),
        Kind::Mark(CMark::CloseParen) => Move::then(
            &[],
            After::led(
                Perform(Action::Expr(ExprAction::MakeOperation(op))),
                &[],
                &[],
            ),
        ),
        _ => Move::Stop,
    }
}

// What is left of an expression after its `(`, where an operator follows.
pub(crate) fn paren_op(op: COp, after: &'static [Want]) -> Move
    ensures { seen result ≡ followed (paren_op_move op) after.now }
{
    match op {
        COp::Mul => Move::then(
            &[
                Read(Sym::Expr(ExprSym::Post)),
                Read(Sym::Token(TokenSym::Mark(CMark::CloseParen))),
                Perform(Action::Expr(ExprAction::MakePointed)),
            ],
            After::of(after, &[]),
        ),
        COp::BitAnd => Move::then(
            &[
                Read(Sym::Expr(ExprSym::Expr)),
                Read(Sym::Token(TokenSym::Mark(CMark::CloseParen))),
                Perform(Action::Expr(ExprAction::MakeUnary(CUnary::Address))),
            ],
            After::of(after, &[]),
        ),
        _ => Move::Stop,
    }
}

// The same, where a mark follows.
pub(crate) fn paren_mark(mark: CMark, after: &'static [Want]) -> Move
    ensures { seen result ≡ followed (paren_mark_move mark) after.now }
{
    match mark {
        CMark::Not => Move::then(
            &[
                Read(Sym::Expr(ExprSym::Expr)),
                Read(Sym::Token(TokenSym::Mark(CMark::CloseParen))),
                Perform(Action::Expr(ExprAction::MakeUnary(CUnary::Not))),
            ],
            After::of(after, &[]),
        ),
        CMark::Complement => Move::then(
            &[
                Read(Sym::Expr(ExprSym::Expr)),
                Read(Sym::Token(TokenSym::Mark(CMark::CloseParen))),
                Perform(Action::Expr(ExprAction::MakeUnary(CUnary::Complement))),
            ],
            After::of(after, &[]),
        ),
        CMark::OpenParen => Move::then(
            &[Read(Sym::Expr(ExprSym::ParenParen))],
            After::of(after, &[]),
        ),
        _ => Move::Stop,
    }
}

// What is left of an expression after its `(`.
pub(crate) fn paren(kind: Kind, after: &'static [Want]) -> Move
    ensures { seen result ≡ followed (paren_move (bare kind)) after.now }
{
    match kind {
        Kind::Operator(op) => paren_op(op, after),
        Kind::Mark(mark) => paren_mark(mark, after),
        Kind::Number(_) => Move::then(
            &[
                Perform(Action::Expr(ExprAction::MakeNumber)),
                Read(Sym::Expr(ExprSym::Operator)),
            ],
            After::of(after, &[]),
        ),
        Kind::Name => Move::then(
            &[Read(Sym::Expr(ExprSym::ParenName))],
            After::of(after, &[]),
        ),
        _ => Move::Stop,
    }
}

// A variable that is the first operand, and what may follow it.
#[tactic(auto, using(crate::proofs::MoveLemmas::variable_followed))]
pub(crate) fn variable(kind: Kind, after: &'static [Want]) -> Move
    ensures { seen result ≡ followed (behind_variable (variable_move (bare kind))) after.now }
{
    match kind {
        Kind::Mark(CMark::Arrow) => first_tail(
            &[Perform(Action::Expr(ExprAction::MakeVariable))],
            Kind::Mark(CMark::Arrow),
            After::of(&[Read(Sym::Expr(ExprSym::Operator))], after),
        ),
        Kind::Mark(CMark::OpenBracket) => first_tail(
            &[Perform(Action::Expr(ExprAction::MakeVariable))],
            Kind::Mark(CMark::OpenBracket),
            After::of(&[Read(Sym::Expr(ExprSym::Operator))], after),
        ),
        _ => operator(
            &[Perform(Action::Expr(ExprAction::MakeVariable))],
            kind,
            after,
        ),
    }
}

// What is left of an expression after `(` NAME.
pub(crate) fn paren_name(kind: Kind, after: &'static [Want]) -> Move
    ensures { seen result ≡ followed (paren_name_move (bare kind)) after.now }
{
    match kind {
        Kind::Mark(CMark::OpenParen) => Move::then(
            &[
                Perform(Action::Expr(ExprAction::StartArgs)),
                Read(Sym::Expr(ExprSym::Args)),
                Read(Sym::Token(TokenSym::Mark(CMark::CloseParen))),
                Perform(Action::Expr(ExprAction::MakeCalled)),
            ],
            After::of(after, &[]),
        ),
        _ => variable(kind, after),
    }
}

// What is left of an expression after `( (`.
pub(crate) fn paren_paren(kind: Kind) -> Move
    ensures { seen result ≡ paren_paren_move (bare kind) }
{
    match kind {
        Kind::Keyword(word) => table_types::word_type(
            word,
            After::of(
                &[
                    Read(Sym::Token(TokenSym::Mark(CMark::CloseParen))),
                    Read(Sym::Expr(ExprSym::Expr)),
                    Read(Sym::Token(TokenSym::Mark(CMark::CloseParen))),
                    Perform(Action::Expr(ExprAction::MakeCast)),
                ],
                &[],
            ),
        ),
        Kind::Name => Move::take(&[Read(Sym::Expr(ExprSym::ParenParenName))]),
        _ => paren(
            kind,
            &[
                Read(Sym::Expr(ExprSym::Tail)),
                Read(Sym::Expr(ExprSym::Operator)),
            ],
        ),
    }
}

// What is left of an expression after `( (` NAME.
pub(crate) fn paren_paren_name(kind: Kind) -> Move
    ensures { seen result ≡ paren_paren_name_move (bare kind) }
{
    match kind {
        Kind::Operator(COp::Mul) => Move::take(&[Read(Sym::Expr(ExprSym::ParenParenStar))]),
        _ => paren_name(
            kind,
            &[
                Read(Sym::Expr(ExprSym::Tail)),
                Read(Sym::Expr(ExprSym::Operator)),
            ],
        ),
    }
}

// What is left of an expression after `( (` NAME `*`.
pub(crate) fn paren_paren_star(kind: Kind) -> Move
    ensures { seen result ≡ paren_paren_star_move (bare kind) }
{
    match kind {
        Kind::Mark(CMark::CloseParen) => Move::take(&[
            Perform(Action::Type(TypeAction::MakeStructPointer)),
            Read(Sym::Expr(ExprSym::Expr)),
            Read(Sym::Token(TokenSym::Mark(CMark::CloseParen))),
            Perform(Action::Expr(ExprAction::MakeCast)),
        ]),
        Kind::Mark(CMark::OpenParen) => Move::take(&[
            Perform(Action::Expr(ExprAction::MakeVariable)),
            Read(Sym::Expr(ExprSym::Paren)),
            Read(Sym::Expr(ExprSym::Tail)),
            Perform(Action::Expr(ExprAction::StartOperation)),
            Read(Sym::Expr(ExprSym::Operands(COp::Mul))),
            Read(Sym::Expr(ExprSym::Tail)),
            Read(Sym::Expr(ExprSym::Operator)),
        ]),
        Kind::Number(_) => Move::take(&[
            Perform(Action::Expr(ExprAction::MakeVariableBelow)),
            Perform(Action::Expr(ExprAction::MakeNumber)),
            Perform(Action::Expr(ExprAction::StartOperation)),
            Read(Sym::Expr(ExprSym::Operands(COp::Mul))),
            Read(Sym::Expr(ExprSym::Tail)),
            Read(Sym::Expr(ExprSym::Operator)),
        ]),
        Kind::Name => Move::take(&[
            Perform(Action::Expr(ExprAction::MakeVariableBelow)),
            Perform(Action::Expr(ExprAction::MakeVariable)),
            Read(Sym::Expr(ExprSym::Tail)),
            Perform(Action::Expr(ExprAction::StartOperation)),
            Read(Sym::Expr(ExprSym::Operands(COp::Mul))),
            Read(Sym::Expr(ExprSym::Tail)),
            Read(Sym::Expr(ExprSym::Operator)),
        ]),
        _ => Move::Stop,
    }
}

// An argument.
#[tactic(auto, using(crate::proofs::MoveLemmas::followed_twice))]
pub(crate) fn arg(kind: Kind, after: &'static [Want]) -> Move
    ensures { seen result ≡ followed (arg_move (bare kind)) after.now }
{
    match kind {
        Kind::Keyword(CWord::Sizeof) => Move::then(
            &[
                Read(Sym::Token(TokenSym::Mark(CMark::OpenParen))),
                Read(Sym::Token(TokenSym::Star)),
                Read(Sym::Token(TokenSym::Name)),
                Read(Sym::Token(TokenSym::Mark(CMark::CloseParen))),
                Perform(Action::Expr(ExprAction::AddSizeof)),
            ],
            After::of(after, &[]),
        ),
        _ => expr(
            kind,
            After::of(&[Perform(Action::Expr(ExprAction::AddArg))], after),
        ),
    }
}

// The arguments of a call and its `)`.
pub(crate) fn args(kind: Kind) -> Move
    ensures { seen result ≡ args_move (bare kind) }
{
    match kind {
        Kind::Mark(CMark::CloseParen) => Move::done(),
        _ => arg(kind, &[Read(Sym::Expr(ExprSym::MoreArgs))]),
    }
}

// What is left of the arguments after one, and `)`.
pub(crate) fn more_args(kind: Kind) -> Move
    ensures { seen result ≡ more_args_move (bare kind) }
{
    match kind {
        Kind::Mark(CMark::Comma) => Move::take(&[
            Read(Sym::Expr(ExprSym::Arg)),
            Read(Sym::Expr(ExprSym::MoreArgs)),
        ]),
        Kind::Mark(CMark::CloseParen) => Move::done(),
        _ => Move::Stop,
    }
}

// What `kind` does to a part of an expression.
#[tactic(auto, using(crate::proofs::MoveLemmas::followed_nothing, crate::proofs::MoveLemmas::around_nothing))]
pub(crate) fn expr_sym(symbol: ExprSym, kind: Kind) -> Move
    ensures { seen result ≡ expr_sym_move symbol (bare kind) }
{
    match symbol {
        ExprSym::Expr => expr(kind, After::of(&[], &[])),
        ExprSym::Post => post(kind, After::of(&[], &[])),
        ExprSym::Tail => tail(kind),
        ExprSym::FirstTail => first_tail(&[], kind, After::of(&[], &[])),
        ExprSym::Paren => paren(kind, &[]),
        ExprSym::ParenName => paren_name(kind, &[]),
        ExprSym::ParenParen => paren_paren(kind),
        ExprSym::ParenParenName => paren_paren_name(kind),
        ExprSym::ParenParenStar => paren_paren_star(kind),
        ExprSym::Operator => operator(&[], kind, &[]),
        ExprSym::Operands(op) => operands(op, kind),
        ExprSym::Args => args(kind),
        ExprSym::Arg => arg(kind, &[]),
        ExprSym::MoreArgs => more_args(kind),
    }
}

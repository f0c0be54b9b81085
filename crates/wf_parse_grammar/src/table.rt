// The table of the grammar's machine: for each symbol, what the next token does to it.

ghost use Rattle.std.specs.Prelude.{◌≡◌};
ghost use Rattle.wf_parse_grammar.specs.Building.{build, skips};
ghost use Rattle.wf_parse_grammar.specs.Machine.{may_end, owes, opens};

use crate::builds::Build;
use crate::symbols::{Action, Sym};
use crate::tokens::{Kind, Token};
use crate::{table_decls, table_exprs, table_loops, table_stmts, table_tokens, table_types};

/// What `token` does to `symbol` on top of the stack.
pub fn build(symbol: Sym, token: Token) -> Build
    ensures { result ≡ build symbol token.kind token.at }
{
    match symbol {
        Sym::File => table_decls::file(token),
        Sym::Decl => table_decls::decl(token),
        Sym::FieldsMark => table_decls::fields_mark(token),
        Sym::FieldsOpen => table_decls::fields_open(token),
        Sym::Fields => table_decls::fields(token),
        Sym::MoreFields => table_decls::more_fields(token),
        Sym::OtherFields => table_decls::other_fields(token),
        Sym::MethodTail => table_decls::method_tail(token),
        Sym::Body => table_decls::body(token),
        Sym::WholeType => table_types::whole_type(token, &[]),
        Sym::ArrayLength => table_types::array_length(token),
        Sym::BaseName => table_types::base_name(token),
        Sym::BoundsPart => table_types::bounds(token),
        Sym::Low => table_types::low(token),
        Sym::Vars => table_stmts::vars(token),
        Sym::MoreVars => table_stmts::more_vars(token),
        Sym::Block => table_stmts::block(token),
        Sym::Items => table_stmts::items(token),
        Sym::MoreItems => table_stmts::more_items(token),
        Sym::PathStmt => table_stmts::path_stmt(token),
        Sym::ThisStmt => table_stmts::this_stmt(token),
        Sym::TargetStmt => table_stmts::target_stmt(token),
        Sym::Call => table_stmts::call(token),
        Sym::CallThis => table_stmts::call_this(token),
        Sym::CallMark => table_stmts::call_mark(token),
        Sym::Else => table_stmts::else_part(token),
        Sym::ElseTail => table_stmts::else_tail(token),
        Sym::WhileHead => table_loops::while_head(token),
        Sym::LabelHead => table_loops::label_head(token),
        Sym::Clauses => table_loops::clauses(token),
        Sym::ClauseTail => table_loops::clause_tail(token),
        Sym::EndPart => table_loops::end_part(token),
        Sym::EndLabel(label) => table_loops::end_label(label, token),
        Sym::Label(label) => table_loops::label(label, token),
        Sym::LabelPart => table_loops::label_part(token),
        Sym::Result => table_loops::result_part(token),
        Sym::Via => table_loops::via(token),
        Sym::Expr => table_exprs::expr(token),
        Sym::Rest => table_exprs::rest(token),
        Sym::Links(op) => table_exprs::links(op, token),
        Sym::End => table_exprs::end(token),
        Sym::Operand => table_exprs::operand(token, &[]),
        Sym::Atom => table_exprs::atom(token, &[]),
        Sym::PathAtom => table_exprs::path_atom(token),
        Sym::ThisAtom => table_exprs::this_atom(token),
        Sym::Cut => table_exprs::cut(token),
        Sym::CutTail => table_exprs::cut_tail(token),
        Sym::CutEnd => table_exprs::cut_end(token),
        Sym::CallOpen => table_exprs::call_open(token),
        Sym::GivensOpen => table_exprs::givens_open(token),
        Sym::Givens => table_exprs::givens(token),
        Sym::MoreGivens => table_exprs::more_givens(token),
        Sym::AName => table_tokens::a_name(token),
        Sym::AText => table_tokens::a_text(token),
        Sym::ADot => table_tokens::a_dot(token),
        Sym::AColon => table_tokens::a_colon(token),
        Sym::ASemicolon => table_tokens::a_semicolon(token),
        Sym::AnEquals => table_tokens::an_equals(token),
        Sym::AQuestion => table_tokens::a_question(token),
        Sym::ADotsEquals => table_tokens::a_dots_equals(token),
        Sym::RightRound => table_tokens::right_round(token),
        Sym::RightSquare => table_tokens::right_square(token),
    }
}

/// The actions where `symbol` is left out, the first one at the front.
pub fn skips(symbol: Sym) -> &'static [Action]
    ensures { result.now ≡ skips symbol }
{
    match symbol {
        Sym::BoundsPart => &[Action::NoBounds],
        Sym::Else => &[Action::NoElse],
        Sym::LabelPart => &[Action::NoLabel],
        Sym::Result => &[Action::NoPart],
        Sym::Via => &[Action::NoVia],
        Sym::Links(_) => &[Action::FinishChain],
        Sym::PathAtom => &[Action::PathExpr],
        Sym::ThisAtom => &[Action::ThisPath, Action::PathExpr],
        _ => &[],
    }
}

/// Whether `symbol` may be absent at the file's end.
pub fn may_end(symbol: Sym) -> bool
    ensures { result ≡ may_end symbol }
{
    match symbol {
        Sym::File
        | Sym::OtherFields
        | Sym::BoundsPart
        | Sym::Else
        | Sym::EndPart
        | Sym::LabelPart
        | Sym::Result
        | Sym::Via
        | Sym::Rest
        | Sym::Links(_)
        | Sym::End
        | Sym::PathAtom
        | Sym::ThisAtom => true,
        _ => false,
    }
}

/// Whether `symbol` owes a closing bracket.
pub fn owes(symbol: Sym) -> bool
    ensures { result ≡ owes symbol }
{
    match symbol {
        Sym::Fields
        | Sym::MoreFields
        | Sym::Low
        | Sym::Vars
        | Sym::MoreVars
        | Sym::Items
        | Sym::MoreItems
        | Sym::Cut
        | Sym::CutTail
        | Sym::CutEnd
        | Sym::Givens
        | Sym::MoreGivens
        | Sym::RightRound
        | Sym::RightSquare => true,
        _ => false,
    }
}

/// Whether a token of this kind opens a bracket.
pub fn opens(kind: Kind) -> bool
    ensures { result ≡ opens kind }
{
    match kind {
        Kind::OpenRound | Kind::OpenSquare | Kind::OpenCurly => true,
        _ => false,
    }
}

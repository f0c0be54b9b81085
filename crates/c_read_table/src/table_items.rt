// What a token does to a part of an item that is wanted.

ghost use Rattle.std.specs.Prelude.{◌≡◌, ◌++◌, ◌∷◌};
ghost use Rattle.c_read_grammar.specs.Machine.{followed, do_item, function_wants, local_wants, returns_move, unit_move, static_item_move, const_char_move, param_move, params_move, more_params_move, word_body_move, body_move, body_name_move, local_end_move, field_move, field_name_move, field_end_move, more_fields_move, item_sym_move};
ghost use Rattle.c_read_tokens.specs.Kinds.{bare};
ghost use Rattle.c_read_table.specs.Moves.{seen};

use crate::moves::Move;
use crate::wants::After;
use crate::{table_stmts, table_types};
use c_read_grammar::Want::{Perform, Read};
use c_read_grammar::{
    Action, ExprSym, ItemAction, ItemSym, StmtSym, Sym, TokenSym, TypeAction, Want,
};
use c_read_tokens::Kind;
use c_text::{CMark, COp, CWord, Linkage};

// What a function wants after its result, which `made` makes.
fn function_after(made: ItemAction, after: &'static [Want]) -> After
    ensures { result ≡ do_item made ∷ (function_wants ++ after.now) }
{
    After::led(
        Perform(Action::Item(made)),
        &[
            Read(Sym::Token(TokenSym::Name)),
            Read(Sym::Token(TokenSym::Mark(CMark::OpenParen))),
            Perform(Action::Item(ItemAction::StartParams)),
            Read(Sym::Item(ItemSym::Params)),
            Read(Sym::Token(TokenSym::Mark(CMark::OpenBrace))),
            Perform(Action::Item(ItemAction::StartLocals)),
            Read(Sym::Item(ItemSym::Body)),
            Perform(Action::Item(ItemAction::MakeFunction)),
        ],
        after,
    )
}

// A function, from its result type on.
#[tactic(auto, using(crate::proofs::MoveLemmas::followed_twice))]
pub(crate) fn returns(linkage: Linkage, kind: Kind, after: &'static [Want]) -> Move
    ensures { seen result ≡ followed (returns_move linkage (bare kind)) after.now }
{
    match kind {
        Kind::Keyword(CWord::Void) => Move::then(
            &[],
            function_after(ItemAction::MakeVoid(linkage), after),
        ),
        _ => table_types::any_type(kind, function_after(ItemAction::MakeResult(linkage), after)),
    }
}

// Any number of items.
pub(crate) fn unit(kind: Kind) -> Move
    ensures { seen result ≡ unit_move (bare kind) }
{
    match kind {
        Kind::Keyword(CWord::Typedef) => Move::take(&[
            Read(Sym::Token(TokenSym::StructWord)),
            Read(Sym::Token(TokenSym::Mark(CMark::OpenBrace))),
            Perform(Action::Item(ItemAction::StartFields)),
            Read(Sym::Item(ItemSym::Field)),
            Read(Sym::Item(ItemSym::MoreFields)),
            Read(Sym::Token(TokenSym::Name)),
            Read(Sym::Token(TokenSym::Mark(CMark::Semicolon))),
            Perform(Action::Item(ItemAction::MakeStruct)),
            Read(Sym::Item(ItemSym::Unit)),
        ]),
        Kind::Keyword(CWord::Static) => Move::take(&[
            Read(Sym::Item(ItemSym::StaticItem)),
            Read(Sym::Item(ItemSym::Unit)),
        ]),
        _ => returns(Linkage::External, kind, &[Read(Sym::Item(ItemSym::Unit))]),
    }
}

// What is left of an item after `static`.
#[tactic(auto, using(crate::proofs::MoveLemmas::followed_nothing))]
pub(crate) fn static_item(kind: Kind) -> Move
    ensures { seen result ≡ static_item_move (bare kind) }
{
    match kind {
        Kind::Keyword(CWord::Const) => Move::take(&[
            Read(Sym::Token(TokenSym::CharWord)),
            Read(Sym::Item(ItemSym::ConstChar)),
        ]),
        Kind::Keyword(CWord::Inline) => Move::take(&[Read(Sym::Item(ItemSym::Returns(
            Linkage::StaticInline,
        )))]),
        _ => returns(Linkage::Static, kind, &[]),
    }
}

// What is left of an item after `static const char`.
pub(crate) fn const_char(kind: Kind) -> Move
    ensures { seen result ≡ const_char_move (bare kind) }
{
    match kind {
        Kind::Name => Move::take(&[
            Read(Sym::Token(TokenSym::Mark(CMark::OpenBracket))),
            Read(Sym::Token(TokenSym::Mark(CMark::CloseBracket))),
            Read(Sym::Token(TokenSym::Mark(CMark::Assign))),
            Read(Sym::Token(TokenSym::Quoted)),
            Read(Sym::Token(TokenSym::Mark(CMark::Semicolon))),
            Perform(Action::Item(ItemAction::MakeTextItem)),
        ]),
        Kind::Operator(COp::Mul) => Move::then(
            &[Perform(Action::Type(TypeAction::MakeText))],
            function_after(ItemAction::MakeResult(Linkage::Static), &[]),
        ),
        _ => Move::Stop,
    }
}

// A parameter.
#[tactic(auto, using(crate::proofs::MoveLemmas::followed_twice))]
pub(crate) fn param(kind: Kind, after: &'static [Want]) -> Move
    ensures { seen result ≡ followed (param_move (bare kind)) after.now }
{
    table_types::any_type(
        kind,
        After::of(
            &[
                Read(Sym::Token(TokenSym::Name)),
                Perform(Action::Item(ItemAction::AddParam)),
            ],
            after,
        ),
    )
}

// The parameters of a function and its `)`.
pub(crate) fn params(kind: Kind) -> Move
    ensures { seen result ≡ params_move (bare kind) }
{
    match kind {
        Kind::Keyword(CWord::Void) => Move::take(&[Read(Sym::Token(TokenSym::Mark(
            CMark::CloseParen,
        )))]),
        _ => param(kind, &[Read(Sym::Item(ItemSym::MoreParams))]),
    }
}

// What is left of the parameters after one, and `)`.
pub(crate) fn more_params(kind: Kind) -> Move
    ensures { seen result ≡ more_params_move (bare kind) }
{
    match kind {
        Kind::Mark(CMark::Comma) => Move::take(&[
            Read(Sym::Item(ItemSym::Param)),
            Read(Sym::Item(ItemSym::MoreParams)),
        ]),
        Kind::Mark(CMark::CloseParen) => Move::done(),
        _ => Move::Stop,
    }
}

// What a local wants after its type.
fn local_after() -> After
    ensures { result ≡ local_wants }
{
    After::of(
        &[
            Read(Sym::Token(TokenSym::Name)),
            Read(Sym::Item(ItemSym::LocalEnd)),
            Read(Sym::Item(ItemSym::Body)),
        ],
        &[],
    )
}

// The locals and statements of a function, where a word begins them.
pub(crate) fn word_body(word: CWord) -> Move
    ensures { seen result ≡ word_body_move word }
{
    match word {
        CWord::Uint8 => table_types::word_type(CWord::Uint8, local_after()),
        CWord::Uint16 => table_types::word_type(CWord::Uint16, local_after()),
        CWord::Uint32 => table_types::word_type(CWord::Uint32, local_after()),
        CWord::Uint64 => table_types::word_type(CWord::Uint64, local_after()),
        CWord::SizeT => table_types::word_type(CWord::SizeT, local_after()),
        CWord::Bool => table_types::word_type(CWord::Bool, local_after()),
        CWord::Const => table_types::word_type(CWord::Const, local_after()),
        word => table_stmts::word_stmt(word, &[Read(Sym::Stmt(StmtSym::Stmts))]),
    }
}

// The locals and the statements of a function and its `}`.
pub(crate) fn body(kind: Kind) -> Move
    ensures { seen result ≡ body_move (bare kind) }
{
    match kind {
        Kind::Keyword(word) => word_body(word),
        Kind::Name => Move::take(&[Read(Sym::Item(ItemSym::BodyName))]),
        _ => table_stmts::stmts(kind),
    }
}

// The same, after a NAME.
pub(crate) fn body_name(kind: Kind) -> Move
    ensures { seen result ≡ body_name_move (bare kind) }
{
    match kind {
        Kind::Operator(COp::Mul) => Move::then(
            &[Perform(Action::Type(TypeAction::MakeStructPointer))],
            local_after(),
        ),
        _ => table_stmts::stmt_name(kind, &[Read(Sym::Stmt(StmtSym::Stmts))]),
    }
}

// What is left of a local after its name.
pub(crate) fn local_end(kind: Kind) -> Move
    ensures { seen result ≡ local_end_move (bare kind) }
{
    match kind {
        Kind::Mark(CMark::Semicolon) => Move::take(&[Perform(Action::Item(ItemAction::AddLocal))]),
        Kind::Mark(CMark::Assign) => Move::take(&[
            Read(Sym::Expr(ExprSym::Expr)),
            Read(Sym::Token(TokenSym::Mark(CMark::Semicolon))),
            Perform(Action::Item(ItemAction::AddInitialLocal)),
        ]),
        _ => Move::Stop,
    }
}

// A field.
#[tactic(auto, using(crate::proofs::MoveLemmas::followed_twice))]
pub(crate) fn field(kind: Kind, after: &'static [Want]) -> Move
    ensures { seen result ≡ followed (field_move (bare kind)) after.now }
{
    match kind {
        Kind::Keyword(word) => table_types::word_type(
            word,
            After::of(
                &[
                    Read(Sym::Token(TokenSym::Name)),
                    Perform(Action::Item(ItemAction::MakeField)),
                    Read(Sym::Item(ItemSym::FieldEnd)),
                ],
                after,
            ),
        ),
        Kind::Name => Move::then(
            &[Read(Sym::Item(ItemSym::FieldName))],
            After::of(after, &[]),
        ),
        _ => Move::Stop,
    }
}

// What is left of a field after the NAME that begins its type.
pub(crate) fn field_name(kind: Kind) -> Move
    ensures { seen result ≡ field_name_move (bare kind) }
{
    match kind {
        Kind::Operator(COp::Mul) => Move::take(&[
            Perform(Action::Type(TypeAction::MakeStructPointer)),
            Read(Sym::Token(TokenSym::Name)),
            Perform(Action::Item(ItemAction::MakeField)),
            Read(Sym::Item(ItemSym::FieldEnd)),
        ]),
        Kind::Name => Move::take(&[
            Perform(Action::Item(ItemAction::MakeStructField)),
            Read(Sym::Item(ItemSym::FieldEnd)),
        ]),
        _ => Move::Stop,
    }
}

// What is left of a field after its name.
pub(crate) fn field_end(kind: Kind) -> Move
    ensures { seen result ≡ field_end_move (bare kind) }
{
    match kind {
        Kind::Mark(CMark::Semicolon) => Move::take(&[Perform(Action::Item(ItemAction::AddField))]),
        Kind::Mark(CMark::OpenBracket) => Move::take(&[
            Read(Sym::Token(TokenSym::Number)),
            Perform(Action::Item(ItemAction::SetCount)),
            Read(Sym::Token(TokenSym::Mark(CMark::CloseBracket))),
            Read(Sym::Token(TokenSym::Mark(CMark::Semicolon))),
            Perform(Action::Item(ItemAction::AddField)),
        ]),
        _ => Move::Stop,
    }
}

// What is left of the fields after one, and `}`.
pub(crate) fn more_fields(kind: Kind) -> Move
    ensures { seen result ≡ more_fields_move (bare kind) }
{
    match kind {
        Kind::Mark(CMark::CloseBrace) => Move::done(),
        _ => field(kind, &[Read(Sym::Item(ItemSym::MoreFields))]),
    }
}

// What `kind` does to a part of an item.
#[tactic(auto, using(crate::proofs::MoveLemmas::followed_nothing))]
pub(crate) fn item_sym(symbol: ItemSym, kind: Kind) -> Move
    ensures { seen result ≡ item_sym_move symbol (bare kind) }
{
    match symbol {
        ItemSym::Unit => unit(kind),
        ItemSym::StaticItem => static_item(kind),
        ItemSym::Returns(linkage) => returns(linkage, kind, &[]),
        ItemSym::ConstChar => const_char(kind),
        ItemSym::Params => params(kind),
        ItemSym::Param => param(kind, &[]),
        ItemSym::MoreParams => more_params(kind),
        ItemSym::Body => body(kind),
        ItemSym::BodyName => body_name(kind),
        ItemSym::LocalEnd => local_end(kind),
        ItemSym::Field => field(kind, &[]),
        ItemSym::FieldName => field_name(kind),
        ItemSym::FieldEnd => field_end(kind),
        ItemSym::MoreFields => more_fields(kind),
    }
}

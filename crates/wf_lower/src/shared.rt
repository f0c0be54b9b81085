// What the functions of all methods have in common: each is put into the unit once, and a method's functions take its number.

ghost use Rattle.std.specs.Prelude.{IfOk};
ghost use Rattle.wf_bufs.specs.SurfaceViews.{answer_kind_of};
ghost use Rattle.c_text.specs.CNodes.{Nodes};
ghost use Rattle.c_text.specs.CTree as c;
ghost use Rattle.c_text.specs.CTree.{finish as finish_code, unary};
ghost use Rattle.c_text.specs.declared.kinds.COp.TheVariants.{Eq};
ghost use Rattle.c_text.specs.declared.kinds.CUnary.TheVariants.{Not};
ghost use Rattle.wf_exprs.specs.Grown.{Grows, HasCode, HasExpr};
ghost use Rattle.wf_exprs.specs.Words.{num, self, two as two_codes};
ghost use Rattle.wf_lower_stmts.specs.Forms.{status_local};
ghost use Rattle.wf_lower_blocks.specs.Calls.{HasValue};
ghost use Rattle.wf_lower.specs.Bodies.{disable as disable_code, first_is as first_is_code, life as life_code, refused_with as refused_with_code};
ghost use Rattle.wf_lower.specs.Shared.{HasAllRefusals, HasEntryExprs, HasEntryParts, HasOwnNames, HasRefusals, HasShared, refusal as refusal_code, settle_error as settle_error_code};

use c_text::{CExprId, CNameId, COp, CStmtId, Unit};
use std::alloc::Global;
use wf_bufs::AnswerKind;
use wf_exprs::names::put_name;
use wf_exprs::nodes::{element, negated, number, of_self, two, variable};
use wf_exprs_nodes::statuses::status_constant;
use wf_lower_stmts::code::{assign, finish, leave, when};
use wf_text::NoMemory;

/// The number of the base status for a null receiver.
pub(crate) const BAD_RECEIVER: u32 = 4;

const BAD_ARGUMENT: u32 = 5;

const NOT_INITIALIZED: u32 = 6;

const INTERLEAVED: u32 = 7;

const WAS_DISABLED: u32 = 8;

/// The names of the locals that are the text's own.
#[derive(Clone, Copy)]
pub(crate) struct OwnNames {
    pub status: CNameId,
    pub got: CNameId,
    pub size: CNameId,
    pub held: CNameId,
    pub count: CNameId,
}

/// What entries test and set: the receiver's `life` and `active`, 2, whether the receiver is null, raw or disabled, and whether
/// the body's status is a suspension.
#[derive(Clone, Copy)]
pub(crate) struct EntryExprs {
    pub life: CExprId,
    pub active: CExprId,
    pub two: CExprId,
    pub null: CExprId,
    pub raw: CExprId,
    pub disabled: CExprId,
    pub suspended: CExprId,
}

/// What a call is refused with, by the row of the entry table.
#[derive(Clone, Copy)]
pub(crate) struct Refusals {
    pub bad_receiver: CStmtId,
    pub bad_argument: CStmtId,
    pub not_initialized: CStmtId,
    pub interleaved: CStmtId,
    pub was_disabled: CStmtId,
}

/// The refusals of methods that answer a status, a number or a truth value, and nothing.
#[derive(Clone, Copy)]
pub(crate) struct AllRefusals {
    pub status: Refusals,
    pub value: Refusals,
    pub nothing: Refusals,
}

impl AllRefusals {
    /// Those of the methods that answer this.
    fn of(&self, answers: AnswerKind) -> Refusals
        ensures { (nodes : Nodes) → HasAllRefusals nodes self.now → HasRefusals nodes result (answer_kind_of answers) }
    {
        match answers {
            AnswerKind::Status => self.status,
            AnswerKind::Number(_) => self.value,
            AnswerKind::Flag => self.value,
            AnswerKind::Nothing => self.nothing,
        }
    }
}

/// What the entries of methods that answer the same are made of.
#[derive(Clone, Copy)]
pub(crate) struct EntryParts {
    pub exprs: EntryExprs,
    /// After the body of a coroutine: an error disables.
    pub failed: CStmtId,
    pub refusals: Refusals,
}

/// All that the functions of all methods have in common.
#[derive(Clone, Copy)]
pub(crate) struct Shared {
    pub names: OwnNames,
    pub exprs: EntryExprs,
    /// After the body of a coroutine: an error disables.
    pub failed: CStmtId,
    pub refusals: AllRefusals,
}

impl Shared {
    /// The parts of the entries of methods that answer this.
    pub(crate) fn parts(&self, answers: AnswerKind) -> EntryParts
        ensures { (nodes : Nodes) → HasShared nodes self.now → HasEntryParts nodes result (answer_kind_of answers) }
    {
        EntryParts {
            exprs: self.exprs,
            failed: self.failed,
            refusals: self.refusals.of(answers),
        }
    }
}

/// The names of the text's own locals.
#[tactic(auto, unfolding(c_text::specs::CSpelling::is_reserved))]
fn put_names(u: &mut Unit) -> Result<OwnNames, NoMemory>
    ensures grows { Grows u.old u.new }
    ensures made { IfOk result (λ names. HasOwnNames u.new names) }
{
    let status = put_name(u, b"status")?;
    let got = put_name(u, b"got")?;
    let size = put_name(u, b"size")?;
    let held = put_name(u, b"held")?;
    let count = put_name(u, b"count")?;
    Ok(OwnNames {
        status,
        got,
        size,
        held,
        count,
    })
}

/// `(N == self->life)`
#[tactic(auto, unfolding(c_text::specs::CSpelling::is_reserved))]
fn life_is(alloc: Global, u: &mut Unit, n: u64) -> Result<CExprId, NoMemory>
    ensures grows { Grows u.old u.new }
    ensures made { IfOk result (λ it. HasExpr u.new it.0 (two_codes Eq (num n) life_code)) }
{
    let n = number(u, n)?;
    let life = of_self(u, b"life")?;
    two(alloc, u, COp::Eq, n, life)
}

/// `(!self)`
#[tactic(auto, unfolding(c_text::specs::CSpelling::is_reserved))]
fn is_null(u: &mut Unit) -> Result<CExprId, NoMemory>
    ensures grows { Grows u.old u.new }
    ensures made { IfOk result (λ it. HasExpr u.new it.0 (unary Not self)) }
{
    let receiver = variable(u, b"self")?;
    negated(u, receiver)
}

/// `status[0]`
#[tactic(auto, unfolding(c_text::specs::CSpelling::is_reserved))]
fn first_of_status(u: &mut Unit) -> Result<CExprId, NoMemory>
    ensures grows { Grows u.old u.new }
    ensures made { IfOk result (λ it. HasExpr u.new it.0 (c.element status_local (num 0))) }
{
    let status = variable(u, b"status")?;
    let zero = number(u, 0)?;
    element(u, status, zero)
}

/// `(BYTE == status[0])`
fn first_is(alloc: Global, u: &mut Unit, byte: u64) -> Result<CExprId, NoMemory>
    ensures grows { Grows u.old u.new }
    ensures made { IfOk result (λ it. HasExpr u.new it.0 (first_is_code byte)) }
{
    let byte = number(u, byte)?;
    let first = first_of_status(u)?;
    two(alloc, u, COp::Eq, byte, first)
}

/// The receiver is disabled, and nothing follows.
#[tactic(auto, unfolding(c_text::specs::CSpelling::is_reserved))]
fn disable_at_end(u: &mut Unit) -> Result<CStmtId, NoMemory>
    ensures grows { Grows u.old u.new }
    ensures made { IfOk result (λ code. HasCode u.new code.0 (disable_code finish_code)) }
{
    let end = finish(u)?;
    let two = number(u, 2)?;
    let life = of_self(u, b"life")?;
    assign(u, life, two, end)
}

/// An error disables.
fn settle_error(alloc: Global, u: &mut Unit) -> Result<CStmtId, NoMemory>
    ensures grows { Grows u.old u.new }
    ensures made { IfOk result (λ code. HasCode u.new code.0 settle_error_code) }
{
    let rest = finish(u)?;
    let body = disable_at_end(u)?;
    let test = first_is(alloc, u, 35)?;
    when(u, test, body, rest)
}

/// What entries test and set.
#[tactic(auto, unfolding(c_text::specs::CSpelling::is_reserved))]
fn put_exprs(alloc: Global, u: &mut Unit) -> Result<EntryExprs, NoMemory>
    ensures grows { Grows u.old u.new }
    ensures made { IfOk result (λ it. HasEntryExprs u.new it) }
{
    let life = of_self(u, b"life")?;
    let active = of_self(u, b"active")?;
    let two = number(u, 2)?;
    let null = is_null(u)?;
    let raw = life_is(alloc, u, 0)?;
    let disabled = life_is(alloc, u, 2)?;
    let suspended = first_is(alloc, u, 36)?;
    Ok(EntryExprs {
        life,
        active,
        two,
        null,
        raw,
        disabled,
        suspended,
    })
}

/// What a refused call answers.
fn refused_with(u: &mut Unit, answers: AnswerKind, status: u32) -> Result<Option<CExprId>, NoMemory>
    ensures grows { Grows u.old u.new }
    ensures made { IfOk result (λ value. HasValue u.new value (refused_with_code (answer_kind_of answers) status)) }
{
    match answers {
        AnswerKind::Status => {
            let value = status_constant(u, status)?;
            Ok(Some(value))
        }
        AnswerKind::Number(_) | AnswerKind::Flag => {
            let value = number(u, 0)?;
            Ok(Some(value))
        }
        AnswerKind::Nothing => Ok(None),
    }
}

/// The call is refused.
fn refuse(u: &mut Unit, answers: AnswerKind, status: u32) -> Result<CStmtId, NoMemory>
    ensures grows { Grows u.old u.new }
    ensures made { IfOk result (λ code. HasCode u.new code.0 (refusal_code (answer_kind_of answers) status)) }
{
    let rest = finish(u)?;
    let value = refused_with(u, answers, status)?;
    leave(u, value, rest)
}

/// What a call of a method that answers this is refused with.
fn put_refusals(u: &mut Unit, answers: AnswerKind) -> Result<Refusals, NoMemory>
    ensures grows { Grows u.old u.new }
    ensures made { IfOk result (λ it. HasRefusals u.new it (answer_kind_of answers)) }
{
    let bad_receiver = refuse(u, answers, BAD_RECEIVER)?;
    let bad_argument = refuse(u, answers, BAD_ARGUMENT)?;
    let not_initialized = refuse(u, answers, NOT_INITIALIZED)?;
    let interleaved = refuse(u, answers, INTERLEAVED)?;
    let was_disabled = refuse(u, answers, WAS_DISABLED)?;
    Ok(Refusals {
        bad_receiver,
        bad_argument,
        not_initialized,
        interleaved,
        was_disabled,
    })
}

/// What the calls of all methods are refused with.
fn put_all_refusals(u: &mut Unit) -> Result<AllRefusals, NoMemory>
    ensures grows { Grows u.old u.new }
    ensures made { IfOk result (λ it. HasAllRefusals u.new it) }
{
    let status = put_refusals(u, AnswerKind::Status)?;
    let value = put_refusals(u, AnswerKind::Flag)?;
    let nothing = put_refusals(u, AnswerKind::Nothing)?;
    Ok(AllRefusals {
        status,
        value,
        nothing,
    })
}

/// Puts all that the functions have in common into the unit. `Err` where memory was refused.
pub(crate) fn put_shared(alloc: Global, u: &mut Unit) -> Result<Shared, NoMemory>
    ensures grows { Grows u.old u.new }
    ensures made { IfOk result (λ it. HasShared u.new it) }
{
    let names = put_names(u)?;
    let exprs = put_exprs(alloc, u)?;
    let failed = settle_error(alloc, u)?;
    let refusals = put_all_refusals(u)?;
    Ok(Shared {
        names,
        exprs,
        failed,
        refusals,
    })
}

// What an init or a call answers, by the kind of its answer.

ghost use Rattle.std.specs.Prelude.{◌≡◌, [], Some, option_map, slice_get};
ghost use Rattle.wf_text.specs.Surface.{Surface};
ghost use Rattle.wf_bufs.specs.SurfaceViews.{answer_kind_of};
ghost use Rattle.c_meaning.specs.CValues.{is_nonzero};
ghost use Rattle.c_meaning.specs.CCall.{Program};
ghost use Rattle.c_meaning.specs.CRun.{answer_of};
ghost use Rattle.c_step_engine.specs.Engines.{outcome_for};
ghost use Rattle.c_step_engine.specs.Statuses.{AreStatuses, status_in, status_at};

use c_meaning::values::{CValue, Number, Pointer};
use wf_bufs::{AnswerKind, Outcome};
use wf_text::StatusId;

/// The status whose text a pointer to the start of a string has. `statuses` has one for each string that has one.
fn status_of(q: Pointer, statuses: &[Option<StatusId>]) -> Option<StatusId>
    ensures { result ≡ status_at statuses.now q }
{
    if q.field != 0 {
        return None;
    }
    if q.index != 0 {
        return None;
    }
    *statuses.get(q.object)?
}

/// Whether a number isn't 0.
fn is_not_zero(n: Number) -> bool
    ensures { result ≡ is_nonzero n }
{
    n.bits != 0
}

/// A status: ok, which is the first one, for a null pointer.
fn status(v: CValue, statuses: &[Option<StatusId>]) -> Option<Outcome>
    ensures { result ≡ status_in statuses.now v }
{
    match v {
        CValue::NullPointer => Some(Outcome::Status(StatusId(0))),
        CValue::Address(q) => Some(Outcome::Status(status_of(q, statuses)?)),
        CValue::Numeric(_) => None,
    }
}

/// What a function of the text has answered; none where that isn't defined.
pub fn answer(
    kind: AnswerKind,
    value: Option<CValue>,
    statuses: &[Option<StatusId>],
) -> Option<Outcome>
    ensures { (p : Program) (surface : Surface) → slice_get surface.statuses 0 ≡ Some [] → AreStatuses p surface statuses.now
        → result ≡ option_map (outcome_for surface) (answer_of p surface (answer_kind_of kind) value) }
{
    match kind {
        AnswerKind::Nothing => Some(Outcome::Nothing),
        AnswerKind::Status => status(value?, statuses),
        AnswerKind::Number(_) => match value {
            Some(CValue::Numeric(n)) => Some(Outcome::Num(n.bits)),
            Some(CValue::Address(_)) | Some(CValue::NullPointer) | None => None,
        },
        AnswerKind::Flag => match value {
            Some(CValue::Numeric(n)) => Some(Outcome::Flag(is_not_zero(n))),
            Some(CValue::Address(_)) | Some(CValue::NullPointer) | None => None,
        },
    }
}

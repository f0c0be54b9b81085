// What calls answer, as a host is told it.

ghost use Rattle.std.specs.Prelude.{◌≡◌, ◌^◌, ℕ, nat_le, nat_lt, option_map};
ghost use Rattle.wf_ast.specs.TypedPackage.{package_of};
ghost use Rattle.wf_base.specs.BaseTable.{bits_of};
ghost use Rattle.wf_bufs.specs.SurfaceViews.{answer_kind_of};
ghost use Rattle.wf_mean_exprs.specs.MachineState.{slot_seen};
ghost use Rattle.wf_mean_stmts.specs.Entries.{answer_seen};
ghost use Rattle.wf_mean.specs.SourceEngines.{known_status as status_known, outcome_of, outcome_of_value};

use wf_ast::Typed;
use wf_base::Width;
use wf_bufs::{AnswerKind, Outcome};
use wf_mean_exprs::values::Slot;
use wf_mean_stmts::entry::Answer;
use wf_text::StatusId;

/// An answer as an outcome of a kind; None where it is none of that kind.
pub(crate) fn outcome(t: &Typed, kind: AnswerKind, answer: Answer) -> Option<Outcome>
    ensures { result ≡ outcome_of (package_of t.now) (answer_kind_of kind) (answer_seen answer) }
{
    match answer {
        Answer::Returned(value) => outcome_of_value(t, kind, value),
        Answer::Suspended(status) => outcome_of_value(t, kind, Some(Slot::Status(status))),
    }
}

fn outcome_of_value(t: &Typed, kind: AnswerKind, value: Option<Slot>) -> Option<Outcome>
    ensures { result ≡ outcome_of_value (package_of t.now) (answer_kind_of kind) (option_map slot_seen value) }
{
    match kind {
        AnswerKind::Status => match value {
            Some(Slot::Status(status)) => Some(Outcome::Status(known_status(t, status))),
            Some(Slot::Num(_)) | Some(Slot::Truth(_)) => None,
            Some(Slot::Elements(_)) | Some(Slot::Buffer(_)) => None,
            None => None,
        },
        AnswerKind::Number(width) => match value {
            Some(Slot::Num(n)) => {
                if n <= most_of(width) {
                    Some(Outcome::Num(n))
                } else {
                    None
                }
            }
            Some(Slot::Status(_)) | Some(Slot::Truth(_)) => None,
            Some(Slot::Elements(_)) | Some(Slot::Buffer(_)) => None,
            None => None,
        },
        AnswerKind::Flag => match value {
            Some(Slot::Truth(b)) => Some(Outcome::Flag(b)),
            Some(Slot::Status(_)) | Some(Slot::Num(_)) => None,
            Some(Slot::Elements(_)) | Some(Slot::Buffer(_)) => None,
            None => None,
        },
        AnswerKind::Nothing => match value {
            None => Some(Outcome::Nothing),
            Some(_) => None,
        },
    }
}

/// The status with this number; that of ok, whose text is empty, where the package has none.
#[tactic(auto, unfolding(wf_ast::specs::TypedPackage::package_of))]
fn known_status(t: &Typed, status: u32) -> StatusId
    ensures { result.0 ≡ status_known (package_of t.now) status }
{
    if status < t.statuses() {
        StatusId(status)
    } else {
        StatusId(0)
    }
}

/// The greatest number of a width.
fn most_of(width: Width) -> u64
    ensures { (n : ℕ) → nat_lt n (2 ^ bits_of width) ≡ nat_le n result }
{
    match width {
        Width::W8 => 255,
        Width::W16 => 65_535,
        Width::W32 => 4_294_967_295,
        Width::W64 => 18_446_744_073_709_551_615,
    }
}

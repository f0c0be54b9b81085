// The kinds of arguments and answers, as a host knows them.

ghost use Rattle.std.specs.Prelude.{◌≡◌};
ghost use Rattle.wf_ast.specs.TypedPackage.{answer_kind as kind_answered, answers_of, kind_of};
ghost use Rattle.wf_bufs.specs.SurfaceViews.{answer_kind_of, arg_kind_of};

use wf_ast::Ty;
use wf_base::Mark;
use wf_bufs::{AnswerKind, ArgKind};

/// The kind of an argument of this type. A type that no argument has counts as a flag.
pub(crate) fn arg_kind(ty: Ty) -> ArgKind
    ensures { arg_kind_of result ≡ kind_of ty }
{
    match ty {
        Ty::Num { width, .. } => ArgKind::Number(width),
        Ty::Flag => ArgKind::Flag,
        Ty::Reader => ArgKind::Reader,
        Ty::Writer => ArgKind::Writer,
        Ty::Slice(width) => ArgKind::Slice(width),
        Ty::Status => ArgKind::Flag,
        Ty::Array { .. } => ArgKind::Flag,
        Ty::Part(_) => ArgKind::Flag,
    }
}

// The kind of a declared result.
fn result_kind(gives: Option<Ty>) -> AnswerKind
    ensures { answer_kind_of result ≡ kind_answered gives }
{
    match gives {
        None => AnswerKind::Nothing,
        Some(Ty::Num { width, .. }) => AnswerKind::Number(width),
        Some(Ty::Flag) => AnswerKind::Flag,
        Some(Ty::Status) => AnswerKind::Status,
        Some(Ty::Reader) => AnswerKind::Status,
        Some(Ty::Writer) => AnswerKind::Status,
        Some(Ty::Slice(_)) => AnswerKind::Status,
        Some(Ty::Array { .. }) => AnswerKind::Status,
        Some(Ty::Part(_)) => AnswerKind::Status,
    }
}

/// The kind of what a method with this mark and this result answers. A coroutine answers a status.
pub fn answer_kind(mark: Mark, gives: Option<Ty>) -> AnswerKind
    ensures { answer_kind_of result ≡ answers_of mark gives }
{
    match mark {
        Mark::Coroutine => AnswerKind::Status,
        Mark::Pure => result_kind(gives),
        Mark::Impure => result_kind(gives),
    }
}

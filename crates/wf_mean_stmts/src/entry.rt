// The entry table, which calls from the host and calls through fields pass.

ghost use Rattle.std.specs.Prelude.{◌≡◌};
ghost use Rattle.wf_text.specs.StatusText.{category_of};
ghost use Rattle.wf_text.specs.declared.categories.Category.TheVariants.{Fault};
ghost use Rattle.wf_ast.specs.TypedPackage.{PackageTree, package_of};
ghost use Rattle.wf_ast.specs.WellTyped.{is_pure as is_marked_pure, is_coroutine as is_marked_coroutine};
ghost use Rattle.wf_meaning.specs.Entry.{admission, admission_of_args, ended, is_other as is_other_one, has_kind, text_of_status};
ghost use Rattle.wf_mean_exprs.specs.MachineState.{object_seen};
ghost use Rattle.wf_mean_stmts.specs.Entries.{Admits, answer_seen};
ghost use Rattle.wf_mean_stmts.specs.Stages.{kept_lengths};

use wf_ast::Typed;
use wf_base::Mark;
use wf_mean_exprs::objects::{LifeState, ObjectState};
use wf_mean_exprs::values::Slot;
use wf_text::status_text::category;
use wf_text::{Category, StatusId};

/// How a body comes to an end: it returns, with a value or without one, or it suspends with a status.
#[derive(Clone, Copy)]
pub enum Answer {
    Returned(Option<Slot>),
    Suspended(u32),
}

/// What the table says to a call of the method with this number: the status with which it is refused, or None where its body
/// is entered. The struct state is then as the table leaves it. `fit` tells that the arguments fit.
pub fn enter(state: &mut ObjectState, mark: Mark, number: u32, fit: bool) -> Option<u32>
    ensures table { (p : PackageTree) → Admits result (admission mark number fit (object_seen p state.old)) (object_seen p state.old) (object_seen p state.new) }
    ensures kept { kept_lengths state.new ≡ kept_lengths state.old }
{
    match state.life {
        LifeState::Raw => Some(6),
        LifeState::Disabled => {
            if is_pure(mark) {
                enter_with(state, mark, number, fit)
            } else {
                Some(8)
            }
        }
        LifeState::Ready => enter_with(state, mark, number, fit),
    }
}

fn enter_with(state: &mut ObjectState, mark: Mark, number: u32, fit: bool) -> Option<u32>
    ensures table { (p : PackageTree) → Admits result (admission_of_args mark number fit (object_seen p state.old)) (object_seen p state.old) (object_seen p state.new) }
    ensures kept { kept_lengths state.new ≡ kept_lengths state.old }
{
    if !fit {
        if !is_pure(mark) {
            state.life = LifeState::Disabled;
        }
        return Some(5);
    }
    if is_coroutine(mark) && is_other(number, state.active) {
        state.life = LifeState::Disabled;
        return Some(7);
    }
    None
}

pub(crate) fn is_pure(mark: Mark) -> bool
    ensures { result ≡ is_marked_pure mark }
{
    matches!(mark, Mark::Pure)
}

pub fn is_coroutine(mark: Mark) -> bool
    ensures { result ≡ is_marked_coroutine mark }
{
    matches!(mark, Mark::Coroutine)
}

fn is_other(number: u32, active: Option<u32>) -> bool
    ensures { result ≡ is_other_one number active }
{
    match active {
        Some(active) => active != number,
        None => false,
    }
}

/// What stands after a body that was entered through the table.
pub fn settle(t: &Typed, state: &mut ObjectState, mark: Mark, number: u32, answer: Answer)
    ensures table { object_seen (package_of t.now) state.new ≡ ended (package_of t.now) mark number (answer_seen answer) (object_seen (package_of t.now) state.old) }
    ensures kept { kept_lengths state.new ≡ kept_lengths state.old }
{
    if !is_coroutine(mark) {
        return;
    }
    match answer {
        Answer::Suspended(_) => state.active = Some(number),
        Answer::Returned(Some(Slot::Status(s))) => {
            state.active = None;
            if is_fault(t, s) {
                state.life = LifeState::Disabled;
            }
        }
        Answer::Returned(_) => state.active = None,
    }
}

fn is_fault(t: &Typed, s: u32) -> bool
    ensures { result ≡ has_kind (package_of t.now) Fault s }
{
    matches!(status_kind(t, s), Category::Fault)
}

/// The kind of a status; of a number that is none of the package's, that of the empty text.
#[tactic(auto, unfolding(wf_ast::specs::TypedPackage::package_of))]
pub fn status_kind(t: &Typed, s: u32) -> Category
    ensures { result ≡ category_of (text_of_status (package_of t.now) s) }
{
    if s < t.statuses() {
        category(t.status_text(StatusId(s)))
    } else {
        Category::Fine
    }
}

// What a part of a body comes to as it runs.

use wf_ast::StmtId;
use wf_mean_exprs::objects::Progress;
use wf_mean_exprs::values::Slot;
use wf_text::Place;

/// How the run of a part ends.
#[derive(Clone, Copy)]
pub enum Flow {
    /// It comes to the part's end.
    Falls,
    /// It leaves this loop, which stands round the part.
    Breaks(StmtId),
    /// It goes on with this loop, which stands round the part.
    Continues(StmtId),
    /// It returns from the method.
    Returns(Option<Slot>),
    /// It suspends at the statement with this place, which has done so much.
    Suspends {
        status: u32,
        at: Place,
        done: Progress,
    },
    /// It needs a turn, and none is left.
    Out,
    /// It takes a step that the meaning doesn't state.
    Stuck,
}

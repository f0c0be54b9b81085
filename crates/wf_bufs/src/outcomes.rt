// How an engine's calls end.

use wf_text::StatusId;

/// What a call answers.
#[derive(Clone, Copy, PartialEq, Eq)]
pub enum Outcome {
    /// A status, by its number in the package.
    Status(StatusId),
    /// A number of the width that the method answers.
    Num(u64),
    Flag(bool),
    /// The method has no result.
    Nothing,
}

/// How an init or a call ends.
#[derive(Clone, Copy, PartialEq, Eq)]
pub enum Reply {
    Done(Outcome),
    /// It needs more turns than it was given.
    Turns,
    /// It takes a step that isn't defined.
    Undefined,
}

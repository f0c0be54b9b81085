// Which kinds of statuses there are.

/// What kind of answer a status is.
#[derive(Clone, Copy, PartialEq, Eq)]
pub enum Category {
    /// The status ok, which has no text.
    Fine,
    /// A note, as the end of the data: the call is over and the receiver stays usable.
    Note,
    /// A suspension: the call goes on when it is made again.
    Suspension,
    /// An error, which disables the receiver of a coroutine.
    Fault,
}

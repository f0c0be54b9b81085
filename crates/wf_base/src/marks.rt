// The marks of methods, which tell their effects.

/// What a method may do.
#[derive(Clone, Copy, PartialEq, Eq)]
pub enum Mark {
    /// No mark: it changes nothing.
    Pure,
    /// `!`: it may write.
    Impure,
    /// `?`: it may write and suspend.
    Coroutine,
}

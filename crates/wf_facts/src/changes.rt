// What a statement does to a number of which facts speak.

/// How a variable, or the length of a reader or a writer, has changed.
#[derive(Clone, Copy)]
pub enum Change {
    /// A variable has grown by a constant.
    Raised(u64),
    /// A variable has shrunk by a constant.
    Lowered(u64),
    /// A length has shrunk by at most so much, or by what isn't known.
    Shortened(Option<u64>),
}

// The rules by which a script is refused, its commands' words, and what its names stand for.

/// A rule of scripts.
#[derive(Clone, Copy, PartialEq, Eq)]
pub enum XRule {
    /// The first word is no command.
    X1,
    /// A name isn't known at this line.
    X2,
    /// A word is missing, one too many, misspelt, declared before or of the wrong kind.
    X3,
    /// A limit is passed.
    X4,
    /// A buffer or byte array stands twice in one call.
    X5,
}

/// The first word of a line.
#[derive(Clone, Copy, PartialEq, Eq)]
pub enum Verb {
    New,
    Null,
    Init,
    Buf,
    Bytes,
    Put,
    Close,
    Compact,
    Show,
    Turns,
    Call,
}

/// What a name stands for: a receiver, a buffer or a byte array, by its number from 0.
#[derive(Clone, Copy, PartialEq, Eq)]
pub enum Thing {
    Receiver(u16),
    Buffer(u16),
    Array(u16),
}

// A host's calls, as the host makes them.

use wf_text::{MethodId, StructId};

/// A receiver as a host declares it: of a public struct, and perhaps null.
#[derive(Clone, Copy, PartialEq, Eq)]
pub struct ReceiverDecl {
    pub of: StructId,
    pub null: bool,
}

/// An argument of a public call. `Io` names a buffer and `Bytes` a byte array, by its number from 0; None is
/// null for a buffer, and the empty slice for bytes.
#[derive(Clone, Copy, PartialEq, Eq)]
pub enum Arg {
    Num(u64),
    Flag(bool),
    Io(Option<u16>),
    Bytes(Option<u16>),
}

/// A public call within so many turns, with arguments of its own. The receiver is named by number, from 0.
#[derive(Drop)]
pub struct BoundedCall {
    pub receiver: u16,
    pub method: MethodId,
    /// The arguments, in the order in which the method declares them.
    pub args: Vec<Arg>,
    pub turns: u64,
}

/// A public call.
#[derive(Clone, Copy)]
pub struct Call<'a> {
    /// The number of the receiver, from 0.
    pub receiver: u16,
    pub method: MethodId,
    /// The arguments, in the order in which the method declares them.
    pub args: &'a [Arg],
}

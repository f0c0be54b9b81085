// The struct states of the source's machine, and the frames of the bodies that run.

use crate::values::Slot;
use wf_text::{MethodId, Place};

/// What a field holds. A field of struct type tells the number of the struct state that stands in it.
#[derive(Drop)]
pub enum FieldState {
    Num(u64),
    Truth(bool),
    Status(u32),
    Cells(Vec<u64>),
    Part(u32),
}

/// Raw: never made ready.
#[derive(Clone, Copy)]
pub enum LifeState {
    Raw,
    Ready,
    Disabled,
}

/// What the first of the remaining statements has done so far: nothing; of a read, the first `count` of these bytes; of a skip,
/// how many bytes are still to be taken; of a write, its byte; of a `yield?`, that it has suspended.
#[derive(Clone, Copy)]
pub enum Progress {
    Untouched,
    Bytes { bytes: [u8; 8], count: u8 },
    ToSkip(u32),
    ToWrite(u8),
    Yielded,
}

/// What is kept of a method between calls: the place of the point at which it has suspended, if it has, what the statement
/// there has done, and its locals.
#[derive(Drop)]
pub struct KeptBody {
    pub point: Option<Place>,
    pub done: Progress,
    pub locals: Vec<Slot>,
}

/// A struct state: its fields by number, the public coroutine that has suspended, and what is kept of each method, by number.
pub struct ObjectState {
    pub life: LifeState,
    pub fields: Vec<FieldState>,
    pub active: Option<u32>,
    pub kept: Vec<KeptBody>,
}

impl Drop for ObjectState {
    fn drop(self) {
        let ObjectState {
            life: _,
            fields: _,
            active: _,
            kept: _,
        } = self;
    }
}

/// A body that runs: its method, the struct state that it runs in, its locals and its arguments.
#[derive(Drop)]
pub struct Frame {
    pub method: MethodId,
    pub object: u32,
    pub locals: Vec<Slot>,
    pub args: Vec<Slot>,
}

// What is kept for a host's calls, so that they take no memory.

use c_meaning::values::CValue;
use c_mem::Object;

/// What isn't in memory now.
pub struct Spares {
    /// Structs of io buffers.
    pub ios: Vec<Object>,
    /// Objects of bytes.
    pub bytes: Vec<Object>,
    /// Bytes on their way.
    pub hand: Vec<u8>,
}

impl Drop for Spares {
    fn drop(self) {
        let Spares {
            ios: _,
            bytes: _,
            hand: _,
        } = self;
    }
}

/// What a call needs beside the objects that stand between calls.
pub struct Room {
    /// Objects for what the arguments name.
    pub spares: Spares,
    /// Has room for the values that are passed.
    pub given: Vec<CValue>,
    /// How many objects stand between calls.
    pub objects: usize,
    /// How many arguments a method has at most.
    pub most: usize,
}

impl Drop for Room {
    fn drop(self) {
        let Room {
            spares: _,
            given: _,
            objects: _,
            most: _,
        } = self;
    }
}

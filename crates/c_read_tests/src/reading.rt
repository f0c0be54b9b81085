// What becomes of bytes that are read, and what is printed for what was read.

use c_read::{ReadFault, read};
use c_text::{Unit, print};
use std::alloc::Global;
use wf_outside::PureSink;
use wf_text::NoMemory;

const HEAD: &[u8] = b"#include <stddef.h>\n#include <stdint.h>\n#include <string.h>\n";

/// The three lines, and the parts after them.
pub(crate) fn text(alloc: Global, parts: &[&[u8]]) -> Result<Vec<u8>, NoMemory> {
    let mut bytes = Vec::from_slice(alloc, HEAD)?;
    for part in parts {
        bytes.extend_from_slice(part)?;
    }
    Ok(bytes)
}

/// What becomes of bytes.
#[derive(Clone, Copy, PartialEq, Eq)]
pub(crate) enum Answer {
    Read,
    TooDeep(u64),
    NotC(u64),
    NoMemory,
}

/// What becomes of these bytes.
pub(crate) fn outcome_of(alloc: Global, bytes: &[u8]) -> Answer {
    match read(alloc, bytes) {
        Ok(_) => Answer::Read,
        Err(ReadFault::TooDeep { at }) => Answer::TooDeep(at),
        Err(ReadFault::NotC { at }) => Answer::NotC(at),
        Err(ReadFault::Memory) => Answer::NoMemory,
    }
}

/// Whether the three lines with these parts become that.
pub(crate) fn becomes(alloc: Global, parts: &[&[u8]], expected: Answer) -> bool {
    match text(alloc, parts) {
        Ok(bytes) => outcome_of(alloc, bytes.as_slice()) == expected,
        Err(_) => false,
    }
}

/// What is printed for a unit.
fn printed(alloc: Global, unit: &Unit) -> Option<PureSink> {
    let Ok(mut sink) = PureSink::with_room(alloc, 2000000) else {
        return None;
    };
    match print(unit, &mut sink) {
        Ok(()) => Some(sink),
        Err(_) => None,
    }
}

/// Whether bytes are read, and these are what is printed for them.
pub(crate) fn is_printed_as(alloc: Global, bytes: &[u8], expected: &[u8]) -> bool {
    let Ok(unit) = read(alloc, bytes) else {
        return false;
    };
    match printed(alloc, &unit) {
        Some(sink) => sink.written() == expected,
        None => false,
    }
}

/// Whether the three lines with the parts are read, and with those of `expected` are what is printed for it.
pub(crate) fn prints(alloc: Global, parts: &[&[u8]], expected: &[&[u8]]) -> bool {
    let Ok(bytes) = text(alloc, parts) else {
        return false;
    };
    match text(alloc, expected) {
        Ok(laid) => is_printed_as(alloc, bytes.as_slice(), laid.as_slice()),
        Err(_) => false,
    }
}

/// Whether the three lines with the parts are read, printed, read and printed again to the same bytes. Bytes have one tree, so the two units
/// have the same.
pub(crate) fn comes_back(alloc: Global, parts: &[&[u8]]) -> bool {
    let Ok(bytes) = text(alloc, parts) else {
        return false;
    };
    let Ok(first) = read(alloc, bytes.as_slice()) else {
        return false;
    };
    let Some(once) = printed(alloc, &first) else {
        return false;
    };
    let Ok(second) = read(alloc, once.written()) else {
        return false;
    };
    match printed(alloc, &second) {
        Some(twice) => once.written() == twice.written(),
        None => false,
    }
}

// What becomes of a C text that is read and taken for a package.

use c_form::{LoadFault, formed};
use c_read::read;
use std::alloc::Global;
use wf_base::Width;
use wf_bufs::{AnswerKind, ArgDecl, ArgKind, MethodDecl, PublicSurface, StructDecl};
use wf_text::{MethodId, NoMemory, StructId};

const HEAD: &[u8] = b"#include <stddef.h>\n#include <stdint.h>\n#include <string.h>\n";

/// Item 0.
pub(crate) const BUFFER: &[u8] =
    b"typedef struct { uint8_t* ptr; size_t len; size_t wi; size_t ri; uint64_t pos; _Bool closed; } wuffs_base__io_buffer;";

/// Item 1: the type of the package's struct.
pub(crate) const STRUCT: &[u8] = b"typedef struct { uint8_t x; } wuffs_e__e;";

/// Item 2: the function that initializes it.
pub(crate) const INITIALIZE: &[u8] =
    b"const char* wuffs_e__e__initialize(wuffs_e__e* self) { memset(self, 0, sizeof(*self)); return 0; }";

/// Item 3: its method.
pub(crate) const METHOD: &[u8] =
    b"uint16_t wuffs_e__e__f(wuffs_e__e* self, uint8_t* ap_x, size_t al_x) { return 7; }";

/// What becomes of a text.
#[derive(Clone, Copy, PartialEq, Eq)]
pub(crate) enum Answer {
    Formed,
    Item(usize),
    NotRead,
    NoMemory,
}

fn owned(alloc: Global, bytes: &[u8]) -> Result<Vec<u8>, NoMemory> {
    Ok(Vec::from_slice(alloc, bytes)?)
}

/// The surface of a package `e` whose struct `e` has the method `f(x: slice base.u8) base.u16`.
fn surface(alloc: Global) -> Result<PublicSurface, NoMemory> {
    let mut args = Vec::new(alloc);
    args.push(ArgDecl {
        name: owned(alloc, b"x")?,
        kind: ArgKind::Slice(Width::W8),
    })?;
    let mut methods = Vec::new(alloc);
    methods.push(MethodDecl {
        number: MethodId(0),
        name: owned(alloc, b"f")?,
        args,
        answers: AnswerKind::Number(Width::W16),
    })?;
    let mut structs = Vec::new(alloc);
    structs.push(StructDecl {
        number: StructId(0),
        name: owned(alloc, b"e")?,
        methods,
    })?;
    Ok(PublicSurface {
        package_name: owned(alloc, b"e")?,
        statuses: Vec::new(alloc),
        structs,
    })
}

/// Adds `times` copies of a part to a text.
pub(crate) fn repeat(text: &mut Vec<u8>, part: &[u8], times: usize) -> Result<(), NoMemory> {
    for _ in 0..times {
        text.extend_from_slice(part)?;
    }
    Ok(())
}

/// The three lines, and the parts after them.
pub(crate) fn text(alloc: Global, parts: &[&[u8]]) -> Result<Vec<u8>, NoMemory> {
    let mut bytes = owned(alloc, HEAD)?;
    for part in parts {
        repeat(&mut bytes, part, 1)?;
    }
    Ok(bytes)
}

/// What becomes of a text.
pub(crate) fn outcome_of(alloc: Global, bytes: &[u8]) -> Answer {
    let Ok(surface) = surface(alloc) else {
        return Answer::NoMemory;
    };
    let Ok(unit) = read(alloc, bytes) else {
        return Answer::NotRead;
    };
    match formed(alloc, &unit, &surface) {
        Ok(_) => Answer::Formed,
        Err(LoadFault::NoSuchForm { item }) => Answer::Item(item),
        Err(LoadFault::Memory) => Answer::NoMemory,
    }
}

/// Whether the three lines with these parts become that.
pub(crate) fn becomes(alloc: Global, parts: &[&[u8]], expected: Answer) -> bool {
    match text(alloc, parts) {
        Ok(bytes) => outcome_of(alloc, bytes.as_slice()) == expected,
        Err(_) => false,
    }
}

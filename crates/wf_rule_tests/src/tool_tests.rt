// The top call over inputs and sinks in memory that fail where they are told to, the exit statuses, and the cells that a C
// machine tells of its text.

ghost use Rattle.std.specs.Prelude.{◌≡◌, [], ◌∷◌, IfOk};

use c_read::read;
use c_step::{CMachine, Loader, ZeroLoader};
use std::alloc::{AllocError, Global};
use wf_bufs::PublicSurface;
use wf_outside::{MemInputs, MemSink, PureInputs, PureSink};
use wf_text::NoMemory;
use wf_tool::{Ending, wuffs_tool};

const SAMPLE: &[u8] =
    b"pub status \"#not a digit\" // a status\npri const X : base.u8 = 0xF_F; pub const y:base.u64=0\n";

const NUMBERS: &[u8] =
    b"pri const K : base.u32 = 4294967295\npub struct g(\n    n : base.u16,\n)\npub func g.top() base.u32 {\n    return K\n}\npub func g.get() base.u16 {\n    return this.n\n}\n";

const SCRIPT: &[u8] =
    b"new p g\ncall p.top\ninit p\ncall p.top\ncall p.get\nnull z g\ncall z.top\ninit z\n";

// Words that spaces separate.
fn words_of(alloc: Global, line: &str) -> Result<Vec<String>, AllocError> {
    let mut words = Vec::new(alloc);
    for word in line.split_whitespace() {
        words.push(String::from_str(alloc, word)?)?;
    }
    Ok(words)
}

// An input under a name.
fn input(alloc: Global, name: &str, bytes: &[u8]) -> Result<(String, Vec<u8>), AllocError> {
    Ok((
        String::from_str(alloc, name)?,
        Vec::from_slice(alloc, bytes)?,
    ))
}

// The sample under the name `k.wuffs`, a package with methods under `g.wuffs` and a script for it under `s`.
fn sample(alloc: Global) -> Result<Vec<(String, Vec<u8>)>, AllocError> {
    let mut held = Vec::new(alloc);
    held.push(input(alloc, "k.wuffs", SAMPLE)?)?;
    held.push(input(alloc, "g.wuffs", NUMBERS)?)?;
    held.push(input(alloc, "s", SCRIPT)?)?;
    Ok(held)
}

/// Words, the takes that fail, the puts that fail with the bytes that are gone then, how the program ends, and what it has
/// written.
type Row = (
    &'static str,
    &'static [u64],
    &'static [(u64, usize)],
    Ending,
    &'static [u8],
);

const ROWS: &[Row] = &[
    ("check k k.wuffs", &[], &[], Ending::Done, b"ok 0 methods\n"),
    (
        "check k k.wuffs",
        &[0],
        &[],
        Ending::InputFault,
        b"input fault k.wuffs\n",
    ),
    (
        "check k k.wuffs",
        &[1],
        &[],
        Ending::Done,
        b"ok 0 methods\n",
    ),
    (
        "check k k.wuffs k.wuffs",
        &[1],
        &[],
        Ending::InputFault,
        b"input fault k.wuffs\n",
    ),
    (
        "check k other",
        &[],
        &[],
        Ending::InputFault,
        b"input fault other\n",
    ),
    (
        "check k k.wuffs other",
        &[],
        &[],
        Ending::InputFault,
        b"input fault other\n",
    ),
    ("check k k.wuffs", &[], &[(0, 0)], Ending::OutputFault, b""),
    ("check k k.wuffs", &[], &[(0, 1)], Ending::OutputFault, b"o"),
    (
        "check k k.wuffs",
        &[],
        &[(0, 13)],
        Ending::OutputFault,
        b"ok 0 methods\n",
    ),
    (
        "check k other",
        &[],
        &[(0, 5)],
        Ending::OutputFault,
        b"input",
    ),
    ("check k", &[], &[(0, 5)], Ending::OutputFault, b"usage"),
    (
        "check k",
        &[0],
        &[],
        Ending::Usage,
        b"usage: wuffsc COMMAND PKG [SCRIPT] FILE\n",
    ),
    // What `run` writes is what it sees of the engine that the loader gives: here of one that answers 0 to every call and ok to
    // every init.
    (
        "run g s g.wuffs",
        &[],
        &[],
        Ending::Done,
        b"new p\ncall p.top 0\ninit p ok\ncall p.top 0\ncall p.get 0\nnull z\ncall z.top 0\ninit z ok\n",
    ),
    // `mean` executes the source, whatever loader is handed in.
    (
        "mean g s g.wuffs",
        &[],
        &[],
        Ending::Done,
        b"new p\ncall p.top 0\ninit p ok\ncall p.top 4294967295\ncall p.get 0\nnull z\ncall z.top 0\ninit z \"#base: bad receiver\"\n",
    ),
];

// Whether the program ends so over the sample, with this written.
fn ends(alloc: Global, row: &Row) -> Result<bool, NoMemory> {
    let words = words_of(alloc, row.0)?;
    let failing = Vec::from_slice(alloc, row.1)?;
    let mut inputs = MemInputs::new(alloc, sample(alloc)?, failing);
    let gone = Vec::from_slice(alloc, row.2)?;
    let mut sink = MemSink::new(alloc, gone, 200)?;
    let ending = wuffs_tool(
        alloc,
        words.as_slice(),
        &mut inputs,
        &mut sink,
        &mut ZeroLoader,
    );
    Ok(ending == row.3 && sink.written() == row.4)
}

fn all_end(alloc: Global, rows: &[Row]) -> Result<bool, NoMemory> {
    for row in rows {
        if !ends(alloc, row)? {
            return Ok(false);
        }
    }
    Ok(true)
}

// Whether a sink with this room ends the sample so, with these bytes written.
fn fills(alloc: Global, room: usize, ending: Ending, line: &[u8]) -> Result<bool, NoMemory> {
    let words = words_of(alloc, "check k k.wuffs")?;
    let mut inputs = PureInputs::new(sample(alloc)?);
    let mut sink = PureSink::with_room(alloc, room)?;
    let came = wuffs_tool(
        alloc,
        words.as_slice(),
        &mut inputs,
        &mut sink,
        &mut ZeroLoader,
    );
    Ok(came == ending && sink.written() == line)
}

fn keeps_to_the_room(alloc: Global) -> Result<bool, NoMemory> {
    Ok(
        fills(alloc, 13, Ending::Done, b"ok 0 methods\n")?
            && fills(alloc, 12, Ending::OutputFault, b"")?,
    )
}

// Whether the endings have the exit statuses 0, 1, 2 and so on.
fn are_counted(endings: &[Ending]) -> bool {
    let mut status = 0u8;
    for ending in endings {
        if ending.status() != status {
            return false;
        }
        status = status.saturating_add(1);
    }
    true
}

// What a text begins with: the three lines, and the type of a buffer.
const FRONT: &[u8] =
    b"#include <stddef.h>\n#include <stdint.h>\n#include <string.h>\ntypedef struct { uint8_t* ptr; size_t len; size_t wi; size_t ri; uint64_t pos; _Bool closed; } wuffs_base__io_buffer;";

/// Functions of a text, and the parameters and locals of the greatest chain of calls that a host begins.
type Chain = (&'static [u8], u64);

const CHAINS: &[Chain] = &[
    (b"", 0),
    // `f` has three, and `g`, which it calls, two.
    (
        b"static uint8_t g(uint8_t a) { uint8_t b; b = a; return b; } uint8_t f(uint8_t x, uint8_t y) { uint8_t z; z = g(x); return z; }",
        5,
    ),
    // `f` has one; `h` has three, but nothing calls it.
    (
        b"static void h(uint8_t a, uint8_t b, uint8_t c) { } void f(uint8_t x) { }",
        1,
    ),
    // The same, where `f` calls `h`.
    (
        b"static void h(uint8_t a, uint8_t b, uint8_t c) { } void f(uint8_t x) { h(x, x, x); }",
        4,
    ),
    // `f` has two, and `i` two, which an expression of `f` calls.
    (
        b"static inline uint8_t i(uint8_t a, uint8_t b) { return (a + b); } uint8_t f(uint8_t x) { uint8_t z; z = (i(x, x)); return z; }",
        4,
    ),
];

// The surface of a package with nothing public, whose one status is ok.
fn nothing_public(alloc: Global) -> Result<PublicSurface, NoMemory>
    ensures { IfOk result (λ it. it ≡ record { package_name = []; statuses = [] ∷ []; structs = [] }) }
{
    let statuses = vec![in alloc; Vec::new(alloc)]?;
    Ok(PublicSurface {
        package_name: Vec::new(alloc),
        statuses,
        structs: Vec::new(alloc),
    })
}

// A text of these functions.
fn text(alloc: Global, functions: &[u8]) -> Result<Vec<u8>, NoMemory> {
    let mut bytes = Vec::from_slice(alloc, FRONT)?;
    bytes.extend_from_slice(functions)?;
    Ok(bytes)
}

// Whether a machine tells so many cells of a text of these functions.
fn has_cells(alloc: Global, chain: &Chain) -> Result<bool, NoMemory> {
    let surface = nothing_public(alloc)?;
    let bytes = text(alloc, chain.0)?;
    let Ok(unit) = read(alloc, bytes.as_slice()) else {
        return Ok(false);
    };
    let mut loader = CMachine;
    match loader.load(alloc, unit, &surface, &[]) {
        Ok(machine) => Ok(machine.frame_cells() == chain.1),
        Err(_) => Ok(false),
    }
}

fn all_have_cells(alloc: Global, chains: &[Chain]) -> Result<bool, NoMemory> {
    for chain in chains {
        if !has_cells(alloc, chain)? {
            return Ok(false);
        }
    }
    Ok(true)
}

#[test]
fn faults_endings_and_cells(rt: HostRuntime) {
    assert!(rt; all_end(rt.alloc(), ROWS) == Ok(true));
    assert!(rt; keeps_to_the_room(rt.alloc()) == Ok(true));
    assert!(rt; all_have_cells(rt.alloc(), CHAINS) == Ok(true));
    assert!(rt;
        are_counted(&[
            Ending::Done,
            Ending::Refused,
            Ending::Usage,
            Ending::InputFault,
            Ending::OutputFault,
            Ending::ScriptRefused,
            Ending::NoMemory,
            Ending::Turns,
            Ending::TextRefused,
            Ending::Undefined,
        ])
    );
}

// Each kind of input and sink in memory once, with a fault in mid-stream. Real files and standard output are tested on
// the built program.

ghost use Rattle.std.specs.Prelude.{◌<◌, ◌+◌, ◌≤◌};

use std::alloc::{AllocError, Global};
use std::test::Fail;
use wf_outside::{Inputs, MemInputs, MemSink, PureInputs, PureSink, Sink, SinkFault, TakeFault};
use wf_text::NoMemory;

// Files of these names and bytes.
fn files(alloc: Global, entries: &[(&str, &[u8])]) -> Result<Vec<(String, Vec<u8>)>, AllocError> {
    let mut held = Vec::new(alloc);
    for (name, bytes) in entries {
        let name = String::from_str(alloc, *name)?;
        let bytes = Vec::from_slice(alloc, *bytes)?;
        held.push((name, bytes))?;
    }
    Ok(held)
}

// Whether a file of this name is taken into an empty list with this answer, at most 3 bytes, and leaves these bytes there.
fn takes(
    alloc: Global,
    inputs: &mut MemInputs,
    name: &str,
    answer: Result<(), TakeFault>,
    bytes: &[u8],
) -> bool
    requires { inputs.old.faults < 9 }
    ensures { inputs.new.faults ≤ inputs.old.faults + 1 }
{
    let mut into = Vec::new(alloc);
    let came = inputs.take(name, &mut into, 3);
    came == answer && into.as_slice() == bytes
}

// The second take fails.
fn inputs_in_memory_hold(alloc: Global) -> Result<bool, AllocError> {
    let held = files(alloc, &[("three", b"abc"), ("four", b"abcd")])?;
    let failing = Vec::from_slice(alloc, &[1])?;
    let mut inputs = MemInputs::new(alloc, held, failing);
    Ok(
        takes(alloc, &mut inputs, "three", Ok(()), b"abc")
            && takes(alloc, &mut inputs, "three", Err(TakeFault::Failed), b"")
            && takes(alloc, &mut inputs, "four", Err(TakeFault::TooLong), b"abcd")
            && takes(alloc, &mut inputs, "five", Err(TakeFault::Failed), b""),
    )
}

fn pure_inputs_hold(alloc: Global) -> Result<bool, AllocError> {
    let mut inputs = PureInputs::new(files(alloc, &[("three", b"abc")])?);
    let mut into = Vec::new(alloc);
    let absent = inputs.take("five", &mut into, 3);
    let none = into.is_empty();
    into.clear();
    let cut = inputs.take("three", &mut into, 2);
    Ok(
        absent == Ok(())
            && none
            && cut == Err(TakeFault::TooLong)
            && into.as_slice() == b"abc".as_slice(),
    )
}

// Whether a piece is put with this answer.
fn puts(sink: &mut MemSink, piece: &[u8], answer: Result<(), SinkFault>) -> bool
    requires { sink.old.faults < 9 }
    ensures { sink.new.faults ≤ sink.old.faults + 1 }
{
    sink.put(piece) == answer
}

// The first put fails after one byte, and the third finds no room.
fn sinks_in_memory_hold(alloc: Global) -> Result<bool, NoMemory> {
    let failing = Vec::from_slice(alloc, &[(0, 1)])?;
    let mut sink = MemSink::new(alloc, failing, 5)?;
    let put = puts(&mut sink, b"abc", Err(SinkFault { gone: 1 }))
        && puts(&mut sink, b"bcde", Ok(()))
        && puts(&mut sink, b"f", Err(SinkFault { gone: 0 }));
    Ok(put && sink.written() == b"abcde".as_slice() && sink.longest() == 4)
}

fn pure_sinks_hold(alloc: Global) -> Result<bool, NoMemory> {
    let mut sink = PureSink::with_room(alloc, 3)?;
    let over = sink.put(b"abcd");
    let within = sink.put(b"abc");
    let none = PureSink::new(alloc).put(b"a");
    Ok(
        over == Err(SinkFault { gone: 0 })
            && within == Ok(())
            && none == Err(SinkFault { gone: 0 })
            && sink.written() == b"abc".as_slice(),
    )
}

#[test]
fn inputs_and_sinks(rt: HostRuntime) -> Result<(), Fail> {
    let alloc = rt.alloc();
    assert!(rt; inputs_in_memory_hold(alloc)? && pure_inputs_hold(alloc)?);
    assert!(rt; sinks_in_memory_hold(alloc) == Ok(true) && pure_sinks_hold(alloc) == Ok(true));
    Ok(())
}

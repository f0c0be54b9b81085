// The program: real files, standard output, and the exit status that tells how it ended.
#![tactic(auto)]

use c_step::CMachine;
use std::alloc::Global;
use std::process::ExitCode;
use std::{env, io};
use wf_outside::{FileInputs, StdSink};
use wf_tool::{Ending, wuffs_tool};

/// How large the block is, in bytes, that is taken and given back before all else.
const FIRST_BLOCK: usize = 16 * 1024 * 1024;

/// Runs the command that the words after the program's own name call for.
fn main(rt: HostRuntime) -> ExitCode {
    keep_freed_memory(rt.alloc());
    let mut inputs = FileInputs::new(&rt);
    let mut output = StdSink::new(&rt);
    let mut loader = CMachine;
    let ending = match words_of(&rt) {
        Ok(words) => wuffs_tool(
            rt.alloc(),
            words.as_slice(),
            &mut inputs,
            &mut output,
            &mut loader,
        ),
        Err(error) if error.kind() == io::ErrorKind::OutOfMemory => Ending::NoMemory,
        // Words that are no text are no command form, as no words are.
        Err(_) => wuffs_tool(rt.alloc(), &[], &mut inputs, &mut output, &mut loader),
    };
    ExitCode::from(ending.status())
}

// Has the C library keep what one phase frees for the next. It gives a block of many pages back to the system as soon as that is
// freed, and the system clears each page anew when it is used again; but only blocks that are larger than any that it has seen
// freed before. Lists that are larger than this one grow without being copied. Where memory for the block is refused, nothing is
// changed.
fn keep_freed_memory(alloc: Global) {
    drop(Vec::<u8>::with_capacity(alloc, FIRST_BLOCK));
}

// The words after the program's own name.
fn words_of(rt: &HostRuntime) -> io::Result<Vec<String>> {
    let words = env::args(rt)?.skip(1).collect(rt.alloc())?;
    Ok(words)
}

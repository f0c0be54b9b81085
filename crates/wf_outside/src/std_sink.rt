// The sink that is standard output. What a terminal or a pipe takes can't be told by any clause: this is the
// edge that is trusted, and the loop over a writer, which has the bytes where the writer tells them, is the
// part that is proved.

ghost use Rattle.std.specs.Prelude.{◌≡◌, None};
ghost use Rattle.wf_outside.specs.Sinks.{Puts};

use crate::sinks::{Sink, SinkFault};
use std::io;
use std::io::Write;

/// The standard output that a runtime reaches. A write is a fault where it fails, and where it takes no
/// byte though there is one.
#[derive(Drop)]
pub struct StdSink<'a, P> {
    output: &'a P,
    faults: u64,
}

impl<'a, P: Print + Drop> StdSink<'a, P> {
    /// A sink with no fault so far, over the standard output that `output` reaches.
    pub fn new(output: &'a P) -> StdSink<'a, P>
        ensures { result.faults ≡ 0 }
    {
        StdSink { output, faults: 0 }
    }
}

impl<'a, P: Print + Drop> Sink for StdSink<'a, P> {
    ghost written = { λ _. None };

    ghost room = { λ _. None };

    ghost longest = { λ _. None };

    ghost faults = { λ sink. sink.faults };

    fn put(&mut self, piece: &[u8]) -> Result<(), SinkFault> {
        let mut output = io::writer(self.output);
        let written = write_whole(&mut output, piece);
        if let Err(_) = written {
            self.faults += 1;
        }
        written
    }
}

/// Writes all of `piece`. A write that fails, or that takes nothing while bytes are left, ends it with the
/// number of bytes that were taken before.
pub(crate) fn write_whole<W: Write>(output: &mut W, piece: &[u8]) -> Result<(), SinkFault>
    ensures { Puts (W.contents output.old) (W.contents output.new) result piece.now }
{
    let mut gone = 0;
    while gone < piece.len() {
        let (_, rest) = piece.split_at(gone);
        match output.write(rest) {
            Ok(0) => return Err(SinkFault { gone }),
            Ok(count) => gone += count,
            Err(_) => return Err(SinkFault { gone }),
        }
    }
    Ok(())
}

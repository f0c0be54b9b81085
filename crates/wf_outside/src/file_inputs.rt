// Inputs that are files. What a file holds can't be told by any clause: this is the edge that is trusted, and
// the loop over a reader, which has the bytes where the reader tells them, is the part that is proved.

ghost use Rattle.std.specs.Prelude.{◌≡◌, ◌-◌, ◌<◌, ◌≤◌, [], None, IfSome};
ghost use Rattle.wf_outside.specs.Inputs.{Takes, TakesLength};

use crate::inputs::{Inputs, TakeFault};
use std::fs;
use std::fs::Files;
use std::io::Read;

/// The files that a runtime reaches. Each open or read that fails is a fault.
#[derive(Drop)]
pub struct FileInputs<'a, R> {
    files: &'a R,
    faults: u64,
}

impl<'a, R: Files> FileInputs<'a, R> {
    /// Inputs with no fault so far, over the files that `files` reaches.
    pub fn new(files: &'a R) -> FileInputs<'a, R>
        ensures { result.faults ≡ 0 }
    {
        FileInputs { files, faults: 0 }
    }
}

impl<'a, R: Files> Inputs for FileInputs<'a, R> {
    ghost held = { λ _ _. None };

    ghost last_failed = { λ _. None };

    ghost faults = { λ inputs. inputs.faults };

    fn take(&mut self, name: &str, into: &mut Vec<u8>, most: u64) -> Result<(), TakeFault> {
        let Ok(mut file) = fs::open(self.files, name) else {
            self.faults += 1;
            return Err(TakeFault::Failed);
        };
        let taken = read_most(&mut file, into, most);
        if let Err(TakeFault::Failed) = taken {
            self.faults += 1;
        }
        taken
    }
}

/// Reads to the end, but no more than `most + 1` bytes are kept. A read that fails answers `Failed`.
pub(crate) fn read_most<R: Read>(
    file: &mut R,
    into: &mut Vec<u8>,
    most: u64,
) -> Result<(), TakeFault>
    requires empty { into.old.items ≡ [] }
    requires bound { most ≤ 1048576 }
    ensures length { TakesLength most result into.new.items }
    ensures bytes { IfSome (R.remaining file.old)
        (λ bytes. Takes bytes most result into.new.items) }
{
    let mut buffer = [0u8; 4096];
    while into.len() as u64 <= most {
        match file.read(&mut buffer) {
            Ok(0) => return Ok(()),
            Ok(count) => into.extend_from_slice(&buffer[..count])?,
            Err(_) => return Err(TakeFault::Failed),
        }
    }
    into.truncate(most as usize + 1);
    Err(TakeFault::TooLong)
}

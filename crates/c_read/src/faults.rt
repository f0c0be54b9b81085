// Why bytes aren't read.

ghost use Rattle.std.specs.Prelude.{◌≡◌};
ghost use Rattle.c_read.specs.declared.faults.ReadFault.TheVariants as faults;

use thiserror::Error;
use wf_text::NoMemory;

/// Why bytes give no unit. A place counts bytes from 0.
#[derive(Debug, Drop, Error)]
pub enum ReadFault {
    /// A bracket opens here where 512 are open; what stands before it begins a text of the subset.
    #[error("a bracket at byte {at} opens where 512 are open")]
    TooDeep {
        /// Where the bracket stands.
        at: u64,
    },
    /// The bytes aren't a text of the subset.
    #[error("the token at byte {at} can't stand there")]
    NotC {
        /// Where the first token stands that can't go on; at the end, the number of bytes.
        at: u64,
    },
    /// Memory was refused; nothing is said of the bytes.
    #[error("out of memory")]
    Memory,
}

impl From<NoMemory> for ReadFault {
    ghost from_gives = { λ _ fault. fault ≡ faults.Memory };

    fn from(_refused: NoMemory) -> ReadFault {
        ReadFault::Memory
    }
}

// Why bytes give no script.

ghost use Rattle.std.specs.Prelude.{◌≡◌};
ghost use Rattle.wf_script.specs.declared.faults.ScriptFault.TheVariants.{Memory};

use std::alloc::{AllocError, AllocFailed};
use wf_script_rules::XRule;
use wf_text::NoMemory;

/// Why bytes give no script.
#[derive(Clone, Copy, PartialEq, Eq)]
pub enum ScriptFault {
    /// This line, counted from 1, is the first that breaks a rule, and this is the first rule that it breaks.
    Refused { line: u32, rule: XRule },
    /// Memory was refused; nothing is said of the bytes.
    Memory,
}

impl From<AllocError> for ScriptFault {
    ghost from_gives = { λ _ fault. fault ≡ Memory };

    fn from(_refused: AllocError) -> ScriptFault {
        ScriptFault::Memory
    }
}

impl<T: Drop> From<AllocFailed<T>> for ScriptFault {
    ghost from_gives = { λ _ fault. fault ≡ Memory };

    fn from(_refused: AllocFailed<T>) -> ScriptFault {
        ScriptFault::Memory
    }
}

impl From<NoMemory> for ScriptFault {
    ghost from_gives = { λ _ fault. fault ≡ Memory };

    fn from(_refused: NoMemory) -> ScriptFault {
        ScriptFault::Memory
    }
}

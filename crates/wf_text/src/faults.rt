// Why a phase gives no result.

ghost use Rattle.std.specs.Prelude.{◌≡◌};
ghost use Rattle.wf_text.specs.declared.faults.PhaseFault.TheVariants as faults;

use crate::rules::Refusal;
use std::alloc::{AllocError, AllocFailed};

/// The answer of a call that could not get the memory that it needs. Each call says what it leaves then.
#[derive(Clone, Copy, PartialEq, Eq)]
pub struct NoMemory;

impl From<AllocError> for NoMemory {
    fn from(_refused: AllocError) -> NoMemory {
        NoMemory
    }
}

impl<T: Drop> From<AllocFailed<T>> for NoMemory {
    fn from(_refused: AllocFailed<T>) -> NoMemory {
        NoMemory
    }
}

/// Why a phase of the checker gives no tree.
#[derive(Clone, Copy, PartialEq, Eq)]
pub enum PhaseFault {
    /// The package breaks a rule.
    Refused(Refusal),
    /// Memory was refused; nothing is said of the package.
    Memory,
}

impl From<AllocError> for PhaseFault {
    ghost from_gives = { λ _ fault. fault ≡ faults.Memory };

    fn from(_refused: AllocError) -> PhaseFault {
        PhaseFault::Memory
    }
}

impl<T: Drop> From<AllocFailed<T>> for PhaseFault {
    ghost from_gives = { λ _ fault. fault ≡ faults.Memory };

    fn from(_refused: AllocFailed<T>) -> PhaseFault {
        PhaseFault::Memory
    }
}

impl From<NoMemory> for PhaseFault {
    ghost from_gives = { λ _ fault. fault ≡ faults.Memory };

    fn from(_refused: NoMemory) -> PhaseFault {
        PhaseFault::Memory
    }
}

impl From<Refusal> for PhaseFault {
    ghost from_gives = { λ refusal fault. fault ≡ faults.Refused refusal };

    fn from(refusal: Refusal) -> PhaseFault {
        PhaseFault::Refused(refusal)
    }
}

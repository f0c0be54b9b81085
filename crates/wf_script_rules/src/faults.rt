// Why a line gives no command.

ghost use Rattle.std.specs.Prelude.{◌≡◌};
ghost use Rattle.wf_script_rules.specs.declared.faults.LineFault.TheVariants.{Refused, Memory};
ghost use Rattle.wf_script_rules.specs.Answers.{decoding_fault};

use crate::rules::XRule;
use hex::FromHexError;
use std::alloc::{AllocError, AllocFailed};
use wf_text::NoMemory;

/// Why a line gives no command.
#[derive(Clone, Copy, PartialEq, Eq)]
pub enum LineFault {
    /// It breaks a rule.
    Refused(XRule),
    /// Memory was refused; nothing is said of the line.
    Memory,
}

impl From<XRule> for LineFault {
    ghost from_gives = { λ rule fault. fault ≡ Refused rule };

    fn from(rule: XRule) -> LineFault {
        LineFault::Refused(rule)
    }
}

impl From<AllocError> for LineFault {
    ghost from_gives = { λ _ fault. fault ≡ Memory };

    fn from(_refused: AllocError) -> LineFault {
        LineFault::Memory
    }
}

impl<T: Drop> From<AllocFailed<T>> for LineFault {
    ghost from_gives = { λ _ fault. fault ≡ Memory };

    fn from(_refused: AllocFailed<T>) -> LineFault {
        LineFault::Memory
    }
}

impl From<NoMemory> for LineFault {
    ghost from_gives = { λ _ fault. fault ≡ Memory };

    fn from(_refused: NoMemory) -> LineFault {
        LineFault::Memory
    }
}

impl From<FromHexError> for LineFault {
    ghost from_gives = { λ why fault. fault ≡ decoding_fault why };

    fn from(why: FromHexError) -> LineFault {
        match why {
            FromHexError::OutOfMemory => LineFault::Memory,
            FromHexError::InvalidHexCharacter { .. }
            | FromHexError::OddLength
            | FromHexError::InvalidStringLength => LineFault::Refused(XRule::X3),
        }
    }
}

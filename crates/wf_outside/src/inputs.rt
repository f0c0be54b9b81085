// Inputs: what a name holds, taken whole.

ghost use Rattle.std.specs.Prelude.{◌≡◌, ℕ, ◌-◌, ◌^◌, ◌<◌, ◌≤◌, List, [], Option, IfSome};
ghost use Rattle.wf_outside.specs.Inputs.{CountsTake, NamesFailed, Takes, TakesLength};
ghost use Rattle.wf_outside.specs.declared.inputs.TakeFault.TheVariants as faults;

use std::alloc::AllocError;

/// Why an input wasn't taken whole.
#[derive(Clone, Copy, PartialEq, Eq)]
pub enum TakeFault {
    /// The input isn't there or couldn't be read. It was counted.
    Failed,
    /// The input has more bytes than were asked for.
    TooLong,
    /// Memory was refused.
    Memory,
}

impl From<AllocError> for TakeFault {
    ghost from_gives = { λ _ fault. fault ≡ faults.Memory };

    fn from(_refused: AllocError) -> TakeFault {
        TakeFault::Memory
    }
}

/// Where the bytes of files come from.
///
/// `held` is what a name holds, where the object tells it; no call changes it. `last_failed` is the name of the
/// last take that failed, where the object tells it. `faults` counts the takes that failed.
pub trait Inputs {
    ghost held: { Self → List ℕ → Option (List ℕ) };

    ghost last_failed: { Self → Option (List ℕ) };

    ghost faults: { Self → ℕ };

    /// Takes the input under `name` into `into`, which is empty, up to `most` bytes, which is at most
    /// 1,048,576.
    ///
    /// Ok: `into` has all bytes of the input. `TooLong`: the input has more than `most` bytes, and `into` holds its
    /// first `most + 1`. `Failed`: the fault was counted, and `into` holds a front part of the input.
    /// `Memory`: memory was refused, and `into` holds a front part.
    fn take(&mut self, name: &str, into: &mut Vec<u8>, most: u64) -> Result<(), TakeFault>
        requires empty { into.old.items ≡ [] }
        requires bound { most ≤ 1048576 }
        requires countable { faults self.old < 2 ^ 64 - 1 }
        ensures same { held self.new ≡ held self.old }
        ensures bytes { IfSome (held self.old name.now)
            (λ bytes. Takes bytes most result into.new.items) }
        ensures length { TakesLength most result into.new.items }
        ensures count { CountsTake (faults self.old) (faults self.new) result }
        ensures name { NamesFailed (last_failed self.old) (last_failed self.new) result name.now };
}

// The files of a package are taken from the inputs, within the number of bytes that they may have together.

ghost use Rattle.std.specs.Prelude.{◌≡◌, ◌-◌, ◌^◌, ◌≤◌, ◌<◌, length, map, string_bytes, IfOk, IfErr};
ghost use Rattle.wf_text.specs.declared.rules.Rule.TheVariants.{L1};
ghost use Rattle.wf_tokens.specs.Places.{first_place};
ghost use Rattle.wf_tool.specs.declared.taking.TakingFault.TheVariants as faults;
ghost use Rattle.wf_tool.specs.Taken.{CountsTaking, NamesFailed, NamesFile, StopsFile, StopsFiles, StopsScript, TakesFile, TakesFiles, TakesScript, taking_fault};

use crate::words::file_name;
use std::alloc::{AllocFailed, Global};
use wf_outside::{Inputs, TakeFault};
use wf_text::{NoMemory, PhaseFault, Place, Refusal, Rule};

/// Why files aren't taken, or a package isn't accepted.
#[derive(Clone, Copy)]
pub(crate) enum TakingFault {
    /// They break a rule.
    Refused(Refusal),
    /// The file with this number, from 0, couldn't be taken.
    Failed(usize),
    /// Memory was refused.
    Memory,
}

impl<T: Drop> From<AllocFailed<T>> for TakingFault {
    ghost from_gives = { λ _ fault. fault ≡ faults.Memory };

    fn from(_refused: AllocFailed<T>) -> TakingFault {
        TakingFault::Memory
    }
}

impl From<NoMemory> for TakingFault {
    ghost from_gives = { λ _ fault. fault ≡ faults.Memory };

    fn from(_refused: NoMemory) -> TakingFault {
        TakingFault::Memory
    }
}

impl From<PhaseFault> for TakingFault {
    ghost from_gives = { λ refused fault. fault ≡ taking_fault refused };

    fn from(refused: PhaseFault) -> TakingFault {
        match refused {
            PhaseFault::Refused(refusal) => TakingFault::Refused(refusal),
            PhaseFault::Memory => TakingFault::Memory,
        }
    }
}

/// The first place of the file with this number.
pub(crate) fn first_place(number: usize) -> Place
    requires { number < 2 ^ 16 }
    ensures { result ≡ first_place number }
{
    Place {
        file: number as u16,
        line: 1,
        col: 1,
    }
}

/// Takes the file with this number, for which `most` bytes are left. L1 where it has more.
fn take_file<I: Inputs>(
    alloc: Global,
    name: &str,
    number: usize,
    most: u64,
    inputs: &mut I,
) -> Result<Vec<u8>, TakingFault>
    requires number { number < 2 ^ 16 }
    requires most { most ≤ 1048576 }
    requires faults { I.faults inputs.old < 2 ^ 64 - 1 }
    ensures takes { IfOk result (λ bytes. TakesFile (I.held inputs.old) most name.now bytes.items) }
    ensures stops { IfErr result (λ fault. StopsFile (I.held inputs.old) most number name.now fault) }
    ensures count { CountsTaking (I.faults inputs.old) (I.faults inputs.new) result }
    ensures name { IfErr result (λ fault. NamesFile (I.last_failed inputs.new) name.now fault) }
    ensures same { I.held inputs.new ≡ I.held inputs.old }
{
    let mut bytes = Vec::new(alloc);
    match inputs.take(name, &mut bytes, most) {
        Ok(()) => Ok(bytes),
        Err(TakeFault::Failed) => Err(TakingFault::Failed(number)),
        Err(TakeFault::TooLong) => Err(TakingFault::Refused(Refusal {
            rule: Rule::L1,
            at: first_place(number),
        })),
        Err(TakeFault::Memory) => Err(TakingFault::Memory),
    }
}

/// Takes files in order, which may have 1,048,576 bytes together. The first that fails, or with which they have more
/// (L1), ends it.
pub(crate) fn take_files<I: Inputs>(
    alloc: Global,
    names: &[String],
    inputs: &mut I,
) -> Result<Vec<Vec<u8>>, TakingFault>
    requires few { length names.now ≤ 16 }
    requires faults { I.faults inputs.old < 2 ^ 64 - 1 }
    ensures takes { IfOk result (λ files. TakesFiles (I.held inputs.old) 1048576 (map (λ name. string_bytes name) names.now)
        (map (λ bytes. bytes.items) files.items)) }
    ensures stops { IfErr result (λ fault. StopsFiles (I.held inputs.old) 1048576 0 (map (λ name. string_bytes name) names.now) fault) }
    ensures count { CountsTaking (I.faults inputs.old) (I.faults inputs.new) result }
    ensures name { IfErr result (λ fault. NamesFailed (I.last_failed inputs.new) (map (λ name. string_bytes name) names.now) fault) }
    ensures same { I.held inputs.new ≡ I.held inputs.old }
{
    let mut files = Vec::new(alloc);
    let mut left: u64 = 1_048_576;
    let mut number: usize = 0;
    while number < names.len() {
        let bytes = take_file(alloc, file_name(names, number), number, left, inputs)?;
        left -= bytes.as_slice().len() as u64;
        files.push(bytes)?;
        number += 1;
    }
    Ok(files)
}

/// Takes the script or the text with this name. Of one that has more than 1,048,576 bytes, one byte more is taken. `before` is how
/// many inputs were taken before it.
pub(crate) fn take_other<I: Inputs>(
    alloc: Global,
    name: &str,
    before: usize,
    inputs: &mut I,
) -> Result<Vec<u8>, TakingFault>
    requires faults { I.faults inputs.old < 2 ^ 64 - 1 }
    ensures takes { IfOk result (λ bytes. TakesScript (I.held inputs.old) name.now bytes.items) }
    ensures stops { IfErr result (StopsScript before) }
    ensures count { CountsTaking (I.faults inputs.old) (I.faults inputs.new) result }
    ensures name { IfErr result (λ fault. NamesFile (I.last_failed inputs.new) name.now fault) }
    ensures same { I.held inputs.new ≡ I.held inputs.old }
{
    let mut bytes = Vec::new(alloc);
    match inputs.take(name, &mut bytes, 1_048_576) {
        Ok(()) => Ok(bytes),
        Err(TakeFault::TooLong) => Ok(bytes),
        Err(TakeFault::Failed) => Err(TakingFault::Failed(before)),
        Err(TakeFault::Memory) => Err(TakingFault::Memory),
    }
}

// Flags by number: of methods, or of structs.

ghost use Rattle.std.specs.Prelude.{◌≡◌, ◌<◌, length, nat_eq, replicate, false, IfOk};
ghost use Rattle.wf_lower.specs.Flags.{Sets};

use std::alloc::Global;
use wf_text::NoMemory;

/// So many flags, of which none is set.
pub(crate) fn no_flags(alloc: Global, count: u32) -> Result<Vec<bool>, NoMemory>
    ensures { IfOk result (λ flags. flags.items ≡ replicate count false) }
{
    Ok(vec![in alloc; false; count as usize]?)
}

/// Sets the flag with the number `n`.
pub(crate) fn set(flags: &mut Vec<bool>, n: u32)
    requires { n < length flags.old.items }
    ensures marks { Sets (λ other. nat_eq n other) flags.old.items flags.new.items }
    ensures sized { length flags.new.items ≡ length flags.old.items }
{
    flags[n as usize] = true;
}

// Which structs have a coroutine, found in one walk over all methods.

ghost use Rattle.std.specs.Prelude.{◌≡◌, ◌<◌, ◌&&◌, length, nat_eq, IfOk};
ghost use Rattle.wf_ast.specs.TypedInvariant.{IsTyped};
ghost use Rattle.wf_ast.specs.TypedPackage.{package_of};
ghost use Rattle.wf_ast.specs.WellTyped.{is_coroutine as is_marked_coroutine};
ghost use Rattle.wf_lower.specs.Coroutines.{HaveCoroutines};
ghost use Rattle.wf_lower.specs.Flags.{Sets};

use crate::flags::{no_flags, set};
use std::alloc::Global;
use wf_ast::{Method, Typed};
use wf_base::Mark;
use wf_text::{MethodId, NoMemory};

/// A flag for each struct, by its number: whether it has a coroutine.
pub(crate) fn structs_with_coroutines(alloc: Global, t: &Typed) -> Result<Vec<bool>, NoMemory>
    requires { IsTyped t.now }
    ensures { IfOk result (λ flags. HaveCoroutines (package_of t.now) flags.items) }
{
    let mut flags = no_flags(alloc, t.structs())?;
    for m in 0..t.methods() {
        mark_struct(&mut flags, t.method(MethodId(m)));
    }
    Ok(flags)
}

/// Sets the flag of a method's struct, where the method is a coroutine.
fn mark_struct(flags: &mut Vec<bool>, m: &Method)
    requires { m.now.of.0 < length flags.old.items }
    ensures marks { Sets (λ s. nat_eq m.now.of.0 s && is_marked_coroutine m.now.mark) flags.old.items flags.new.items }
    ensures sized { length flags.new.items ≡ length flags.old.items }
{
    if is_coroutine(m.mark) {
        set(flags, m.of.0);
    }
}

/// Whether a method with this mark is a coroutine.
pub(crate) fn is_coroutine(mark: Mark) -> bool
    ensures { result ≡ is_marked_coroutine mark }
{
    matches!(mark, Mark::Coroutine)
}

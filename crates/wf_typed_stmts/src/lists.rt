// Lists of a few items.

ghost use Rattle.std.specs.Prelude.{◌≡◌, [], ◌∷◌, IfOk};

use std::alloc::Global;
use wf_ast::Sequence;
use wf_text::faults::NoMemory;

/// A list of one.
pub(crate) fn one<T: Drop>(alloc: Global, a: T) -> Result<Sequence<T>, NoMemory>
    ensures { IfOk result (λ all. all ≡ a ∷ []) }
{
    let mut all = Sequence::new(alloc);
    all.push(a)?;
    Ok(all)
}

/// A list of two.
pub(crate) fn two<T: Drop>(alloc: Global, a: T, b: T) -> Result<Sequence<T>, NoMemory>
    ensures { IfOk result (λ all. all ≡ a ∷ b ∷ []) }
{
    let first = one(alloc, a)?;
    let mut all = first;
    all.push(b)?;
    Ok(all)
}

/// A number before others.
pub(crate) fn in_front(alloc: Global, first: u32, others: &[u32]) -> Result<Vec<u32>, NoMemory>
    ensures { IfOk result (λ all. all.items ≡ first ∷ others.now) }
{
    let mut all = Vec::new(alloc);
    all.push(first)?;
    all.extend_from_slice(others)?;
    Ok(all)
}

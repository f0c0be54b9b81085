// The sizes of structs, found in one pass along an order: each struct stands after those that it holds, but for those
// that hold themselves, so that the sizes that it needs are known when its turn comes. The time is that of a walk over
// all fields.

ghost use Rattle.std.specs.Prelude.{◌≡◌, ◌+◌, ◌<◌, None, Some, length, map, replicate, slice_get, slice_set, vec_len, IfOk};
ghost use Rattle.wf_names_rules.specs.Declarations.{Declared};
ghost use Rattle.wf_names_rules.specs.Passes.{is_flagged as flags_at};
ghost use Rattle.wf_names_sizes.specs.Orders.{IsSettlingOrder};
ghost use Rattle.wf_names_sizes.specs.StructSizes.{capped, row_of, added as sum_of_both, struct_bytes as bytes_of_struct, size_in, part_bytes as bytes_of_part, sum_after, AreHolding, AreSizes, AreSettled};

use crate::parts::{FieldPart, MOST_BYTES, Part};
use std::alloc::Global;
use wf_ast::sequences::Sequence;
use wf_text::faults::NoMemory;

fn capped_sum(a: u32, b: u32) -> u32
    ensures { result ≡ capped (a + b) }
{
    (a as u64 + b as u64).min(MOST_BYTES) as u32
}

/// Two sizes together, where both are known.
pub(crate) fn added(a: Option<u32>, b: Option<u32>) -> Option<u32>
    ensures { result ≡ sum_of_both a b }
{
    match (a, b) {
        (Some(a), Some(b)) => Some(capped_sum(a, b)),
        (Some(_), None) => None,
        (None, _) => None,
    }
}

fn is_flagged(flags: &[bool], s: usize) -> bool
    ensures { result ≡ flags_at (slice_get flags.now s) }
{
    match flags.get(s) {
        Some(flag) => *flag,
        None => false,
    }
}

fn size_at(sizes: &[Option<u32>], s: usize) -> Option<u32>
    ensures { result ≡ size_in (slice_get sizes.now s) }
{
    let size = sizes.get(s)?;
    *size
}

fn struct_bytes(flag: bool, inner: Option<u32>) -> Option<u32>
    ensures { result ≡ bytes_of_struct flag inner }
{
    if flag {
        return Some(8);
    }
    let bytes = inner?;
    Some(capped_sum(8, bytes))
}

/// The bytes of a field, where they are known.
pub(crate) fn part_bytes(part: Part, flags: &[bool], sizes: &[Option<u32>]) -> Option<u32>
    ensures { result ≡ bytes_of_part flags.now sizes.now part }
{
    match part {
        Part::Plain(bytes) => Some(bytes),
        Part::Struct(s) => struct_bytes(is_flagged(flags, s), size_at(sizes, s)),
    }
}

fn sum(row: &[FieldPart], flags: &[bool], sizes: &[Option<u32>]) -> Option<u32>
    ensures { result ≡ sum_after flags.now sizes.now (Some 0) row.now }
{
    let mut sum = Some(0);
    for field in row {
        sum = added(sum, part_bytes(field.part, flags, sizes));
    }
    sum
}

// Keeps the size of a struct, where those of all that it holds are known.
fn settle(sizes: &mut Vec<Option<u32>>, row: &[FieldPart], flags: &[bool], s: usize)
    requires { s < vec_len sizes.old }
    ensures { sizes.new.items ≡ slice_set sizes.old.items s (sum_after flags.now sizes.old.items (Some 0) row.now) }
{
    let sum = sum(row, flags, sizes.as_slice());
    sizes[s] = sum;
}

fn row(rows: &[Sequence<FieldPart>], s: usize) -> &[FieldPart]
    requires { s < length rows.now }
    ensures { slice_get rows.now s ≡ Some result.now }
{
    rows[s].as_slice()
}

fn no_sizes(alloc: Global, count: usize) -> Result<Vec<Option<u32>>, NoMemory>
    ensures len { IfOk result (λ sizes. vec_len sizes ≡ count) }
    ensures none { IfOk result (λ sizes. sizes.items ≡ replicate count None) }
{
    let sizes = vec![in alloc; None; count]?;
    Ok(sizes)
}

/// The size of each struct's fields, of which numbers above 1,048,577 count as that. It is known wherever the fields
/// have one. A struct that is flagged counts 8 bytes in those that hold it; each other stands in `order` before
/// those that hold it. `Err` where memory was refused.
pub(crate) fn sizes(
    alloc: Global,
    rows: &[Sequence<FieldPart>],
    flags: &[bool],
    order: &[u32],
) -> Result<Vec<Option<u32>>, NoMemory>
    requires { IsSettlingOrder flags.now rows.now order.now }
    ensures settled { IfOk result (λ sizes. AreSettled flags.now sizes.items rows.now) }
    ensures sound { IfOk result (λ sizes. (d : Declared) → rows.now ≡ map (row_of d) d.structs → AreHolding d flags.now → AreSizes d sizes.items) }
{
    let mut sizes = no_sizes(alloc, rows.len())?;
    for s in order {
        let s = *s as usize;
        settle(&mut sizes, row(rows, s), flags, s);
    }
    Ok(sizes)
}

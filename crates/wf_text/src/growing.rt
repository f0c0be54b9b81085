// Long lists that grow item by item. One that is full gets room for four times as many items, so that it seldom moves.

ghost use Rattle.std.specs.Prelude.{◌≡◌, ◌<◌, ◌++◌, [], ◌∷◌, if◌then◌else◌, is_ok, vec_len, vec_capacity, OnOk};

use std::alloc::AllocError;

/// How many items make a list long.
const MANY: usize = 64;

/// Makes room for three times as many items again where the list is long, for one alone where it is empty, as lists of one
/// item are the most, and for some where it is neither. On `Err` there is as much as before.
#[inline(never)]
fn widen<T>(list: &mut Vec<T>) -> Result<(), AllocError>
    ensures items { list.new.items ≡ list.old.items }
    ensures room { OnOk result (vec_len list.new < vec_capacity list.new) }
{
    let len = list.len();
    if MANY <= len {
        list.reserve(len.saturating_mul(3))
    } else if len == 0 {
        list.reserve_exact(1)
    } else {
        list.reserve(1)
    }
}

/// Makes room for one item more, where there is none. On `Err` there is as much as before.
#[inline]
pub fn make_room<T>(list: &mut Vec<T>) -> Result<(), AllocError>
    ensures items { list.new.items ≡ list.old.items }
    ensures room { OnOk result (vec_len list.new < vec_capacity list.new) }
{
    if list.len() < list.capacity() {
        Ok(())
    } else {
        widen(list)
    }
}

/// Adds an item at the end. On `Err` the list is as before.
#[inline]
pub fn add_last<T: Drop>(list: &mut Vec<T>, item: T) -> Result<(), AllocError>
    ensures items { list.new.items ≡ (if is_ok result then list.old.items ++ item ∷ [] else list.old.items) }
{
    make_room(list)?;
    list.push(item)?;
    Ok(())
}

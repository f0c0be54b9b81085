// Names that are put together of words, one after the other.

ghost use Rattle.std.specs.Prelude.{◌≡◌, ◌++◌, true, nat_eq, IfSome, OnOk};
ghost use Rattle.std.specs.Cmp.Lexicographic.{pointwise};

use wf_text::NoMemory;

/// The last bytes of a word, four at most, as one number.
#[inline(always)]
fn tail(word: &[u8]) -> usize {
    match word {
        [] => 0,
        [a] => *a as usize,
        [a, b] => (*a as usize) << 8 | *b as usize,
        [a, b, c] => (*a as usize) << 16 | (*b as usize) << 8 | *c as usize,
        [.., a, b, c, d] => {
            (*a as usize) << 24 | (*b as usize) << 16 | (*c as usize) << 8 | *d as usize
        }
    }
}

/// An odd number whose multiples stand far from one another; the high bits of one depend on all bits of its factor.
const SPREAD: usize = 0x9E37_79B9_7F4A_7C15;

/// Where the name of these words is looked for first.
#[inline(always)]
pub(crate) fn place_of(first: &[u8], second: &[u8], third: &[u8], fourth: &[u8]) -> usize {
    let front = tail(first) << 32 | tail(second);
    let back = tail(third) << 32 | tail(fourth);
    front
        .wrapping_mul(31)
        .wrapping_add(back)
        .wrapping_mul(SPREAD)
        >> 48
}

/// Whether two texts are the same. It goes byte by byte, since names are short.
#[inline(always)]
fn is_same(a: &[u8], b: &[u8]) -> bool
    ensures { result ≡ pointwise nat_eq a.now b.now }
{
    if a.len() != b.len() {
        return false;
    }
    for i in 0..a.len() {
        if a[i] != b[i] {
            return false;
        }
    }
    true
}

/// What follows the word at the front of a name, if it stands there.
#[inline(always)]
fn after<'a>(name: &'a [u8], word: &[u8]) -> Option<&'a [u8]>
    ensures { IfSome result (λ rest. name.now ≡ word.now ++ rest.now) }
{
    if word.is_empty() {
        return Some(name);
    }
    if name.len() < word.len() {
        return None;
    }
    let (front, rest) = name.split_at(word.len());
    if is_same(front, word) {
        Some(rest)
    } else {
        None
    }
}

/// Whether a name is these words.
#[inline(always)]
pub(crate) fn is_spelt(
    name: &[u8],
    first: &[u8],
    second: &[u8],
    third: &[u8],
    fourth: &[u8],
) -> bool
    ensures { result ≡ true → name.now ≡ first.now ++ (second.now ++ (third.now ++ fourth.now)) }
{
    let Some(rest) = after(name, first) else {
        return false;
    };
    let Some(rest) = after(rest, second) else {
        return false;
    };
    match after(rest, third) {
        Some(rest) => is_same(rest, fourth),
        None => false,
    }
}

/// Puts these words together in a buffer.
pub(crate) fn join(
    buffer: &mut Vec<u8>,
    first: &[u8],
    second: &[u8],
    third: &[u8],
    fourth: &[u8],
) -> Result<(), NoMemory>
    ensures { OnOk result (buffer.new.items ≡ first.now ++ (second.now ++ (third.now ++ fourth.now))) }
{
    buffer.clear();
    buffer.extend_from_slice(first)?;
    buffer.extend_from_slice(second)?;
    buffer.extend_from_slice(third)?;
    buffer.extend_from_slice(fourth)?;
    Ok(())
}

//! Spans of 64-bit numbers, and the greatest and the least value of `x | y` and of `x & y` for x and y of two spans.
//! Each end is found by going down the bits, one step a bit: no memory is taken, and no value is tried.

ghost use Rattle.std.specs.Prelude.{◌≡◌, ◌+◌, ◌-◌, ◌^◌, ◌<◌, ◌≤◌, bit_and, bit_or};
ghost use Rattle.wf_num.specs.Extremes.{greatest, least};
ghost use Rattle.wf_num.specs.Spans.{IsBit, IsGreatest, IsLeast, OfBits, above, below, complement};

/// The numbers from `lo` to `hi`, both included.
#[derive(Clone, Copy)]
pub(crate) struct Span {
    pub(crate) lo: u64,
    pub(crate) hi: u64,
}

impl Span {
    /// The span's numbers with `m` taken off.
    fn above(self, m: u64) -> Span
        ensures { result ≡ above m self }
    {
        Span {
            lo: self.lo.saturating_sub(m),
            hi: self.hi.saturating_sub(m),
        }
    }

    /// The span's numbers below `m`.
    fn below(self, m: u64) -> Span
        requires { 0 < m }
        ensures { result ≡ below m self }
    {
        Span {
            lo: self.lo,
            hi: self.hi.min(m - 1),
        }
    }

    /// The complements of the span's numbers, where `ones` are the ones of all bits.
    fn complement(self, ones: u64) -> Span
        requires some { self.lo ≤ self.hi }
        requires within { self.hi ≤ ones }
        ensures { result ≡ complement ones self }
    {
        Span {
            lo: ones - self.hi,
            hi: ones - self.lo,
        }
    }
}

/// The top bit of a number of `k` bits.
fn top_bit(k: u32) -> u64
    requires some { 0 < k }
    requires few { k ≤ 64 }
    ensures bit { IsBit result }
    ensures low { result ≡ 2 ^ (k - 1) }
    ensures twice { 2 ^ k ≡ result + result }
{
    1 << (k - 1)
}

/// How many bits two numbers have at most: 8, 16, 32 or 64.
fn bits_of(a: u64, b: u64) -> u32
    ensures some { 0 < result }
    ensures few { result ≤ 64 }
    ensures first { a < 2 ^ result }
    ensures second { b < 2 ^ result }
{
    if a < 0x100 && b < 0x100 {
        8
    } else if a < 0x10000 && b < 0x10000 {
        16
    } else if a < 0x100000000 && b < 0x100000000 {
        32
    } else {
        64
    }
}

/// The number of `k` bits that has them all.
fn all_ones(k: u32) -> u64
    requires some { 0 < k }
    requires few { k ≤ 64 }
    ensures { result ≡ 2 ^ k - 1 }
{
    let m = top_bit(k);
    m + (m - 1)
}

/// The upper end of `x | y`, where x is in the one span, y in the other, and both have `k` bits.
#[tactic(auto, using(crate::proofs::Bits::greatest_steps))]
fn max_or(k: u32, xs: Span, ys: Span) -> u64
    requires bits { k ≤ 64 }
    requires xs { OfBits k xs }
    requires ys { OfBits k ys }
    ensures greatest { IsGreatest bit_or xs ys result }
    ensures fits { result < 2 ^ k }
{
    if k == 0 {
        return 0;
    }
    let m = top_bit(k);
    if xs.hi < m && ys.hi < m {
        max_or(k - 1, xs, ys)
    } else if xs.hi < m {
        m + max_or(k - 1, xs, ys.above(m))
    } else if ys.hi < m {
        m + max_or(k - 1, xs.above(m), ys)
    } else if xs.lo < m || ys.lo < m {
        // One number has the bit m, and the other may be m - 1: all ones.
        m + (m - 1)
    } else {
        m + max_or(k - 1, xs.above(m), ys.above(m))
    }
}

/// The lower end of `x | y`, where x is in the one span, y in the other, and both have `k` bits.
#[tactic(auto, using(crate::proofs::Bits::least_steps))]
fn min_or(k: u32, xs: Span, ys: Span) -> u64
    requires bits { k ≤ 64 }
    requires xs { OfBits k xs }
    requires ys { OfBits k ys }
    ensures least { IsLeast bit_or xs ys result }
    ensures fits { result < 2 ^ k }
{
    if k == 0 {
        return 0;
    }
    let m = top_bit(k);
    if xs.lo < m && ys.lo < m {
        min_or(k - 1, xs.below(m), ys.below(m))
    } else if xs.lo < m && m <= xs.hi {
        // Each y has the bit m, and x may be m alone.
        ys.lo
    } else if ys.lo < m && m <= ys.hi {
        xs.lo
    } else if xs.hi < m {
        m + min_or(k - 1, xs, ys.above(m))
    } else if ys.hi < m {
        m + min_or(k - 1, xs.above(m), ys)
    } else {
        m + min_or(k - 1, xs.above(m), ys.above(m))
    }
}

/// The upper end of `x | y`, where x is in the one span and y in the other, and neither is empty.
pub(crate) fn greatest_or(xs: Span, ys: Span) -> u64
    requires xs { xs.lo ≤ xs.hi }
    requires ys { ys.lo ≤ ys.hi }
    ensures { result ≡ greatest bit_or xs.lo xs.hi ys.lo ys.hi }
{
    max_or(bits_of(xs.hi, ys.hi), xs, ys)
}

/// The least `x | y` for x and y of two spans, neither of them empty.
pub(crate) fn least_or(xs: Span, ys: Span) -> u64
    requires xs { xs.lo ≤ xs.hi }
    requires ys { ys.lo ≤ ys.hi }
    ensures { result ≡ least bit_or xs.lo xs.hi ys.lo ys.hi }
{
    min_or(bits_of(xs.hi, ys.hi), xs, ys)
}

/// The upper end of `x & y`, where x is in the one span and y in the other, and neither is empty: by De Morgan's law, the
/// complement of the least `|` of complements, in the bits that they have.
#[tactic(auto, using(crate::proofs::Ends::ends))]
pub(crate) fn greatest_and(xs: Span, ys: Span) -> u64
    requires xs { xs.lo ≤ xs.hi }
    requires ys { ys.lo ≤ ys.hi }
    ensures { result ≡ greatest bit_and xs.lo xs.hi ys.lo ys.hi }
{
    let k = bits_of(xs.hi, ys.hi);
    let ones = all_ones(k);
    ones - min_or(k, xs.complement(ones), ys.complement(ones))
}

/// The least `x & y` for x and y of two spans, neither of them empty.
#[tactic(auto, using(crate::proofs::Ends::ends))]
pub(crate) fn least_and(xs: Span, ys: Span) -> u64
    requires xs { xs.lo ≤ xs.hi }
    requires ys { ys.lo ≤ ys.hi }
    ensures { result ≡ least bit_and xs.lo xs.hi ys.lo ys.hi }
{
    let k = bits_of(xs.hi, ys.hi);
    let ones = all_ones(k);
    ones - max_or(k, xs.complement(ones), ys.complement(ones))
}

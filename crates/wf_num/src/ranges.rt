//! Ranges of whole numbers, and the range that each operator of the language gives for the ranges of its operands: it
//! holds every value that the operator has for operands in theirs. An operator with an empty operand is empty, and every
//! empty range that a call here answers is `Range::EMPTY`. No call takes memory.

ghost use Rattle.std.specs.Prelude.{◌≡◌, ◌+◌, ◌-◌, ◌*◌, ◌/◌, ◌%◌, ◌^◌, ◌<◌, ◌≤◌, ◌⊎◌, ◌↔◌, max, true, false, ℕ, ℤ, pos, ◌≤ℤ◌, ◌<ℤ◌, ◌-ℤ◌, IsTrue, bit_and, bit_or, bit_xor};
ghost use Rattle.wf_num.specs.Ranges.{Holds, HoldsInt, IsLeastOnes, IsNoWider, IsSmall, Reaches, add_ranges, and_ranges, div_ranges, exact_range, fits_width, is_empty, least_ones, low, meet_ranges, mul_ranges, or_ranges, rem_ranges, shift_left, shift_right, shl_ranges, shr_ranges, sub_ranges, width_range, xor_ranges};

use crate::spans::{Span, greatest_and, greatest_or, least_and, least_or};

/// The whole numbers from `lo` to `hi`, both included; none where `lo` is above `hi`.
#[derive(Clone, Copy, PartialEq, Eq)]
pub struct Range {
    /// The lower end. It may be negative, as that of a difference.
    pub lo: i128,
    /// The upper end.
    pub hi: u128,
}

impl Range {
    /// The range that holds nothing: from 1 to 0.
    pub const EMPTY: Range = Range { lo: 1, hi: 0 };

    /// Whether the range holds nothing.
    pub fn is_empty(self) -> bool
        ensures { result ≡ is_empty self }
    {
        self.lo > 0 && self.lo as u128 > self.hi
    }

    /// The range of a number or a constant: `n` alone.
    pub fn exactly(n: u64) -> Range
        ensures exact { result ≡ exact_range n }
        ensures holds { (x : ℕ) → Holds result x ↔ (x ≡ n) }
        ensures small { IsSmall result }
    {
        Range {
            lo: n as i128,
            hi: n as u128,
        }
    }

    /// All numbers of `bits` bits: those of an unsigned type of this width.
    pub fn of_bits(bits: u32) -> Range
        requires { bits ≤ 64 }
        ensures exact { result ≡ width_range bits }
        ensures holds { (x : ℕ) → Holds result x ↔ (x < 2 ^ bits) }
        ensures small { IsSmall result }
    {
        Range {
            lo: 0,
            hi: (1 << bits) - 1,
        }
    }

    /// Whether every number of the range is one of `bits` bits, as a node has to lie in its width. An empty range fits.
    pub fn fits(self, bits: u32) -> bool
        requires { bits ≤ 64 }
        ensures exact { result ≡ fits_width self bits }
        ensures holds { IsTrue result ↔
            ((z : ℤ) → HoldsInt self z → (pos 0 ≤ℤ z) × (z <ℤ pos (2 ^ bits))) }
    {
        self.is_empty() || (0 <= self.lo && self.hi < 1 << bits)
    }

    /// The range of `x + y`: the sums of the ends.
    pub fn add(self, other: Range) -> Range
        requires left { IsSmall self }
        requires right { IsSmall other }
        ensures exact { result ≡ add_ranges self other }
        ensures holds { (x y : ℕ) → Holds self x → Holds other y → Holds result (x + y) }
        ensures tight { IsNoWider (λ x y. x + y) self other result }
    {
        if self.is_empty() || other.is_empty() {
            return Range::EMPTY;
        }
        Range {
            lo: self.lo + other.lo,
            hi: self.hi + other.hi,
        }
    }

    /// The range of `x - y`, which may be negative: from lo - hi to hi - lo, or to 0 where that is negative. So the lower
    /// end may be negative, and the upper end isn't.
    pub fn sub(self, other: Range) -> Range
        requires left { IsSmall self }
        requires right { IsSmall other }
        ensures exact { result ≡ sub_ranges self other }
        ensures holds { (x y : ℕ) → Holds self x → Holds other y → HoldsInt result (pos x -ℤ pos y) }
        ensures holds_natural { (x y : ℕ) → y ≤ x → Holds self x → Holds other y → Holds result (x - y) }
        ensures least { (x y : ℕ) → Holds self x → Holds other y →
            Reaches (λ p q. pos p -ℤ pos q) self other result.lo }
        ensures greatest { (x y : ℕ) → Holds self x → Holds other y →
            Reaches (λ p q. pos (p - q)) self other (pos result.hi) }
    {
        if self.is_empty() || other.is_empty() {
            return Range::EMPTY;
        }
        Range {
            lo: self.lo - other.hi as i128,
            hi: self.hi.saturating_sub(other.lo as u128),
        }
    }

    /// The range of `x * y`: the products of the ends. A lower end above 2^127 - 1 is given as 2^127 - 1.
    pub fn mul(self, other: Range) -> Range
        requires left { IsSmall self }
        requires right { IsSmall other }
        ensures exact { result ≡ mul_ranges self other }
        ensures holds { (x y : ℕ) → Holds self x → Holds other y → Holds result (x * y) }
        ensures tight { low self.lo * low other.lo < 2 ^ 127 → IsNoWider (λ x y. x * y) self other result }
    {
        if self.is_empty() || other.is_empty() {
            return Range::EMPTY;
        }
        let lo = self.lo as u128 * other.lo as u128;
        Range {
            lo: lo.min(i128::MAX as u128) as i128,
            hi: self.hi * other.hi,
        }
    }

    /// The range of `x / y`, rounded down: from lo / hi to hi / lo.
    pub fn div(self, other: Range) -> Range
        requires left { IsSmall self }
        requires right { IsSmall other }
        requires divisor { pos 1 ≤ℤ other.lo }
        ensures exact { result ≡ div_ranges self other }
        ensures holds { (x y : ℕ) → Holds self x → Holds other y → Holds result (x / y) }
        ensures tight { IsNoWider (λ x y. x / y) self other result }
        ensures small { IsSmall result }
    {
        if self.is_empty() || other.is_empty() {
            return Range::EMPTY;
        }
        Range {
            lo: (self.lo as u128 / other.hi) as i128,
            hi: self.hi / other.lo as u128,
        }
    }

    /// The range of `x % y`: from 0 to the lesser of the greatest dividend and the greatest divisor less one.
    pub fn rem(self, other: Range) -> Range
        requires left { IsSmall self }
        requires right { IsSmall other }
        requires divisor { pos 1 ≤ℤ other.lo }
        ensures exact { result ≡ rem_ranges self other }
        ensures holds { (x y : ℕ) → Holds self x → Holds other y → Holds result (x % y) }
        ensures small { IsSmall result }
    {
        if self.is_empty() || other.is_empty() {
            return Range::EMPTY;
        }
        Range {
            lo: 0,
            hi: self.hi.min(other.hi - 1),
        }
    }

    /// The range of `x << y`, with no bit cut off: from lo << lo to hi << hi.
    pub fn shl(self, other: Range) -> Range
        requires left { IsSmall self }
        requires right { IsSmall other }
        requires few { (is_empty other ≡ true) ⊎ (other.hi ≤ 63) }
        ensures exact { result ≡ shl_ranges self other }
        ensures holds { (x y : ℕ) → Holds self x → Holds other y → Holds result (shift_left x y) }
        ensures tight { IsNoWider (λ x y. shift_left x y) self other result }
    {
        if self.is_empty() || other.is_empty() {
            return Range::EMPTY;
        }
        let lo = shifted(self.lo as u128, other.lo as u32);
        Range {
            lo: lo as i128,
            hi: shifted(self.hi, other.hi as u32),
        }
    }

    /// The range of `x >> y`: from lo >> hi to hi >> lo.
    pub fn shr(self, other: Range) -> Range
        requires left { IsSmall self }
        requires right { IsSmall other }
        requires few { (is_empty other ≡ true) ⊎ (other.hi ≤ 63) }
        ensures exact { result ≡ shr_ranges self other }
        ensures holds { (x y : ℕ) → Holds self x → Holds other y → Holds result (shift_right x y) }
        ensures tight { IsNoWider (λ x y. shift_right x y) self other result }
        ensures small { IsSmall result }
    {
        if self.is_empty() || other.is_empty() {
            return Range::EMPTY;
        }
        let lo = self.lo as u128 >> other.hi;
        Range {
            lo: lo as i128,
            hi: self.hi >> other.lo,
        }
    }

    /// The range of `x & y`: exactly from the least to the greatest value.
    pub fn and(self, other: Range) -> Range
        requires left { IsSmall self }
        requires right { IsSmall other }
        ensures exact { result ≡ and_ranges self other }
        ensures holds { (x y : ℕ) → Holds self x → Holds other y → Holds result (bit_and x y) }
        ensures tight { IsNoWider (λ x y. bit_and x y) self other result }
        ensures small { IsSmall result }
    {
        if self.is_empty() || other.is_empty() {
            return Range::EMPTY;
        }
        let xs = self.span();
        let ys = other.span();
        Range {
            lo: least_and(xs, ys) as i128,
            hi: greatest_and(xs, ys) as u128,
        }
    }

    /// The range of `x | y`: exactly from the least to the greatest value.
    pub fn or(self, other: Range) -> Range
        requires left { IsSmall self }
        requires right { IsSmall other }
        ensures exact { result ≡ or_ranges self other }
        ensures holds { (x y : ℕ) → Holds self x → Holds other y → Holds result (bit_or x y) }
        ensures tight { IsNoWider (λ x y. bit_or x y) self other result }
        ensures small { IsSmall result }
    {
        if self.is_empty() || other.is_empty() {
            return Range::EMPTY;
        }
        let xs = self.span();
        let ys = other.span();
        Range {
            lo: least_or(xs, ys) as i128,
            hi: greatest_or(xs, ys) as u128,
        }
    }

    /// The range of `x ^ y`: from 0 to the least number of the form 2^k - 1 that is not below either upper end.
    pub fn xor(self, other: Range) -> Range
        requires left { IsSmall self }
        requires right { IsSmall other }
        ensures exact { result ≡ xor_ranges self other }
        ensures holds { (x y : ℕ) → Holds self x → Holds other y → Holds result (bit_xor x y) }
        ensures least { (x y : ℕ) → Holds self x → Holds other y →
            IsLeastOnes (max self.hi other.hi) result.hi }
        ensures small { IsSmall result }
    {
        if self.is_empty() || other.is_empty() {
            return Range::EMPTY;
        }
        Range {
            lo: 0,
            hi: all_ones(self.hi.max(other.hi)),
        }
    }

    /// The numbers that both ranges hold; `Range::EMPTY` where there are none. The operands may be any ranges.
    pub fn meet(self, other: Range) -> Range
        ensures exact { result ≡ meet_ranges self other }
        ensures holds { (z : ℤ) → HoldsInt result z ↔ (HoldsInt self z × HoldsInt other z) }
        ensures small { IsSmall self → IsSmall result }
    {
        let both = Range {
            lo: self.lo.max(other.lo),
            hi: self.hi.min(other.hi),
        };
        if both.is_empty() { Range::EMPTY } else { both }
    }

    /// The range's ends, of a range that holds something.
    pub(crate) fn span(self) -> Span
        requires small { IsSmall self }
        requires some { is_empty self ≡ false }
        ensures lo { result.lo ≡ low self.lo }
        ensures hi { result.hi ≡ self.hi }
        ensures some { result.lo ≤ result.hi }
    {
        Span {
            lo: self.lo as u64,
            hi: self.hi as u64,
        }
    }
}

/// `n` shifted left by `k` bits.
fn shifted(n: u128, k: u32) -> u128
    requires n { n < 2 ^ 64 }
    requires k { k ≤ 63 }
    ensures exact { result ≡ shift_left n k }
    ensures fits { result < 2 ^ 127 }
{
    n << k
}

/// The least number of the form 2^k - 1 that is not below `n`.
#[tactic(auto, using(crate::proofs::RangeLaws::ones))]
fn all_ones(n: u128) -> u128
    requires { n < 2 ^ 64 }
    ensures exact { result ≡ least_ones 64 n }
    ensures least { IsLeastOnes n result }
    ensures fits { result < 2 ^ 64 }
{
    (n + 1).next_power_of_two() - 1
}

// Numbers within a width. A constant without one has 64 bits.

ghost use Rattle.std.specs.Prelude.{◌≡◌, ◌-◌, ◌*◌, ◌/◌, ◌%◌, ◌^◌, ◌≤◌, ◌<◌, None, Some, if◌then◌else◌, min, nat_eq, nat_le, nat_lt, option_and_then};
ghost use Rattle.wf_ast.specs.Value.{fitted as fits_in, only_if};
ghost use Rattle.wf_types_rules.specs.Operands.{bits_in};

use wf_base::Width;

/// The bits of a width, 64 without one.
pub(crate) fn bits(width: Option<Width>) -> u32
    ensures bits { result ≡ bits_in width }
    ensures most { result ≤ 64 }
{
    match width {
        Some(width) => width.bits(),
        None => 64,
    }
}

/// How many numbers a width has; without one there are as many as in 64 bits.
pub(crate) fn count(width: Option<Width>) -> u128
    ensures count { result ≡ 2 ^ bits_in width }
    ensures most { result ≤ 2 ^ 64 }
{
    match width {
        Some(Width::W8) => 0x100,
        Some(Width::W16) => 0x1_0000,
        Some(Width::W32) => 0x1_0000_0000,
        Some(Width::W64) => 0x1_0000_0000_0000_0000,
        None => 0x1_0000_0000_0000_0000,
    }
}

/// The number, where it lies in the width.
pub(crate) fn fitted(width: Option<Width>, n: u128) -> Option<u64>
    ensures { result ≡ fits_in (bits_in width) n }
{
    if n < count(width) {
        Some(n as u64)
    } else {
        None
    }
}

/// The same of a number that may not be there.
pub(crate) fn fitted_if(width: Option<Width>, n: Option<u64>) -> Option<u64>
    ensures { result ≡ option_and_then (fits_in (bits_in width)) n }
{
    fitted(width, n? as u128)
}

/// The number that is left of one when its width is full.
pub(crate) fn reduced(width: Option<Width>, n: u128) -> u64
    ensures { result ≡ n % 2 ^ bits_in width }
{
    (n % count(width)) as u64
}

/// The number, or the greatest of the width where it is greater.
pub(crate) fn saturated(width: Option<Width>, n: u128) -> u64
    ensures { result ≡ min n (2 ^ bits_in width - 1) }
{
    n.min(count(width) - 1) as u64
}

/// The product of two numbers.
pub(crate) fn wide_product(m: u64, n: u64) -> u128
    ensures { result ≡ m * n }
{
    m as u128 * n as u128
}

/// The number shifted to the left by less than 64 bits.
pub(crate) fn wide_shift(m: u64, n: u32) -> u128
    requires { n < 64 }
    ensures { result ≡ m * 2 ^ n }
{
    m as u128 * (1u64 << n) as u128
}

/// A difference that mustn't fall below 0.
pub(crate) fn difference(width: Option<Width>, m: u64, n: u64) -> Option<u64>
    ensures { result ≡ only_if (nat_le n m) (fits_in (bits_in width) (m - n)) }
{
    if n <= m {
        fitted(width, (m - n) as u128)
    } else {
        None
    }
}

/// A quotient, whose divisor mustn't be 0.
pub(crate) fn quotient(width: Option<Width>, m: u64, n: u64) -> Option<u64>
    ensures { result ≡ (if nat_eq n 0 then None else fits_in (bits_in width) (m / n)) }
{
    if n == 0 {
        None
    } else {
        fitted(width, (m / n) as u128)
    }
}

/// What is left by a division, whose divisor mustn't be 0.
pub(crate) fn remainder(width: Option<Width>, m: u64, n: u64) -> Option<u64>
    ensures { result ≡ (if nat_eq n 0 then None else fits_in (bits_in width) (m % n)) }
{
    if n == 0 {
        None
    } else {
        fitted(width, (m % n) as u128)
    }
}

/// A shift to the left by less than the bits of the width, which the number mustn't leave.
pub(crate) fn shifted_left(width: Option<Width>, m: u64, n: u64) -> Option<u64>
    ensures { result ≡ only_if (nat_lt n (bits_in width)) (fits_in (bits_in width) (m * 2 ^ n)) }
{
    if n < bits(width) as u64 {
        fitted(width, wide_shift(m, n as u32))
    } else {
        None
    }
}

/// A shift to the right by less than the bits of the width.
pub(crate) fn shifted_right(width: Option<Width>, m: u64, n: u64) -> Option<u64>
    ensures { result ≡ only_if (nat_lt n (bits_in width)) (fits_in (bits_in width) (m / 2 ^ n)) }
{
    if n < bits(width) as u64 {
        fitted(width, (m >> n as u32) as u128)
    } else {
        None
    }
}

/// A shift to the left by less than the bits of the width, to which the number is cut.
pub(crate) fn shifted_within(width: Option<Width>, m: u64, n: u64) -> Option<u64>
    ensures { result ≡ only_if (nat_lt n (bits_in width)) (Some ((m * 2 ^ n) % 2 ^ bits_in width)) }
{
    if n < bits(width) as u64 {
        Some(reduced(width, wide_shift(m, n as u32)))
    } else {
        None
    }
}

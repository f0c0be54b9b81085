// Literals: decimal digits that don't begin with 0, or `0` alone, with `u`, `ull` or nothing after them.

ghost use Rattle.std.specs.Prelude.{◌≡◌, ◌≤◌, ◌<◌, ◌^◌, ◌+◌, ◌-◌, ◌*◌, [], length, take, drop, true, false, codes};
ghost use Rattle.std.specs.List.{list_all};
ghost use Rattle.std.specs.Option.{SomeIff};
ghost use Rattle.c_read_grammar.specs.FirstToken.{is_digit, begins, has_leading_zero, literal_with, literal_of};
ghost use Rattle.c_read_tokens.specs.Numbers.{value_from};

use crate::runs::is_digit;
use c_text::CNumber;

/// How many digits stand at the front.
fn digits_len(text: &[u8]) -> usize
    ensures within { result ≤ length text.now }
    ensures run { list_all is_digit (take result text.now) ≡ true }
    ensures whole { begins is_digit (drop result text.now) ≡ false }
{
    let mut len = 0;
    while len < text.len() && is_digit(text[len]) {
        len += 1;
    }
    len
}

/// Whether more than one digit stands there, the first of them 0.
fn has_leading_zero(digits: &[u8]) -> bool
    ensures { result ≡ has_leading_zero digits.now }
{
    digits.len() > 1 && digits[0] == b'0'
}

/// The value of digits of which those so far have the value `value`, where it is below 2^64.
fn value_with(value: u64, digit: u8) -> Option<u64>
    requires { is_digit digit ≡ true }
    ensures { SomeIff result (value * 10 + (digit - 48) < 2 ^ 64) (value * 10 + (digit - 48)) }
{
    value.checked_mul(10)?.checked_add((digit - b'0') as u64)
}

/// The value of digits, where it is below 2^64.
fn value_of(digits: &[u8]) -> Option<u64>
    requires { list_all is_digit digits.now ≡ true }
    ensures { SomeIff result (value_from 0 digits.now < 2 ^ 64) (value_from 0 digits.now) }
{
    let mut value = 0;
    for digit in digits {
        value = value_with(value, *digit)?;
    }
    Some(value)
}

/// The `int` literal of this value.
fn plain(value: u64) -> Option<CNumber>
    ensures { result ≡ literal_with value [] }
{
    if value < 2147483648 {
        Some(CNumber::Int(value as u32))
    } else {
        None
    }
}

/// The `unsigned int` literal of this value.
fn unsigned(value: u64) -> Option<CNumber>
    ensures { result ≡ literal_with value (codes "u") }
{
    if value < 4294967296 {
        Some(CNumber::Unsigned(value as u32))
    } else {
        None
    }
}

/// The literal of this value with this suffix, if there is one.
fn literal_with(value: u64, suffix: &[u8]) -> Option<CNumber>
    ensures { result ≡ literal_with value suffix.now }
{
    if suffix.is_empty() {
        return plain(value);
    }
    if suffix == b"u".as_slice() {
        return unsigned(value);
    }
    if suffix == b"ull".as_slice() {
        return Some(CNumber::Long(value));
    }
    None
}

/// The literal that is written so, if one is.
pub(crate) fn literal_of(text: &[u8]) -> Option<CNumber>
    ensures { result ≡ literal_of text.now }
{
    let (digits, suffix) = text.split_at(digits_len(text));
    if has_leading_zero(digits) {
        return None;
    }
    literal_with(value_of(digits)?, suffix)
}

// Numbers: `0`, decimal digits that don't begin with 0, hexadecimal digits after `0x` or `0X`, binary ones after `0b` or
// `0B`. Between two digits there may be underscores.

ghost use Rattle.std.specs.Prelude.{◌≡◌, ◌≤◌, ◌<◌, ◌^◌, ◌||◌, length, IfSome};
ghost use Rattle.std.specs.Option.{SomeIff};
ghost use Rattle.std.specs.List.{list_all};
ghost use Rattle.wf_tokens.specs.Runs.{begins};
ghost use Rattle.wf_tokens.specs.Numbers.{digit_value, is_digit_of, is_underscore, ends, is_digits, value_with, value_from, digits_value, marked_base, has_leading_zero, number_of, AnswersNumber};

use wf_text::Rule;

/// The value of a digit of any base up to 16; 16 for what is no digit.
fn digit_value(byte: u8) -> u64
    ensures { result ≡ digit_value byte }
{
    match byte {
        b'0'..=b'9' => (byte - b'0') as u64,
        b'a'..=b'f' => (byte - b'a' + 10) as u64,
        b'A'..=b'F' => (byte - b'A' + 10) as u64,
        _ => 16,
    }
}

fn is_digit_of(base: u64, byte: u8) -> bool
    ensures { result ≡ is_digit_of base byte }
{
    digit_value(byte) < base
}

/// Whether a digit of the base stands at the front.
fn begins_with_digit(base: u64, text: &[u8]) -> bool
    ensures { result ≡ begins (is_digit_of base) text.now }
{
    match text.first() {
        Some(byte) => is_digit_of(base, *byte),
        None => false,
    }
}

/// Whether a digit of the base stands at the end.
fn ends_with_digit(base: u64, text: &[u8]) -> bool
    ensures { result ≡ ends (is_digit_of base) text.now }
{
    match text.last() {
        Some(byte) => is_digit_of(base, *byte),
        None => false,
    }
}

/// Whether these are digits of the base and underscores, and nothing else.
fn has_digits_only(base: u64, text: &[u8]) -> bool
    ensures { result ≡ list_all (λ byte. is_digit_of base byte || is_underscore byte) text.now }
{
    text.iter()
        .all(|byte| is_digit_of(base, *byte) || *byte == b'_')
}

/// Whether these are digits of the base and underscores, with a digit at both ends.
fn is_digits(base: u64, text: &[u8]) -> bool
    ensures { result ≡ is_digits base text.now }
{
    begins_with_digit(base, text) && ends_with_digit(base, text) && has_digits_only(base, text)
}

/// The value of digits of which those read so far have the value `value`, where it is below 2^64.
fn value_with(base: u64, value: u64, byte: u8) -> Option<u64>
    ensures { SomeIff result (value_with base value byte < 2 ^ 64) (value_with base value byte) }
{
    if byte == b'_' {
        Some(value)
    } else {
        value.checked_mul(base)?.checked_add(digit_value(byte))
    }
}

/// The value of digits, where it is below 2^64.
fn value_of(base: u64, digits: &[u8]) -> Option<u64>
    requires { 0 < base }
    ensures { SomeIff result (value_from base 0 digits.now < 2 ^ 64) (value_from base 0 digits.now) }
{
    let mut value = 0;
    for byte in digits {
        value = value_with(base, value, *byte)?;
    }
    Some(value)
}

/// The value of digits of this base. Misspelt ones are S3, and S4 are those whose value is 2^64 or more.
fn digits_value(base: u64, digits: &[u8]) -> Result<u64, Rule>
    requires { 0 < base }
    ensures { AnswersNumber result (digits_value base digits.now) }
{
    if !is_digits(base, digits) {
        return Err(Rule::S3);
    }
    match value_of(base, digits) {
        Some(value) => Ok(value),
        None => Err(Rule::S4),
    }
}

/// The base that `0x`, `0X`, `0b` or `0B` at the front tells.
fn marked_base(text: &[u8]) -> Option<u64>
    ensures base { result ≡ marked_base text.now }
    ensures marked { IfSome result (λ base. (0 < base) × (2 ≤ length text.now)) }
{
    match text {
        [b'0', b'x' | b'X', ..] => Some(16),
        [b'0', b'b' | b'B', ..] => Some(2),
        _ => None,
    }
}

/// Whether a `0` stands before more.
fn has_leading_zero(text: &[u8]) -> bool
    ensures { result ≡ has_leading_zero text.now }
{
    text.len() > 1 && text[0] == b'0'
}

/// The value of a number. S3 where the text is no number's; S4 where the value is 2^64 or more.
pub(crate) fn number_of(text: &[u8]) -> Result<u64, Rule>
    ensures { AnswersNumber result (number_of text.now) }
{
    match marked_base(text) {
        Some(base) => digits_value(base, &text[2..]),
        None if has_leading_zero(text) => Err(Rule::S3),
        None => digits_value(10, text),
    }
}

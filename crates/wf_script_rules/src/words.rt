// What a word spells: a name, a number, bytes, or a command.

ghost use Rattle.std.specs.Prelude.{◌≡◌, ◌<◌, ◌+◌, ◌*◌, ◌-◌, ◌^◌, nat_eq, option_map};
ghost use Rattle.std.specs.Option.{SomeIff};
ghost use Rattle.std.specs.List.{list_all, position};
ghost use Rattle.wf_script_rules.specs.Text.{begins};
ghost use Rattle.wf_script_rules.specs.Words.{demand, is_lower, is_digit, is_name_byte, is_value_word, is_name, is_number, value_from, number_up_to, bytes_spelt, cut_at, verb_of};
ghost use Rattle.wf_script_rules.specs.Values.{is_null};
ghost use Rattle.wf_script_rules.specs.Answers.{Gives};

use crate::faults::LineFault;
use crate::rules::{Verb, XRule};
use std::alloc::Global;

/// Where something that has to hold doesn't, a rule is broken.
pub fn demand(holds: bool, rule: XRule) -> Result<(), XRule>
    ensures { result ≡ demand holds rule }
{
    if holds { Ok(()) } else { Err(rule) }
}

fn is_lower(byte: u8) -> bool
    ensures { result ≡ is_lower byte }
{
    97 <= byte && byte <= 122
}

fn is_digit(byte: u8) -> bool
    ensures { result ≡ is_digit byte }
{
    48 <= byte && byte <= 57
}

fn is_name_byte(byte: u8) -> bool
    ensures { result ≡ is_name_byte byte }
{
    is_lower(byte) || is_digit(byte) || byte == b'_'
}

/// Whether the word is `null`.
pub fn is_null(word: &[u8]) -> bool
    ensures { result ≡ is_null word.now }
{
    word == b"null".as_slice()
}

fn is_value_word(word: &[u8]) -> bool
    ensures { result ≡ is_value_word word.now }
{
    word == b"null".as_slice() || word == b"true".as_slice() || word == b"false".as_slice()
}

fn begins_lower(word: &[u8]) -> bool
    ensures { result ≡ begins is_lower word.now }
{
    match word.first() {
        Some(byte) => is_lower(*byte),
        None => false,
    }
}

fn begins_digit(word: &[u8]) -> bool
    ensures { result ≡ begins is_digit word.now }
{
    match word.first() {
        Some(byte) => is_digit(*byte),
        None => false,
    }
}

fn has_name_bytes(word: &[u8]) -> bool
    ensures { result ≡ list_all is_name_byte word.now }
{
    word.iter().all(|byte| is_name_byte(*byte))
}

fn has_digits(word: &[u8]) -> bool
    ensures { result ≡ list_all is_digit word.now }
{
    word.iter().all(|byte| is_digit(*byte))
}

/// Whether a line may declare this name: a lower-case letter, and lower-case letters, digits and `_`; but not
/// `null`, `true` or `false`.
pub fn is_name(word: &[u8]) -> bool
    ensures { result ≡ is_name word.now }
{
    begins_lower(word) && has_name_bytes(word) && !is_value_word(word)
}

fn is_number(word: &[u8]) -> bool
    ensures { result ≡ is_number word.now }
{
    begins_digit(word) && has_digits(word)
}

/// The value of a number that is at most `most`. X3 where it is misspelt, X4 where it is greater.
#[tactic(auto, unfolding(crate::specs::Words::number_up_to))]
pub fn number_up_to(most: u64, word: &[u8]) -> Result<u64, XRule>
    ensures { result ≡ number_up_to most word.now }
{
    if !is_number(word) {
        return Err(XRule::X3);
    }
    match value_of(word) {
        Some(value) if value <= most => Ok(value),
        _ => Err(XRule::X4),
    }
}

// The value of digits with one more after them, where it has 64 bits.
fn with_digit(value: u64, digit: u8) -> Option<u64>
    ensures { SomeIff result (value * 10 + (digit - 48) < 2 ^ 64) (value * 10 + (digit - 48)) }
{
    value
        .checked_mul(10)?
        .checked_add(digit.saturating_sub(48) as u64)
}

// The value of digits, where it has 64 bits.
fn value_of(digits: &[u8]) -> Option<u64>
    ensures { SomeIff result (value_from 0 digits.now < 2 ^ 64) (value_from 0 digits.now) }
{
    let mut value = 0;
    for digit in digits {
        value = with_digit(value, *digit)?;
    }
    Some(value)
}

/// The bytes that two hexadecimal digits each spell, or none for `-`. X3 where they are misspelt.
#[tactic(auto, unfolding(crate::specs::Words::bytes_spelt))]
pub fn bytes_spelt(alloc: Global, word: &[u8]) -> Result<Vec<u8>, LineFault>
    ensures { Gives (λ bytes. bytes.items) result (bytes_spelt word.now) }
{
    if word == b"-".as_slice() {
        return Ok(Vec::new(alloc));
    }
    let bytes = hex::decode(alloc, word)?;
    Ok(bytes)
}

fn mark_at(mark: u8, word: &[u8]) -> Option<usize>
    ensures { result ≡ position (λ byte. nat_eq byte mark) word.now }
{
    word.iter().position(|byte| *byte == mark)
}

/// What stands before and after the first byte `mark`.
pub fn cut_at(mark: u8, word: &[u8]) -> Option<(&[u8], &[u8])>
    ensures { option_map (λ parts. (parts.0.now, parts.1.now)) result ≡ cut_at mark word.now }
{
    let k = mark_at(mark, word)?;
    let (front, _) = word.split_at(k);
    let (_, back) = word.split_at(k + 1);
    Some((front, back))
}

/// The command with this word.
#[tactic(auto, unfolding(crate::specs::Words::verb_of))]
pub fn verb_of(word: &[u8]) -> Option<Verb>
    ensures { result ≡ verb_of word.now }
{
    if word == b"new".as_slice() {
        Some(Verb::New)
    } else if word == b"null".as_slice() {
        Some(Verb::Null)
    } else if word == b"init".as_slice() {
        Some(Verb::Init)
    } else if word == b"buf".as_slice() {
        Some(Verb::Buf)
    } else if word == b"bytes".as_slice() {
        Some(Verb::Bytes)
    } else if word == b"put".as_slice() {
        Some(Verb::Put)
    } else if word == b"close".as_slice() {
        Some(Verb::Close)
    } else if word == b"compact".as_slice() {
        Some(Verb::Compact)
    } else if word == b"show".as_slice() {
        Some(Verb::Show)
    } else if word == b"turns".as_slice() {
        Some(Verb::Turns)
    } else if word == b"call".as_slice() {
        Some(Verb::Call)
    } else {
        None
    }
}

// Classes of bytes, and how many bytes of a class stand at the front.

ghost use Rattle.std.specs.Prelude.{◌≡◌, ◌≤◌, length, take, drop, true, false};
ghost use Rattle.std.specs.List.{list_all};
ghost use Rattle.c_text.specs.CSpelling.{begins_name, is_word_byte, is_string_byte, is_gap_byte, is_between};
ghost use Rattle.c_read_grammar.specs.FirstToken.{begins};
ghost use Rattle.c_read_tokens.specs.WordLists.{first_byte};

/// A letter or `_`.
pub(crate) fn begins_name(byte: u8) -> bool
    ensures { result ≡ begins_name byte }
{
    matches!(byte, b'a'..=b'z' | b'A'..=b'Z' | b'_')
}

/// A decimal digit.
pub(crate) fn is_digit(byte: u8) -> bool
    ensures { result ≡ is_between 48 57 byte }
{
    matches!(byte, b'0'..=b'9')
}

/// A byte of names, words and literals.
pub(crate) fn is_word_byte(byte: u8) -> bool
    ensures { result ≡ is_word_byte byte }
{
    begins_name(byte) || is_digit(byte)
}

/// A byte that may stand in a string.
fn is_string_byte(byte: u8) -> bool
    ensures { result ≡ is_string_byte byte }
{
    matches!(byte, b' '..=b'~') && (byte != b'"' && byte != b'\\')
}

/// A byte between tokens.
fn is_gap_byte(byte: u8) -> bool
    ensures { result ≡ is_gap_byte byte }
{
    byte == b' ' || byte == b'\n'
}

/// The first byte; 0 where there is none.
pub(crate) fn first_byte(bytes: &[u8]) -> u8
    ensures { result ≡ first_byte bytes.now }
{
    match bytes.first() {
        Some(byte) => *byte,
        None => 0,
    }
}

/// How many bytes of a word stand at the front.
pub(crate) fn word_len(bytes: &[u8]) -> usize
    ensures within { result ≤ length bytes.now }
    ensures run { list_all is_word_byte (take result bytes.now) ≡ true }
    ensures whole { begins is_word_byte (drop result bytes.now) ≡ false }
{
    let mut len = 0;
    while len < bytes.len() && is_word_byte(bytes[len]) {
        len += 1;
    }
    len
}

/// How many bytes that may stand in a string stand at the front.
pub(crate) fn string_len(bytes: &[u8]) -> usize
    ensures within { result ≤ length bytes.now }
    ensures run { list_all is_string_byte (take result bytes.now) ≡ true }
    ensures whole { begins is_string_byte (drop result bytes.now) ≡ false }
{
    let mut len = 0;
    while len < bytes.len() && is_string_byte(bytes[len]) {
        len += 1;
    }
    len
}

/// How many bytes of a gap stand at the front.
pub fn gap_len(bytes: &[u8]) -> usize
    ensures within { result ≤ length bytes.now }
    ensures run { list_all is_gap_byte (take result bytes.now) ≡ true }
    ensures whole { begins is_gap_byte (drop result bytes.now) ≡ false }
{
    let mut len = 0;
    while len < bytes.len() && is_gap_byte(bytes[len]) {
        len += 1;
    }
    len
}

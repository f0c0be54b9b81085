// Classes of bytes, and how many bytes of a class stand at the front.

ghost use Rattle.std.specs.Prelude.{◌≡◌, ◌≤◌, length, take, drop, true, false};
ghost use Rattle.std.specs.List.{list_all};
ghost use Rattle.wf_tokens.specs.Runs.{is_letter, is_digit, is_run, is_quote, is_text_byte, begins, first_byte};

/// A letter of ASCII, or `_`.
pub(crate) fn is_letter(byte: u8) -> bool
    ensures { result ≡ is_letter byte }
{
    matches!(byte, b'a'..=b'z' | b'A'..=b'Z' | b'_')
}

/// A decimal digit.
pub(crate) fn is_digit(byte: u8) -> bool
    ensures { result ≡ is_digit byte }
{
    matches!(byte, b'0'..=b'9')
}

/// A byte of names, words and numbers. Most are small letters, which two comparisons tell.
pub(crate) fn is_run(byte: u8) -> bool
    ensures { result ≡ is_run byte }
{
    if b'a' <= byte {
        byte <= b'z'
    } else {
        is_letter(byte) || is_digit(byte)
    }
}

/// A byte that may stand inside a text.
pub(crate) fn is_text_byte(byte: u8) -> bool
    ensures { result ≡ is_text_byte byte }
{
    matches!(byte, b' '..=b'~') && byte != b'"' && byte != b'\\'
}

/// The first of the bytes, and 0 where there is none.
pub(crate) fn first_byte(bytes: &[u8]) -> u8
    ensures { result ≡ first_byte bytes.now }
{
    match bytes.first() {
        Some(byte) => *byte,
        None => 0,
    }
}

/// The byte at this place, and 0 where there is none.
pub(crate) fn byte_at(bytes: &[u8], place: usize) -> u8
    ensures { result ≡ first_byte (drop place bytes.now) }
{
    match bytes.get(place) {
        Some(byte) => *byte,
        None => 0,
    }
}

/// Whether a quote stands at the front.
pub(crate) fn begins_with_quote(bytes: &[u8]) -> bool
    ensures { result ≡ begins is_quote bytes.now }
{
    match bytes.first() {
        Some(byte) => *byte == b'"',
        None => false,
    }
}

/// How many letters, digits and `_` stand at the front.
pub(crate) fn run_len(bytes: &[u8]) -> usize
    ensures within { result ≤ length bytes.now }
    ensures run { list_all is_run (take result bytes.now) ≡ true }
    ensures whole { begins is_run (drop result bytes.now) ≡ false }
{
    let mut len = 0;
    while len < bytes.len() && is_run(bytes[len]) {
        len += 1;
    }
    len
}

/// How many bytes that may stand inside a text stand at the front.
pub(crate) fn text_len(bytes: &[u8]) -> usize
    ensures within { result ≤ length bytes.now }
    ensures plain { list_all is_text_byte (take result bytes.now) ≡ true }
    ensures whole { begins is_text_byte (drop result bytes.now) ≡ false }
{
    let mut len = 0;
    while len < bytes.len() && is_text_byte(bytes[len]) {
        len += 1;
    }
    len
}

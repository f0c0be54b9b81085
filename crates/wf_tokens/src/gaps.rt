// Gaps: the blanks and comments before a token.

ghost use Rattle.std.specs.Prelude.{◌≡◌, ◌≤◌, length, take, drop};
ghost use Rattle.wf_tokens.specs.Gaps.{is_blank, begins_comment, gap_goes_on, IsGap, ends_line};

/// Space, tab and carriage return, and a line feed where no semicolon is due.
fn is_blank(due: bool, byte: u8) -> bool
    ensures { result ≡ is_blank due byte }
{
    match byte {
        b' ' | b'\t' | b'\r' => true,
        b'\n' => !due,
        _ => false,
    }
}

/// Whether two slashes stand at the front.
fn begins_comment(bytes: &[u8]) -> bool
    ensures { result ≡ begins_comment bytes.now }
{
    bytes.len() > 1 && bytes[0] == b'/' && bytes[1] == b'/'
}

/// Whether the first byte belongs to a gap, and if so, whether a comment goes on after it. `inside` tells that
/// the byte stands in a comment.
fn gap_goes_on(due: bool, inside: bool, bytes: &[u8]) -> Option<bool>
    ensures { result ≡ gap_goes_on due inside bytes.now }
{
    let byte = *bytes.first()?;
    if inside && byte != b'\n' {
        Some(true)
    } else if is_blank(due, byte) {
        Some(false)
    } else if begins_comment(bytes) {
        Some(true)
    } else {
        None
    }
}

/// How many bytes at the front are a gap: all blanks and comments. `due` tells that a line end adds a semicolon,
/// which ends the gap.
pub(crate) fn gap_len(due: bool, bytes: &[u8]) -> usize
    ensures within { result ≤ length bytes.now }
    ensures gap { IsGap due (take result bytes.now) (drop result bytes.now) }
{
    let mut len = 0;
    let mut inside = false;
    while let Some(goes_on) = gap_goes_on(due, inside, &bytes[len..]) {
        inside = goes_on;
        len += 1;
    }
    len
}

/// Whether a line feed or nothing stands at the front.
pub(crate) fn ends_line(bytes: &[u8]) -> bool
    ensures { result ≡ ends_line bytes.now }
{
    match bytes.first() {
        Some(byte) => *byte == b'\n',
        None => true,
    }
}

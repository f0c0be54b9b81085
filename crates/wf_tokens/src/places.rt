// Places after bytes: a line ends with its line feed, and columns count bytes.

ghost use Rattle.std.specs.Prelude.{◌≡◌, ◌≤◌, ◌<◌, ◌+◌, ◌^◌, length};
ghost use Rattle.wf_tokens.specs.Places.{along, behind_byte, behind_bytes};

use wf_text::Place;

/// The place after one byte.
fn behind_byte(at: Place, byte: u8) -> Place
    requires line { at.line + 1 < 2 ^ 32 }
    requires col { at.col + 1 < 2 ^ 32 }
    ensures { result ≡ behind_byte at byte }
{
    if byte == b'\n' {
        Place {
            file: at.file,
            line: at.line + 1,
            col: 1,
        }
    } else {
        Place {
            file: at.file,
            line: at.line,
            col: at.col + 1,
        }
    }
}

/// The place after bytes of which the first stands at `at`.
pub(crate) fn behind_bytes(at: Place, bytes: &[u8]) -> Place
    requires line { at.line + length bytes.now < 2 ^ 32 }
    requires col { at.col + length bytes.now < 2 ^ 32 }
    ensures place { result ≡ behind_bytes at bytes.now }
    ensures line { result.line ≤ at.line + length bytes.now }
    ensures col { result.col ≤ at.col + length bytes.now }
{
    let mut place = at;
    for byte in bytes {
        place = behind_byte(place, *byte);
    }
    place
}

/// The place so many bytes on, in the same line.
pub(crate) fn along(at: Place, len: usize) -> Place
    requires { at.col + len < 2 ^ 32 }
    ensures { result ≡ along at len }
{
    Place {
        file: at.file,
        line: at.line,
        col: at.col + len as u32,
    }
}

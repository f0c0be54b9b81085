// A token of a file.

use crate::kinds::TokenKind;
use wf_text::Place;

/// A token with its bytes, borrowed from the file, and the place of the first of them. A semicolon that a line
/// end adds has no bytes, and its place is the one directly after the token before it.
#[derive(Clone, Copy)]
pub struct Token<'a> {
    pub kind: TokenKind,
    pub bytes: &'a [u8],
    pub at: Place,
}

// A place in the files of a package.

/// Where a token begins, or a refusal stands.
#[derive(Clone, Copy, PartialEq, Eq)]
pub struct Place {
    /// The file's number in the order in which the files were named, from 0.
    pub file: u16,
    /// The line, from 1; a line ends with its line feed.
    pub line: u32,
    /// The column in bytes, from 1.
    pub col: u32,
}

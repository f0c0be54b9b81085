// The words and marks of the C subset. Operators with two operands are marks too; they stand in `COp`.

/// A keyword or type name that the subset uses. No name is spelt like one of these, nor like any other keyword
/// of C (ISO/IEC 9899:1999, 6.4.1).
#[derive(Clone, Copy, PartialEq, Eq)]
pub enum CWord {
    /// `typedef`
    Typedef,
    /// `struct`
    Struct,
    /// `static`
    Static,
    /// `inline`
    Inline,
    /// `const`
    Const,
    /// `char`
    Char,
    /// `void`
    Void,
    /// `uint8_t`
    Uint8,
    /// `uint16_t`
    Uint16,
    /// `uint32_t`
    Uint32,
    /// `uint64_t`
    Uint64,
    /// `size_t`
    SizeT,
    /// `_Bool`
    Bool,
    /// `goto`
    Goto,
    /// `if`
    If,
    /// `else`
    Else,
    /// `while`
    While,
    /// `switch`
    Switch,
    /// `return`
    Return,
    /// `case`
    Case,
    /// `default`
    Default,
    /// `sizeof`
    Sizeof,
}

/// A mark that is no operator with two operands (6.4.6).
#[derive(Clone, Copy, PartialEq, Eq)]
pub enum CMark {
    /// `(`
    OpenParen,
    /// `)`
    CloseParen,
    /// `[`
    OpenBracket,
    /// `]`
    CloseBracket,
    /// `{`
    OpenBrace,
    /// `}`
    CloseBrace,
    /// `,`
    Comma,
    /// `;`
    Semicolon,
    /// `:`
    Colon,
    /// `?`
    Question,
    /// `=`
    Assign,
    /// `->`
    Arrow,
    /// `!`
    Not,
    /// `~`
    Complement,
}

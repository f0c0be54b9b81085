// The tokens as the grammar reads them: texts by their numbers, operators by what they may stand between.

use wf_ast::{Op, TextId};
use wf_text::Place;

/// What a token is.
#[derive(Clone, Copy)]
pub enum Kind {
    Name(TextId),
    Number(u64),
    /// The bytes between two quotes.
    Text(TextId),
    /// An operator that makes chains: `+ * & | ^ and or`.
    Chain(Op),
    /// Any other operator between two operands.
    Binary(Op),
    /// An operator that is followed directly by `=`.
    Update(Op),
    /// `=`
    Equals,
    /// `=?`
    KeepEquals,
    /// `(`
    OpenRound,
    /// `)`
    CloseRound,
    /// `[`
    OpenSquare,
    /// `]`
    CloseSquare,
    /// `{`
    OpenCurly,
    /// `}`
    CloseCurly,
    /// `,`
    Comma,
    /// `.`
    Dot,
    /// `:`
    Colon,
    /// `;`
    Semicolon,
    /// `?`
    Question,
    /// `!`
    Exclamation,
    /// `..`
    Dots,
    /// `..=`
    DotsEquals,
    /// `pub`
    Pub,
    /// `pri`
    Pri,
    /// `const`
    Const,
    /// `status`
    Status,
    /// `struct`
    Struct,
    /// `func`
    Func,
    /// `pre`
    Pre,
    /// `inv`
    Inv,
    /// `post`
    Post,
    /// `assert`
    Assert,
    /// `via`
    Via,
    /// `var`
    Var,
    /// `if`
    If,
    /// `else`
    Else,
    /// `while`
    While,
    /// `endwhile`
    Endwhile,
    /// `break`
    Break,
    /// `continue`
    Continue,
    /// `return`
    Return,
    /// `yield`
    Yield,
    /// `array`
    Array,
    /// `slice`
    Slice,
    /// `base`
    Base,
    /// `args`
    Args,
    /// `this`
    This,
    /// `as`
    As,
    /// `not`
    Not,
    /// `true`
    True,
    /// `false`
    False,
    /// `ok`
    Ok,
    /// `nothing`
    Nothing,
    /// Bytes that are no token: nothing of the grammar begins with it or goes on with it.
    Bad,
}

/// A token with the place of its first byte.
#[derive(Clone, Copy)]
pub struct Token {
    pub kind: Kind,
    pub at: Place,
}

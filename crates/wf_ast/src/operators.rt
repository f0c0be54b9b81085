// The operators that take two operands.

/// An operator. The first seven make chains: one operator may stand between any number of operands. Each
/// other one stands between two.
#[derive(Clone, Copy, PartialEq, Eq)]
pub enum Op {
    /// `+`
    Add,
    /// `*`
    Mul,
    /// `&`
    BitAnd,
    /// `|`
    BitOr,
    /// `^`
    BitXor,
    /// `and`
    And,
    /// `or`
    Or,
    /// `-`
    Sub,
    /// `/`
    Div,
    /// `%`
    Rem,
    /// `<<`
    Shl,
    /// `>>`
    Shr,
    /// `==`
    Same,
    /// `<>`
    Differs,
    /// `<`
    Less,
    /// `<=`
    LessOrSame,
    /// `>`
    Greater,
    /// `>=`
    GreaterOrSame,
    /// `~mod+`
    ModAdd,
    /// `~mod-`
    ModSub,
    /// `~mod*`
    ModMul,
    /// `~mod<<`
    ModShl,
    /// `~sat+`
    SatAdd,
    /// `~sat-`
    SatSub,
}

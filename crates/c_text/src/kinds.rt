// The plain kinds of the C subset: unsigned types, literals, operators, linkage, and what an `else` holds.

/// A type of exact width (ISO/IEC 9899:1999, 7.18.1.1).
#[derive(Clone, Copy, PartialEq, Eq)]
pub enum CUint {
    /// `uint8_t`
    U8,
    /// `uint16_t`
    U16,
    /// `uint32_t`
    U32,
    /// `uint64_t`
    U64,
}

/// A decimal literal with its suffix, which tells its type (6.4.4.1).
#[derive(Clone, Copy, PartialEq, Eq)]
pub enum CNumber {
    /// Without a suffix: an `int`, at most 2147483647.
    Int(u32),
    /// With `u`: an `unsigned int`.
    Unsigned(u32),
    /// With `ull`: an `unsigned long long`.
    Long(u64),
}

/// An operator with two operands (6.5.5 to 6.5.14).
#[derive(Clone, Copy, PartialEq, Eq)]
pub enum COp {
    /// `+`
    Add,
    /// `-`
    Sub,
    /// `*`
    Mul,
    /// `/`
    Div,
    /// `%`
    Rem,
    /// `<<`
    Shl,
    /// `>>`
    Shr,
    /// `&`
    BitAnd,
    /// `|`
    BitOr,
    /// `^`
    BitXor,
    /// `<`
    Lt,
    /// `<=`
    Le,
    /// `>`
    Gt,
    /// `>=`
    Ge,
    /// `==`
    Eq,
    /// `!=`
    Ne,
    /// `&&`
    Both,
    /// `||`
    Either,
}

/// An operator before its operand (6.5.3.2, 6.5.3.3). `*` is a form of its own.
#[derive(Clone, Copy, PartialEq, Eq)]
pub enum CUnary {
    /// `!`
    Not,
    /// `~`
    Complement,
    /// `&`
    Address,
}

/// Where a function can be called from (6.2.2, 6.7.4).
#[derive(Clone, Copy, PartialEq, Eq)]
pub enum Linkage {
    /// From any translation unit.
    External,
    /// `static`
    Static,
    /// `static inline`
    StaticInline,
}

/// What stands after the block of an `if` (6.8.4.1).
#[derive(Clone, Copy, PartialEq, Eq)]
pub enum Otherwise {
    /// No `else`.
    Nothing,
    /// `else` and a block.
    Block,
    /// `else if`.
    If,
}

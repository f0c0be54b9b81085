// The parts of a typed package.

use crate::declarations::{Method, Struct};
use crate::numbers::ExprId;
use crate::sequences::Sequence;
use crate::typed_code::{Block, ExprNode, StmtNode};
use crate::types::Ty;

/// A package whose names are resolved and whose expressions have types.
pub struct TypedNodes {
    /// The package's name.
    pub package: Sequence<u8>,
    /// The text that a caller sees of each status, by number: ok's, which is empty, the base statuses' and the
    /// package's own.
    pub statuses: Sequence<Sequence<u8>>,
    /// Names, and the texts of axioms, by number.
    pub texts: Sequence<Sequence<u8>>,
    pub exprs: Sequence<ExprNode>,
    /// The type of each expression; a constant without a width has 64 bits.
    pub types: Sequence<Ty>,
    /// Of each expression: its number, where it is numeric and constant.
    pub constants: Sequence<Option<u64>>,
    pub stmts: Sequence<StmtNode>,
    pub structs: Sequence<Struct>,
    pub methods: Sequence<Method>,
    /// The body of each method.
    pub bodies: Sequence<Block>,
    /// Of each method: the expression that is its first local. Those that are its other locals follow it, in order.
    pub first_locals: Sequence<ExprId>,
    /// The numbers of all methods, each after those that it calls.
    pub order: Sequence<u32>,
    /// The numbers of all structs, each after those that its fields hold.
    pub struct_order: Sequence<u32>,
}

impl Drop for TypedNodes {
    fn drop(self) {
        let TypedNodes {
            package: _,
            statuses: _,
            texts: _,
            exprs: _,
            types: _,
            constants: _,
            stmts: _,
            structs: _,
            methods: _,
            bodies: _,
            first_locals: _,
            order: _,
            struct_order: _,
        } = self;
    }
}

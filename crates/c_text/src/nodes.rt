// The nodes of a unit: types, expressions, statements and items, one variant for each alternative of the C subset.

use crate::ids::{CExprId, CNameId, CStmtId, CStringId};
use crate::kinds::{CNumber, COp, CUint, CUnary, Linkage, Otherwise};
use crate::lists::CList;

/// A type of a value (ISO/IEC 9899:1999, 6.2.5).
#[derive(Clone, Copy, PartialEq, Eq)]
pub enum CType {
    /// `uint8_t` to `uint64_t`
    Uint(CUint),
    /// `size_t`
    Size,
    /// `_Bool`
    Bool,
    /// A pointer to numbers, as `uint8_t*`.
    UintPointer(CUint),
    /// A pointer to a struct of this name, as `wuffs_base__io_buffer*`.
    StructPointer(CNameId),
    /// `const char*`
    Text,
}

/// A call: the function's name and the arguments (6.5.2.2).
#[derive(Drop)]
pub struct CCall {
    /// The function.
    pub function: CNameId,
    /// The arguments, in order.
    pub args: CList<CArg>,
}

/// An argument of a call.
#[derive(Clone, Copy, PartialEq, Eq)]
pub enum CArg {
    /// An expression.
    Expr(CExprId),
    /// `sizeof(*name)`
    SizeOf(CNameId),
}

/// An expression. All but literals and the alternatives of an lvalue stand in parentheses of their own.
#[derive(Drop)]
pub enum CExpr {
    /// A literal.
    Number(CNumber),
    /// A parameter, a local or a string.
    Name(CNameId),
    /// `of->field`
    Member {
        /// The pointer to a struct.
        of: CExprId,
        /// The field.
        field: CNameId,
    },
    /// `of[at]`
    Index {
        /// The pointer to the first element.
        of: CExprId,
        /// The index.
        at: CExprId,
    },
    /// `(*of)`
    Deref(CExprId),
    /// `(first op second)`, or with repeats of one operator, from the left.
    Operation {
        /// The operator.
        op: COp,
        /// The first operand.
        first: CExprId,
        /// The second operand.
        second: CExprId,
        /// The operands after the second one, in order.
        others: CList<CExprId>,
    },
    /// `(!of)`, `(~of)` or `(&of)`
    Unary {
        /// The operator.
        op: CUnary,
        /// The operand.
        of: CExprId,
    },
    /// `((to)of)`
    Cast {
        /// The type that is converted to.
        to: CType,
        /// The operand.
        of: CExprId,
    },
    /// `(test ? met : unmet)`
    Choice {
        /// The condition.
        test: CExprId,
        /// The value where it isn't 0.
        met: CExprId,
        /// The value where it is 0.
        unmet: CExprId,
    },
    /// `(function(args))`
    Call(CCall),
}

/// A statement, with the rest of its block: `rest` is the number of what follows it there. A label is a
/// statement of its own, and what it labels is the first statement of its rest.
#[derive(Drop)]
pub enum CStmt {
    /// The end of the block.
    End,
    /// `{ inner }`
    Block {
        /// The statements in the braces.
        inner: CStmtId,
        /// What follows.
        rest: CStmtId,
    },
    /// `;`
    Empty {
        /// What follows.
        rest: CStmtId,
    },
    /// `target = value;`
    Assign {
        /// An lvalue.
        target: CExprId,
        /// The value.
        value: CExprId,
        /// What follows.
        rest: CStmtId,
    },
    /// `call;` or `target = call;`
    Call {
        /// An lvalue, where the value is kept.
        target: Option<CExprId>,
        /// The call.
        call: CCall,
        /// What follows.
        rest: CStmtId,
    },
    /// `goto label;`
    Goto {
        /// The label.
        label: CNameId,
        /// What follows.
        rest: CStmtId,
    },
    /// `if (test) { body }`, with what `otherwise` says after it.
    If {
        /// The condition.
        test: CExprId,
        /// The statements of the block.
        body: CStmtId,
        /// What kind of `else` there is.
        otherwise: Otherwise,
        /// The statements of the `else`: none, those of its block, or the one `if` of `else if`.
        other: CStmtId,
        /// What follows.
        rest: CStmtId,
    },
    /// `while (test) { body }`
    While {
        /// The condition.
        test: CExprId,
        /// The statements of the block.
        body: CStmtId,
        /// What follows.
        rest: CStmtId,
    },
    /// `switch (on) { body }`
    Switch {
        /// What is compared with the cases.
        on: CExprId,
        /// The statements of the block.
        body: CStmtId,
        /// What follows.
        rest: CStmtId,
    },
    /// `return;` or `return value;`
    Return {
        /// The value.
        value: Option<CExprId>,
        /// What follows.
        rest: CStmtId,
    },
    /// `case number:`
    Case {
        /// The number.
        number: CNumber,
        /// The labelled statement and what follows.
        rest: CStmtId,
    },
    /// `default:`
    Default {
        /// The labelled statement and what follows.
        rest: CStmtId,
    },
    /// `name:`
    Label {
        /// The label.
        name: CNameId,
        /// The labelled statement and what follows.
        rest: CStmtId,
    },
}

/// What a field holds.
#[derive(Clone, Copy, PartialEq, Eq)]
pub enum CFieldType {
    /// A value, or values of this type where the field has a length.
    Plain(CType),
    /// An object of the struct of this name.
    Struct(CNameId),
}

/// A field of a struct (6.7.2.1).
#[derive(Clone, Copy, PartialEq, Eq)]
pub struct CField {
    /// The field's type.
    pub kind: CFieldType,
    /// The field's name.
    pub name: CNameId,
    /// The number of elements of an array.
    pub count: Option<CNumber>,
}

/// A parameter of a function.
#[derive(Clone, Copy, PartialEq, Eq)]
pub struct CParam {
    /// The parameter's type.
    pub kind: CType,
    /// The parameter's name.
    pub name: CNameId,
}

/// A local of a function.
#[derive(Clone, Copy, PartialEq, Eq)]
pub struct CLocal {
    /// The local's type.
    pub kind: CType,
    /// The local's name.
    pub name: CNameId,
    /// The initial value.
    pub initial: Option<CExprId>,
}

/// An item of a unit (6.9).
#[derive(Drop)]
pub enum CItem {
    /// `typedef struct { fields } name;`
    Struct {
        /// The fields, at least one.
        fields: CList<CField>,
        /// The type's name.
        name: CNameId,
    },
    /// `static const char name[] = "text";`
    Text {
        /// The object's name.
        name: CNameId,
        /// The bytes of the string.
        text: CStringId,
    },
    /// A function with its locals and its statements.
    Function {
        /// Where the function can be called from.
        linkage: Linkage,
        /// The type of the result; none for `void`.
        result: Option<CType>,
        /// The function's name.
        name: CNameId,
        /// The parameters, in order.
        params: CList<CParam>,
        /// The locals, in order.
        locals: CList<CLocal>,
        /// The statements.
        body: CStmtId,
    },
}

// Statements apart from the blocks that they stand in.

ghost use Rattle.std.specs.Prelude.{◌≡◌};
ghost use Rattle.c_read_nodes.specs.Statements.{node_of, is_label};

use c_text::{CCall, CExprId, CNameId, CNumber, CStmt, CStmtId, Otherwise};

/// An `if`, with what `otherwise` says after it.
#[derive(Clone, Copy, PartialEq, Eq)]
pub struct Branch {
    pub(crate) test: CExprId,
    pub(crate) body: CStmtId,
    pub(crate) otherwise: Otherwise,
    pub(crate) other: CStmtId,
}

/// A statement, without what follows it in its block.
#[derive(Drop)]
pub enum Statement {
    /// `{ inner }`
    Nested {
        inner: CStmtId,
    },
    /// `;`
    Empty,
    /// `target = value;`
    Assign {
        target: CExprId,
        value: CExprId,
    },
    /// `call;` or `target = call;`
    Call {
        target: Option<CExprId>,
        call: CCall,
    },
    /// `goto label;`
    Goto {
        label: CNameId,
    },
    /// `if (test) { body }`, with what `otherwise` says after it.
    If(Branch),
    /// `while (test) { body }`
    While {
        test: CExprId,
        body: CStmtId,
    },
    /// `switch (on) { body }`
    Switch {
        on: CExprId,
        body: CStmtId,
    },
    /// `return;` or `return value;`
    Return {
        value: Option<CExprId>,
    },
    /// `case number:`
    Case {
        number: CNumber,
    },
    /// `default:`
    Default,
    /// `name:`
    Label {
        name: CNameId,
    },
}

impl Statement {
    /// The statement's node, where `rest` follows it.
    pub(crate) fn followed_by(self, rest: CStmtId) -> CStmt
        ensures { result ≡ node_of self rest }
    {
        match self {
            Statement::Nested { inner } => CStmt::Block { inner, rest },
            Statement::Empty => CStmt::Empty { rest },
            Statement::Assign { target, value } => CStmt::Assign {
                target,
                value,
                rest,
            },
            Statement::Call { target, call } => CStmt::Call { target, call, rest },
            Statement::Goto { label } => CStmt::Goto { label, rest },
            Statement::If(branch) => CStmt::If {
                test: branch.test,
                body: branch.body,
                otherwise: branch.otherwise,
                other: branch.other,
                rest,
            },
            Statement::While { test, body } => CStmt::While { test, body, rest },
            Statement::Switch { on, body } => CStmt::Switch { on, body, rest },
            Statement::Return { value } => CStmt::Return { value, rest },
            Statement::Case { number } => CStmt::Case { number, rest },
            Statement::Default => CStmt::Default { rest },
            Statement::Label { name } => CStmt::Label { name, rest },
        }
    }

    /// Whether it is a label, which another statement follows.
    pub(crate) fn is_label(&self) -> bool
        ensures { result ≡ is_label self.now }
    {
        match self {
            Statement::Case { number: _ } => true,
            Statement::Default => true,
            Statement::Label { name: _ } => true,
            _ => false,
        }
    }
}

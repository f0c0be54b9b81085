// A statement in its parts: the blocks in it and the rest of the block in which it stands.

ghost use Rattle.std.specs.Prelude.{◌≡◌, ◌<◌, length, IfSome, IfNone};
ghost use Rattle.c_text.specs.CNodes.{code_of};
ghost use Rattle.c_text.specs.CTree.{finish};
ghost use Rattle.c_text.specs.CBlocks.{IsApart};

use crate::ids::CStmtId;
use crate::nodes::CStmt;
use crate::unit::Unit;

/// The blocks in a statement, by their first statements.
#[derive(Clone, Copy)]
pub enum Blocks {
    /// None.
    None,
    /// One, in braces or of a `while`.
    One(CStmtId),
    /// That of a `switch`.
    Switch(CStmtId),
    /// That of an `if`, and the statements of its `else`.
    Branch(CStmtId, CStmtId),
}

impl Unit {
    /// The blocks in a statement, and the rest of the block in which it stands; None at the end of a block.
    pub fn apart(&self, s: CStmtId) -> Option<(Blocks, CStmtId)>
        requires { s.0 < length self.now.stmts }
        ensures some { IfSome result (λ it. IsApart self.now (code_of self.now s.0) it.0 it.1) }
        ensures none { IfNone result (code_of self.now s.0 ≡ finish) }
    {
        match self.stmt(s) {
            CStmt::End => None,
            CStmt::Block { inner, rest } => Some((Blocks::One(*inner), *rest)),
            CStmt::Empty { rest } => Some((Blocks::None, *rest)),
            CStmt::Assign { rest, .. } => Some((Blocks::None, *rest)),
            CStmt::Call { rest, .. } => Some((Blocks::None, *rest)),
            CStmt::Goto { rest, .. } => Some((Blocks::None, *rest)),
            CStmt::If {
                body,
                other,
                rest,
                ..
            } => Some((Blocks::Branch(*body, *other), *rest)),
            CStmt::While { body, rest, .. } => Some((Blocks::One(*body), *rest)),
            CStmt::Switch { body, rest, .. } => Some((Blocks::Switch(*body), *rest)),
            CStmt::Return { rest, .. } => Some((Blocks::None, *rest)),
            CStmt::Case { rest, .. } => Some((Blocks::None, *rest)),
            CStmt::Default { rest } => Some((Blocks::None, *rest)),
            CStmt::Label { rest, .. } => Some((Blocks::None, *rest)),
        }
    }
}

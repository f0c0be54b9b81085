// What is read of the nodes and declarations of a resolved package.

ghost use Rattle.std.specs.Prelude.{◌≡◌, ◌<◌, Some, length, slice_get};
ghost use Rattle.std.specs.List.{AllByRecursion};
ghost use Rattle.wf_ast.specs.ParsedParts.{AreDistinct};
ghost use Rattle.wf_named.specs.NamedParts.{exprs_of, stmts_of, NamedExprParts, NamedStmtParts, NamedConstBelow, NamedStructBelow, NamedMethodBelow};
ghost use Rattle.wf_named.specs.NamedTrees.{expr_made, stmt_made, expr_at, stmt_at};

use crate::building::NamedNodes;
use crate::declarations::{NamedConst, NamedMethod, NamedStruct};
use crate::nodes::{NamedExprNode, NamedStmtNode};
use wf_ast::parsed::Name;
use wf_ast::{ExprId, StmtId, TextId};

impl NamedNodes {
    /// How many texts the package has. Equal texts have equal numbers.
    pub fn texts(&self) -> usize
        ensures count { result ≡ length self.now.texts }
        ensures unique { AreDistinct self.now.texts }
    {
        self.texts.len()
    }

    /// The bytes of a text of this package.
    pub fn text(&self, number: TextId) -> &[u8]
        requires { number.0 < length self.now.texts }
        ensures { slice_get self.now.texts number.0 ≡ Some result.now }
    {
        self.texts.text(number)
    }

    /// How many expressions the package has.
    pub fn exprs(&self) -> usize
        ensures { result ≡ length self.now.exprs }
    {
        self.exprs.len()
    }

    /// How many statements the package has.
    pub fn stmts(&self) -> usize
        ensures { result ≡ length self.now.stmts }
    {
        self.stmts.len()
    }

    /// The node of an expression of this package. Its tree is made of the trees of its parts, which have smaller numbers.
    pub fn expr(&self, e: ExprId) -> &NamedExprNode
        requires { e.0 < length self.now.exprs }
        ensures node { slice_get self.now.exprs e.0 ≡ Some result.now }
        ensures made { expr_at (exprs_of self.now) e ≡ expr_made (exprs_of self.now) result.now.expr result.now.at }
        ensures parts { NamedExprParts e.0 result.now.expr }
    {
        &self.exprs[e.0 as usize]
    }

    /// The node of a statement of this package. Its tree is made of the trees of its parts; those that are statements have
    /// smaller numbers.
    pub fn stmt(&self, s: StmtId) -> &NamedStmtNode
        requires { s.0 < length self.now.stmts }
        ensures node { slice_get self.now.stmts s.0 ≡ Some result.now }
        ensures made { stmt_at (stmts_of self.now) s ≡ stmt_made self.now.texts (exprs_of self.now) (stmts_of self.now) result.now.stmt result.now.at }
        ensures parts { NamedStmtParts (length self.now.texts) (length self.now.exprs) s.0 result.now.stmt }
    {
        &self.stmts[s.0 as usize]
    }

    /// The constants in order of declaration, files in their order.
    pub fn consts(&self) -> &[NamedConst]
        ensures all { result.now ≡ self.now.consts }
        ensures parts { AllByRecursion (NamedConstBelow (length self.now.texts) (length self.now.exprs)) result.now }
    {
        self.consts.as_slice()
    }

    /// The texts of the package's own statuses in order of declaration. The first has the number 10.
    pub fn statuses(&self) -> &[Name]
        ensures all { result.now ≡ self.now.statuses }
        ensures parts { AllByRecursion (λ n. n.text.0 < length self.now.texts) result.now }
    {
        self.statuses.as_slice()
    }

    /// The structs in order of declaration.
    pub fn structs(&self) -> &[NamedStruct]
        ensures all { result.now ≡ self.now.structs }
        ensures parts { AllByRecursion (NamedStructBelow (length self.now.texts) (length self.now.exprs)) result.now }
    {
        self.structs.as_slice()
    }

    /// The methods in order of declaration.
    pub fn methods(&self) -> &[NamedMethod]
        ensures all { result.now ≡ self.now.methods }
        ensures parts { AllByRecursion (NamedMethodBelow (length self.now.texts) (length self.now.exprs) (length self.now.stmts)) result.now }
    {
        self.methods.as_slice()
    }

    /// The numbers of all methods, each after those that it calls.
    pub fn order(&self) -> &[u32]
        ensures { result.now ≡ self.now.order }
    {
        self.order.as_slice()
    }

    /// The numbers of all structs, each after those that its fields hold.
    pub fn struct_order(&self) -> &[u32]
        ensures { result.now ≡ self.now.struct_order }
    {
        self.struct_order.as_slice()
    }

    /// The package's name.
    pub fn package_name(&self) -> &[u8]
        ensures { result.now ≡ self.now.package_name }
    {
        self.package_name.as_slice()
    }
}

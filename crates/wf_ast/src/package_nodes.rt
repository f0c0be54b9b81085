// The parsed tree of a package: its name, its texts and its nodes. A node's parts stand before it, so a
// walk from a node down to its parts ends.

ghost use Rattle.std.specs.Prelude.{◌≡◌, ◌+◌, ◌<◌, ◌^◌, ◌++◌, [], ◌∷◌, Some, length, slice_get, IfOk, OnOk, OnErr};
ghost use Rattle.wf_ast.specs.ParsedParts.{Parsed, JoinsText, AreDistinct, ExprParts, StmtParts, DeclParts};
ghost use Rattle.wf_ast.specs.ParsedTrees.{expr_trees, stmt_trees, expr_made, stmt_made, expr_at, stmt_at};

use crate::numbers::{ExprId, StmtId, TextId};
use crate::parsed::{DeclNode, ExprNode, StmtNode};
use crate::texts::Texts;
use std::alloc::{AllocError, Global};
use std::marker::Model;
use wf_text::add_last;

/// What a package is made of while its files are read.
pub struct PackageNodes {
    name: Vec<u8>,
    texts: Texts,
    exprs: Vec<ExprNode>,
    stmts: Vec<StmtNode>,
    decls: Vec<DeclNode>,
}

impl Drop for PackageNodes {
    fn drop(self) {
        let PackageNodes {
            name: _,
            texts: _,
            exprs: _,
            stmts: _,
            decls: _,
        } = self;
    }
}

impl Model for PackageNodes {
    ghost use Rattle.wf_ast.specs.ParsedParts.{Parsed, IsShaped};

    ghost Value = { Parsed };

    ghost view = { λ p. record { name = p.name.items; texts = p.texts; exprs = p.exprs.items; stmts = p.stmts.items; decls = p.decls.items } };

    ghost invariant = { λ p. IsShaped (record { name = p.name.items; texts = p.texts; exprs = p.exprs.items; stmts = p.stmts.items; decls = p.decls.items }) };
}

impl PackageNodes {
    /// A package of this name without texts and nodes.
    pub fn new(alloc: Global, name: &[u8]) -> Result<Self, AllocError>
        ensures { IfOk result (λ p. p ≡ record { name = name.now; texts = []; exprs = []; stmts = []; decls = [] }) }
    {
        let name = Vec::from_slice(alloc, name)?;
        Ok(PackageNodes {
            name,
            texts: Texts::new(alloc),
            exprs: Vec::new(alloc),
            stmts: Vec::new(alloc),
            decls: Vec::new(alloc),
        })
    }

    /// The number of `text`, which joins the package's texts at their end where it isn't among them. On `Err`
    /// the package is as it was.
    pub fn intern(&mut self, text: &[u8]) -> Result<TextId, AllocError>
        requires { length self.old.texts < 2 ^ 32 }
        ensures found { IfOk result (λ t. slice_get self.new.texts t.0 ≡ Some text.now) }
        ensures joins { OnOk result (JoinsText self.old.texts self.new.texts text.now) }
        ensures ok { OnOk result (self.new ≡ record self.old { texts = self.new.texts }) }
        ensures err { OnErr result (self.new ≡ self.old) }
    {
        self.texts.number_of(text)
    }

    /// Adds an expression, whose parts are of this package. On `Err` the package is as it was.
    pub fn push_expr(&mut self, node: ExprNode) -> Result<ExprId, AllocError>
        requires parts { ExprParts (length self.old.exprs) node.expr }
        requires room { length self.old.exprs < 2 ^ 32 }
        ensures number { IfOk result (λ e. e.0 ≡ length self.old.exprs) }
        ensures ok { OnOk result (self.new ≡ record self.old { exprs = self.old.exprs ++ node ∷ [] }) }
        ensures err { OnErr result (self.new ≡ self.old) }
    {
        let number = self.exprs.len() as u32;
        add_last(&mut self.exprs, node)?;
        Ok(ExprId(number))
    }

    /// Adds a statement, whose parts are of this package. On `Err` the package is as it was.
    pub fn push_stmt(&mut self, node: StmtNode) -> Result<StmtId, AllocError>
        requires parts { StmtParts (length self.old.exprs) (length self.old.stmts) node.stmt }
        requires room { length self.old.stmts < 2 ^ 32 }
        ensures number { IfOk result (λ s. s.0 ≡ length self.old.stmts) }
        ensures ok { OnOk result (self.new ≡ record self.old { stmts = self.old.stmts ++ node ∷ [] }) }
        ensures err { OnErr result (self.new ≡ self.old) }
    {
        let number = self.stmts.len() as u32;
        add_last(&mut self.stmts, node)?;
        Ok(StmtId(number))
    }

    /// Adds a declaration, whose parts are of this package. On `Err` the package is as it was.
    pub fn push_decl(&mut self, node: DeclNode) -> Result<(), AllocError>
        requires parts { DeclParts (length self.old.exprs) (length self.old.stmts) node.decl }
        ensures ok { OnOk result (self.new ≡ record self.old { decls = self.old.decls ++ node ∷ [] }) }
        ensures err { OnErr result (self.new ≡ self.old) }
    {
        add_last(&mut self.decls, node)?;
        Ok(())
    }

    /// The package's name.
    pub fn name(&self) -> &[u8]
        ensures { result.now ≡ self.now.name }
    {
        self.name.as_slice()
    }

    /// How many texts the package has. Equal texts have equal numbers.
    pub fn texts(&self) -> usize
        ensures count { result ≡ length self.now.texts }
        ensures unique { AreDistinct self.now.texts }
    {
        self.texts.len()
    }

    /// The bytes of a text of this package.
    pub fn text(&self, number: TextId) -> &[u8]
        requires { number.0 < length self.now.texts }
        ensures { slice_get self.now.texts number.0 ≡ Some result.now }
    {
        self.texts.text(number)
    }

    /// The node of an expression of this package.
    pub fn expr(&self, e: ExprId) -> &ExprNode
        requires { e.0 < length self.now.exprs }
        ensures node { slice_get self.now.exprs e.0 ≡ Some result.now }
        ensures made { expr_at (expr_trees self.now.exprs) e ≡ expr_made (expr_trees self.now.exprs) result.now.expr result.now.at }
        ensures parts { ExprParts e.0 result.now.expr }
    {
        &self.exprs[e.0 as usize]
    }

    /// The node of a statement of this package.
    pub fn stmt(&self, s: StmtId) -> &StmtNode
        requires { s.0 < length self.now.stmts }
        ensures node { slice_get self.now.stmts s.0 ≡ Some result.now }
        ensures made { stmt_at (stmt_trees self.now.exprs self.now.stmts) s ≡ stmt_made (expr_trees self.now.exprs) (stmt_trees self.now.exprs self.now.stmts) result.now.stmt result.now.at }
        ensures parts { StmtParts (length self.now.exprs) s.0 result.now.stmt }
    {
        &self.stmts[s.0 as usize]
    }

    /// The declarations, in order of their files and of their places in these.
    pub fn decls(&self) -> &[DeclNode]
        ensures { result.now ≡ self.now.decls }
    {
        self.decls.as_slice()
    }

    /// A declaration of this package, by its place, from 0, among all.
    pub fn decl(&self, number: usize) -> &DeclNode
        requires { number < length self.now.decls }
        ensures node { slice_get self.now.decls number ≡ Some result.now }
        ensures parts { DeclParts (length self.now.exprs) (length self.now.stmts) result.now.decl }
    {
        &self.decls[number]
    }
}

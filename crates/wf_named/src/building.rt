// The nodes and declarations of a resolved package, as they are built and read. A node's parts stand before it, so
// a walk from a node down to its parts ends.

ghost use Rattle.std.specs.Prelude.{◌≡◌, ◌+◌, ◌<◌, ◌++◌, [], ◌∷◌, Some, length, slice_get, IfOk, OnOk, OnErr};
ghost use Rattle.wf_ast.specs.ParsedParts.{JoinsText};
ghost use Rattle.wf_named.specs.NamedParts.{NamedParts, exprs_of, stmts_of, named_package, NamedExprParts, NamedStmtParts, NamedConstBelow, NamedStructBelow, NamedMethodBelow};
ghost use Rattle.wf_named.specs.NamedTrees.{expr_made, stmt_made, const_made, struct_made, method_made, word_at, expr_at, stmt_at};

use crate::declarations::{NamedConst, NamedMethod, NamedStruct};
use crate::nodes::{NamedExprNode, NamedStmtNode};
use std::alloc::{AllocError, Global};
use std::marker::Model;
use wf_ast::parsed::Name;
use wf_ast::texts::Texts;
use wf_ast::{ExprId, StmtId, TextId};
use wf_text::add_last;

// How many numbers there are for expressions, for statements and for texts.
const NUMBERS: usize = 4294967296;

/// A package whose names are resolved, as far as it is built.
pub struct NamedNodes {
    pub(crate) package_name: Vec<u8>,
    pub(crate) texts: Texts,
    pub(crate) exprs: Vec<NamedExprNode>,
    pub(crate) stmts: Vec<NamedStmtNode>,
    pub(crate) consts: Vec<NamedConst>,
    pub(crate) statuses: Vec<Name>,
    pub(crate) structs: Vec<NamedStruct>,
    pub(crate) methods: Vec<NamedMethod>,
    pub(crate) order: Vec<u32>,
    pub(crate) struct_order: Vec<u32>,
}

impl Drop for NamedNodes {
    fn drop(self) {
        let NamedNodes {
            package_name: _,
            texts: _,
            exprs: _,
            stmts: _,
            consts: _,
            statuses: _,
            structs: _,
            methods: _,
            order: _,
            struct_order: _,
        } = self;
    }
}

/// What the typed package takes over from the resolved one.
#[derive(Drop)]
pub struct NameAndOrders {
    /// The name of the package.
    pub package_name: Vec<u8>,
    /// The order of the methods, by number.
    pub order: Vec<u32>,
    /// The order of the structs, by number.
    pub struct_order: Vec<u32>,
}

impl Model for NamedNodes {
    ghost use Rattle.wf_named.specs.NamedParts.{NamedParts, IsShaped};

    ghost Value = { NamedParts };

    ghost view = { λ p. record { package_name = p.package_name.items; texts = p.texts; exprs = p.exprs.items; stmts = p.stmts.items; consts = p.consts.items; statuses = p.statuses.items; structs = p.structs.items; methods = p.methods.items; order = p.order.items; struct_order = p.struct_order.items } };

    ghost invariant = { λ p. IsShaped (record { package_name = p.package_name.items; texts = p.texts; exprs = p.exprs.items; stmts = p.stmts.items; consts = p.consts.items; statuses = p.statuses.items; structs = p.structs.items; methods = p.methods.items; order = p.order.items; struct_order = p.struct_order.items }) };
}

impl NamedNodes {
    /// A package of this name with nothing in it.
    pub fn new(alloc: Global, package_name: &[u8]) -> Result<Self, AllocError>
        ensures { IfOk result (λ p. p ≡ record { package_name = package_name.now; texts = []; exprs = []; stmts = []; consts = []; statuses = []; structs = []; methods = []; order = []; struct_order = [] }) }
    {
        let package_name = Vec::from_slice(alloc, package_name)?;
        Ok(NamedNodes {
            package_name,
            texts: Texts::new(alloc),
            exprs: Vec::new(alloc),
            stmts: Vec::new(alloc),
            consts: Vec::new(alloc),
            statuses: Vec::new(alloc),
            structs: Vec::new(alloc),
            methods: Vec::new(alloc),
            order: Vec::new(alloc),
            struct_order: Vec::new(alloc),
        })
    }

    /// The number of `text`, which joins the package's texts at their end where it isn't among them. No tree changes.
    /// On `Err`, which also comes where no number is left, the package is as it was.
    pub fn intern(&mut self, text: &[u8]) -> Result<TextId, AllocError>
        ensures found { IfOk result (λ t. slice_get self.new.texts t.0 ≡ Some text.now) }
        ensures within { IfOk result (λ t. t.0 < length self.new.texts) }
        ensures joins { OnOk result (JoinsText self.old.texts self.new.texts text.now) }
        ensures ok { OnOk result (self.new ≡ record self.old { texts = self.new.texts }) }
        ensures stmts { OnOk result (stmts_of self.new ≡ stmts_of self.old) }
        ensures package { OnOk result (named_package self.new ≡ named_package self.old) }
        ensures err { OnErr result (self.new ≡ self.old) }
    {
        if self.texts.len() >= NUMBERS {
            return Err(AllocError);
        }
        let number = self.texts.number_of(text)?;
        Ok(number)
    }

    /// Adds an expression, whose parts are of this package. Its tree joins those of the others, and no other tree
    /// changes. On `Err`, which also comes where no number is left, the package is as it was.
    pub fn push_expr(&mut self, node: NamedExprNode) -> Result<ExprId, AllocError>
        requires parts { NamedExprParts (length self.old.exprs) node.expr }
        ensures number { IfOk result (λ e. e.0 ≡ length self.old.exprs) }
        ensures ok { OnOk result (self.new ≡ record self.old { exprs = self.old.exprs ++ node ∷ [] }) }
        ensures tree { OnOk result (exprs_of self.new ≡ exprs_of self.old ++ expr_made (exprs_of self.old) node.expr node.at ∷ []) }
        ensures made { IfOk result (λ e. expr_at (exprs_of self.new) e ≡ expr_made (exprs_of self.old) node.expr node.at) }
        ensures stmts { OnOk result (stmts_of self.new ≡ stmts_of self.old) }
        ensures package { OnOk result (named_package self.new ≡ named_package self.old) }
        ensures err { OnErr result (self.new ≡ self.old) }
    {
        let number = self.exprs.len();
        if number >= NUMBERS {
            return Err(AllocError);
        }
        add_last(&mut self.exprs, node)?;
        Ok(ExprId(number as u32))
    }

    /// Adds a statement, whose parts are of this package. Its tree joins those of the others, and no other tree
    /// changes. On `Err`, which also comes where no number is left, the package is as it was.
    pub fn push_stmt(&mut self, node: NamedStmtNode) -> Result<StmtId, AllocError>
        requires parts { NamedStmtParts (length self.old.texts) (length self.old.exprs) (length self.old.stmts) node.stmt }
        ensures number { IfOk result (λ s. s.0 ≡ length self.old.stmts) }
        ensures ok { OnOk result (self.new ≡ record self.old { stmts = self.old.stmts ++ node ∷ [] }) }
        ensures tree { OnOk result (stmts_of self.new ≡ stmts_of self.old ++ stmt_made self.old.texts (exprs_of self.old) (stmts_of self.old) node.stmt node.at ∷ []) }
        ensures made { IfOk result (λ s. stmt_at (stmts_of self.new) s ≡ stmt_made self.old.texts (exprs_of self.old) (stmts_of self.old) node.stmt node.at) }
        ensures package { OnOk result (named_package self.new ≡ named_package self.old) }
        ensures err { OnErr result (self.new ≡ self.old) }
    {
        let number = self.stmts.len();
        if number >= NUMBERS {
            return Err(AllocError);
        }
        add_last(&mut self.stmts, node)?;
        Ok(StmtId(number as u32))
    }

    /// Adds a constant. On `Err` the package is as it was.
    pub fn push_const(&mut self, constant: NamedConst) -> Result<(), AllocError>
        requires parts { NamedConstBelow (length self.old.texts) (length self.old.exprs) constant }
        ensures ok { OnOk result (self.new ≡ record self.old { consts = self.old.consts ++ constant ∷ [] }) }
        ensures package { OnOk result (named_package self.new ≡ record (named_package self.old) { consts = (named_package self.old).consts ++ const_made self.old.texts (exprs_of self.old) constant ∷ [] }) }
        ensures err { OnErr result (self.new ≡ self.old) }
    {
        self.consts.push(constant)?;
        Ok(())
    }

    /// Adds a status of the package by its text. On `Err` the package is as it was.
    pub fn push_status(&mut self, text: Name) -> Result<(), AllocError>
        requires parts { text.text.0 < length self.old.texts }
        ensures ok { OnOk result (self.new ≡ record self.old { statuses = self.old.statuses ++ text ∷ [] }) }
        ensures package { OnOk result (named_package self.new ≡ record (named_package self.old) { statuses = (named_package self.old).statuses ++ word_at self.old.texts text ∷ [] }) }
        ensures err { OnErr result (self.new ≡ self.old) }
    {
        self.statuses.push(text)?;
        Ok(())
    }

    /// Adds a struct. On `Err` the package is as it was.
    pub fn push_struct(&mut self, structure: NamedStruct) -> Result<(), AllocError>
        requires parts { NamedStructBelow (length self.old.texts) (length self.old.exprs) structure }
        ensures ok { OnOk result (self.new ≡ record self.old { structs = self.old.structs ++ structure ∷ [] }) }
        ensures package { OnOk result (named_package self.new ≡ record (named_package self.old) { structs = (named_package self.old).structs ++ struct_made self.old.texts (exprs_of self.old) structure ∷ [] }) }
        ensures err { OnErr result (self.new ≡ self.old) }
    {
        self.structs.push(structure)?;
        Ok(())
    }

    /// Adds a method with its body. On `Err` the package is as it was.
    pub fn push_method(&mut self, method: NamedMethod) -> Result<(), AllocError>
        requires parts { NamedMethodBelow (length self.old.texts) (length self.old.exprs) (length self.old.stmts) method }
        ensures ok { OnOk result (self.new ≡ record self.old { methods = self.old.methods ++ method ∷ [] }) }
        ensures package { OnOk result (named_package self.new ≡ record (named_package self.old) { methods = (named_package self.old).methods ++ method_made self.old.texts (exprs_of self.old) (stmts_of self.old) method ∷ [] }) }
        ensures err { OnErr result (self.new ≡ self.old) }
    {
        add_last(&mut self.methods, method)?;
        Ok(())
    }

    /// Takes an order of the methods, by number, in place of the one that was there.
    pub fn set_order(&mut self, order: Vec<u32>)
        ensures set { self.new ≡ record self.old { order = order.items } }
        ensures package { named_package self.new ≡ record (named_package self.old) { order = order.items } }
    {
        self.order = order;
    }

    /// Takes an order of the structs, by number, in place of the one that was there.
    pub fn set_struct_order(&mut self, struct_order: Vec<u32>)
        ensures set { self.new ≡ record self.old { struct_order = struct_order.items } }
        ensures package { named_package self.new ≡ record (named_package self.old) { struct_order = struct_order.items } }
    {
        self.struct_order = struct_order;
    }

    /// The package's name and its orders. All else is given up.
    pub fn into_name_and_orders(self) -> NameAndOrders
        ensures name { result.package_name.items ≡ self.package_name }
        ensures order { result.order.items ≡ self.order }
        ensures structs { result.struct_order.items ≡ self.struct_order }
    {
        let NamedNodes {
            package_name,
            texts: _,
            exprs: _,
            stmts: _,
            consts: _,
            statuses: _,
            structs: _,
            methods: _,
            order,
            struct_order,
        } = self;
        NameAndOrders {
            package_name,
            order,
            struct_order,
        }
    }
}

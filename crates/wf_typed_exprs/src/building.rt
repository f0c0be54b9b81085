// The nodes of a typed package, as they are built. A node's parts stand before it.

ghost use Rattle.std.specs.Prelude.{◌≡◌, ◌<◌, ◌++◌, [], ◌∷◌, true, length, IfOk, OnOk, OnErr};
ghost use Rattle.wf_ast.specs.TypedTrees.{tree_of, made_or_number, type_of_node, constant_of_node};
ghost use Rattle.wf_ast.specs.TypedInvariant.{parts_below, node_fits};
ghost use Rattle.wf_typed_exprs.specs.Growth.{Grows, IsBuilt, AddsEntries, entry_made};

use crate::columns::Columns;
use crate::typed_exprs::TypedExpr;
use std::alloc::{AllocError, Global};
use std::marker::Model;
use wf_ast::{ExprId, TypedNodes};

// How many expressions a typed package may have.
const NUMBERS: usize = 4294967295;

/// A typed package, as far as it is built.
#[derive(Drop)]
pub struct Building {
    rest: TypedNodes,
    columns: Columns,
}

impl Model for Building {
    ghost use Rattle.wf_ast.specs.declared.typed_nodes.TypedNodes.{TypedNodes};
    ghost use Rattle.wf_typed_exprs.specs.Growth.{IsBuilt, with_columns};

    ghost Value = { TypedNodes };

    ghost view = { λ b. with_columns b.rest b.columns };

    ghost invariant = { λ b. IsBuilt (with_columns b.rest b.columns) };
}

impl Building {
    /// The package with what is declared there, and no expression yet. The statements and bodies of `declared` stay.
    pub fn new(alloc: Global, declared: TypedNodes) -> Self
        ensures { result ≡ record declared { exprs = []; types = []; constants = [] } }
    {
        Building {
            rest: declared,
            columns: Columns::new(alloc),
        }
    }

    /// Makes room for so many expressions more. On `Err`, too, the package is as it was.
    pub fn reserve(&mut self, exprs: usize) -> Result<(), AllocError>
        ensures { self.new ≡ self.old }
    {
        self.columns.reserve(exprs)
    }

    /// Adds an expression, whose parts are of this package and of the kinds that it wants. Its tree joins those of the
    /// others, and no other tree changes. On `Err`, which also comes where no number is left, the package is as it was.
    pub fn push_expr(&mut self, one: TypedExpr) -> Result<ExprId, AllocError>
        requires below { parts_below (length self.old.exprs) one.node.expr ≡ true }
        requires fits { node_fits self.old one.ty one.constant one.node.expr ≡ true }
        ensures number { IfOk result (λ e. e.0 ≡ length self.old.exprs) }
        ensures ok { OnOk result (self.new ≡ record self.old { exprs = self.old.exprs ++ one.node ∷ []; types = self.old.types ++ one.ty ∷ []; constants = self.old.constants ++ one.constant ∷ [] }) }
        ensures grows { OnOk result (Grows self.old self.new) }
        ensures adds { OnOk result (AddsEntries self.old self.new (entry_made one ∷ [])) }
        ensures made { IfOk result (λ e. tree_of self.new e ≡ made_or_number (tree_of self.old) one.node.at one.node.signs one.ty one.constant one.node.expr) }
        ensures there { IfOk result (λ e. e.0 < length self.new.exprs) }
        ensures typed { IfOk result (λ e. type_of_node self.new e.0 ≡ one.ty) }
        ensures counted { IfOk result (λ e. constant_of_node self.new e.0 ≡ one.constant) }
        ensures err { OnErr result (self.new ≡ self.old) }
    {
        let number = self.columns.len();
        if number >= NUMBERS {
            return Err(AllocError);
        }
        self.columns.push(one)?;
        Ok(ExprId(number as u32))
    }

    /// The number of the expression that is added next.
    pub fn next_expr(&self) -> ExprId
        ensures { result.0 ≡ length self.now.exprs }
    {
        ExprId(self.columns.len() as u32)
    }

    /// The package that is built.
    pub fn finish(self) -> TypedNodes
        ensures nodes { result ≡ self }
        ensures built { IsBuilt result }
    {
        self.columns.join(self.rest)
    }
}

// The unit that is made, with the values of what is read so far.

ghost use Rattle.std.specs.Prelude.{◌≡◌, ◌<◌, ◌∷◌, ◌++◌, [], false, true, length, OnOk};
ghost use Rattle.c_text.specs.CFits.{FitsExpr, FitsItem};
ghost use Rattle.c_text.specs.CNodes.{expr_of, made_expr, made_item, unit_tree};
ghost use Rattle.c_read_grammar.specs.Values.{an_expr, a_unit, perform};
ghost use Rattle.c_read_nodes.specs.Makers.{made, IsFit, Grew};
ghost use Rattle.c_read_nodes.specs.Seen.{ProductFits, made_with};
ghost use Rattle.c_read_nodes.specs.Shapes.{is_plain};

use crate::conditions::meets;
use crate::making::make;
use crate::shapes::{is_plain, takes};
use crate::values::{Product, SemanticValue};
use c_read_grammar::{Action, ExprAction, StmtAction};
use c_text::{CExpr, CItem, Unit};
use stacks::{Stack, fits};
use std::alloc::Global;
use wf_text::NoMemory;

/// A unit whose nodes are made of values on a stack.
#[derive(Drop)]
pub struct Maker {
    pub alloc: Global,
    pub unit: Unit,
    pub values: Stack<SemanticValue>,
}

impl Maker {
    /// Adds an expression to the unit, and puts it on the stack.
    pub(crate) fn put_expr(&mut self, x: CExpr) -> Result<(), NoMemory>
        requires fit { IsFit self.old }
        requires parts { FitsExpr self.old.unit (length self.old.unit.exprs) x }
        ensures made { OnOk result (made self.new ≡ an_expr (made_expr self.old.unit.names (expr_of self.old.unit) x) ∷ made self.old) }
        ensures fit { OnOk result (IsFit self.new) }
        ensures grows { OnOk result (Grew self.old.unit self.new.unit) }
    {
        self.unit.is_sound();
        let e = self.unit.add_expr(x)?;
        self.values.push(SemanticValue::Expr(e))
    }

    /// Adds an item to the unit, and puts the unit back on the stack.
    fn put_item(&mut self, x: CItem) -> Result<(), NoMemory>
        requires empty { self.old.values ≡ [] }
        requires parts { FitsItem self.old.unit x }
        ensures made { OnOk result (made self.new ≡ a_unit (unit_tree self.old.unit ++ made_item self.old.unit x ∷ []) ∷ []) }
        ensures fit { OnOk result (IsFit self.new) }
    {
        let _item = self.unit.add_item(x)?;
        self.values.push(SemanticValue::Unit)
    }

    /// Puts what was made into the unit, and on the stack what stands for it.
    fn put(&mut self, product: Product) -> Result<(), NoMemory>
        requires fit { IsFit self.old }
        requires parts { ProductFits self.old.unit self.old.values product }
        ensures made { OnOk result (made self.new ≡ made_with self.old.unit product (made self.old)) }
        ensures fit { OnOk result (IsFit self.new) }
    {
        match product {
            Product::Value(value) => self.values.push(value),
            Product::Expr(x) => self.put_expr(x),
            Product::Item(x) => self.put_item(x),
        }
    }

    /// Performs an action that takes a fixed number of values. Where the topmost values are others than it takes,
    /// none are left; the grammar's machine never comes to that.
    fn perform_plain(&mut self, action: Action) -> Result<(), NoMemory>
        requires fit { IsFit self.old }
        requires plain { is_plain action ≡ true }
        ensures made { OnOk result (made self.new ≡ perform action (made self.old)) }
        ensures fit { OnOk result (IsFit self.new) }
    {
        if !fits(takes(action), &self.values) {
            self.values.clear();
            return Ok(());
        }
        if !meets(&self.unit, action, &self.values) {
            self.values.clear();
            return Ok(());
        }
        let product = make(self.alloc, action, &mut self.values)?;
        self.put(product)
    }

    /// Performs another action.
    fn perform_special(&mut self, action: Action) -> Result<(), NoMemory>
        requires fit { IsFit self.old }
        requires special { is_plain action ≡ false }
        ensures made { OnOk result (made self.new ≡ perform action (made self.old)) }
        ensures fit { OnOk result (IsFit self.new) }
    {
        match action {
            Action::Stmt(StmtAction::EndBlock) => self.end_block(),
            Action::Stmt(StmtAction::MakeIf) => self.make_if(),
            Action::Expr(ExprAction::MakeVariableBelow) => self.make_variable_below(),
            _ => unreachable!(),
        }
    }

    /// Performs an action.
    pub fn perform(&mut self, action: Action) -> Result<(), NoMemory>
        requires fit { IsFit self.old }
        ensures made { OnOk result (made self.new ≡ perform action (made self.old)) }
        ensures fit { OnOk result (IsFit self.new) }
    {
        if is_plain(action) {
            self.perform_plain(action)
        } else {
            self.perform_special(action)
        }
    }
}

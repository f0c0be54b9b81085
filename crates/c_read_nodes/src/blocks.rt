// The actions that take as many values as there are: the end of a block, and a whole `if`; and the one that leaves
// the topmost value where it is.

ghost use Rattle.std.specs.Prelude.{◌≡◌, ◌<◌, ◌&&◌, ◌∷◌, [], true, false, length, OnOk, IfOk};
ghost use Rattle.c_text.specs.CGrammar.{is_finish, FitsElse};
ghost use Rattle.c_text.specs.CNodes.{expr_of, code_of};
ghost use Rattle.c_text.specs.CTree.{finish, branch};
ghost use Rattle.c_text.specs.declared.kinds.Otherwise.TheVariants as else_is;
ghost use Rattle.c_read_grammar.specs.Values.{collect, chain, last_arm, make_if, perform_expr};
ghost use Rattle.c_read_grammar.specs.declared.actions.ExprAction.TheVariants as does;
ghost use Rattle.c_read_nodes.specs.Makers.{made, IsFit, Grew};
ghost use Rattle.c_read_nodes.specs.Shapes.{fits};
ghost use Rattle.c_read_nodes.specs.Statements.{is_label, code_with, StatementFits};
ghost use Rattle.c_read_nodes.specs.declared.shapes.Shape.TheVariants as shapes;
ghost use Rattle.c_read_nodes.specs.declared.statements.Statement.TheVariants as says;

use crate::maker::Maker;
use crate::pops::{pop_arm, pop_block, pop_code, pop_name, pop_statement};
use crate::shapes::Shape;
use crate::statements::{Branch, Statement};
use crate::values::{Arm, SemanticValue};
use c_text::{CExpr, CStmt, CStmtId, Otherwise};
use stacks::fits;
use wf_text::NoMemory;

/// Whether a label would have no statement after it.
fn is_bare(is_empty: bool, s: &Statement) -> bool
    ensures { result ≡ (is_label s.now && is_empty) }
{
    s.is_label() && is_empty
}

impl Maker {
    /// An empty block.
    fn nothing(&mut self) -> Result<CStmtId, NoMemory>
        requires fit { IsFit self.old }
        ensures code { IfOk result (λ s. (s.0 < length self.new.unit.stmts) × (code_of self.new.unit s.0 ≡ finish)) }
        ensures made { OnOk result (made self.new ≡ made self.old) }
        ensures fit { OnOk result (IsFit self.new) }
        ensures grows { OnOk result (Grew self.old.unit self.new.unit) }
        ensures values { OnOk result (self.new.values ≡ self.old.values) }
    {
        self.unit.is_sound();
        let code = self.unit.add_stmt(CStmt::End)?;
        Ok(code)
    }

    /// A statement before a block.
    fn in_front(&mut self, s: Statement, code: CStmtId) -> Result<CStmtId, NoMemory>
        requires fit { IsFit self.old }
        requires parts { StatementFits self.old.unit s }
        requires below { code.0 < length self.old.unit.stmts }
        requires follows { (is_label s && is_finish (code_of self.old.unit code.0)) ≡ false }
        ensures code { IfOk result (λ r. (r.0 < length self.new.unit.stmts) × (code_of self.new.unit r.0 ≡ code_with self.old.unit s (code_of self.old.unit code.0))) }
        ensures made { OnOk result (made self.new ≡ made self.old) }
        ensures fit { OnOk result (IsFit self.new) }
        ensures grows { OnOk result (Grew self.old.unit self.new.unit) }
        ensures values { OnOk result (self.new.values ≡ self.old.values) }
    {
        self.unit.is_sound();
        let whole = self.unit.add_stmt(s.followed_by(code))?;
        Ok(whole)
    }

    /// A block of the statements on top of the stack, the last of which is topmost.
    pub(crate) fn end_block(&mut self) -> Result<(), NoMemory>
        requires fit { IsFit self.old }
        ensures made { OnOk result (made self.new ≡ collect finish (made self.old)) }
        ensures fit { OnOk result (IsFit self.new) }
    {
        let mut code = self.nothing()?;
        let mut is_empty = true;
        while fits(&[Shape::Statement], &self.values) {
            let s = pop_statement(&mut self.values);
            if is_bare(is_empty, &s) {
                self.values.clear();
                return Ok(());
            }
            code = self.in_front(s, code)?;
            is_empty = false;
        }
        self.close_block(code)
    }

    /// The block, in place of its beginning on top of the stack.
    fn close_block(&mut self, code: CStmtId) -> Result<(), NoMemory>
        requires fit { IsFit self.old }
        requires below { code.0 < length self.old.unit.stmts }
        requires top { fits (shapes.Statement ∷ []) self.old.values ≡ false }
        ensures made { OnOk result (made self.new ≡ collect (code_of self.old.unit code.0) (made self.old)) }
        ensures fit { OnOk result (IsFit self.new) }
    {
        if fits(&[Shape::Block], &self.values) {
            pop_block(&mut self.values);
            return self.values.push(SemanticValue::Code(code));
        }
        if fits(&[Shape::Locals], &self.values) {
            return self.values.push(SemanticValue::Code(code));
        }
        self.values.clear();
        Ok(())
    }

    /// A whole `if`, of its arms, and of the block of an `else` where that is on top.
    pub(crate) fn make_if(&mut self) -> Result<(), NoMemory>
        requires fit { IsFit self.old }
        ensures made { OnOk result (made self.new ≡ make_if (made self.old)) }
        ensures fit { OnOk result (IsFit self.new) }
    {
        if fits(&[Shape::Code], &self.values) {
            let other = pop_code(&mut self.values);
            self.last_arm(Otherwise::Block, other)
        } else {
            let none = self.nothing()?;
            self.last_arm(Otherwise::Nothing, none)
        }
    }

    /// An `if` of the arms on top of the stack, of which there is one at least.
    fn last_arm(&mut self, otherwise: Otherwise, other: CStmtId) -> Result<(), NoMemory>
        requires fit { IsFit self.old }
        requires below { other.0 < length self.old.unit.stmts }
        requires lawful { FitsElse otherwise (code_of self.old.unit other.0) }
        ensures made { OnOk result (made self.new ≡ last_arm otherwise (code_of self.old.unit other.0) (made self.old)) }
        ensures fit { OnOk result (IsFit self.new) }
    {
        if !fits(&[Shape::Arm], &self.values) {
            self.values.clear();
            return Ok(());
        }
        let arm = pop_arm(&mut self.values);
        self.chain(Branch {
            test: arm.test,
            body: arm.body,
            otherwise,
            other,
        })
    }

    /// The `if` of an arm, where the `if` of the arms after it is `later`.
    fn with_arm(&mut self, later: Branch, arm: Arm) -> Result<Branch, NoMemory>
        requires fit { IsFit self.old }
        requires parts { StatementFits self.old.unit (says.If later) }
        requires test { arm.test.0 < length self.old.unit.exprs }
        requires body { arm.body.0 < length self.old.unit.stmts }
        ensures parts { IfOk result (λ b. StatementFits self.new.unit (says.If b)) }
        ensures code { IfOk result (λ b. code_with self.new.unit (says.If b) finish ≡ branch (expr_of self.old.unit arm.test.0) (code_of self.old.unit arm.body.0) else_is.If (code_with self.old.unit (says.If later) finish) finish) }
        ensures made { OnOk result (made self.new ≡ made self.old) }
        ensures fit { OnOk result (IsFit self.new) }
        ensures values { OnOk result (self.new.values ≡ self.old.values) }
    {
        let end = self.nothing()?;
        let other = self.in_front(Statement::If(later), end)?;
        Ok(Branch {
            test: arm.test,
            body: arm.body,
            otherwise: Otherwise::If,
            other,
        })
    }

    /// The `if` of the arms on top of the stack, where `last` stands after them.
    fn chain(&mut self, last: Branch) -> Result<(), NoMemory>
        requires fit { IsFit self.old }
        requires parts { StatementFits self.old.unit (says.If last) }
        ensures made { OnOk result (made self.new ≡ chain (code_with self.old.unit (says.If last) finish) (made self.old)) }
        ensures fit { OnOk result (IsFit self.new) }
    {
        let mut later = last;
        while fits(&[Shape::Arm], &self.values) {
            let arm = pop_arm(&mut self.values);
            later = self.with_arm(later, arm)?;
        }
        self.values
            .push(SemanticValue::Statement(Statement::If(later)))
    }

    /// A variable of the name below the topmost value.
    pub(crate) fn make_variable_below(&mut self) -> Result<(), NoMemory>
        requires fit { IsFit self.old }
        ensures made { OnOk result (made self.new ≡ perform_expr does.MakeVariableBelow (made self.old)) }
        ensures fit { OnOk result (IsFit self.new) }
    {
        let Some(top) = self.values.pop() else {
            return Ok(());
        };
        if !fits(&[Shape::Name], &self.values) {
            self.values.clear();
            return Ok(());
        }
        let name = pop_name(&mut self.values);
        self.put_expr(CExpr::Name(name))?;
        self.values.push(top)
    }
}

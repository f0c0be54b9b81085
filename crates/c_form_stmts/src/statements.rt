// One statement of a function against the names and types that it may use (ISO/IEC 9899:1999, 6.8).

ghost use Rattle.std.specs.Prelude.{◌≡◌, ◌<◌, length, map, drop, is_some, Some, IfOk, IfSome};
ghost use Rattle.c_text.specs.CNodes.{bytes_at, type_in, value_in, expr_of};
ghost use Rattle.c_text.specs.CFits.{HasName, HasType};
ghost use Rattle.c_meaning.specs.CTypes.{one, type_of as expr_type, held_of as expr_held};
ghost use Rattle.c_meaning.specs.UnitForm.{is_number as is_number_type, may_assign, may_loop as may_loop_linkage, formed_return};
ghost use Rattle.c_form_exprs.specs.Front.{scope_in};
ghost use Rattle.c_form_exprs.specs.Tables.{named};
ghost use Rattle.c_form_stmts.specs.Lines.{line_in, HasLine, HasLines};
ghost use Rattle.c_form_stmts.specs.Statements.{checked_in, goes_to, formed_line, formed_lines, TellsCell};

use crate::cases::has_formed_cases;
use crate::lines::Line;
use c_form_exprs::{CScope, Held, SpellingTable};
use c_text::{CExprId, CNameId, CStmt, CType, Linkage};
use std::marker::Model;
use wf_text::NoMemory;

/// What the statements of a function are checked against.
pub(crate) struct Frame<'c, 'k, 'u> {
    /// The names that the function may use.
    pub scope: &'c CScope<'k, 'u>,
    /// Where the function can be called from.
    pub linkage: Linkage,
    /// The type of the result; none for `void`.
    pub result_type: Option<CType>,
    /// The labels with the numbers of their statements.
    pub labels: SpellingTable<'u, usize>,
}

impl<'c, 'k, 'u> Drop for Frame<'c, 'k, 'u> {
    fn drop(self) {
        let Frame {
            scope: _,
            linkage: _,
            result_type: _,
            labels: _,
        } = self;
    }
}

impl<'c, 'k, 'u> Model for Frame<'c, 'k, 'u> {
    ghost use Rattle.c_form_stmts.specs.Statements.{Frame};

    ghost Value = { Frame };

    ghost view = { λ it. record { within = it.scope.now; linkage = it.linkage; result_type = it.result_type; labels = it.labels } };
}

impl<'c, 'k, 'u> Frame<'c, 'k, 'u> {
    /// Whether an expression has a type.
    fn has_type(&self, e: CExprId) -> Result<bool, NoMemory>
        requires { e.0 < length self.now.within.front.nodes.exprs }
        ensures { IfOk result (λ has. has ≡ is_some (expr_type (scope_in self.now.within) (expr_of self.now.within.front.nodes e.0))) }
    {
        match self.scope.type_of(e)? {
            Some(_) => Ok(true),
            None => Ok(false),
        }
    }

    /// Whether an expression is a number.
    fn is_number(&self, e: CExprId) -> Result<bool, NoMemory>
        requires { e.0 < length self.now.within.front.nodes.exprs }
        ensures { IfOk result (λ is. is ≡ is_number_type (expr_type (scope_in self.now.within) (expr_of self.now.within.front.nodes e.0))) }
    {
        match self.scope.type_of(e)? {
            Some(ty) => match self.scope.as_number(ty) {
                Some(_) => Ok(true),
                None => Ok(false),
            },
            None => Ok(false),
        }
    }

    /// Whether the value of an expression may go to a cell of this type (6.5.16.1).
    pub(crate) fn may_go(&self, to: CType, e: CExprId) -> Result<bool, NoMemory>
        requires to { HasType self.now.within.front.nodes to }
        requires has { e.0 < length self.now.within.front.nodes.exprs }
        ensures { IfOk result (λ may. may ≡ may_assign (Some (one (type_in self.now.within.front.nodes.names to))) (expr_type (scope_in self.now.within) (expr_of self.now.within.front.nodes e.0))) }
    {
        match self.scope.type_of(e)? {
            Some(ty) => Ok(self.scope.is_assignable(to, ty)),
            None => Ok(false),
        }
    }

    /// The type of the cell that an lvalue stands for; None where it stands for none that is assigned.
    pub(crate) fn cell_type(&self, target: CExprId) -> Result<Option<CType>, NoMemory>
        requires { target.0 < length self.now.within.front.nodes.exprs }
        ensures { IfOk result (λ cell. TellsCell self.now.within.front.nodes cell (expr_held (scope_in self.now.within) (expr_of self.now.within.front.nodes target.0))) }
    {
        match self.scope.held_of(target)? {
            Some(Held::One(ty)) => Ok(Some(ty)),
            Some(Held::Fixed(_)) => Ok(None),
            Some(Held::Many(_)) => Ok(None),
            Some(Held::Inner(_)) => Ok(None),
            Some(Held::Character) => Ok(None),
            Some(Held::Characters) => Ok(None),
            None => Ok(None),
        }
    }

    /// Whether `target = value` is formed (6.5.16).
    fn is_assignment(&self, target: CExprId, value: CExprId) -> Result<bool, NoMemory>
        requires target { target.0 < length self.now.within.front.nodes.exprs }
        requires value { value.0 < length self.now.within.front.nodes.exprs }
        ensures { IfOk result (λ formed. formed ≡ may_assign (expr_held (scope_in self.now.within) (expr_of self.now.within.front.nodes target.0)) (expr_type (scope_in self.now.within) (expr_of self.now.within.front.nodes value.0))) }
    {
        match self.cell_type(target)? {
            Some(ty) => self.may_go(ty, value),
            None => Ok(false),
        }
    }

    /// Whether a `while`, and a `goto` that goes back, may stand in the function.
    fn may_loop(&self) -> bool
        ensures { result ≡ may_loop_linkage self.now.linkage }
    {
        match self.linkage {
            Linkage::Static => true,
            Linkage::External | Linkage::StaticInline => false,
        }
    }

    /// Whether a `goto` in the statement with number `i` goes to a label that it may go to (6.8.6.1).
    fn is_goto(&self, i: usize, label: CNameId) -> bool
        requires { HasName self.now.within.front.nodes label }
        ensures { result ≡ goes_to self.now.linkage i (named self.now.labels (bytes_at self.now.within.front.nodes.names label.0)) }
    {
        match self.labels.get(self.scope.unit().name(label)) {
            Some(j) => self.may_loop() || i < j,
            None => false,
        }
    }

    /// Whether a `return` is formed (6.8.6.4p1).
    fn is_return(&self, value: Option<CExprId>) -> Result<bool, NoMemory>
        requires value { IfSome value (λ e. e.0 < length self.now.within.front.nodes.exprs) }
        requires result_type { IfSome self.now.result_type (HasType self.now.within.front.nodes) }
        ensures { IfOk result (λ formed. formed ≡ formed_return (checked_in self.now) (value_in (expr_of self.now.within.front.nodes) value) (checked_in self.now).result_type) }
    {
        match (value, self.result_type) {
            (None, None) => Ok(true),
            (Some(e), Some(ty)) => self.may_go(ty, e),
            (None, Some(_)) => Ok(false),
            (Some(_), None) => Ok(false),
        }
    }

    /// Whether a statement is formed; `i` is its number.
    fn is_formed_line(&self, i: usize, at: Line) -> Result<bool, NoMemory>
        requires at { HasLine self.now.within.front.nodes at }
        requires result_type { IfSome self.now.result_type (HasType self.now.within.front.nodes) }
        ensures { IfOk result (λ formed. formed ≡ formed_line (checked_in self.now) (named self.now.labels) i (line_in self.now.within.front.nodes at)) }
    {
        let unit = self.scope.unit();
        match unit.stmt(at.stmt) {
            CStmt::End => Ok(true),
            CStmt::Block { .. } => Ok(true),
            CStmt::Empty { .. } => Ok(true),
            CStmt::Assign { target, value, .. } => self.is_assignment(*target, *value),
            CStmt::Call { target, call, .. } => self.is_call(*target, call),
            CStmt::Goto { label, .. } => Ok(self.is_goto(i, *label)),
            CStmt::If { test, .. } => self.has_type(*test),
            CStmt::While { test, .. } => {
                if self.may_loop() {
                    self.has_type(*test)
                } else {
                    Ok(false)
                }
            }
            CStmt::Switch { on, body, .. } => {
                if self.is_number(*on)? {
                    has_formed_cases(self.scope.alloc(), unit, *body)
                } else {
                    Ok(false)
                }
            }
            CStmt::Return { value, .. } => self.is_return(*value),
            CStmt::Case { .. } => Ok(at.switched),
            CStmt::Default { .. } => Ok(at.switched),
            CStmt::Label { .. } => Ok(true),
        }
    }

    /// Whether all statements of a body are formed.
    pub(crate) fn are_formed(&self, lines: &[Line]) -> Result<bool, NoMemory>
        requires lines { HasLines self.now.within.front.nodes lines.now }
        requires result_type { IfSome self.now.result_type (HasType self.now.within.front.nodes) }
        ensures { IfOk result (λ formed. formed ≡ formed_lines (checked_in self.now) (named self.now.labels) 0 (map (line_in self.now.within.front.nodes) lines.now)) }
    {
        let mut i = 0;
        while i < lines.len() {
            if !self.is_formed_line(i, lines[i])? {
                return Ok(false);
            }
            i += 1;
        }
        Ok(true)
    }
}

// The type of an expression, and what an lvalue stands for (ISO/IEC 9899:1999, 6.5). What no bracket bounds, as
// `a->b->b` and the operands of a repeated operator, is gone through in loops; the rest is recursion.

ghost use Rattle.std.specs.Prelude.{◌≡◌, ◌≤◌, ◌<◌, length, map, Some, None, option_map, IfOk, IfSome};
ghost use Rattle.c_text.specs.CTree.{ExprTree, choice as choice_tree, operation as operation_tree};
ghost use Rattle.c_text.specs.CNodes.{bytes_at, expr_of, operands_in, args_in, param_tree};
ghost use Rattle.c_text.specs.CFits.{HasExprs, HasArg, HasArgs, HasCall, HasParam, HasParams};
ghost use Rattle.c_meaning.specs.CTypes.{type_of as expr_type, held_of as expr_held, operand_types, operations_type, arg_types, passable, called_type, function_named, unary_type};
ghost use Rattle.c_form_exprs.specs.Front.{scope_in};
ghost use Rattle.c_form_exprs.specs.Spines.{Climbs, link_of, fits_type, arg_type};
ghost use Rattle.c_form_exprs.specs.TypeViews.{TellsType, TellsHeld, value_in, HasValue};

use crate::scope::CScope;
use crate::types::{ExprType, Held};
use c_text::{CArg, CCall, CExpr, CExprId, COp, CParam, CUnary};
use wf_num::CTy;
use wf_text::NoMemory;

impl<'k, 'u> CScope<'k, 'u> {
    /// The type of an expression; None where it has none.
    #[cycle(expr_types)]
    pub fn type_of(&self, e: CExprId) -> Result<Option<ExprType>, NoMemory>
        requires { e.0 < length self.now.front.nodes.exprs }
        ensures { IfOk result (λ ty. TellsType self.now.front.nodes ty (expr_type (scope_in self.now) (expr_of self.now.front.nodes e.0))) }
    {
        let (links, base) = self.spine(e)?;
        let found = self.base_type(base)?;
        self.climb(e, links, found)
    }

    /// The type of an expression whose links are left, by the type of what they lead to.
    #[cycle(expr_types)]
    fn climb(
        &self,
        e: CExprId,
        links: Vec<CExprId>,
        base: Option<ExprType>,
    ) -> Result<Option<ExprType>, NoMemory>
        requires within { e.0 < length self.now.front.nodes.exprs }
        requires climbs { Climbs self.now.front.nodes (scope_in self.now) e links.items base }
        ensures { IfOk result (λ ty. TellsType self.now.front.nodes ty (expr_type (scope_in self.now) (expr_of self.now.front.nodes e.0))) }
    {
        let mut links = links;
        let mut found = base;
        while let Some(link) = links.pop() {
            let held = self.linked(link, found)?;
            found = self.held_value(held);
        }
        Ok(found)
    }

    /// What `of->field` or `of[at]` stands for, by the type of `of`.
    #[cycle(expr_types)]
    fn linked(&self, e: CExprId, of: Option<ExprType>) -> Result<Option<Held>, NoMemory>
        requires within { e.0 < length self.now.front.nodes.exprs }
        requires has { IfSome of (HasValue self.now.front.nodes) }
        ensures { IfOk result (λ held. (front : ExprTree) → link_of (expr_of self.now.front.nodes e.0) ≡ Some front → option_map (value_in self.now.front.nodes.names) of ≡ expr_type (scope_in self.now) front → TellsHeld self.now.front.nodes held (expr_held (scope_in self.now) (expr_of self.now.front.nodes e.0))) }
    {
        match self.expr(e) {
            CExpr::Member { field, .. } => Ok(self.member(of, *field)),
            CExpr::Index { at, .. } => {
                let index = self.type_of(*at)?;
                Ok(self.element(of, index))
            }
            _ => Ok(None),
        }
    }

    /// The type of an expression before which no other stands.
    #[cycle(expr_types)]
    fn base_type(&self, e: CExprId) -> Result<Option<ExprType>, NoMemory>
        requires within { e.0 < length self.now.front.nodes.exprs }
        requires base { link_of (expr_of self.now.front.nodes e.0) ≡ None }
        ensures { IfOk result (λ ty. TellsType self.now.front.nodes ty (expr_type (scope_in self.now) (expr_of self.now.front.nodes e.0))) }
    {
        match self.expr(e) {
            CExpr::Number(n) => Ok(Some(self.literal_type(*n))),
            CExpr::Name(name) => Ok(self.held_value(self.variable(*name))),
            CExpr::Member { .. } | CExpr::Index { .. } => unreachable!(),
            CExpr::Deref(of) => {
                let pointer = self.type_of(*of)?;
                Ok(self.held_value(self.pointed(pointer)))
            }
            CExpr::Operation {
                op,
                first,
                second,
                others,
            } => self.operation(e.0, *op, (*first, *second), others.as_slice()),
            CExpr::Unary { op, of } => self.unary(*op, *of),
            CExpr::Cast { to, of } => match self.type_of(*of)? {
                Some(ty) => Ok(self.cast(*to, ty)),
                None => Ok(None),
            },
            CExpr::Choice { test, met, unmet } => self.choice(e.0, (*test, *met, *unmet)),
            CExpr::Call(call) => self.call(e.0, call),
        }
    }

    /// What an lvalue stands for; None for what isn't one, and for one that the subset doesn't allow.
    #[cycle(expr_types)]
    pub fn held_of(&self, e: CExprId) -> Result<Option<Held>, NoMemory>
        requires { e.0 < length self.now.front.nodes.exprs }
        ensures { IfOk result (λ held. TellsHeld self.now.front.nodes held (expr_held (scope_in self.now) (expr_of self.now.front.nodes e.0))) }
    {
        match self.expr(e) {
            CExpr::Name(name) => Ok(self.variable(*name)),
            CExpr::Deref(of) => {
                let pointer = self.type_of(*of)?;
                Ok(self.pointed(pointer))
            }
            CExpr::Member { of, .. } => {
                let ty = self.type_of(*of)?;
                self.linked(e, ty)
            }
            CExpr::Index { of, .. } => {
                let ty = self.type_of(*of)?;
                self.linked(e, ty)
            }
            CExpr::Number(_) => Ok(None),
            CExpr::Operation { .. } => Ok(None),
            CExpr::Unary { .. } => Ok(None),
            CExpr::Cast { .. } => Ok(None),
            CExpr::Choice { .. } => Ok(None),
            CExpr::Call(_) => Ok(None),
        }
    }

    /// The type of `!of`, `~of` or `&of` (6.5.3.2, 6.5.3.3).
    #[cycle(expr_types)]
    fn unary(&self, op: CUnary, of: CExprId) -> Result<Option<ExprType>, NoMemory>
        requires { of.0 < length self.now.front.nodes.exprs }
        ensures { IfOk result (λ ty. TellsType self.now.front.nodes ty (unary_type op (expr_type (scope_in self.now) (expr_of self.now.front.nodes of.0)) (expr_held (scope_in self.now) (expr_of self.now.front.nodes of.0)))) }
    {
        match op {
            CUnary::Not => match self.type_of(of)? {
                Some(_) => Ok(Some(ExprType::Numbers(CTy::Int))),
                None => Ok(None),
            },
            CUnary::Complement => {
                let ty = self.type_of(of)?;
                Ok(self.complement(ty))
            }
            CUnary::Address => match self.held_of(of)? {
                Some(held) => Ok(self.address_of(held)),
                None => Ok(None),
            },
        }
    }

    /// The type of `test ? met : unmet`, whose parts have numbers below `below`.
    #[cycle(expr_types)]
    fn choice(
        &self,
        below: usize,
        parts: (CExprId, CExprId, CExprId),
    ) -> Result<Option<ExprType>, NoMemory>
        requires below { below ≤ length self.now.front.nodes.exprs }
        requires test { parts.0.0 < below }
        requires met { parts.1.0 < below }
        requires unmet { parts.2.0 < below }
        ensures { IfOk result (λ ty. TellsType self.now.front.nodes ty (expr_type (scope_in self.now) (choice_tree (expr_of self.now.front.nodes parts.0.0) (expr_of self.now.front.nodes parts.1.0) (expr_of self.now.front.nodes parts.2.0)))) }
    {
        let test = self.type_of(parts.0)?;
        let met = self.type_of(parts.1)?;
        let unmet = self.type_of(parts.2)?;
        Ok(self.chosen(test, met, unmet))
    }

    /// The type of `first op second op others`, whose operands have numbers below `below` (6.5.5 to 6.5.14).
    #[cycle(expr_types)]
    fn operation(
        &self,
        below: usize,
        op: COp,
        two: (CExprId, CExprId),
        others: &[CExprId],
    ) -> Result<Option<ExprType>, NoMemory>
        requires below { below ≤ length self.now.front.nodes.exprs }
        requires first { two.0.0 < below }
        requires second { two.1.0 < below }
        requires others { HasExprs below others.now }
        ensures { IfOk result (λ ty. TellsType self.now.front.nodes ty (expr_type (scope_in self.now) (operation_tree op (expr_of self.now.front.nodes two.0.0) (expr_of self.now.front.nodes two.1.0) (operands_in (expr_of self.now.front.nodes) others.now)))) }
    {
        let first = self.type_of(two.0)?;
        let second = self.type_of(two.1)?;
        self.operands(below, op, self.join(op, first, second), others)
    }

    /// The type of an operation with further operands, by the type of what stands before them.
    #[cycle(expr_types)]
    fn operands(
        &self,
        below: usize,
        op: COp,
        front: Option<ExprType>,
        others: &[CExprId],
    ) -> Result<Option<ExprType>, NoMemory>
        requires below { below ≤ length self.now.front.nodes.exprs }
        requires others { HasExprs below others.now }
        requires has { IfSome front (HasValue self.now.front.nodes) }
        ensures { IfOk result (λ ty. TellsType self.now.front.nodes ty (operations_type op (option_map (value_in self.now.front.nodes.names) front) (operand_types (scope_in self.now) (operands_in (expr_of self.now.front.nodes) others.now)))) }
    {
        let mut found = front;
        for other in others {
            let ty = self.type_of(*other)?;
            found = self.join(op, found, ty);
        }
        Ok(found)
    }

    /// The type of a call in an expression, whose arguments have numbers below `below` (6.5.2.2).
    #[cycle(expr_types)]
    fn call(&self, below: usize, call: &CCall) -> Result<Option<ExprType>, NoMemory>
        requires below { below ≤ length self.now.front.nodes.exprs }
        requires has { HasCall self.now.front.nodes below call.now }
        ensures { IfOk result (λ ty. TellsType self.now.front.nodes ty (called_type (function_named (scope_in self.now).functions (bytes_at self.now.front.nodes.names call.now.function.0)) (arg_types (scope_in self.now) (args_in self.now.front.nodes.names (expr_of self.now.front.nodes) call.now.args)))) }
    {
        match self.function(call.function) {
            Some(head) => {
                if !head.in_expressions {
                    return Ok(None);
                }
                if self.takes(below, head.params, call.args.as_slice())? {
                    Ok(self.result_type(head.result))
                } else {
                    Ok(None)
                }
            }
            None => Ok(None),
        }
    }

    /// Whether the arguments, with numbers below `below`, fit the parameters (6.5.2.2p2).
    #[cycle(expr_types)]
    pub fn takes(&self, below: usize, params: &[CParam], given: &[CArg]) -> Result<bool, NoMemory>
        requires below { below ≤ length self.now.front.nodes.exprs }
        requires params { HasParams self.now.front.nodes params.now }
        requires given { HasArgs self.now.front.nodes below given.now }
        ensures { IfOk result (λ fits. fits ≡ passable (map (param_tree self.now.front.nodes.names) params.now) (arg_types (scope_in self.now) (args_in self.now.front.nodes.names (expr_of self.now.front.nodes) given.now))) }
    {
        if params.len() != given.len() {
            return Ok(false);
        }
        let mut i = 0;
        while i < given.len() {
            if !self.fits(below, params[i], given[i])? {
                return Ok(false);
            }
            i += 1;
        }
        Ok(true)
    }

    /// Whether an argument fits a parameter.
    #[cycle(expr_types)]
    fn fits(&self, below: usize, param: CParam, given: CArg) -> Result<bool, NoMemory>
        requires below { below ≤ length self.now.front.nodes.exprs }
        requires param { HasParam self.now.front.nodes param }
        requires given { HasArg self.now.front.nodes below given }
        ensures { IfOk result (λ fits. fits ≡ fits_type (param_tree self.now.front.nodes.names param) (arg_type self.now.front.nodes (scope_in self.now) given)) }
    {
        match given {
            CArg::Expr(e) => match self.type_of(e)? {
                Some(ty) => Ok(self.is_assignable(param.kind, ty)),
                None => Ok(false),
            },
            CArg::SizeOf(_) => Ok(false),
        }
    }
}

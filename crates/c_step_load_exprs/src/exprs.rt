// The instructions of an expression (ISO/IEC 9899:1999, 6.5), put while its type is told. What no bracket bounds, as
// `a->b->b` and the operands of a repeated operator, is gone through in loops; the rest is recursion.

ghost use Rattle.std.specs.Prelude.{◌≡◌, ◌≤◌, ◌<◌, ◌∷◌, ◌++◌, [], length, map, Option, Some, None, option_map, option_and_then, IfOk, IfSome, OnOk};
ghost use Rattle.c_text.specs.CTree.{ExprTree, choice as choice_tree, operation as operation_tree};
ghost use Rattle.c_text.specs.CNodes.{bytes_at, expr_of, type_in, operands_in, args_in, param_tree};
ghost use Rattle.c_text.specs.CFits.{HasExprs, HasArg, HasArgs, HasCall, HasParams, HasType};
ghost use Rattle.c_meaning.specs.CTypes.{type_of, held_of, operand_types, operations_type, arg_types, passable, called_type, function_named, unary_type, held_type, element_held, pointed_held, cast_from, choice_type};
ghost use Rattle.c_meaning.specs.CExprs.{cell_type as cell_type_of, combination_of};
ghost use Rattle.c_form_exprs.specs.Spines.{link_of, arg_type};
ghost use Rattle.c_form_exprs.specs.TypeViews.{TellsType, TellsHeld, value_in, HasValue};
ghost use Rattle.c_step_exprs.specs.declared.instrs.Instr.TheVariants as does;
ghost use Rattle.c_step_exprs.specs.declared.instrs.Join.TheVariants as join;
ghost use Rattle.c_step_exprs.specs.declared.instrs.Turn.TheVariants as turn;
ghost use Rattle.c_step_exprs.specs.Resolving.{value_code, place_code, args_code, operands_code, operator_code, unary_code, held_code, call_code, arg_count, function_number};
ghost use Rattle.c_step_load_exprs.specs.Codes.{element_code, link_code, arg_code, tested_code, PutsArms};
ghost use Rattle.c_step_load_exprs.specs.Knowing.{program_scope, Knows};

use crate::emitting::{address, call, cell_type, field, is_object, literal, put, set};
use crate::names::Names;
use crate::parts::close_arms;
use c_form_exprs::{ExprType, Held};
use c_step_exprs::{Instr, Join, Put, Test, Turn};
use c_text::{CArg, CCall, CExpr, CExprId, COp, CParam, CType, CUnary};
use wf_num::CTy;
use wf_text::NoMemory;

/// An operator, and whether its first operand points to an object of a struct.
#[derive(Clone, Copy)]
pub(crate) struct Operator {
    /// The operator.
    pub op: COp,
    /// Whether the first operand is such a pointer.
    pub object: bool,
}

impl<'r, 'k, 'u> Names<'r, 'k, 'u> {
    /// Puts the instructions of an expression at the end of the code; its type, None where it has none.
    #[cycle(load_exprs)]
    pub fn value(&self, e: CExprId, code: &mut Vec<Instr>) -> Result<Option<ExprType>, NoMemory>
        requires knows { Knows self.now.scope.now self.now.numbers.now }
        requires e { e.0 < length self.now.scope.now.front.nodes.exprs }
        ensures code { OnOk result (code.new.items ≡ code.old.items ++ value_code (program_scope self.now.scope.now) (expr_of self.now.scope.now.front.nodes e.0)) }
        ensures ty { IfOk result (λ ty. TellsType self.now.scope.now.front.nodes ty (type_of (program_scope self.now.scope.now) (expr_of self.now.scope.now.front.nodes e.0))) }
    {
        let (links, base) = self.scope.spine(e)?;
        let mut links = links;
        let mut found = self.base_value(base, code)?;
        while let Some(link) = links.pop() {
            found = self.linked(link, found, code)?;
        }
        Ok(found)
    }

    /// Puts what follows the first part of `of->field` or `of[at]`, by the type of `of`; the type of the whole.
    #[cycle(load_exprs)]
    fn linked(
        &self,
        e: CExprId,
        of: Option<ExprType>,
        code: &mut Vec<Instr>,
    ) -> Result<Option<ExprType>, NoMemory>
        requires knows { Knows self.now.scope.now self.now.numbers.now }
        requires e { e.0 < length self.now.scope.now.front.nodes.exprs }
        requires of { IfSome of (HasValue self.now.scope.now.front.nodes) }
        ensures code { (front : ExprTree) → link_of (expr_of self.now.scope.now.front.nodes e.0) ≡ Some front → option_map (value_in self.now.scope.now.front.nodes.names) of ≡ type_of (program_scope self.now.scope.now) front → OnOk result (code.new.items ≡ code.old.items ++ link_code (program_scope self.now.scope.now) (expr_of self.now.scope.now.front.nodes e.0)) }
        ensures ty { (front : ExprTree) → link_of (expr_of self.now.scope.now.front.nodes e.0) ≡ Some front → option_map (value_in self.now.scope.now.front.nodes.names) of ≡ type_of (program_scope self.now.scope.now) front → IfOk result (λ ty. TellsType self.now.scope.now.front.nodes ty (type_of (program_scope self.now.scope.now) (expr_of self.now.scope.now.front.nodes e.0))) }
    {
        match self.scope.expr(e) {
            CExpr::Member { field, .. } => self.put_member(of, *field, code),
            CExpr::Index { at, .. } => self.put_element(of, *at, code),
            _ => Ok(None),
        }
    }

    /// Puts `[at]`, by the type of what stands before it; the type of the value.
    #[cycle(load_exprs)]
    fn put_element(
        &self,
        of: Option<ExprType>,
        at: CExprId,
        code: &mut Vec<Instr>,
    ) -> Result<Option<ExprType>, NoMemory>
        requires knows { Knows self.now.scope.now self.now.numbers.now }
        requires of { IfSome of (HasValue self.now.scope.now.front.nodes) }
        requires at { at.0 < length self.now.scope.now.front.nodes.exprs }
        ensures code { OnOk result (code.new.items ≡ code.old.items ++ element_code (program_scope self.now.scope.now) (expr_of self.now.scope.now.front.nodes at.0) (option_map (value_in self.now.scope.now.front.nodes.names) of)) }
        ensures ty { IfOk result (λ ty. TellsType self.now.scope.now.front.nodes ty (option_and_then held_type (element_held (option_map (value_in self.now.scope.now.front.nodes.names) of) (type_of (program_scope self.now.scope.now) (expr_of self.now.scope.now.front.nodes at.0))))) }
    {
        let index = self.value(at, code)?;
        put(code, Instr::Join(Join::Element))?;
        self.put_held(self.scope.element(of, index), code)
    }

    /// Puts an expression before which no other stands; its type.
    #[cycle(load_exprs)]
    fn base_value(&self, e: CExprId, code: &mut Vec<Instr>) -> Result<Option<ExprType>, NoMemory>
        requires knows { Knows self.now.scope.now self.now.numbers.now }
        requires e { e.0 < length self.now.scope.now.front.nodes.exprs }
        requires base { link_of (expr_of self.now.scope.now.front.nodes e.0) ≡ None }
        ensures code { OnOk result (code.new.items ≡ code.old.items ++ value_code (program_scope self.now.scope.now) (expr_of self.now.scope.now.front.nodes e.0)) }
        ensures ty { IfOk result (λ ty. TellsType self.now.scope.now.front.nodes ty (type_of (program_scope self.now.scope.now) (expr_of self.now.scope.now.front.nodes e.0))) }
    {
        match self.scope.expr(e) {
            CExpr::Number(n) => {
                put(code, Instr::Put(Put::Number(literal(*n))))?;
                Ok(Some(self.scope.literal_type(*n)))
            }
            CExpr::Name(name) => self.put_variable(*name, code),
            CExpr::Member { .. } | CExpr::Index { .. } => unreachable!(),
            CExpr::Deref(of) => self.put_pointed(*of, code),
            CExpr::Operation {
                op,
                first,
                second,
                others,
            } => self.operation(e.0, *op, (*first, *second), others.as_slice(), code),
            CExpr::Unary { op, of } => self.unary(*op, *of, code),
            CExpr::Cast { to, of } => self.put_cast(*to, *of, code),
            CExpr::Choice { test, met, unmet } => self.choice(e.0, (*test, *met, *unmet), code),
            CExpr::Call(it) => self.call(e.0, it, code),
        }
    }

    /// Puts `*of`; its type.
    #[cycle(load_exprs)]
    fn put_pointed(&self, of: CExprId, code: &mut Vec<Instr>) -> Result<Option<ExprType>, NoMemory>
        requires knows { Knows self.now.scope.now self.now.numbers.now }
        requires of { of.0 < length self.now.scope.now.front.nodes.exprs }
        ensures code { OnOk result (code.new.items ≡ code.old.items ++ (value_code (program_scope self.now.scope.now) (expr_of self.now.scope.now.front.nodes of.0) ++ does.Turn turn.Place ∷ held_code (pointed_held (type_of (program_scope self.now.scope.now) (expr_of self.now.scope.now.front.nodes of.0))))) }
        ensures ty { IfOk result (λ ty. TellsType self.now.scope.now.front.nodes ty (option_and_then held_type (pointed_held (type_of (program_scope self.now.scope.now) (expr_of self.now.scope.now.front.nodes of.0))))) }
    {
        let pointer = self.value(of, code)?;
        put(code, Instr::Turn(Turn::Place))?;
        self.put_held(self.scope.pointed(pointer), code)
    }

    /// Puts a cast; its type.
    #[cycle(load_exprs)]
    fn put_cast(
        &self,
        to: CType,
        of: CExprId,
        code: &mut Vec<Instr>,
    ) -> Result<Option<ExprType>, NoMemory>
        requires knows { Knows self.now.scope.now self.now.numbers.now }
        requires to { HasType self.now.scope.now.front.nodes to }
        requires of { of.0 < length self.now.scope.now.front.nodes.exprs }
        ensures code { OnOk result (code.new.items ≡ code.old.items ++ (value_code (program_scope self.now.scope.now) (expr_of self.now.scope.now.front.nodes of.0) ++ does.Turn (turn.Cast (cell_type_of (type_in self.now.scope.now.front.nodes.names to))) ∷ [])) }
        ensures ty { IfOk result (λ ty. TellsType self.now.scope.now.front.nodes ty (option_and_then (cast_from (program_scope self.now.scope.now).structs (type_in self.now.scope.now.front.nodes.names to)) (type_of (program_scope self.now.scope.now) (expr_of self.now.scope.now.front.nodes of.0)))) }
    {
        let given = self.value(of, code)?;
        put(code, Instr::Turn(Turn::Cast(cell_type(to))))?;
        match given {
            Some(ty) => Ok(self.cast(to, ty)),
            None => Ok(None),
        }
    }

    /// Puts the instructions of an lvalue, which put its place; what it stands for, None for what isn't an lvalue.
    #[cycle(load_exprs)]
    pub fn place(&self, e: CExprId, code: &mut Vec<Instr>) -> Result<Option<Held>, NoMemory>
        requires knows { Knows self.now.scope.now self.now.numbers.now }
        requires e { e.0 < length self.now.scope.now.front.nodes.exprs }
        ensures code { OnOk result (code.new.items ≡ code.old.items ++ place_code (program_scope self.now.scope.now) (expr_of self.now.scope.now.front.nodes e.0)) }
        ensures held { IfOk result (λ held. TellsHeld self.now.scope.now.front.nodes held (held_of (program_scope self.now.scope.now) (expr_of self.now.scope.now.front.nodes e.0))) }
    {
        match self.scope.expr(e) {
            CExpr::Name(name) => {
                self.put_named(*name, code)?;
                Ok(self.variable(*name))
            }
            CExpr::Member { of, field: name } => {
                let ty = self.value(*of, code)?;
                put(code, field(self.field(ty, *name)))?;
                Ok(self.member(ty, *name))
            }
            CExpr::Index { of, at } => {
                let ty = self.value(*of, code)?;
                self.element_place(ty, *at, code)
            }
            CExpr::Deref(of) => {
                let ty = self.value(*of, code)?;
                put(code, Instr::Turn(Turn::Place))?;
                Ok(self.scope.pointed(ty))
            }
            _ => {
                put(code, Instr::Stuck)?;
                Ok(None)
            }
        }
    }

    /// Puts `[at]` of an lvalue, by the type of what stands before it; what the whole stands for.
    #[cycle(load_exprs)]
    fn element_place(
        &self,
        of: Option<ExprType>,
        at: CExprId,
        code: &mut Vec<Instr>,
    ) -> Result<Option<Held>, NoMemory>
        requires knows { Knows self.now.scope.now self.now.numbers.now }
        requires of { IfSome of (HasValue self.now.scope.now.front.nodes) }
        requires at { at.0 < length self.now.scope.now.front.nodes.exprs }
        ensures code { OnOk result (code.new.items ≡ code.old.items ++ (value_code (program_scope self.now.scope.now) (expr_of self.now.scope.now.front.nodes at.0) ++ does.Join join.Element ∷ [])) }
        ensures held { IfOk result (λ held. TellsHeld self.now.scope.now.front.nodes held (element_held (option_map (value_in self.now.scope.now.front.nodes.names) of) (type_of (program_scope self.now.scope.now) (expr_of self.now.scope.now.front.nodes at.0)))) }
    {
        let index = self.value(at, code)?;
        put(code, Instr::Join(Join::Element))?;
        Ok(self.scope.element(of, index))
    }

    /// Puts `!of`, `~of` or `&of`; its type.
    #[cycle(load_exprs)]
    fn unary(
        &self,
        op: CUnary,
        of: CExprId,
        code: &mut Vec<Instr>,
    ) -> Result<Option<ExprType>, NoMemory>
        requires knows { Knows self.now.scope.now self.now.numbers.now }
        requires of { of.0 < length self.now.scope.now.front.nodes.exprs }
        ensures code { OnOk result (code.new.items ≡ code.old.items ++ unary_code op (value_code (program_scope self.now.scope.now) (expr_of self.now.scope.now.front.nodes of.0)) (place_code (program_scope self.now.scope.now) (expr_of self.now.scope.now.front.nodes of.0)) (held_of (program_scope self.now.scope.now) (expr_of self.now.scope.now.front.nodes of.0))) }
        ensures ty { IfOk result (λ ty. TellsType self.now.scope.now.front.nodes ty (unary_type op (type_of (program_scope self.now.scope.now) (expr_of self.now.scope.now.front.nodes of.0)) (held_of (program_scope self.now.scope.now) (expr_of self.now.scope.now.front.nodes of.0)))) }
    {
        match op {
            CUnary::Not => match self.turned(of, Turn::Not, code)? {
                Some(_) => Ok(Some(ExprType::Numbers(CTy::Int))),
                None => Ok(None),
            },
            CUnary::Complement => {
                let ty = self.turned(of, Turn::Complement, code)?;
                Ok(self.scope.complement(ty))
            }
            CUnary::Address => {
                let held = self.place(of, code)?;
                put(code, address(held))?;
                Ok(self.address_type(held))
            }
        }
    }

    /// Puts an expression, and what its value becomes; the type of the expression.
    #[cycle(load_exprs)]
    fn turned(
        &self,
        e: CExprId,
        into: Turn,
        code: &mut Vec<Instr>,
    ) -> Result<Option<ExprType>, NoMemory>
        requires knows { Knows self.now.scope.now self.now.numbers.now }
        requires e { e.0 < length self.now.scope.now.front.nodes.exprs }
        ensures code { OnOk result (code.new.items ≡ code.old.items ++ (value_code (program_scope self.now.scope.now) (expr_of self.now.scope.now.front.nodes e.0) ++ does.Turn into ∷ [])) }
        ensures ty { IfOk result (λ ty. TellsType self.now.scope.now.front.nodes ty (type_of (program_scope self.now.scope.now) (expr_of self.now.scope.now.front.nodes e.0))) }
    {
        let ty = self.value(e, code)?;
        put(code, Instr::Turn(into))?;
        Ok(ty)
    }

    /// Puts `first op second op others`, whose operands have numbers below `below`; its type.
    #[cycle(load_exprs)]
    fn operation(
        &self,
        below: usize,
        op: COp,
        two: (CExprId, CExprId),
        others: &[CExprId],
        code: &mut Vec<Instr>,
    ) -> Result<Option<ExprType>, NoMemory>
        requires knows { Knows self.now.scope.now self.now.numbers.now }
        requires below { below ≤ length self.now.scope.now.front.nodes.exprs }
        requires first { two.0.0 < below }
        requires second { two.1.0 < below }
        requires others { HasExprs below others.now }
        ensures code { OnOk result (code.new.items ≡ code.old.items ++ value_code (program_scope self.now.scope.now) (operation_tree op (expr_of self.now.scope.now.front.nodes two.0.0) (expr_of self.now.scope.now.front.nodes two.1.0) (operands_in (expr_of self.now.scope.now.front.nodes) others.now))) }
        ensures ty { IfOk result (λ ty. TellsType self.now.scope.now.front.nodes ty (type_of (program_scope self.now.scope.now) (operation_tree op (expr_of self.now.scope.now.front.nodes two.0.0) (expr_of self.now.scope.now.front.nodes two.1.0) (operands_in (expr_of self.now.scope.now.front.nodes) others.now)))) }
    {
        let first = self.value(two.0, code)?;
        let by = Operator {
            op,
            object: is_object(first),
        };
        let second = self.operand(by, two.1, code)?;
        let front = self.scope.join(op, first, second);
        self.operands(below, by, front, others, code)
    }

    /// Puts further operands, each with the operator, by the type of what stands before them; the type of the whole.
    #[cycle(load_exprs)]
    fn operands(
        &self,
        below: usize,
        by: Operator,
        front: Option<ExprType>,
        others: &[CExprId],
        code: &mut Vec<Instr>,
    ) -> Result<Option<ExprType>, NoMemory>
        requires knows { Knows self.now.scope.now self.now.numbers.now }
        requires below { below ≤ length self.now.scope.now.front.nodes.exprs }
        requires others { HasExprs below others.now }
        requires has { IfSome front (HasValue self.now.scope.now.front.nodes) }
        ensures code { OnOk result (code.new.items ≡ code.old.items ++ operands_code (program_scope self.now.scope.now) (combination_of by.op) by.object by.op (operands_in (expr_of self.now.scope.now.front.nodes) others.now)) }
        ensures ty { IfOk result (λ ty. TellsType self.now.scope.now.front.nodes ty (operations_type by.op (option_map (value_in self.now.scope.now.front.nodes.names) front) (operand_types (program_scope self.now.scope.now) (operands_in (expr_of self.now.scope.now.front.nodes) others.now)))) }
    {
        let mut found = front;
        for other in others {
            let ty = self.operand(by, *other, code)?;
            found = self.scope.join(by.op, found, ty);
        }
        Ok(found)
    }

    /// Puts an operator with its second operand; the type of the operand.
    #[cycle(load_exprs)]
    fn operand(
        &self,
        by: Operator,
        e: CExprId,
        code: &mut Vec<Instr>,
    ) -> Result<Option<ExprType>, NoMemory>
        requires knows { Knows self.now.scope.now self.now.numbers.now }
        requires e { e.0 < length self.now.scope.now.front.nodes.exprs }
        ensures code { OnOk result (code.new.items ≡ code.old.items ++ operator_code (combination_of by.op) by.object by.op (value_code (program_scope self.now.scope.now) (expr_of self.now.scope.now.front.nodes e.0))) }
        ensures ty { IfOk result (λ ty. TellsType self.now.scope.now.front.nodes ty (type_of (program_scope self.now.scope.now) (expr_of self.now.scope.now.front.nodes e.0))) }
    {
        match by.op {
            COp::Both => self.tested(Test::And, e, code),
            COp::Either => self.tested(Test::Or, e, code),
            COp::Add => self.combined(Join::Add(by.object), e, code),
            COp::Sub | COp::Mul | COp::Div | COp::Rem => {
                self.combined(Join::Operate(by.op), e, code)
            }
            COp::Shl | COp::Shr | COp::BitAnd | COp::BitOr | COp::BitXor => {
                self.combined(Join::Operate(by.op), e, code)
            }
            COp::Lt | COp::Le | COp::Gt | COp::Ge | COp::Eq | COp::Ne => {
                self.combined(Join::Operate(by.op), e, code)
            }
        }
    }

    /// Puts a second operand that a test may pass over; its type.
    #[cycle(load_exprs)]
    fn tested(
        &self,
        test: Test,
        e: CExprId,
        code: &mut Vec<Instr>,
    ) -> Result<Option<ExprType>, NoMemory>
        requires knows { Knows self.now.scope.now self.now.numbers.now }
        requires e { e.0 < length self.now.scope.now.front.nodes.exprs }
        ensures code { OnOk result (code.new.items ≡ code.old.items ++ tested_code test (value_code (program_scope self.now.scope.now) (expr_of self.now.scope.now.front.nodes e.0))) }
        ensures ty { IfOk result (λ ty. TellsType self.now.scope.now.front.nodes ty (type_of (program_scope self.now.scope.now) (expr_of self.now.scope.now.front.nodes e.0))) }
    {
        let at = code.len();
        put(code, Instr::Stuck)?;
        let ty = self.turned(e, Turn::Truth, code)?;
        let after = code.len() - 1;
        set(code, at, Instr::Test(test, after - at));
        Ok(ty)
    }

    /// Puts a second operand and what joins it with the first one; its type.
    #[cycle(load_exprs)]
    fn combined(
        &self,
        by: Join,
        e: CExprId,
        code: &mut Vec<Instr>,
    ) -> Result<Option<ExprType>, NoMemory>
        requires knows { Knows self.now.scope.now self.now.numbers.now }
        requires e { e.0 < length self.now.scope.now.front.nodes.exprs }
        ensures code { OnOk result (code.new.items ≡ code.old.items ++ (value_code (program_scope self.now.scope.now) (expr_of self.now.scope.now.front.nodes e.0) ++ does.Join by ∷ [])) }
        ensures ty { IfOk result (λ ty. TellsType self.now.scope.now.front.nodes ty (type_of (program_scope self.now.scope.now) (expr_of self.now.scope.now.front.nodes e.0))) }
    {
        let ty = self.value(e, code)?;
        put(code, Instr::Join(by))?;
        Ok(ty)
    }

    /// Puts `test ? met : unmet`, whose parts have numbers below `below`; its type.
    #[cycle(load_exprs)]
    fn choice(
        &self,
        below: usize,
        parts: (CExprId, CExprId, CExprId),
        code: &mut Vec<Instr>,
    ) -> Result<Option<ExprType>, NoMemory>
        requires knows { Knows self.now.scope.now self.now.numbers.now }
        requires below { below ≤ length self.now.scope.now.front.nodes.exprs }
        requires test { parts.0.0 < below }
        requires met { parts.1.0 < below }
        requires unmet { parts.2.0 < below }
        ensures code { OnOk result (code.new.items ≡ code.old.items ++ value_code (program_scope self.now.scope.now) (choice_tree (expr_of self.now.scope.now.front.nodes parts.0.0) (expr_of self.now.scope.now.front.nodes parts.1.0) (expr_of self.now.scope.now.front.nodes parts.2.0))) }
        ensures ty { IfOk result (λ ty. TellsType self.now.scope.now.front.nodes ty (type_of (program_scope self.now.scope.now) (choice_tree (expr_of self.now.scope.now.front.nodes parts.0.0) (expr_of self.now.scope.now.front.nodes parts.1.0) (expr_of self.now.scope.now.front.nodes parts.2.0)))) }
    {
        let start = code.len();
        let test = self.value(parts.0, code)?;
        match self.arms(below, parts.1, parts.2, code)? {
            Some(ty) => match test {
                Some(_) => Ok(Some(ty)),
                None => Ok(None),
            },
            None => {
                code.truncate(start);
                put(code, Instr::Stuck)?;
                Ok(None)
            }
        }
    }

    /// Puts both arms of `?:`, with numbers below `below`; their common type. Where they have none what was put isn't told.
    #[cycle(load_exprs)]
    fn arms(
        &self,
        below: usize,
        met: CExprId,
        unmet: CExprId,
        code: &mut Vec<Instr>,
    ) -> Result<Option<ExprType>, NoMemory>
        requires knows { Knows self.now.scope.now self.now.numbers.now }
        requires below { below ≤ length self.now.scope.now.front.nodes.exprs }
        requires met { met.0 < below }
        requires unmet { unmet.0 < below }
        ensures code { OnOk result (PutsArms code.old.items code.new.items (value_code (program_scope self.now.scope.now) (expr_of self.now.scope.now.front.nodes met.0)) (value_code (program_scope self.now.scope.now) (expr_of self.now.scope.now.front.nodes unmet.0)) (choice_type (type_of (program_scope self.now.scope.now) (expr_of self.now.scope.now.front.nodes met.0)) (type_of (program_scope self.now.scope.now) (expr_of self.now.scope.now.front.nodes unmet.0)))) }
        ensures ty { IfOk result (λ ty. TellsType self.now.scope.now.front.nodes ty (choice_type (type_of (program_scope self.now.scope.now) (expr_of self.now.scope.now.front.nodes met.0)) (type_of (program_scope self.now.scope.now) (expr_of self.now.scope.now.front.nodes unmet.0)))) }
    {
        let from = code.len();
        put(code, Instr::Stuck)?;
        let first = self.value(met, code)?;
        let middle = code.len();
        let second = self.other_arm(unmet, code)?;
        match self.common(first, second) {
            Some(ty) => {
                close_arms(code, from, middle, ty)?;
                Ok(Some(ty))
            }
            None => Ok(None),
        }
    }

    /// Puts room for two instructions and the second arm of `?:`; its type.
    #[cycle(load_exprs)]
    fn other_arm(&self, unmet: CExprId, code: &mut Vec<Instr>) -> Result<Option<ExprType>, NoMemory>
        requires knows { Knows self.now.scope.now self.now.numbers.now }
        requires unmet { unmet.0 < length self.now.scope.now.front.nodes.exprs }
        ensures code { OnOk result (code.new.items ≡ code.old.items ++ (does.Stuck ∷ does.Stuck ∷ value_code (program_scope self.now.scope.now) (expr_of self.now.scope.now.front.nodes unmet.0))) }
        ensures ty { IfOk result (λ ty. TellsType self.now.scope.now.front.nodes ty (type_of (program_scope self.now.scope.now) (expr_of self.now.scope.now.front.nodes unmet.0))) }
    {
        put(code, Instr::Stuck)?;
        put(code, Instr::Stuck)?;
        self.value(unmet, code)
    }

    /// Puts a call in an expression, whose arguments have numbers below `below`; its type.
    #[cycle(load_exprs)]
    fn call(
        &self,
        below: usize,
        it: &CCall,
        code: &mut Vec<Instr>,
    ) -> Result<Option<ExprType>, NoMemory>
        requires knows { Knows self.now.scope.now self.now.numbers.now }
        requires below { below ≤ length self.now.scope.now.front.nodes.exprs }
        requires has { HasCall self.now.scope.now.front.nodes below it.now }
        ensures code { OnOk result (code.new.items ≡ code.old.items ++ (args_code (program_scope self.now.scope.now) (args_in self.now.scope.now.front.nodes.names (expr_of self.now.scope.now.front.nodes) it.now.args) ++ call_code (function_number (program_scope self.now.scope.now).functions (bytes_at self.now.scope.now.front.nodes.names it.now.function.0)) (arg_count (args_in self.now.scope.now.front.nodes.names (expr_of self.now.scope.now.front.nodes) it.now.args)))) }
        ensures ty { IfOk result (λ ty. TellsType self.now.scope.now.front.nodes ty (called_type (function_named (program_scope self.now.scope.now).functions (bytes_at self.now.scope.now.front.nodes.names it.now.function.0)) (arg_types (program_scope self.now.scope.now) (args_in self.now.scope.now.front.nodes.names (expr_of self.now.scope.now.front.nodes) it.now.args)))) }
    {
        let head = self.function(it.function);
        let params = match head {
            Some(known) => known.params,
            None => &[],
        };
        let fits = self.args(below, params, it.args.as_slice(), code)?;
        let function = self.function_number(it.function);
        put(code, call(function, it.args.as_slice().len()))?;
        Ok(self.called(head, fits))
    }

    /// Puts the arguments of a call, with numbers below `below`; whether they fit the parameters.
    #[cycle(load_exprs)]
    pub fn args(
        &self,
        below: usize,
        params: &[CParam],
        given: &[CArg],
        code: &mut Vec<Instr>,
    ) -> Result<bool, NoMemory>
        requires knows { Knows self.now.scope.now self.now.numbers.now }
        requires below { below ≤ length self.now.scope.now.front.nodes.exprs }
        requires params { HasParams self.now.scope.now.front.nodes params.now }
        requires given { HasArgs self.now.scope.now.front.nodes below given.now }
        ensures code { OnOk result (code.new.items ≡ code.old.items ++ args_code (program_scope self.now.scope.now) (args_in self.now.scope.now.front.nodes.names (expr_of self.now.scope.now.front.nodes) given.now)) }
        ensures fits { IfOk result (λ fits. fits ≡ passable (map (param_tree self.now.scope.now.front.nodes.names) params.now) (arg_types (program_scope self.now.scope.now) (args_in self.now.scope.now.front.nodes.names (expr_of self.now.scope.now.front.nodes) given.now))) }
    {
        let mut fits = true;
        let mut i = 0;
        while i < given.len() {
            let ty = self.arg(below, given[i], code)?;
            fits = fits & self.is_given(params, i, ty);
            i += 1;
        }
        Ok(fits & (params.len() <= given.len()))
    }

    /// Puts an argument; the type of its value.
    #[cycle(load_exprs)]
    fn arg(
        &self,
        below: usize,
        given: CArg,
        code: &mut Vec<Instr>,
    ) -> Result<Option<ExprType>, NoMemory>
        requires knows { Knows self.now.scope.now self.now.numbers.now }
        requires below { below ≤ length self.now.scope.now.front.nodes.exprs }
        requires given { HasArg self.now.scope.now.front.nodes below given }
        ensures code { OnOk result (code.new.items ≡ code.old.items ++ arg_code self.now.scope.now.front.nodes (program_scope self.now.scope.now) given) }
        ensures ty { IfOk result (λ ty. TellsType self.now.scope.now.front.nodes ty (arg_type self.now.scope.now.front.nodes (program_scope self.now.scope.now) given)) }
    {
        match given {
            CArg::Expr(e) => self.value(e, code),
            CArg::SizeOf(_) => {
                put(code, Instr::Stuck)?;
                Ok(None)
            }
        }
    }
}

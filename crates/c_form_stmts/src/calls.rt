// A call as a statement (ISO/IEC 9899:1999, 6.5.2.2, 7.21.2.2, 7.21.6.1).

ghost use Rattle.std.specs.Prelude.{◌≡◌, ◌<◌, [], ◌∷◌, length, option_map, find, IfOk, IfSome};
ghost use Rattle.std.specs.Str.{bytes_eq};
ghost use Rattle.c_text.specs.CNodes.{bytes_at, type_in, value_in, args_in, expr_of};
ghost use Rattle.c_text.specs.CFits.{HasName, HasType, HasArg, HasArgs, HasCall};
ghost use Rattle.c_meaning.specs.CTypes.{arg_types, function_named};
ghost use Rattle.c_meaning.specs.CStep.{callee_of};
ghost use Rattle.c_meaning.specs.UnitForm.{is_library as is_library_name, is_number as is_number_type, is_moved, is_set as is_set_given, is_object_pointer, may_keep, is_called, formed_call};
ghost use Rattle.c_form_exprs.specs.Front.{scope_in};
ghost use Rattle.c_form_exprs.specs.Spines.{arg_type as type_of_arg};
ghost use Rattle.c_form_exprs.specs.TypeViews.{TellsType, value_in as value_type_in};
ghost use Rattle.c_form_stmts.specs.Statements.{checked_in, name_in, is_zero_literal};

use crate::statements::Frame;
use c_form_exprs::{ExprType, Target};
use c_text::{CArg, CCall, CExpr, CExprId, CNameId, CNumber, CType};
use wf_text::NoMemory;

/// Whether a name is that of a function of the library (7.1.3).
pub fn is_library(name: &[u8]) -> bool
    ensures { result ≡ is_library_name name.now }
{
    name == b"memmove".as_slice() || name == b"memset".as_slice()
}

impl<'c, 'k, 'u> Frame<'c, 'k, 'u> {
    /// The type of an argument; None for `sizeof`.
    fn arg_type(&self, given: CArg) -> Result<Option<ExprType>, NoMemory>
        requires { HasArg self.now.within.front.nodes (length self.now.within.front.nodes.exprs) given }
        ensures { IfOk result (λ ty. TellsType self.now.within.front.nodes ty (type_of_arg self.now.within.front.nodes (scope_in self.now.within) given)) }
    {
        match given {
            CArg::Expr(e) => self.scope.type_of(e),
            CArg::SizeOf(_) => Ok(None),
        }
    }

    /// Whether a value is a number.
    fn is_count(&self, ty: Option<ExprType>) -> bool
        ensures { result ≡ is_number_type (option_map (value_type_in self.now.within.front.nodes.names) ty) }
    {
        match ty {
            Some(found) => self.scope.as_number(found).is_some(),
            None => false,
        }
    }

    /// Whether `memmove` takes values of these types: two pointers that aren't to structs, the first not to a string's
    /// bytes, and a number.
    fn moves(&self, to: Option<ExprType>, from: Option<ExprType>, count: Option<ExprType>) -> bool
        ensures { result ≡ is_moved (option_map (value_type_in self.now.within.front.nodes.names) to ∷ option_map (value_type_in self.now.within.front.nodes.names) from ∷ option_map (value_type_in self.now.within.front.nodes.names) count ∷ []) }
    {
        match to {
            Some(ExprType::PointsTo(Target::Cell(_))) => match from {
                Some(ExprType::PointsTo(Target::Cell(_))) => self.is_count(count),
                Some(ExprType::PointsTo(Target::Byte)) => self.is_count(count),
                Some(ExprType::PointsTo(Target::Object(_))) => false,
                Some(ExprType::Numbers(_)) => false,
                Some(ExprType::ZeroLiteral) => false,
                None => false,
            },
            Some(ExprType::PointsTo(Target::Byte)) => false,
            Some(ExprType::PointsTo(Target::Object(_))) => false,
            Some(ExprType::Numbers(_)) => false,
            Some(ExprType::ZeroLiteral) => false,
            None => false,
        }
    }

    /// Whether `memmove` takes these arguments.
    fn is_move(&self, given: &[CArg]) -> Result<bool, NoMemory>
        requires { HasArgs self.now.within.front.nodes (length self.now.within.front.nodes.exprs) given.now }
        ensures { IfOk result (λ formed. formed ≡ is_moved (arg_types (scope_in self.now.within) (args_in self.now.within.front.nodes.names (expr_of self.now.within.front.nodes) given.now))) }
    {
        match given {
            [to, from, count] => {
                let to = self.arg_type(*to)?;
                let from = self.arg_type(*from)?;
                let count = self.arg_type(*count)?;
                Ok(self.moves(to, from, count))
            }
            _ => Ok(false),
        }
    }

    /// The name that an expression is; None for any other expression.
    fn name_of(&self, e: CExprId) -> Option<CNameId>
        requires { e.0 < length self.now.within.front.nodes.exprs }
        ensures is { option_map (λ n. bytes_at self.now.within.front.nodes.names n.0) result ≡ name_in (expr_of self.now.within.front.nodes e.0) }
        ensures has { IfSome result (HasName self.now.within.front.nodes) }
    {
        match self.scope.expr(e) {
            CExpr::Name(name) => Some(*name),
            _ => None,
        }
    }

    /// Whether an expression is the literal `0`.
    fn is_zero(&self, e: CExprId) -> bool
        requires { e.0 < length self.now.within.front.nodes.exprs }
        ensures { result ≡ is_zero_literal (expr_of self.now.within.front.nodes e.0) }
    {
        match self.scope.expr(e) {
            CExpr::Number(CNumber::Int(n)) => *n == 0,
            _ => false,
        }
    }

    /// Whether `memset` takes these three arguments: a pointer to a struct, `0` and its `sizeof`.
    fn sets(&self, of: CArg, zero: CArg, same: CArg) -> bool
        requires of { HasArg self.now.within.front.nodes (length self.now.within.front.nodes.exprs) of }
        requires zero { HasArg self.now.within.front.nodes (length self.now.within.front.nodes.exprs) zero }
        requires same { HasArg self.now.within.front.nodes (length self.now.within.front.nodes.exprs) same }
        ensures { result ≡ is_set_given (scope_in self.now.within) (args_in self.now.within.front.nodes.names (expr_of self.now.within.front.nodes) (of ∷ zero ∷ same ∷ [])) }
    {
        match (of, zero, same) {
            (CArg::Expr(pointer), CArg::Expr(value), CArg::SizeOf(sized)) => {
                match self.name_of(pointer) {
                    Some(name) => {
                        self.is_zero(value)
                            && (self.scope.is_same_name(name, sized) && self.points_to_struct(name))
                    }
                    None => false,
                }
            }
            (_, _, _) => false,
        }
    }

    /// Whether `memset` takes these arguments.
    fn is_set(&self, given: &[CArg]) -> bool
        requires { HasArgs self.now.within.front.nodes (length self.now.within.front.nodes.exprs) given.now }
        ensures { result ≡ is_set_given (scope_in self.now.within) (args_in self.now.within.front.nodes.names (expr_of self.now.within.front.nodes) given.now) }
    {
        match given {
            [of, zero, same] => self.sets(*of, *zero, *same),
            _ => false,
        }
    }

    /// Whether a parameter or local of this name points to a struct.
    fn points_to_struct(&self, name: CNameId) -> bool
        requires { HasName self.now.within.front.nodes name }
        ensures { result ≡ is_object_pointer (find (λ it. bytes_eq it.name (bytes_at self.now.within.front.nodes.names name.0)) (scope_in self.now.within).names) }
    {
        match self.scope.own_type(name) {
            Some(CType::StructPointer(_)) => true,
            _ => false,
        }
    }

    /// Whether the result of a call may go to its target (6.5.16).
    fn is_kept(&self, target: Option<CExprId>, result_type: Option<CType>) -> Result<bool, NoMemory>
        requires target { IfSome target (λ e. e.0 < length self.now.within.front.nodes.exprs) }
        requires has { IfSome result_type (HasType self.now.within.front.nodes) }
        ensures { IfOk result (λ kept. kept ≡ may_keep (checked_in self.now) (value_in (expr_of self.now.within.front.nodes) target) (option_map (type_in self.now.within.front.nodes.names) result_type)) }
    {
        match target {
            None => Ok(true),
            Some(e) => match self.cell_type(e)? {
                Some(to) => match result_type {
                    Some(ty) => Ok(self.scope.is_assignable(to, self.scope.value_type(ty))),
                    None => Ok(false),
                },
                None => Ok(false),
            },
        }
    }

    /// Whether a function of the text takes these arguments, and its result may go to the target (6.5.2.2p2).
    fn is_own_call(
        &self,
        target: Option<CExprId>,
        name: CNameId,
        given: &[CArg],
    ) -> Result<bool, NoMemory>
        requires target { IfSome target (λ e. e.0 < length self.now.within.front.nodes.exprs) }
        requires name { HasName self.now.within.front.nodes name }
        requires given { HasArgs self.now.within.front.nodes (length self.now.within.front.nodes.exprs) given.now }
        ensures { IfOk result (λ formed. formed ≡ is_called (checked_in self.now) (value_in (expr_of self.now.within.front.nodes) target) (arg_types (scope_in self.now.within) (args_in self.now.within.front.nodes.names (expr_of self.now.within.front.nodes) given.now)) (function_named (scope_in self.now.within).functions (bytes_at self.now.within.front.nodes.names name.0))) }
    {
        match self.scope.function(name) {
            Some(head) => {
                if self
                    .scope
                    .takes(self.scope.unit().exprs(), head.params, given)?
                {
                    self.is_kept(target, head.result)
                } else {
                    Ok(false)
                }
            }
            None => Ok(false),
        }
    }

    /// Whether a call is formed (6.5.2.2).
    pub(crate) fn is_call(&self, target: Option<CExprId>, call: &CCall) -> Result<bool, NoMemory>
        requires target { IfSome target (λ e. e.0 < length self.now.within.front.nodes.exprs) }
        requires call { HasCall self.now.within.front.nodes (length self.now.within.front.nodes.exprs) call.now }
        ensures { IfOk result (λ formed. formed ≡ formed_call (callee_of (bytes_at self.now.within.front.nodes.names call.now.function.0)) (checked_in self.now) (value_in (expr_of self.now.within.front.nodes) target) (bytes_at self.now.within.front.nodes.names call.now.function.0) (args_in self.now.within.front.nodes.names (expr_of self.now.within.front.nodes) call.now.args)) }
    {
        let name = self.scope.unit().name(call.function);
        if name == b"memmove".as_slice() {
            if target.is_some() {
                return Ok(false);
            }
            return self.is_move(call.args.as_slice());
        }
        if name == b"memset".as_slice() {
            return Ok(target.is_none() && self.is_set(call.args.as_slice()));
        }
        self.is_own_call(target, call.function, call.args.as_slice())
    }
}

// Parts of expressions, once the types of what stands in them are known.

ghost use Rattle.std.specs.Prelude.{◌≡◌, ◌<◌, ◌∷◌, ◌++◌, ◌+◌, [], ℕ, List, drop, length, map, option_map, option_and_then, Option, Some, IfOk, IfSome, OnOk};
ghost use Rattle.c_text.specs.CTree.{variable};
ghost use Rattle.c_text.specs.CNodes.{bytes_at, param_tree};
ghost use Rattle.c_text.specs.CFits.{HasName, HasType, HasParam, HasParams};
ghost use Rattle.c_meaning.specs.CTypes.{Function, ExprType as TypeOf, type_of, held_type, member_held, choice_type, called_type, passable, address_type};
ghost use Rattle.c_form_exprs.specs.Front.{Finds, IsHead};
ghost use Rattle.c_form_exprs.specs.Spines.{fits_type};
ghost use Rattle.c_form_exprs.specs.TypeViews.{TellsType, value_in, held_in, HasValue, HasHeld};
ghost use Rattle.c_step_exprs.specs.declared.instrs.Instr.{Instr as InstrOf};
ghost use Rattle.c_step_exprs.specs.Resolving.{held_code, value_code, place_code, as_type_code, arms_code};
ghost use Rattle.c_step_load_exprs.specs.Codes.{member_code, open_arms, fits_first};
ghost use Rattle.c_step_load_exprs.specs.Knowing.{program_scope, Knows};

use crate::emitting::{field, loaded, named, put, set};
use crate::names::Names;
use c_form_exprs::{ExprType, Head, Held};
use c_step_exprs::{Instr, Put, Test, Turn};
use c_text::{CNameId, CParam};
use wf_text::NoMemory;

/// A value as one of the type of both arms of `?:` (ISO/IEC 9899:1999, 6.5.15); such a type isn't that of the literal 0.
fn converted(ty: ExprType) -> Instr
    ensures { (names : List (List ℕ)) (met unmet : Option TypeOf) → choice_type met unmet ≡ Some (value_in names ty) → as_type_code (value_in names ty) ≡ result ∷ [] }
{
    match ty {
        ExprType::Numbers(number) => Instr::Turn(Turn::AsNumber(number)),
        ExprType::PointsTo(_) => Instr::Turn(Turn::AsPointer),
        ExprType::ZeroLiteral => Instr::Stuck,
    }
}

/// Ends both arms of `?:`, the first of which begins after `from` and ends before `middle`.
pub(crate) fn close_arms(
    code: &mut Vec<Instr>,
    from: usize,
    middle: usize,
    ty: ExprType,
) -> Result<(), NoMemory>
    requires from { from < middle }
    requires middle { middle + 1 < length code.old.items }
    ensures { (names : List (List ℕ)) (first second : Option TypeOf) (front met unmet : List InstrOf) → choice_type first second ≡ Some (value_in names ty) → code.old.items ≡ front ++ open_arms met unmet → from ≡ length front → middle ≡ length front + 1 + length met → OnOk result (code.new.items ≡ front ++ arms_code (met ++ as_type_code (value_in names ty)) (unmet ++ as_type_code (value_in names ty))) }
{
    let it = converted(ty);
    let end = code.len();
    set(code, from, Instr::Test(Test::Unless, middle + 1 - from));
    set(code, middle, it);
    set(code, middle + 1, Instr::Skip(end - middle - 1));
    put(code, it)
}

impl<'r, 'k, 'u> Names<'r, 'k, 'u> {
    /// Puts what makes a value of a place on the stack; the type of the value.
    pub(crate) fn put_held(
        &self,
        held: Option<Held>,
        code: &mut Vec<Instr>,
    ) -> Result<Option<ExprType>, NoMemory>
        requires { IfSome held (HasHeld self.now.scope.now.front.nodes) }
        ensures code { OnOk result (code.new.items ≡ code.old.items ++ held_code (option_map (held_in self.now.scope.now.front.nodes.names) held)) }
        ensures ty { IfOk result (λ ty. TellsType self.now.scope.now.front.nodes ty (option_and_then held_type (option_map (held_in self.now.scope.now.front.nodes.names) held))) }
    {
        put(code, loaded(held))?;
        Ok(self.scope.held_value(held))
    }

    /// Puts `->field`, by the type of what stands before it; the type of the value.
    pub(crate) fn put_member(
        &self,
        of: Option<ExprType>,
        name: CNameId,
        code: &mut Vec<Instr>,
    ) -> Result<Option<ExprType>, NoMemory>
        requires knows { Knows self.now.scope.now self.now.numbers.now }
        requires of { IfSome of (HasValue self.now.scope.now.front.nodes) }
        requires name { HasName self.now.scope.now.front.nodes name }
        ensures code { OnOk result (code.new.items ≡ code.old.items ++ member_code (program_scope self.now.scope.now) (bytes_at self.now.scope.now.front.nodes.names name.0) (option_map (value_in self.now.scope.now.front.nodes.names) of)) }
        ensures ty { IfOk result (λ ty. TellsType self.now.scope.now.front.nodes ty (option_and_then held_type (member_held (program_scope self.now.scope.now) (bytes_at self.now.scope.now.front.nodes.names name.0) (option_map (value_in self.now.scope.now.front.nodes.names) of)))) }
    {
        put(code, field(self.field(of, name)))?;
        self.put_held(self.member(of, name), code)
    }

    /// Puts the place of a name.
    pub(crate) fn put_named(&self, name: CNameId, code: &mut Vec<Instr>) -> Result<(), NoMemory>
        requires knows { Knows self.now.scope.now self.now.numbers.now }
        requires name { HasName self.now.scope.now.front.nodes name }
        ensures { OnOk result (code.new.items ≡ code.old.items ++ place_code (program_scope self.now.scope.now) (variable (bytes_at self.now.scope.now.front.nodes.names name.0))) }
    {
        put(code, named(self.local(name), self.text(name)))
    }

    /// Puts the value of a name; its type.
    pub(crate) fn put_variable(
        &self,
        name: CNameId,
        code: &mut Vec<Instr>,
    ) -> Result<Option<ExprType>, NoMemory>
        requires knows { Knows self.now.scope.now self.now.numbers.now }
        requires name { HasName self.now.scope.now.front.nodes name }
        ensures code { OnOk result (code.new.items ≡ code.old.items ++ value_code (program_scope self.now.scope.now) (variable (bytes_at self.now.scope.now.front.nodes.names name.0))) }
        ensures ty { IfOk result (λ ty. TellsType self.now.scope.now.front.nodes ty (type_of (program_scope self.now.scope.now) (variable (bytes_at self.now.scope.now.front.nodes.names name.0)))) }
    {
        let held = self.variable(name);
        match self.local(name) {
            Some(k) => {
                put(code, Instr::Put(Put::Fetch(k)))?;
                Ok(self.scope.held_value(held))
            }
            None => {
                self.put_named(name, code)?;
                self.put_held(held, code)
            }
        }
    }

    /// The type of both arms of `?:`, by those of each; None where there is none.
    pub(crate) fn common(&self, met: Option<ExprType>, unmet: Option<ExprType>) -> Option<ExprType>
        requires met { IfSome met (HasValue self.now.scope.now.front.nodes) }
        requires unmet { IfSome unmet (HasValue self.now.scope.now.front.nodes) }
        ensures { TellsType self.now.scope.now.front.nodes result (choice_type (option_map (value_in self.now.scope.now.front.nodes.names) met) (option_map (value_in self.now.scope.now.front.nodes.names) unmet)) }
    {
        self.scope.one_type(true, met?, unmet?)
    }

    /// The type of the pointer to what an lvalue stands for.
    pub(crate) fn address_type(&self, held: Option<Held>) -> Option<ExprType>
        requires { IfSome held (HasHeld self.now.scope.now.front.nodes) }
        ensures { TellsType self.now.scope.now.front.nodes result (option_and_then address_type (option_map (held_in self.now.scope.now.front.nodes.names) held)) }
    {
        self.scope.address_of(held?)
    }

    /// Whether a value of a type may be passed to a parameter.
    pub(crate) fn is_passed(&self, param: CParam, ty: Option<ExprType>) -> bool
        requires param { HasParam self.now.scope.now.front.nodes param }
        requires ty { IfSome ty (HasValue self.now.scope.now.front.nodes) }
        ensures { result ≡ fits_type (param_tree self.now.scope.now.front.nodes.names param) (option_map (value_in self.now.scope.now.front.nodes.names) ty) }
    {
        match ty {
            Some(given) => self.scope.is_assignable(param.kind, given),
            None => false,
        }
    }

    /// Whether a value of a type may be passed to the parameter with a number.
    pub(crate) fn is_given(&self, params: &[CParam], i: usize, ty: Option<ExprType>) -> bool
        requires params { HasParams self.now.scope.now.front.nodes params.now }
        requires ty { IfSome ty (HasValue self.now.scope.now.front.nodes) }
        ensures { result ≡ fits_first (map (param_tree self.now.scope.now.front.nodes.names) (drop i params.now)) (option_map (value_in self.now.scope.now.front.nodes.names) ty) }
    {
        if i < params.len() {
            self.is_passed(params[i], ty)
        } else {
            false
        }
    }

    /// The type of a call in an expression; `fits` tells whether the arguments fit the parameters.
    pub(crate) fn called(&self, function: Option<Head<'u>>, fits: bool) -> Option<ExprType>
        requires { IfSome function (λ head. IfSome head.result (HasType self.now.scope.now.front.nodes)) }
        ensures { (f : Option Function) (given : List (Option TypeOf)) → Finds (IsHead self.now.scope.now.front.nodes) function.entry f → IfSome function.entry (λ head. fits ≡ passable (map (param_tree self.now.scope.now.front.nodes.names) head.params.now) given) → TellsType self.now.scope.now.front.nodes result (called_type f given) }
    {
        let head = function?;
        if head.in_expressions && fits {
            self.scope.result_type(head.result)
        } else {
            None
        }
    }
}

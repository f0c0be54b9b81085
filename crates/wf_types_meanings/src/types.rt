// Types that are written: what they are, and where they may stand.

ghost use Rattle.std.specs.Prelude.{◌≡◌, option_and_then};
ghost use Rattle.wf_types_rules.specs.declared.settings.Role.TheVariants as roles;
ghost use Rattle.wf_types_rules.specs.ExprTypes.{base_of as type_of_base, refined_type as type_within, array_type as type_of_array};
ghost use Rattle.wf_types_rules.specs.DeclaredTypes.{is_number_form as number_form, is_result_form as result_form, form_of as form_of_type, may_have as may_stand_as, begins_as_zero as begins_with_zero, holds_zero as has_zero, is_zero_kept as keeps_zero, if_allowed as only_if_allowed, constant_in as constant_within, constant_with as constant_of_both};
ghost use Rattle.wf_types_rules.specs.Judgements.{lies_in as within, base_form as form_of_base};

use crate::marks::is_coroutine;
use wf_ast::Ty;
use wf_base::Width;
use wf_named::BaseType;
use wf_types_operators::meanings::{all_of, greatest};
use wf_types_rules::{Constant, Form, Role};

/// The type that has a name after `base.`.
pub fn base_of(of: BaseType) -> Ty
    ensures { result ≡ type_of_base of }
{
    match of {
        BaseType::Number(width) => all_of(width),
        BaseType::Flag => Ty::Flag,
        BaseType::Status => Ty::Status,
        BaseType::Reader => Ty::Reader,
        BaseType::Writer => Ty::Writer,
    }
}

/// A number with bounds, where both are there, don't cross, and lie in the width.
pub fn refined_type(width: Width, low: Option<u64>, high: Option<u64>) -> Option<Ty>
    ensures { result ≡ type_within width low high }
{
    match (low, high) {
        (Some(lo), Some(hi)) => {
            if lo <= hi && hi <= greatest(width) {
                Some(Ty::Num { width, lo, hi })
            } else {
                None
            }
        }
        _ => None,
    }
}

/// An array, where it has elements, and these may be 0.
pub fn array_type(count: Option<u64>, element: Option<Ty>) -> Option<Ty>
    ensures { result ≡ type_of_array count element }
{
    match (count, element) {
        (Some(count), Some(Ty::Num { width, lo, hi })) => {
            if 0 < count && lo == 0 {
                Some(Ty::Array {
                    width,
                    lo,
                    hi,
                    len: count.min(0xffff_ffff) as u32,
                })
            } else {
                None
            }
        }
        _ => None,
    }
}

/// The form of a type.
pub(crate) fn form_of(ty: Ty) -> Form
    ensures { result ≡ form_of_type ty }
{
    match ty {
        Ty::Num { .. } => Form::Number,
        Ty::Flag => Form::Flag,
        Ty::Status => Form::Status,
        Ty::Reader => Form::Reader,
        Ty::Writer => Form::Writer,
        Ty::Part(_) => Form::Struct,
        Ty::Slice(_) => Form::Slice,
        Ty::Array { .. } => Form::Array,
    }
}

/// The form of the type that has a name after `base.`.
pub fn base_form(of: BaseType) -> Form
    ensures { result ≡ form_of_base of }
{
    match of {
        BaseType::Number(_) => Form::Number,
        BaseType::Flag => Form::Flag,
        BaseType::Status => Form::Status,
        BaseType::Reader => Form::Reader,
        BaseType::Writer => Form::Writer,
    }
}

/// Whether it is the form of numbers.
pub fn is_number_form(of: Form) -> bool
    ensures { result ≡ number_form of }
{
    matches!(of, Form::Number)
}

fn is_result_form(of: Form) -> bool
    ensures { result ≡ result_form of }
{
    matches!(of, Form::Number | Form::Flag | Form::Status)
}

fn may_field_have(of: Form) -> bool
    ensures { result ≡ may_stand_as roles.Field of }
{
    !matches!(of, Form::Slice | Form::Reader | Form::Writer)
}

fn may_arg_have(of: Form) -> bool
    ensures { result ≡ may_stand_as roles.Arg of }
{
    !matches!(of, Form::Status | Form::Array | Form::Struct)
}

fn may_local_have(of: Form) -> bool
    ensures { result ≡ may_stand_as roles.Local of }
{
    !matches!(of, Form::Reader | Form::Writer | Form::Array | Form::Struct)
}

/// Whether a type of such a form may stand there.
pub fn may_have(role: Role, of: Form) -> bool
    ensures { result ≡ may_stand_as role of }
{
    match role {
        Role::Const => is_number_form(of),
        Role::Field => may_field_have(of),
        Role::Arg => may_arg_have(of),
        Role::Local => may_local_have(of),
        Role::Result(mark) => !is_coroutine(mark) && is_result_form(of),
        Role::Conversion => is_number_form(of),
    }
}

fn begins_as_zero(role: Role) -> bool
    ensures { result ≡ begins_with_zero role }
{
    match role {
        Role::Field | Role::Local | Role::Result(_) => true,
        Role::Const | Role::Arg | Role::Conversion => false,
    }
}

/// Whether 0 is one of its values, where it is a type of numbers.
pub fn holds_zero(ty: Ty) -> bool
    ensures { result ≡ has_zero ty }
{
    match ty {
        Ty::Num { lo, .. } => lo == 0,
        _ => true,
    }
}

/// Whether it holds 0, where a type there has to.
pub fn is_zero_kept(role: Role, ty: Ty) -> bool
    ensures { result ≡ keeps_zero role ty }
{
    if begins_as_zero(role) {
        holds_zero(ty)
    } else {
        true
    }
}

/// The type, where it may stand there.
pub(crate) fn if_allowed(role: Role, ty: Ty) -> Option<Ty>
    ensures { result ≡ only_if_allowed role ty }
{
    if may_have(role, form_of(ty)) && is_zero_kept(role, ty) {
        Some(ty)
    } else {
        None
    }
}

/// The same of a type that may be none.
pub fn allowed(role: Role, ty: Option<Ty>) -> Option<Ty>
    ensures { result ≡ option_and_then (only_if_allowed role) ty }
{
    if_allowed(role, ty?)
}

/// Whether a number lies in the type, where it is one of numbers.
pub fn lies_in(ty: Ty, n: u64) -> bool
    ensures { result ≡ within ty n }
{
    match ty {
        Ty::Num { lo, hi, .. } => lo <= n && n <= hi,
        _ => true,
    }
}

fn constant_in(ty: Ty, n: u64) -> Option<Constant>
    ensures { result ≡ constant_within ty n }
{
    match ty {
        Ty::Num { width, lo, hi } => {
            if lo <= n && n <= hi {
                Some(Constant { width, value: n })
            } else {
                None
            }
        }
        _ => None,
    }
}

/// The constant with this type and number, where the number lies in the type.
pub fn constant_with(ty: Option<Ty>, n: Option<u64>) -> Option<Constant>
    ensures { result ≡ constant_of_both ty n }
{
    match (ty, n) {
        (Some(ty), Some(n)) => constant_in(ty, n),
        _ => None,
    }
}

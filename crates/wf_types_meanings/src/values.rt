// What is made of values: elements, slices, conversions; and which values a type takes.

ghost use Rattle.std.specs.Prelude.{◌≡◌, option_and_then};
ghost use Rattle.wf_ast.specs.declared.types.Ty.TheVariants as types;
ghost use Rattle.wf_types_rules.specs.Meanings.{is_value as means_value, is_flag as means_flag, constant_number as number_meant};
ghost use Rattle.wf_types_rules.specs.ExprTypes.{only_where, element_of as element_in, slice_in as sliced, converted as converts, if_number as only_for_number};
ghost use Rattle.wf_types_rules.specs.Judgements.{takes as takes_value, may_be_handed as may_hand, type_in as typed_so, is_argument as fits_argument};

use wf_ast::Ty;
use wf_base::Width;
use wf_types_operators::meanings::{
    all_of, constant_number, differs_in, greatest, is_flag, is_io, is_number, is_status, is_value,
    same_width, width_of,
};
use wf_types_rules::Meaning;

/// What may stand as a value.
pub fn as_value(of: Option<Meaning>) -> Option<Meaning>
    ensures { result ≡ option_and_then (only_where means_value) of }
{
    let m = of?;
    if is_value(m) { Some(m) } else { None }
}

/// What is a bool.
pub fn as_flag(of: Option<Meaning>) -> Option<Meaning>
    ensures { result ≡ option_and_then (only_where means_flag) of }
{
    let m = of?;
    if is_flag(m) { Some(m) } else { None }
}

/// The number of a constant expression that means something.
pub fn number_in(of: Option<Meaning>) -> Option<u64>
    ensures { result ≡ option_and_then number_meant of }
{
    constant_number(of?)
}

/// The elements of an array or of a slice.
pub fn element_of(m: Meaning) -> Option<Ty>
    ensures { result ≡ element_in m }
{
    match m {
        Meaning::Typed(Ty::Array { width, lo, hi, .. }) => Some(Ty::Num { width, lo, hi }),
        Meaning::Typed(Ty::Slice(width)) => Some(all_of(width)),
        _ => None,
    }
}

/// The slices that it gives.
pub fn slice_in(m: Meaning) -> Option<Ty>
    ensures { result ≡ sliced m }
{
    match m {
        Meaning::Typed(Ty::Slice(width)) => Some(Ty::Slice(width)),
        Meaning::Typed(Ty::Array { width, lo, hi, .. }) => {
            if lo == 0 && hi == greatest(width) {
                Some(Ty::Slice(width))
            } else {
                None
            }
        }
        _ => None,
    }
}

/// The elements and the slices of what a name means.
pub fn elements(of: Option<Meaning>) -> Option<Ty>
    ensures { result ≡ option_and_then element_in of }
{
    element_of(of?)
}

pub fn slices(of: Option<Meaning>) -> Option<Ty>
    ensures { result ≡ option_and_then sliced of }
{
    slice_in(of?)
}

/// The type, where the number before it is one.
pub fn if_number(of: Option<Meaning>, ty: Option<Ty>) -> Option<Ty>
    ensures { result ≡ only_for_number of ty }
{
    if is_number(of?) { ty } else { None }
}

fn converted_to(width: Width, m: Meaning) -> Option<Meaning>
    ensures { result ≡ converts (Some width) m }
{
    match m {
        Meaning::Constant { value, .. } => {
            if value <= greatest(width) {
                Some(Meaning::Constant {
                    width: Some(width),
                    value,
                })
            } else {
                None
            }
        }
        Meaning::Typed(Ty::Num { .. }) => Some(Meaning::Typed(all_of(width))),
        Meaning::Typed(_) => None,
    }
}

/// What `as` makes of a value: a number of the type, which a constant has to lie in.
pub(crate) fn converted(width: Option<Width>, m: Meaning) -> Option<Meaning>
    ensures { result ≡ converts width m }
{
    converted_to(width?, m)
}

/// The same of what may mean nothing.
pub fn conversion(width: Option<Width>, of: Option<Meaning>) -> Option<Meaning>
    ensures { result ≡ option_and_then (converts width) of }
{
    converted(width, of?)
}

/// Whether a type takes a value: numbers of its width and constants without one, and else values of the very type.
pub fn takes(ty: Ty, m: Meaning) -> bool
    ensures { result ≡ takes_value ty m }
{
    match ty {
        Ty::Num { width, .. } => is_number(m) && !differs_in(Some(width), width_of(m)),
        Ty::Flag => is_flag(m),
        Ty::Status => is_status(m),
        Ty::Reader => matches!(m, Meaning::Typed(Ty::Reader)),
        Ty::Writer => matches!(m, Meaning::Typed(Ty::Writer)),
        Ty::Slice(width) => is_slice(width, m),
        Ty::Array { .. } => false,
        Ty::Part(_) => false,
    }
}

fn is_slice(width: Width, m: Meaning) -> bool
    ensures { result ≡ takes_value (types.Slice width) m }
{
    match m {
        Meaning::Typed(Ty::Slice(own)) => same_width(width, own),
        _ => false,
    }
}

/// Whether it may be handed on: values, readers and writers.
pub fn may_be_handed(m: Meaning) -> bool
    ensures { result ≡ may_hand m }
{
    is_value(m) || is_io(m)
}

/// The type of what is no constant.
pub fn type_in(m: Meaning) -> Option<Ty>
    ensures { result ≡ typed_so m }
{
    match m {
        Meaning::Typed(ty) => Some(ty),
        Meaning::Constant { .. } => None,
    }
}

/// Whether an argument means something that its type takes.
pub fn is_argument(ty: Option<Ty>, m: Option<Meaning>) -> bool
    ensures { result ≡ fits_argument ty m }
{
    match ty {
        Some(ty) => {
            match m {
                Some(m) => takes(ty, m),
                None => false,
            }
        }
        None => false,
    }
}

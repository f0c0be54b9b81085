// What each kind of type breaks, and what type it is, by its parts.

ghost use Rattle.std.specs.Prelude.{◌≡◌, None, Some, not, is_some, nat_lt, nat_le, option_map};
ghost use Rattle.wf_ast.specs.declared.types.Ty.TheVariants as types;
ghost use Rattle.wf_named.specs.NamedTree as tree;
ghost use Rattle.wf_types_rules.specs.declared.settings.Form.TheVariants as forms;
ghost use Rattle.wf_types_rules.specs.ExprTypes.{array_type as type_of_array, plain_width};
ghost use Rattle.wf_types_rules.specs.DeclaredTypes.{is_number_form as number_form, holds_zero as has_zero, may_have as may_stand_as, is_zero_kept as keeps_zero};
ghost use Rattle.wf_types_rules.specs.Judgements as judgements;
ghost use Rattle.wf_types_rules.specs.Judgements.{at_if as at_place_if, fails, both_fail};
ghost use Rattle.wf_types_exprs.specs.Judged.{TellsType};
ghost use Rattle.wf_types_exprs.specs.Found.{slice_type_found, array_type_found, low_number_of, refined_crossing, refined_wrong, refined_high, refined_found, refined_base as refined_to, refined_base_form, placed_found};

use crate::found::WrittenType;
use wf_ast::Ty;
use wf_base::Width;
use wf_named::BaseType;
use wf_text::found::Found;
use wf_text::rules::Rule;
use wf_text::{Place, StructId};
use wf_types_meanings::places::at_if;
use wf_types_meanings::types::{
    array_type, base_form, base_of, holds_zero, is_number_form, is_zero_kept, may_have,
    refined_type,
};
use wf_types_operators::meanings::greatest;
use wf_types_rules::{Bound, Form, Role};

fn slices_of(plain: Option<Width>) -> Option<Ty>
    ensures { result ≡ option_map types.Slice plain }
{
    Some(Ty::Slice(plain?))
}

fn wrong_type_of_slice(element: WrittenType, at: Place) -> Option<Place>
    ensures { result ≡ at_place_if (judgements.is_not_plain element.kind element.plain) at }
{
    at_if(element.kind.is_some() && !element.plain.is_some(), at)
}

/// A slice of elements of this type.
pub(crate) fn written_slice(found: &mut Found, element: WrittenType, at: Place) -> WrittenType
    ensures found { found.new ≡ slice_type_found element.kind element.plain at found.old }
    ensures written { result ≡ record { of = option_map types.Slice element.plain; kind = judgements.with_elements forms.Slice element.kind; plain = None; at = at } }
{
    found.tell(Rule::T1, wrong_type_of_slice(element, at));
    WrittenType {
        of: slices_of(element.plain),
        kind: with_elements(Form::Slice, element.kind),
        plain: None,
        at,
    }
}

fn with_elements(whole: Form, element: Option<Form>) -> Option<Form>
    ensures { result ≡ judgements.with_elements whole element }
{
    element?;
    Some(whole)
}

fn is_not_numeric(kind: Option<Form>) -> bool
    ensures { result ≡ fails number_form kind }
{
    match kind {
        Some(kind) => !is_number_form(kind),
        None => false,
    }
}

fn is_zero(n: Option<u64>) -> bool
    ensures { result ≡ fails (nat_lt 0) n }
{
    match n {
        Some(n) => n == 0,
        None => false,
    }
}

fn wrong_type_of_array(count: Bound, element: WrittenType, at: Place) -> Option<Place>
    ensures { result ≡ at_place_if (judgements.is_no_array count element.kind) at }
{
    at_if(count.unfit || is_not_numeric(element.kind), at)
}

fn no_elements(count: Bound) -> Option<Place>
    ensures { result ≡ judgements.no_count count }
{
    at_if(is_zero(count.number), count.at)
}

fn element_above_zero(element: WrittenType) -> Option<Place>
    ensures { result ≡ at_place_if (fails has_zero element.of) element.at }
{
    at_if(!holds_zero(element.of?), element.at)
}

fn tell_array(found: &mut Found, count: Bound, element: WrittenType, at: Place)
    ensures { found.new ≡ array_type_found count element.of element.kind element.at at found.old }
{
    found.tell(Rule::T1, wrong_type_of_array(count, element, at));
    found.tell(Rule::T5, no_elements(count));
    found.tell(Rule::T5, element_above_zero(element));
}

/// An array of so many elements of this type.
pub(crate) fn written_array(
    found: &mut Found,
    count: Bound,
    element: WrittenType,
    at: Place,
) -> WrittenType
    ensures found { found.new ≡ array_type_found count element.of element.kind element.at at found.old }
    ensures written { result ≡ record { of = type_of_array count.number element.of; kind = judgements.with_elements forms.Array element.kind; plain = None; at = at } }
{
    tell_array(found, count, element, at);
    WrittenType {
        of: array_type(count.number, element.of),
        kind: with_elements(Form::Array, element.kind),
        plain: None,
        at,
    }
}

fn plain_of(of: BaseType) -> Option<Width>
    ensures { (at : _) → result ≡ plain_width (tree.base_type (Some of) at tree.unrefined) }
{
    match of {
        BaseType::Number(width) => Some(width),
        BaseType::Flag => None,
        BaseType::Status => None,
        BaseType::Reader => None,
        BaseType::Writer => None,
    }
}

fn wrong_type_of_base(of: Option<BaseType>, at: Place) -> Option<Place>
    ensures { result ≡ at_place_if (not (is_some of)) at }
{
    at_if(of.is_none(), at)
}

/// A type that begins with `base`, without bounds.
#[tactic(auto, unfolding(crate::specs::Judged::judged))]
pub(crate) fn written_plain(found: &mut Found, of: Option<BaseType>, at: Place) -> WrittenType
    ensures { (s : _) → TellsType s found.old found.new (tree.base_type of at tree.unrefined) result }
{
    found.tell(Rule::T1, wrong_type_of_base(of, at));
    match of {
        Some(of) => WrittenType {
            of: Some(base_of(of)),
            kind: Some(base_form(of)),
            plain: plain_of(of),
            at,
        },
        None => WrittenType {
            of: None,
            kind: None,
            plain: None,
            at,
        },
    }
}

/// A struct.
#[tactic(auto, unfolding(crate::specs::Judged::judged))]
pub(crate) fn written_struct(of: StructId, at: Place) -> WrittenType
    ensures { (s : _) (found : _) → TellsType s found found (tree.struct_type of.0 at) result }
{
    WrittenType {
        of: Some(Ty::Part(of)),
        kind: Some(Form::Struct),
        plain: None,
        at,
    }
}

fn is_unfit_low(low: Option<Bound>) -> bool
    ensures { result ≡ judgements.is_unfit_low low }
{
    match low {
        Some(bound) => bound.unfit,
        None => false,
    }
}

fn is_unfit(low: Option<Bound>, high: Bound) -> bool
    ensures { result ≡ judgements.are_unfit low high }
{
    is_unfit_low(low) || high.unfit
}

fn low_number(low: Option<Bound>) -> Option<u64>
    ensures { result ≡ low_number_of low }
{
    match low {
        Some(bound) => bound.number,
        None => Some(0),
    }
}

fn is_above(low: Option<u64>, high: Option<u64>) -> bool
    ensures { result ≡ both_fail nat_le low high }
{
    match (low, high) {
        (Some(m), Some(n)) => m > n,
        (None, Some(_)) => false,
        (Some(_), None) => false,
        (None, None) => false,
    }
}

fn crossed_bounds(of: Option<BaseType>, low: Option<Bound>, high: Bound) -> Option<Place>
    ensures { result ≡ refined_crossing of low high }
{
    match (of, low) {
        (Some(BaseType::Number(_)), Some(low)) => {
            at_if(is_above(low.number, high.number), low.at)
        }
        (Some(BaseType::Number(_)), None) => None,
        (Some(BaseType::Flag), _) => None,
        (Some(BaseType::Status), _) => None,
        (Some(BaseType::Reader), _) => None,
        (Some(BaseType::Writer), _) => None,
        (None, _) => None,
    }
}

fn goes_above(width: Width, low: Option<u64>, high: Option<u64>) -> bool
    ensures { result ≡ judgements.goes_above width low high }
{
    match (low, high) {
        (Some(m), Some(n)) => m <= n && n > greatest(width),
        (None, Some(_)) => false,
        (Some(_), None) => false,
        (None, None) => false,
    }
}

fn high_bound(of: Option<BaseType>, low: Option<Bound>, high: Bound) -> Option<Place>
    ensures { result ≡ refined_high of low high }
{
    match of {
        Some(BaseType::Number(width)) => {
            at_if(goes_above(width, low_number(low), high.number), high.at)
        }
        Some(BaseType::Flag) => None,
        Some(BaseType::Status) => None,
        Some(BaseType::Reader) => None,
        Some(BaseType::Writer) => None,
        None => None,
    }
}

fn wrong_type_with_bounds(
    of: Option<BaseType>,
    low: Option<Bound>,
    high: Bound,
    at: Place,
) -> Option<Place>
    ensures { result ≡ refined_wrong of low high at }
{
    match of {
        Some(BaseType::Number(_)) => at_if(is_unfit(low, high), at),
        Some(BaseType::Flag) => Some(at),
        Some(BaseType::Status) => Some(at),
        Some(BaseType::Reader) => Some(at),
        Some(BaseType::Writer) => Some(at),
        None => Some(at),
    }
}

fn tell_refined(found: &mut Found, of: Option<BaseType>, low: Option<Bound>, high: Bound, at: Place)
    ensures { found.new ≡ refined_found of low high at found.old }
{
    found.tell(Rule::T1, wrong_type_with_bounds(of, low, high, at));
    found.tell(Rule::T5, crossed_bounds(of, low, high));
    found.tell(Rule::T5, high_bound(of, low, high));
}

fn refined_base(of: Option<BaseType>, low: Option<Bound>, high: Bound) -> Option<Ty>
    ensures { result ≡ refined_to of low high }
{
    match of {
        Some(BaseType::Number(width)) => refined_type(width, low_number(low), high.number),
        Some(BaseType::Flag) => None,
        Some(BaseType::Status) => None,
        Some(BaseType::Reader) => None,
        Some(BaseType::Writer) => None,
        None => None,
    }
}

fn refined_form(of: Option<BaseType>, low: Option<Bound>, high: Bound) -> Option<Form>
    ensures { result ≡ refined_base_form of low high }
{
    match of {
        Some(BaseType::Number(_)) => {
            if is_unfit(low, high) {
                None
            } else {
                Some(Form::Number)
            }
        }
        Some(BaseType::Flag) => None,
        Some(BaseType::Status) => None,
        Some(BaseType::Reader) => None,
        Some(BaseType::Writer) => None,
        None => None,
    }
}

/// A type that begins with `base`, with bounds.
pub(crate) fn written_refined(
    found: &mut Found,
    of: Option<BaseType>,
    low: Option<Bound>,
    high: Bound,
    at: Place,
) -> WrittenType
    ensures found { found.new ≡ refined_found of low high at found.old }
    ensures written { result ≡ record { of = refined_to of low high; kind = refined_base_form of low high; plain = None; at = at } }
{
    tell_refined(found, of, low, high, at);
    WrittenType {
        of: refined_base(of, low, high),
        kind: refined_form(of, low, high),
        plain: None,
        at,
    }
}

fn is_refused(role: Role, kind: Option<Form>) -> bool
    ensures { result ≡ fails (may_stand_as role) kind }
{
    match kind {
        Some(kind) => !may_have(role, kind),
        None => false,
    }
}

fn is_misplaced(role: Role, kind: Option<Form>, plain: Option<Width>) -> bool
    ensures { result ≡ judgements.may_not_stand role kind plain }
{
    match role {
        Role::Conversion => kind.is_some() && !plain.is_some(),
        Role::Const => is_refused(role, kind),
        Role::Field => is_refused(role, kind),
        Role::Arg => is_refused(role, kind),
        Role::Local => is_refused(role, kind),
        Role::Result(_) => is_refused(role, kind),
    }
}

fn misplaced_type(role: Role, of: WrittenType) -> Option<Place>
    ensures { result ≡ at_place_if (judgements.may_not_stand role of.kind of.plain) of.at }
{
    at_if(is_misplaced(role, of.kind, of.plain), of.at)
}

fn begins_above_zero(role: Role, of: WrittenType) -> Option<Place>
    ensures { result ≡ at_place_if (fails (keeps_zero role) of.of) of.at }
{
    at_if(!is_zero_kept(role, of.of?), of.at)
}

/// Tells what a type breaks at its place.
pub(crate) fn tell_place(found: &mut Found, role: Role, of: WrittenType)
    ensures { found.new ≡ placed_found role of.of of.kind of.plain of.at found.old }
{
    found.tell(Rule::T1, misplaced_type(role, of));
    found.tell(Rule::T5, begins_above_zero(role, of));
}

// What each kind of expression breaks and means, by what its parts mean.

ghost use Rattle.std.specs.Prelude.{◌≡◌, ◌&&◌, ◌||◌, Some, None, if◌then◌else◌, option_map, option_and_then};
ghost use Rattle.wf_ast.specs.TypedTrees.{operator_kind};
ghost use Rattle.wf_named.specs.NamedTree as tree;
ghost use Rattle.wf_types_rules.specs.declared.meanings.Meaning.TheVariants as meanings;
ghost use Rattle.wf_types_rules.specs.Meanings.{is_flag as means_flag};
ghost use Rattle.wf_types_rules.specs.Operands.{meaning_of_operator as operator_means};
ghost use Rattle.wf_types_rules.specs.ExprTypes.{only_where, meaning, element_of, slice_in, if_number as only_for_number, converted as converts, answer_inside};
ghost use Rattle.wf_named.specs.NamedTrees.{call_at};
ghost use Rattle.wf_types_rules.specs.Judgements as judgements;
ghost use Rattle.wf_types_rules.specs.Judgements.{at_if as at_place_if, fails, both_fail, takes as takes_value, may_be_handed as may_hand, is_argument as fits_argument, answer_type as type_answered, two_operands};
ghost use Rattle.wf_types_rules.specs.Parts as parts;
ghost use Rattle.wf_text.specs.Precedence.{told as told_by};
ghost use Rattle.wf_text.specs.Precedence.{sooner as sooner_of};
ghost use Rattle.wf_text.specs.declared.rules.Rule.TheVariants as rules;
ghost use Rattle.wf_types_exprs.specs.Found.{end_kept, chain_found, conversion_found, argument_found, calling_found};

use crate::found::{Conversion, Ends};
use wf_ast::{Op, Sequence, Ty};
use wf_base::Width;
use wf_named::{NamedCall, NamedCallee, NamedPath};
use wf_text::Place;
use wf_text::found::Found;
use wf_text::rules::Rule;
use wf_types_meanings::calls::{answer_type, declared_mark, is_base, pure_answer};
use wf_types_meanings::marks::{is_coroutine, is_impure, is_pure, same_mark};
use wf_types_meanings::places::{at_if, first_place};
use wf_types_meanings::values::{
    as_flag, as_value, conversion, element_of as element, elements, if_number, is_argument,
    may_be_handed, slice_in as slice, slices, takes,
};
use wf_types_meanings::variables::{typed, variable};
use wf_types_operators::given::{Answer, answer_of, meaning_of_operator};
use wf_types_operators::meanings::{greatest, is_flag, is_number, is_value};
use wf_types_rules::{Around, Meaning, Operand, PlacedMeaning};

fn wrong_number(v: PlacedMeaning) -> Option<Place>
    ensures { result ≡ judgements.no_number v }
{
    at_if(!is_number(v.of?), v.at)
}

fn wrong_operand_in_negation(v: PlacedMeaning) -> Option<Place>
    ensures { result ≡ judgements.no_flag v }
{
    at_if(!is_flag(v.of?), v.at)
}

fn wrong_operand_in_path(v: PlacedMeaning) -> Option<Place>
    ensures { result ≡ judgements.no_value v }
{
    at_if(!is_value(v.of?), v.at)
}

/// A path: whether it may stand as a value.
pub(crate) fn judged_path(
    found: &mut Found,
    around: &Around<'_>,
    path: NamedPath,
) -> Option<Meaning>
    ensures found { found.new ≡ sooner_of found.old (told_by rules.T1 (judgements.no_value (judgements.base_value around.now path))) }
    ensures of { result ≡ meaning around.now (tree.path path) }
{
    let of = variable(around, path.of);
    let v = PlacedMeaning { of, at: path.at };
    found.tell(Rule::T1, wrong_operand_in_path(v));
    as_value(of)
}

/// What a path means, with its place.
pub fn base_value(around: &Around<'_>, path: NamedPath) -> PlacedMeaning
    ensures { result ≡ judgements.base_value around.now path }
{
    PlacedMeaning {
        of: variable(around, path.of),
        at: path.at,
    }
}

fn wrong_operand_in_index(base: PlacedMeaning, index: PlacedMeaning) -> Option<Place>
    ensures { result ≡ judgements.no_index base index }
{
    let m = base.of?;
    if index.of.is_some() {
        first_place(at_if(!element(m).is_some(), base.at), wrong_number(index))
    } else {
        None
    }
}

/// What an element of what a path stands for means, by what the path and the index mean.
pub fn index_meaning(base: Option<Meaning>, index: Option<Meaning>) -> Option<Meaning>
    ensures { result ≡ option_map meanings.Typed (only_for_number index (option_and_then element_of base)) }
{
    typed(if_number(index, elements(base)))
}

/// An element of what a path stands for.
pub fn judged_index(found: &mut Found, base: PlacedMeaning, index: PlacedMeaning) -> Option<Meaning>
    ensures found { found.new ≡ sooner_of found.old (told_by rules.T1 (judgements.no_index base index)) }
    ensures of { result ≡ option_map meanings.Typed (only_for_number index.of (option_and_then element_of base.of)) }
{
    found.tell(Rule::T1, wrong_operand_in_index(base, index));
    index_meaning(base.of, index.of)
}

fn wrong_end(end: Option<PlacedMeaning>) -> Option<Place>
    ensures { result ≡ judgements.no_end end }
{
    wrong_number(end?)
}

fn is_known(end: Option<PlacedMeaning>) -> bool
    ensures { result ≡ judgements.is_known end }
{
    match end {
        Some(v) => v.of.is_some(),
        None => true,
    }
}

fn if_end(end: Option<PlacedMeaning>, ty: Option<Ty>) -> Option<Ty>
    ensures { result ≡ end_kept end ty }
{
    match end {
        Some(v) => if_number(v.of, ty),
        None => ty,
    }
}

fn both_known(from: Option<PlacedMeaning>, to: Option<PlacedMeaning>) -> bool
    ensures { result ≡ (judgements.is_known from && judgements.is_known to) }
{
    is_known(from) && is_known(to)
}

fn wrong_operand_in_slice(
    base: PlacedMeaning,
    from: Option<PlacedMeaning>,
    to: Option<PlacedMeaning>,
) -> Option<Place>
    ensures { result ≡ judgements.no_slice base from to }
{
    let m = base.of?;
    if both_known(from, to) {
        first_place(
            at_if(!slice(m).is_some(), base.at),
            first_place(wrong_end(from), wrong_end(to)),
        )
    } else {
        None
    }
}

/// What a slice of what a path stands for means, by what the path and the ends mean.
pub fn slice_meaning(
    base: Option<Meaning>,
    from: Option<PlacedMeaning>,
    to: Option<PlacedMeaning>,
) -> Option<Meaning>
    ensures { result ≡ option_map meanings.Typed (end_kept from (end_kept to (option_and_then slice_in base))) }
{
    typed(if_end(from, if_end(to, slices(base))))
}

/// A slice of what a path stands for, by its ends.
pub(crate) fn judged_slice(found: &mut Found, base: PlacedMeaning, ends: Ends) -> Option<Meaning>
    ensures found { found.new ≡ sooner_of found.old (told_by rules.T1 (judgements.no_slice base ends.from ends.to)) }
    ensures of { result ≡ option_map meanings.Typed (end_kept ends.from (end_kept ends.to (option_and_then slice_in base.of))) }
{
    found.tell(Rule::T1, wrong_operand_in_slice(base, ends.from, ends.to));
    slice_meaning(base.of, ends.from, ends.to)
}

/// What a chain means, where each of its operands means something.
pub fn chain_meaning(op: Op, operands: &Option<Sequence<Operand>>) -> Option<Meaning>
    ensures { result ≡ option_and_then (operator_means (operator_kind op)) operands.now }
{
    let operands = operands.as_ref()?;
    meaning_of_operator(op, operands.as_slice())
}

fn wrong_operand_in_chain(answer: Answer) -> Option<Place>
    ensures { result ≡ answer.untaken }
{
    answer.untaken
}

fn node_without_value_in_chain(answer: Answer, at: Place) -> Option<Place>
    ensures { result ≡ at_place_if answer.has_no_value at }
{
    at_if(answer.has_no_value, at)
}

fn unfit_operand(answer: Answer) -> Option<Place>
    ensures { result ≡ answer.unfit }
{
    answer.unfit
}

// Operands of which each means something, judged at once.
fn judged_operands(found: &mut Found, op: Op, os: &[Operand], at: Place) -> Option<Meaning>
    ensures found { found.new ≡ chain_found (operator_kind op) (Some os.now) at found.old }
    ensures of { result ≡ operator_means (operator_kind op) os.now }
{
    let answer = answer_of(op, os);
    found.tell(Rule::T1, wrong_operand_in_chain(answer));
    found.tell(Rule::T5, node_without_value_in_chain(answer, at));
    found.tell(Rule::T5, unfit_operand(answer));
    answer.of
}

/// A chain of operands, where each means something.
pub(crate) fn judged_chain(
    found: &mut Found,
    operands: &Option<Sequence<Operand>>,
    op: Op,
    at: Place,
) -> Option<Meaning>
    ensures found { found.new ≡ chain_found (operator_kind op) operands.now at found.old }
    ensures of { result ≡ option_and_then (operator_means (operator_kind op)) operands.now }
{
    match operands {
        Some(os) => judged_operands(found, op, os.as_slice(), at),
        None => None,
    }
}

/// A chain of two operands, where each means something.
pub(crate) fn judged_pair(
    found: &mut Found,
    op: Op,
    a: PlacedMeaning,
    b: PlacedMeaning,
    at: Place,
) -> Option<Meaning>
    ensures found { found.new ≡ chain_found (operator_kind op) (two_operands a b) at found.old }
    ensures of { result ≡ option_and_then (operator_means (operator_kind op)) (two_operands a b) }
{
    match (a.of, b.of) {
        (Some(first), Some(second)) => {
            let os = [
                Operand {
                    at: a.at,
                    of: first,
                },
                Operand {
                    at: b.at,
                    of: second,
                },
            ];
            judged_operands(found, op, os.as_slice(), at)
        }
        (None, Some(_)) => None,
        (Some(_), None) => None,
        (None, None) => None,
    }
}

fn is_cut(of: Option<Meaning>, width: Option<Width>) -> bool
    ensures { result ≡ judgements.is_cut of width }
{
    match (of, width) {
        (Some(Meaning::Constant { value, .. }), Some(width)) => value > greatest(width),
        _ => false,
    }
}

fn wrong_operand_in_conversion(v: PlacedMeaning) -> Option<Place>
    ensures { result ≡ judgements.no_number v }
{
    wrong_number(v)
}

fn node_without_value_in_conversion(
    v: PlacedMeaning,
    width: Option<Width>,
    at: Place,
) -> Option<Place>
    ensures { result ≡ at_place_if (judgements.is_cut v.of width) at }
{
    at_if(is_cut(v.of, width), at)
}

/// A conversion to numbers of a width.
pub(crate) fn judged_conversion(found: &mut Found, of: Conversion, at: Place) -> Option<Meaning>
    ensures found { found.new ≡ conversion_found of.value of.plain at found.old }
    ensures of { result ≡ option_and_then (converts of.plain) of.value.of }
{
    found.tell(Rule::T1, wrong_operand_in_conversion(of.value));
    found.tell(
        Rule::T5,
        node_without_value_in_conversion(of.value, of.plain, at),
    );
    conversion(of.plain, of.value.of)
}

/// A `not`.
pub(crate) fn judged_negation(found: &mut Found, v: PlacedMeaning) -> Option<Meaning>
    ensures found { found.new ≡ sooner_of found.old (told_by rules.T1 (judgements.no_flag v)) }
    ensures of { result ≡ option_and_then (only_where means_flag) v.of }
{
    found.tell(Rule::T1, wrong_operand_in_negation(v));
    as_flag(v.of)
}

// Whether an argument may not be handed on, or isn't taken by its type.
fn is_wrong_argument(ty: Option<Ty>, of: Option<Meaning>) -> bool
    ensures { result ≡ (fails may_hand of || both_fail takes_value ty of) }
{
    match (ty, of) {
        (Some(ty), Some(m)) => !may_be_handed(m) || !takes(ty, m),
        (None, Some(m)) => !may_be_handed(m),
        (Some(_), None) => false,
        (None, None) => false,
    }
}

fn wrong_argument(ty: Option<Ty>, v: PlacedMeaning) -> Option<Place>
    ensures { result ≡ judgements.not_handed ty v }
{
    at_if(is_wrong_argument(ty, v.of), v.at)
}

/// Whether an argument fits the type that is wanted of it.
pub(crate) fn judged_argument(found: &mut Found, ty: Option<Ty>, v: PlacedMeaning) -> bool
    ensures found { found.new ≡ argument_found ty v found.old }
    ensures fit { result ≡ fits_argument ty v.of }
{
    found.tell(Rule::T1, wrong_argument(ty, v));
    is_argument(ty, v.of)
}

fn call_inside(around: &Around<'_>, call: &NamedCall, inside: bool) -> Option<Place>
    ensures { (es : _) → result ≡ judgements.call_inside around.now (parts.calling inside (call_at es call.now)) }
{
    if inside {
        at_if(!is_pure(call.mark) || !is_base(call.callee), call.at)
    } else {
        None
    }
}

fn wrong_mark(around: &Around<'_>, call: &NamedCall) -> Option<Place>
    ensures { (inside : _) (es : _) → result ≡ judgements.wrong_mark around.now (parts.calling inside (call_at es call.now)) }
{
    let mark = declared_mark(around, call.callee)?;
    at_if(!same_mark(call.mark, mark), call.at)
}

fn impure_call(around: &Around<'_>, call: &NamedCall) -> Option<Place>
    ensures { (inside : _) (es : _) → result ≡ judgements.impure_call around.now (parts.calling inside (call_at es call.now)) }
{
    at_if(is_impure(call.mark) && is_pure(around.mark()), call.at)
}

fn coroutine_call(around: &Around<'_>, call: &NamedCall) -> Option<Place>
    ensures { (inside : _) (es : _) → result ≡ judgements.coroutine_call around.now (parts.calling inside (call_at es call.now)) }
{
    at_if(
        is_coroutine(call.mark) && !is_coroutine(around.mark()),
        call.at,
    )
}

/// Tells what a call breaks by its mark; `inside` tells whether it stands inside an expression.
pub(crate) fn tell_calling(found: &mut Found, around: &Around<'_>, call: &NamedCall, inside: bool)
    ensures { (es : _) → found.new ≡ calling_found around.now inside (call_at es call.now) found.old }
{
    found.tell(Rule::E1, impure_call(around, call));
    found.tell(Rule::E2, coroutine_call(around, call));
    found.tell(Rule::E3, call_inside(around, call, inside));
    found.tell(Rule::E3, wrong_mark(around, call));
}

/// What a call inside an expression means.
pub fn inner_answer(around: &Around<'_>, call: &NamedCall) -> Option<Meaning>
    ensures { (args : _) → result ≡ answer_inside around.now (tree.call call.now.callee call.now.at call.now.mark args) }
{
    match call.callee {
        NamedCallee::Base { on, sig } => {
            if variable(around, on.of).is_some() {
                pure_answer(sig, call.mark)
            } else {
                None
            }
        }
        NamedCallee::Own(_) => None,
        NamedCallee::Sub { .. } => None,
    }
}

/// What a call means as the whole right side of `=`, by whether its arguments fit.
pub(crate) fn whole_answer(around: &Around<'_>, callee: NamedCallee, fit: bool) -> Option<Meaning>
    ensures { result ≡ (if fit then option_map meanings.Typed (type_answered around.now callee) else None) }
{
    if fit {
        typed(answer_type(around, callee))
    } else {
        None
    }
}

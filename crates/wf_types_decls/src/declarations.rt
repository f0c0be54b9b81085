// Constants and statuses.

ghost use Rattle.std.specs.Prelude.{◌≡◌, ◌<◌, ◌++◌, ◌∷◌, [], not, length, map, nat_eq, slice_get, IfOk, OnOk};
ghost use Rattle.wf_ast.specs.BaseStatuses.{base_statuses as texts_of_language};
ghost use Rattle.wf_named.specs.NamedParts.{exprs_of, NamedConstBelow};
ghost use Rattle.wf_named.specs.NamedTrees.{const_made, word_at, text_or};
ghost use Rattle.wf_types_rules.specs.DeclaredTypes.{among_constants, constants_after, constant_made};
ghost use Rattle.wf_types_rules.specs.Judgements.{at_if as at_place_if, no_constant, both_fail, lies_in as lies_within, lies_outside as value_lies_outside, two_questions as questions_in_a_row, is_status_text as text_of_status};
ghost use Rattle.wf_types_rules.specs.Parts.{constant_declared, status_declared, declared_parts, expr_parts, const_sites};
ghost use Rattle.wf_types_rules.specs.declared.settings.Role.TheVariants as roles;
ghost use Rattle.wf_types_exprs.specs.Judged.{judged};
ghost use Rattle.wf_types_decls.specs.Packages.{decided, constant_found};

use std::alloc::Global;
use wf_ast::parsed::Name;
use wf_ast::{Sequence, Ty};
use wf_base::Mark;
use wf_named::{NamedConst, NamedNodes};
use wf_text::Place;
use wf_text::categories::Category;
use wf_text::faults::NoMemory;
use wf_text::found::Found;
use wf_text::rules::Rule;
use wf_text::status_text::category;
use wf_types_exprs::Here;
use wf_types_exprs::walk::judge_value;
use wf_types_exprs::whole::judge_type;
use wf_types_meanings::places::at_if;
use wf_types_meanings::types::{constant_with, lies_in};
use wf_types_meanings::values::number_in;
use wf_types_operators::meanings::is_constant;
use wf_types_rules::{Constant, PlacedMeaning, Role, Setting};

const BASE_STATUSES: [&str; 10] = [
    "",
    "$base: short read",
    "$base: short write",
    "@base: end of data",
    "#base: bad receiver",
    "#base: bad argument",
    "#base: initialize not called",
    "#base: interleaved coroutine calls",
    "#base: disabled by previous error",
    "#base: cannot return a suspension",
];

fn value_no_number(v: PlacedMeaning) -> Option<Place>
    ensures { result ≡ no_constant v }
{
    at_if(!is_constant(v.of?), v.at)
}

fn lies_outside(ty: Option<Ty>, n: Option<u64>) -> bool
    ensures { result ≡ both_fail lies_within ty n }
{
    match (ty, n) {
        (Some(ty), Some(n)) => !lies_in(ty, n),
        (None, Some(_)) => false,
        (Some(_), None) => false,
        (None, None) => false,
    }
}

fn value_outside(ty: Option<Ty>, v: PlacedMeaning) -> Option<Place>
    ensures { result ≡ value_lies_outside ty v }
{
    at_if(lies_outside(ty, number_in(v.of)), v.at)
}

/// Tells what the value of a constant of this type breaks.
pub(crate) fn tell_constant(found: &mut Found, ty: Option<Ty>, v: PlacedMeaning)
    ensures { found.new ≡ constant_found ty v found.old }
{
    found.tell(Rule::T1, value_no_number(v));
    found.tell(Rule::T5, value_outside(ty, v));
}

/// The value of a constant, where it breaks no rule and the constants before it are known.
pub(crate) fn judge_const(
    here: &Here<'_>,
    found: &mut Found,
    constant: &NamedConst,
) -> Result<Option<Constant>, NoMemory>
    requires { NamedConstBelow (length here.now.nodes.now.texts) (length here.now.nodes.now.exprs) constant.now }
    ensures found { OnOk result (found.new ≡ judged here.now.around.now found.old (constant_declared (const_made here.now.nodes.now.texts (exprs_of here.now.nodes.now) constant.now) ∷ (declared_parts roles.Const (const_made here.now.nodes.now.texts (exprs_of here.now.nodes.now) constant.now).of ++ expr_parts (const_made here.now.nodes.now.texts (exprs_of here.now.nodes.now) constant.now).value))) }
    ensures of { IfOk result (λ n. (known : _) → here.now.around.now ≡ among_constants known → n ≡ constant_made known (const_made here.now.nodes.now.texts (exprs_of here.now.nodes.now) constant.now)) }
{
    let ty = judge_type(here, found, Role::Const, &constant.of)?;
    let v = judge_value(here, found, constant.value)?;
    tell_constant(found, ty, v);
    Ok(constant_with(ty, number_in(v.of)))
}

/// A setting that knows nothing.
pub(crate) fn nothing_known(alloc: Global) -> Setting
    ensures { result ≡ among_constants [] }
{
    Setting {
        constants: Sequence::new(alloc),
        fields: Sequence::new(alloc),
        args: Sequence::new(alloc),
        locals: Sequence::new(alloc),
        methods: Sequence::new(alloc),
        statuses: Sequence::new(alloc),
        mark: Mark::Pure,
        gives: None,
    }
}

fn with_constant(around: Setting, of: Option<Constant>) -> Result<Setting, NoMemory>
    ensures { IfOk result (λ s. s ≡ record around { constants = around.constants ++ of ∷ [] }) }
{
    let mut around = around;
    around.constants.push(of)?;
    Ok(around)
}

// A constant after those that are known.
fn judge_next(
    alloc: Global,
    found: &mut Found,
    nodes: &NamedNodes,
    known: Setting,
    constant: &NamedConst,
) -> Result<Setting, NoMemory>
    requires { NamedConstBelow (length nodes.now.texts) (length nodes.now.exprs) constant.now }
    ensures found { OnOk result (found.new ≡ judged known found.old (constant_declared (const_made nodes.now.texts (exprs_of nodes.now) constant.now) ∷ (declared_parts roles.Const (const_made nodes.now.texts (exprs_of nodes.now) constant.now).of ++ expr_parts (const_made nodes.now.texts (exprs_of nodes.now) constant.now).value))) }
    ensures around { IfOk result (λ s. (before : _) → known ≡ among_constants before → s ≡ among_constants (before ++ constant_made before (const_made nodes.now.texts (exprs_of nodes.now) constant.now) ∷ [])) }
{
    let around = known.lent();
    let here = Here {
        alloc,
        nodes,
        around: &around,
    };
    let of = judge_const(&here, found, constant)?;
    with_constant(known, of)
}

/// A setting that knows all constants and nothing else. Each knows those before it.
pub(crate) fn judge_consts(
    alloc: Global,
    found: &mut Found,
    nodes: &NamedNodes,
) -> Result<Setting, NoMemory>
    ensures found { OnOk result (found.new ≡ decided found.old (const_sites [] (map (const_made nodes.now.texts (exprs_of nodes.now)) nodes.now.consts))) }
    ensures around { IfOk result (λ s. s ≡ among_constants (constants_after [] (map (const_made nodes.now.texts (exprs_of nodes.now)) nodes.now.consts))) }
{
    let mut known = nothing_known(alloc);
    for constant in nodes.consts() {
        known = judge_next(alloc, found, nodes, known, constant)?;
    }
    Ok(known)
}

fn is_question(byte: u8) -> bool
    ensures { result ≡ nat_eq byte 63 }
{
    byte == b'?'
}

// Whether two `?` stand in a row.
fn two_questions(text: &[u8]) -> bool
    ensures { result ≡ questions_in_a_row text.now }
{
    let mut before = false;
    for byte in text {
        let here = is_question(*byte);
        if before && here {
            return true;
        }
        before = here;
    }
    false
}

/// Whether a text may be that of a status: it begins with the byte of a kind, goes on, and has no two `?` in a row.
pub(crate) fn is_status_text(text: &[u8]) -> bool
    ensures { result ≡ text_of_status text.now }
{
    match text {
        [_, _, ..] => !matches!(category(text), Category::Fine) && !two_questions(text),
        _ => false,
    }
}

fn wrong_status(nodes: &NamedNodes, text: Name) -> Option<Place>
    requires { text.text.0 < length nodes.now.texts }
    ensures { result ≡ at_place_if (not (text_of_status (text_or (slice_get nodes.now.texts text.text.0)))) text.at }
{
    let right = is_status_text(nodes.text(text.text));
    at_if(!right, text.at)
}

fn judge_status(found: &mut Found, nodes: &NamedNodes, text: Name)
    requires { text.text.0 < length nodes.now.texts }
    ensures { (s : _) → found.new ≡ judged s found.old (status_declared (word_at nodes.now.texts text) ∷ []) }
{
    found.tell(Rule::T5, wrong_status(nodes, text));
}

/// The package's own statuses.
pub(crate) fn judge_statuses(found: &mut Found, nodes: &NamedNodes)
    ensures { (s : _) → found.new ≡ judged s found.old (map status_declared (map (word_at nodes.now.texts) nodes.now.statuses)) }
{
    for text in nodes.statuses() {
        judge_status(found, nodes, *text);
    }
}

/// A text more.
pub fn with_text(
    alloc: Global,
    texts: Sequence<Sequence<u8>>,
    text: &[u8],
) -> Result<Sequence<Sequence<u8>>, NoMemory>
    ensures { IfOk result (λ all. all ≡ texts ++ text.now ∷ []) }
{
    let mut texts = texts;
    let copy = Sequence::from_slice(alloc, text)?;
    texts.push(copy)?;
    Ok(texts)
}

fn words_copied(alloc: Global, words: &[&str]) -> Result<Sequence<Sequence<u8>>, NoMemory>
    ensures { IfOk result (λ all. all ≡ map (λ w. w.now) words.now) }
{
    let mut all = Sequence::new(alloc);
    for word in words {
        all = with_text(alloc, all, word.as_bytes())?;
    }
    Ok(all)
}

// The texts of ok and of the statuses of the language.
fn base_statuses(alloc: Global) -> Result<Sequence<Sequence<u8>>, NoMemory>
    ensures { IfOk result (λ all. all ≡ texts_of_language) }
{
    words_copied(alloc, &BASE_STATUSES)
}

/// The texts of all statuses, by number.
pub(crate) fn status_texts(
    alloc: Global,
    nodes: &NamedNodes,
) -> Result<Sequence<Sequence<u8>>, NoMemory>
    ensures { IfOk result (λ all. all ≡ texts_of_language ++ map (λ w. w.text) (map (word_at nodes.now.texts) nodes.now.statuses)) }
{
    let mut all = base_statuses(alloc)?;
    for text in nodes.statuses() {
        all = with_text(alloc, all, nodes.text(text.text))?;
    }
    Ok(all)
}

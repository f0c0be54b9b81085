// The functions that a package asks of a text: their parameters and results (ISO/IEC 9899:1999, 6.9.1).

ghost use Rattle.std.specs.Prelude.{◌≡◌, ◌<◌, ◌≤◌, ◌++◌, ◌∷◌, ℕ, List, map, drop, length, option_map, Some, IfSome, codes};
ghost use Rattle.std.specs.List.{slice_get};
ghost use Rattle.std.specs.Str.{bytes_eq};
ghost use Rattle.wf_base.specs.BaseTable.{bits_of};
ghost use Rattle.wf_bufs.specs.SurfaceViews.{answer_kind_of};
ghost use Rattle.wf_text.specs.Surface.{slice};
ghost use Rattle.c_text.specs.CTree.{struct_pointer};
ghost use Rattle.c_text.specs.CNodes.{unit_tree, type_in, param_tree};
ghost use Rattle.c_text.specs.CFits.{HasType, HasParams};
ghost use Rattle.c_meaning.specs.CTypes.{same_type, same_uint};
ghost use Rattle.c_meaning.specs.UnitForm.{uint_of as uint_of_bits, param, args_params, answer_type, same_params, same_result, has_signature as has_signature_of, is_struct as is_struct_item, is_external as is_external_linkage};
ghost use Rattle.c_form.specs.Signatures.{wanted_type, first_is, signature_of, TakesOne, TakesArg};

use c_text::{CItem, CItemId, CParam, CType, CUint, Linkage, Unit};
use wf_base::Width;
use wf_bufs::{AnswerKind, ArgDecl, ArgKind};

/// A type that is asked for.
#[derive(Clone, Copy)]
pub(crate) enum Wanted<'a> {
    /// A number of this width.
    Uint(CUint),
    /// `size_t`
    Size,
    /// `_Bool`
    Bool,
    /// A pointer to numbers of this width.
    UintPointer(CUint),
    /// A pointer to the struct of this name.
    Struct(&'a [u8]),
    /// `const char*`
    Text,
}

/// What a function is asked for.
#[derive(Clone, Copy)]
pub(crate) struct Asked<'a> {
    /// The type of the struct that it is a function of.
    pub of: &'a [u8],
    /// Its arguments.
    pub args: &'a [ArgDecl],
    /// What it answers.
    pub answers: AnswerKind,
}

fn uint_of(width: Width) -> CUint
    ensures { result ≡ uint_of_bits (bits_of width) }
{
    match width {
        Width::W8 => CUint::U8,
        Width::W16 => CUint::U16,
        Width::W32 => CUint::U32,
        Width::W64 => CUint::U64,
    }
}

fn is_same_uint(a: CUint, b: CUint) -> bool
    ensures { result ≡ same_uint a b }
{
    match (a, b) {
        (CUint::U8, CUint::U8) => true,
        (CUint::U16, CUint::U16) => true,
        (CUint::U32, CUint::U32) => true,
        (CUint::U64, CUint::U64) => true,
        (_, _) => false,
    }
}

/// Whether a type is the one that is asked for.
pub(crate) fn is_type(unit: &Unit, ty: CType, wanted: Wanted<'_>) -> bool
    requires { HasType unit.now ty }
    ensures { result ≡ same_type (wanted_type wanted.entry) (type_in unit.now.names ty) }
{
    match (wanted, ty) {
        (Wanted::Uint(a), CType::Uint(b)) => is_same_uint(a, b),
        (Wanted::Size, CType::Size) => true,
        (Wanted::Bool, CType::Bool) => true,
        (Wanted::UintPointer(a), CType::UintPointer(b)) => is_same_uint(a, b),
        (Wanted::Struct(name), CType::StructPointer(found)) => name == unit.name(found),
        (Wanted::Text, CType::Text) => true,
        (_, _) => false,
    }
}

/// Whether a name is `front` with `name` after it.
fn is_spelt(found: &[u8], front: &[u8], name: &[u8]) -> bool
    ensures { result ≡ bytes_eq (front.now ++ name.now) found.now }
{
    if found.len() < front.len() {
        return false;
    }
    let (first, rest) = found.split_at(front.len());
    first == front && rest == name
}

/// Whether the parameter with number `at` has this type and name.
fn is_param(
    unit: &Unit,
    params: &[CParam],
    at: usize,
    wanted: Wanted<'_>,
    front: &[u8],
    name: &[u8],
) -> bool
    requires { HasParams unit.now params.now }
    ensures { result ≡ first_is (record { kind = wanted_type wanted.entry; name = front.now ++ name.now }) (map (param_tree unit.now.names) (drop at params.now)) }
{
    match params.get(at) {
        Some(param) => {
            is_type(unit, param.kind, wanted) && is_spelt(unit.name(param.name), front, name)
        }
        None => false,
    }
}

/// The number of parameters up to the one with this type and the argument's name, which stands at `at`; None where it
/// doesn't.
fn behind_one(
    unit: &Unit,
    params: &[CParam],
    at: usize,
    wanted: Wanted<'_>,
    name: &[u8],
) -> Option<usize>
    requires params { HasParams unit.now params.now }
    requires at { at ≤ length params.now }
    ensures { TakesOne unit.now params.now at (record { kind = wanted_type wanted.entry; name = codes "a_" ++ name.now }) result }
{
    if is_param(unit, params, at, wanted, b"a_", name) {
        Some(at + 1)
    } else {
        None
    }
}

/// The number of parameters up to those of this argument, which stand from `at` on; None where they don't.
fn behind_arg(unit: &Unit, params: &[CParam], at: usize, arg: &ArgDecl) -> Option<usize>
    requires params { HasParams unit.now params.now }
    requires at { at ≤ length params.now }
    ensures { TakesArg unit.now params.now at arg.now result }
{
    let name = arg.name.as_slice();
    match arg.kind {
        ArgKind::Number(width) => behind_one(unit, params, at, Wanted::Uint(uint_of(width)), name),
        ArgKind::Flag => behind_one(unit, params, at, Wanted::Bool, name),
        ArgKind::Reader => {
            behind_one(
                unit,
                params,
                at,
                Wanted::Struct(b"wuffs_base__io_buffer"),
                name,
            )
        }
        ArgKind::Writer => {
            behind_one(
                unit,
                params,
                at,
                Wanted::Struct(b"wuffs_base__io_buffer"),
                name,
            )
        }
        ArgKind::Slice(width) => behind_slice(unit, params, at, width, name),
    }
}

/// The same of a slice.
fn behind_slice(
    unit: &Unit,
    params: &[CParam],
    at: usize,
    width: Width,
    name: &[u8],
) -> Option<usize>
    requires params { HasParams unit.now params.now }
    requires at { at ≤ length params.now }
    ensures { TakesArg unit.now params.now at (record { name = name.now; kind = slice (bits_of width) }) result }
{
    if !is_param(
        unit,
        params,
        at,
        Wanted::UintPointer(uint_of(width)),
        b"ap_",
        name,
    ) {
        return None;
    }
    if is_param(unit, params, at + 1, Wanted::Size, b"al_", name) {
        Some(at + 2)
    } else {
        None
    }
}

/// Whether the parameters after the first are those of these arguments.
fn takes_args(unit: &Unit, params: &[CParam], args: &[ArgDecl]) -> bool
    requires params { HasParams unit.now params.now }
    requires first { 1 ≤ length params.now }
    ensures { result ≡ same_params (args_params args.now) (map (param_tree unit.now.names) (drop 1 params.now)) }
{
    let mut at = 1;
    for arg in args {
        match behind_arg(unit, params, at, arg) {
            Some(next) => at = next,
            None => return false,
        }
    }
    at == params.len()
}

/// Whether a result is what is asked for.
fn is_answer(unit: &Unit, result_type: Option<CType>, answers: AnswerKind) -> bool
    requires { IfSome result_type (HasType unit.now) }
    ensures { result ≡ same_result (answer_type (answer_kind_of answers)) (option_map (type_in unit.now.names) result_type) }
{
    match (answers, result_type) {
        (AnswerKind::Status, Some(ty)) => is_type(unit, ty, Wanted::Text),
        (AnswerKind::Number(width), Some(ty)) => is_type(unit, ty, Wanted::Uint(uint_of(width))),
        (AnswerKind::Flag, Some(ty)) => is_type(unit, ty, Wanted::Bool),
        (AnswerKind::Nothing, None) => true,
        (AnswerKind::Nothing, Some(_)) => false,
        (AnswerKind::Status, None) => false,
        (AnswerKind::Number(_), None) => false,
        (AnswerKind::Flag, None) => false,
    }
}

fn is_external(linkage: Linkage) -> bool
    ensures { result ≡ is_external_linkage linkage }
{
    match linkage {
        Linkage::External => true,
        Linkage::Static | Linkage::StaticInline => false,
    }
}

/// Whether the parameters are a pointer to a struct of this type and those of these arguments.
fn takes(unit: &Unit, params: &[CParam], of: &[u8], args: &[ArgDecl]) -> bool
    requires { HasParams unit.now params.now }
    ensures { result ≡ same_params (param (struct_pointer of.now) (codes "self") ∷ args_params args.now) (map (param_tree unit.now.names) params.now) }
{
    is_param(unit, params, 0, Wanted::Struct(of), b"", b"self") && takes_args(unit, params, args)
}

/// Whether an item is a function that is as asked for.
pub(crate) fn has_signature(unit: &Unit, i: usize, asked: Asked<'_>) -> bool
    requires { i < length unit.now.items }
    ensures { (name : List ℕ) → option_map (has_signature_of (signature_of name asked.entry)) (slice_get (unit_tree unit.now) i) ≡ Some result }
{
    match unit.item(CItemId(i)) {
        CItem::Struct { .. } => false,
        CItem::Text { .. } => false,
        CItem::Function {
            linkage,
            result,
            params,
            ..
        } => {
            is_external(*linkage)
                && (takes(unit, params.as_slice(), asked.of, asked.args)
                    && is_answer(unit, *result, asked.answers))
        }
    }
}

/// Whether an item is a struct.
pub(crate) fn is_struct(unit: &Unit, i: usize) -> bool
    requires { i < length unit.now.items }
    ensures { option_map is_struct_item (slice_get (unit_tree unit.now) i) ≡ Some result }
{
    match unit.item(CItemId(i)) {
        CItem::Struct { .. } => true,
        CItem::Text { .. } => false,
        CItem::Function { .. } => false,
    }
}

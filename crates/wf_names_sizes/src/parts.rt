// Fields of structs by their bytes, as far as these don't depend on other structs.

ghost use Rattle.std.specs.Prelude.{◌≡◌, ◌*◌, ◌<◌, ◌≤◌, length, min, map, IfOk, false, codes, bytes_eq};
ghost use Rattle.wf_ast.specs.ParsedTrees.{expr_trees, expr_at, type_at, core_at, fields_at};
ghost use Rattle.wf_ast.specs.ParsedParts.{TypeBelow, FieldsBelow};
ghost use Rattle.wf_names_rules.specs.Declarations.{variables, declared_in};
ghost use Rattle.wf_names_rules.specs.Meanings.{width_named as width_by_name};
ghost use Rattle.wf_names_rules.specs.ConstantValues.{known_constants, value_of};
ghost use Rattle.wf_names_rules.specs.Tables.{number_at};
ghost use Rattle.wf_names_rules.specs.Sizes.{number_or_zero, width_bytes as bytes_of_width, flag_bytes, plain_bytes as bytes_of_type, struct_held as held_by_type};
ghost use Rattle.wf_names_scopes.specs.Agreeing.{TellsNumbers};
ghost use Rattle.wf_names_sizes.specs.Settings.{TellsSetting};
ghost use Rattle.wf_names_sizes.specs.StructSizes.{capped, part_with, field_of};

use crate::environment::Environment;
use crate::setting::Setting;
use crate::values::value;
use std::alloc::Global;
use wf_ast::parsed::{Core, Field, Name, Prefix, TypeExpr};
use wf_ast::sequences::Sequence;
use wf_ast::{ExprId, PackageNodes, TextId};
use wf_base::widths::Width;
use wf_names_rules::tables::{Numbers, text_bytes};
use wf_names_rules::types::{width, width_named};
use wf_text::faults::NoMemory;

/// What a field takes: its bytes, of which numbers above 1,048,577 count as that, or the number of the struct that it holds.
#[derive(Clone, Copy)]
pub(crate) enum Part {
    Plain(u32),
    Struct(usize),
}

/// A field of a struct: its name, and what it takes.
#[derive(Clone, Copy)]
pub(crate) struct FieldPart {
    pub name: Name,
    pub part: Part,
}

/// What numbers of bytes above it count as.
pub(crate) const MOST_BYTES: u64 = 1_048_577;

// The bytes that a width takes.
fn width_bytes(width: Option<Width>) -> u64
    ensures bytes { result ≡ bytes_of_width width }
    ensures most { result ≤ 8 }
{
    match width {
        Some(Width::W8) => 1,
        Some(Width::W16) => 2,
        Some(Width::W32) => 4,
        Some(Width::W64) => 8,
        None => 0,
    }
}

// The bytes of a type of this name after `base.`.
fn named_bytes(name: &[u8]) -> u64
    ensures bytes { result ≡ flag_bytes (bytes_eq name.now (codes "bool")) (bytes_of_width (width_by_name name.now)) }
    ensures most { result ≤ 8 }
{
    if name == b"bool".as_slice() {
        1
    } else {
        width_bytes(width_named(name))
    }
}

// The bytes of a field that isn't an array.
fn core_bytes(parsed: &PackageNodes, core: Core) -> u64
    ensures bytes { (es : _) (bounds : _) → result ≡ bytes_of_type (declared_in parsed.now) (core_at es core bounds) }
    ensures most { result ≤ 8 }
{
    match core {
        Core::Base { name, .. } => named_bytes(text_bytes(parsed, name.text)),
        Core::BaseStatus { .. } => 8,
        Core::Struct(_) => 0,
    }
}

fn product(count: u64, bytes: u64) -> u32
    requires { bytes ≤ 8 }
    ensures { result ≡ capped (count * bytes) }
{
    (count as u128 * bytes as u128).min(MOST_BYTES as u128) as u32
}

fn count(setting: &Setting<'_>, elements: ExprId) -> u64
    requires elements { elements.0 < length setting.now.parsed.now.exprs }
    requires setting { TellsSetting setting.now }
    ensures { result ≡ number_or_zero (value_of (declared_in setting.now.parsed.now) (λ text. false) (known_constants (declared_in setting.now.parsed.now)) (expr_at (expr_trees setting.now.parsed.now.exprs) elements)) }
{
    let env = Environment {
        parsed: setting.parsed,
        constants: setting.constants,
        locals: None,
    };
    match value(&env, elements) {
        Some(value) => value.number,
        None => 0,
    }
}

// The bytes of a field that holds no struct.
fn plain_bytes(setting: &Setting<'_>, of: &TypeExpr) -> u32
    requires of { TypeBelow (length setting.now.parsed.now.exprs) of.now }
    requires setting { TellsSetting setting.now }
    ensures { result ≡ capped (bytes_of_type (declared_in setting.now.parsed.now) (type_at (expr_trees setting.now.parsed.now.exprs) of.now)) }
{
    match of.prefixes.as_slice() {
        [] => core_bytes(setting.parsed, of.core) as u32,
        [Prefix::Slice(_)] => 0,
        [Prefix::Array { length, .. }] => product(
            count(setting, *length),
            width_bytes(width(setting.parsed, of.core)),
        ),
        _ => 0,
    }
}

fn number(structs: &Numbers, name: TextId) -> Option<usize>
    ensures { result ≡ number_at structs.now name.0 }
{
    let number = structs.numbers.get(&name.0)?;
    Some(*number as usize)
}

// The struct that a field holds.
fn struct_held(parsed: &PackageNodes, structs: &Numbers, of: &TypeExpr) -> Option<usize>
    requires { TellsNumbers 0 (λ s. s.name) (declared_in parsed.now).structs structs.now }
    ensures { (es : _) → result ≡ held_by_type (declared_in parsed.now) (type_at es of.now) }
{
    match of.prefixes.as_slice() {
        [] => core_held(parsed, structs, of.core),
        _ => None,
    }
}

fn core_held(parsed: &PackageNodes, structs: &Numbers, core: Core) -> Option<usize>
    requires { TellsNumbers 0 (λ s. s.name) (declared_in parsed.now).structs structs.now }
    ensures { (es : _) (bounds : _) → result ≡ held_by_type (declared_in parsed.now) (core_at es core bounds) }
{
    match core {
        Core::Struct(name) => number(structs, name.text),
        Core::Base { .. } => None,
        Core::BaseStatus { .. } => None,
    }
}

// What a field of this type takes.
fn field_part(setting: &Setting<'_>, of: &TypeExpr) -> Part
    requires of { TypeBelow (length setting.now.parsed.now.exprs) of.now }
    requires setting { TellsSetting setting.now }
    ensures { result ≡ part_with (bytes_of_type (declared_in setting.now.parsed.now) (type_at (expr_trees setting.now.parsed.now.exprs) of.now)) (held_by_type (declared_in setting.now.parsed.now) (type_at (expr_trees setting.now.parsed.now.exprs) of.now)) }
{
    match struct_held(setting.parsed, &setting.tables.structs, of) {
        Some(s) => Part::Struct(s),
        None => Part::Plain(plain_bytes(setting, of)),
    }
}

/// The fields of a struct in order.
pub(crate) fn row(
    alloc: Global,
    setting: &Setting<'_>,
    fields: &[Field],
) -> Result<Sequence<FieldPart>, NoMemory>
    requires fields { FieldsBelow (length setting.now.parsed.now.exprs) fields.now }
    requires setting { TellsSetting setting.now }
    ensures { IfOk result (λ row. row ≡ map (field_of (declared_in setting.now.parsed.now)) (variables (fields_at (expr_trees setting.now.parsed.now.exprs) fields.now))) }
{
    let mut row = Sequence::new(alloc);
    for field in fields {
        row.push(FieldPart {
            name: field.name,
            part: field_part(setting, &field.of),
        })?;
    }
    Ok(row)
}

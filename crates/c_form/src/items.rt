// The items of a unit by themselves (ISO/IEC 9899:1999, 6.7, 6.9).

ghost use Rattle.std.specs.Prelude.{◌≡◌, ◌<◌, ℕ, List, [], map, length, option_map, IfOk, Some};
ghost use Rattle.std.specs.List.{slice_get};
ghost use Rattle.c_text.specs.CNodes.{bytes_at, unit_tree, type_in, field_tree};
ghost use Rattle.c_text.specs.CFits.{HasName, HasField, HasFields};
ghost use Rattle.c_meaning.specs.CTypes.{structs_of};
ghost use Rattle.c_meaning.specs.UnitForm.{item_name, formed_field, is_value as is_value_type, is_length as is_length_of, is_field as is_field_of, are_fields, io_buffer_fields, is_io_buffer};
ghost use Rattle.c_form_exprs.specs.Front.{front_items};
ghost use Rattle.c_form_exprs.specs.Tables.{named};
ghost use Rattle.c_form.specs.Items.{item_at, formed_alone, fields_fit};
ghost use Rattle.c_form.specs.Signatures.{wanted_type};

use crate::signatures::{Wanted, is_type};
use c_form_exprs::{Front, SpellingTable};
use c_form_stmts::{Parts, is_formed_function, is_library};
use c_text::{CField, CFieldType, CItem, CItemId, CNameId, CNumber, CType, CUint, Unit};
use std::alloc::Global;
use wf_text::NoMemory;

/// The name that an item declares.
pub(crate) fn name_of(unit: &Unit, i: usize) -> CNameId
    requires { i < length unit.now.items }
    ensures has { HasName unit.now result }
    ensures is { option_map item_name (slice_get (unit_tree unit.now) i) ≡ Some (bytes_at unit.now.names result.0) }
{
    match unit.item(CItemId(i)) {
        CItem::Struct { name, .. } => *name,
        CItem::Text { name, .. } => *name,
        CItem::Function { name, .. } => *name,
    }
}

/// The items by their names; of two with one name, the first.
pub(crate) fn item_names<'u>(
    alloc: Global,
    unit: &'u Unit,
) -> Result<SpellingTable<'u, usize>, NoMemory>
    ensures { IfOk result (λ table. (q : List ℕ) → named table q ≡ item_at 0 (unit_tree unit.now) q) }
{
    let mut table = SpellingTable::new(alloc);
    let mut i = 0;
    while i < unit.items() {
        table.add(unit.name(name_of(unit, i)), i)?;
        i += 1;
    }
    Ok(table)
}

/// Whether the item with number `i`, after the items of `front`, is formed, apart from what a package asks of it.
pub(crate) fn is_formed_item<'u>(
    alloc: Global,
    front: &Front<'u>,
    names: &SpellingTable<'u, usize>,
    i: usize,
) -> Result<bool, NoMemory>
    requires at { i ≡ front.now.count }
    requires within { i < length front.now.nodes.items }
    requires names { (q : List ℕ) → named names.now q ≡ item_at 0 (unit_tree front.now.nodes) q }
    ensures { IfOk result (λ formed. Some formed ≡ option_map (formed_alone (front_items front.now) (map item_name (unit_tree front.now.nodes))) (slice_get (unit_tree front.now.nodes) i)) }
{
    let unit = front.unit();
    if i == 0 {
        return Ok(is_io_buffer_item(unit, i));
    }
    let name = name_of(unit, i);
    if front.is_declared(name) || is_library(unit.name(name)) {
        return Ok(false);
    }
    match unit.item(CItemId(i)) {
        CItem::Struct { fields, .. } => are_formed_fields(alloc, front, fields.as_slice()),
        CItem::Text { .. } => Ok(true),
        CItem::Function {
            linkage,
            result,
            params,
            locals,
            body,
            ..
        } => {
            let parts = Parts {
                linkage: *linkage,
                result_type: *result,
                params: params.as_slice(),
                locals: locals.as_slice(),
                body: *body,
            };
            is_formed_function(alloc, front, names, parts)
        }
    }
}

/// Whether a field holds numbers or strings' pointers (6.7.2.1).
fn is_value(ty: CType) -> bool
    ensures { (names : List (List ℕ)) → result ≡ is_value_type (type_in names ty) }
{
    match ty {
        CType::Uint(_) | CType::Size | CType::Bool | CType::Text => true,
        CType::UintPointer(_) | CType::StructPointer(_) => false,
    }
}

/// Whether an array's length is a plain number of at least 1 (6.7.5.2p1).
fn is_length(count: Option<CNumber>) -> bool
    ensures { result ≡ is_length_of count }
{
    match count {
        None => true,
        Some(CNumber::Int(n)) => 1 <= n,
        Some(CNumber::Unsigned(_)) => false,
        Some(CNumber::Long(_)) => false,
    }
}

/// Whether a field's type is known and may be one (6.7.2.1p2).
fn is_formed_field(front: &Front<'_>, field: CField) -> bool
    requires { HasField front.now.nodes field }
    ensures { result ≡ formed_field (structs_of (front_items front.now)) (field_tree front.now.nodes.names field) }
{
    match field.kind {
        CFieldType::Plain(ty) => is_value(ty) && is_length(field.count),
        CFieldType::Struct(name) => { front.is_struct(name) && field.count.is_none() }
    }
}

/// Whether the fields of a struct are formed, with different names (6.7.2.1, 6.2.3).
fn are_formed_fields(alloc: Global, front: &Front<'_>, fields: &[CField]) -> Result<bool, NoMemory>
    requires { HasFields front.now.nodes fields.now }
    ensures { IfOk result (λ formed. formed ≡ fields_fit (structs_of (front_items front.now)) [] (map (field_tree front.now.nodes.names) fields.now)) }
{
    let unit = front.unit();
    let mut seen = SpellingTable::new(alloc);
    for field in fields {
        if !is_formed_field(front, *field) {
            return Ok(false);
        }
        if !seen.add(unit.name(field.name), ())? {
            return Ok(false);
        }
    }
    Ok(true)
}

/// Whether a field has this name and type, and no length.
fn is_field(unit: &Unit, field: CField, wanted: Wanted<'_>, name: &[u8]) -> bool
    requires { HasField unit.now field }
    ensures { result ≡ is_field_of (wanted_type wanted.entry) name.now (field_tree unit.now.names field) }
{
    match field.kind {
        CFieldType::Plain(ty) => {
            unit.name(field.name) == name && (field.count.is_none() && is_type(unit, ty, wanted))
        }
        CFieldType::Struct(_) => false,
    }
}

/// Whether these are the fields of an io buffer.
fn are_buffer_fields(unit: &Unit, fields: &[CField]) -> bool
    requires { HasFields unit.now fields.now }
    ensures { result ≡ are_fields io_buffer_fields (map (field_tree unit.now.names) fields.now) }
{
    match fields {
        [ptr, len, wi, ri, pos, closed] => {
            is_field(unit, *ptr, Wanted::UintPointer(CUint::U8), b"ptr")
                && (is_field(unit, *len, Wanted::Size, b"len")
                    && (is_field(unit, *wi, Wanted::Size, b"wi")
                        && (is_field(unit, *ri, Wanted::Size, b"ri")
                            && (is_field(unit, *pos, Wanted::Uint(CUint::U64), b"pos")
                                && is_field(unit, *closed, Wanted::Bool, b"closed")))))
        }
        _ => false,
    }
}

/// Whether an item is the struct of an io buffer.
fn is_io_buffer_item(unit: &Unit, i: usize) -> bool
    requires { i < length unit.now.items }
    ensures { option_map is_io_buffer (slice_get (unit_tree unit.now) i) ≡ Some result }
{
    match unit.item(CItemId(i)) {
        CItem::Struct { fields, name } => {
            unit.name(*name) == b"wuffs_base__io_buffer".as_slice()
                && are_buffer_fields(unit, fields.as_slice())
        }
        CItem::Text { .. } => false,
        CItem::Function { .. } => false,
    }
}

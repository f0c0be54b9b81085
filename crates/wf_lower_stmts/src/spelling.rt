// The names in C of what a package declares, and of what a coroutine keeps.

ghost use Rattle.std.specs.Prelude.{◌≡◌, ◌<◌, ◌++◌, true, length, IfOk};
ghost use Rattle.std.specs.List.{list_all};
ghost use Rattle.wf_ast.specs.TypedPackage.{package_of};
ghost use Rattle.c_text.specs.CSpelling.{is_word_byte};
ghost use Rattle.wf_exprs.specs.Grown.{Grows, HasNamed};
ghost use Rattle.wf_exprs.specs.Names.{again_label as again_name, behind_label as behind_name, count_field as count_name, held_field as held_name, initialize_name as name_of_initialize, point_field as point_name, saved_field as saved_name, struct_called as called_in, struct_type as type_name};
ghost use Rattle.wf_lower_stmts.specs.BodyNodes.{HasWords, body_name_of, entry_name_of, is_spelt_method};

use c_text::{CNameId, Unit};
use std::alloc::Global;
use wf_ast::{Method, StructId, Typed};
use wf_exprs::names::{put_numbered, put_spelt, put_words};
use wf_text::NoMemory;

// Four words, one after the other.
fn joined(
    alloc: Global,
    first: &[u8],
    second: &[u8],
    third: &[u8],
    fourth: &[u8],
) -> Result<Vec<u8>, NoMemory>
    ensures { IfOk result (λ text. text.items ≡ first.now ++ (second.now ++ (third.now ++ fourth.now))) }
{
    let front = first.len().saturating_add(second.len());
    let back = third.len().saturating_add(fourth.len());
    let mut text = Vec::with_capacity(alloc, front.saturating_add(back))?;
    text.extend_from_slice(first)?;
    text.extend_from_slice(second)?;
    text.extend_from_slice(third)?;
    text.extend_from_slice(fourth)?;
    Ok(text)
}

/// The field that keeps where a coroutine goes on.
pub fn point_field(u: &mut Unit, method: &[u8]) -> Result<CNameId, NoMemory>
    requires { list_all is_word_byte method.now ≡ true }
    ensures grows { Grows u.old u.new }
    ensures made { IfOk result (λ n. HasNamed u.new n.0 (point_name method.now)) }
{
    put_spelt(u, b"r_", method)
}

/// The field that keeps what a started statement has.
pub(crate) fn held_field(u: &mut Unit, method: &[u8]) -> Result<CNameId, NoMemory>
    requires { list_all is_word_byte method.now ≡ true }
    ensures grows { Grows u.old u.new }
    ensures made { IfOk result (λ n. HasNamed u.new n.0 (held_name method.now)) }
{
    put_spelt(u, b"h_", method)
}

/// The field that keeps how many bytes that is.
pub(crate) fn count_field(u: &mut Unit, method: &[u8]) -> Result<CNameId, NoMemory>
    requires { list_all is_word_byte method.now ≡ true }
    ensures grows { Grows u.old u.new }
    ensures made { IfOk result (λ n. HasNamed u.new n.0 (count_name method.now)) }
{
    put_spelt(u, b"n_", method)
}

/// The field that keeps a local.
pub fn saved_field(u: &mut Unit, method: &[u8], local: &[u8]) -> Result<CNameId, NoMemory>
    requires method { list_all is_word_byte method.now ≡ true }
    requires local { list_all is_word_byte local.now ≡ true }
    ensures grows { Grows u.old u.new }
    ensures made { IfOk result (λ n. HasNamed u.new n.0 (saved_name method.now local.now)) }
{
    put_words(u, b"s_", method, b"__", local)
}

// The source's name of a struct.
fn struct_called(t: &Typed, s: StructId) -> &[u8]
    requires known { s.0 < length t.now.structs }
    requires words { HasWords t.now }
    ensures is { result.now ≡ called_in (package_of t.now) s.0 }
    ensures word { list_all is_word_byte result.now ≡ true }
{
    t.text(t.structure(s).name)
}

// The bytes of a struct's type.
fn struct_text(alloc: Global, t: &Typed, s: StructId) -> Result<Vec<u8>, NoMemory>
    requires known { s.0 < length t.now.structs }
    requires words { HasWords t.now }
    ensures is { IfOk result (λ text. text.items ≡ type_name (package_of t.now) s.0) }
    ensures word { IfOk result (λ text. list_all is_word_byte text.items ≡ true) }
{
    joined(alloc, b"wuffs_", t.package(), b"__", struct_called(t, s))
}

/// The type of a struct.
pub fn struct_type(t: &Typed, u: &mut Unit, s: StructId) -> Result<CNameId, NoMemory>
    requires known { s.0 < length t.now.structs }
    requires words { HasWords t.now }
    ensures grows { Grows u.old u.new }
    ensures made { IfOk result (λ n. HasNamed u.new n.0 (type_name (package_of t.now) s.0)) }
{
    put_words(u, b"wuffs_", t.package(), b"__", struct_called(t, s))
}

/// The function that makes an object of a struct ready.
pub fn initialize_name(
    alloc: Global,
    t: &Typed,
    u: &mut Unit,
    s: StructId,
) -> Result<CNameId, NoMemory>
    requires known { s.0 < length t.now.structs }
    requires words { HasWords t.now }
    ensures grows { Grows u.old u.new }
    ensures made { IfOk result (λ n. HasNamed u.new n.0 (name_of_initialize (package_of t.now) s.0)) }
{
    let text = struct_text(alloc, t, s)?;
    put_spelt(u, text.as_slice(), b"__initialize")
}

/// A method as its callers outside see it.
pub fn entry_name(alloc: Global, t: &Typed, u: &mut Unit, m: &Method) -> Result<CNameId, NoMemory>
    requires words { HasWords t.now }
    requires spelt { is_spelt_method t.now m.now ≡ true }
    ensures grows { Grows u.old u.new }
    ensures made { IfOk result (λ n. HasNamed u.new n.0 (entry_name_of t.now m.now)) }
{
    let of = struct_text(alloc, t, m.of)?;
    put_words(u, of.as_slice(), b"__", t.text(m.name), b"")
}

/// The body of a method.
pub fn body_name(t: &Typed, u: &mut Unit, m: &Method) -> Result<CNameId, NoMemory>
    requires words { HasWords t.now }
    requires spelt { is_spelt_method t.now m.now ≡ true }
    ensures grows { Grows u.old u.new }
    ensures made { IfOk result (λ n. HasNamed u.new n.0 (body_name_of t.now m.now)) }
{
    put_words(u, b"body_", struct_called(t, m.of), b"__", t.text(m.name))
}

/// The label at the end of a loop's body.
pub fn again_label(u: &mut Unit, w: u32) -> Result<CNameId, NoMemory>
    ensures grows { Grows u.old u.new }
    ensures made { IfOk result (λ n. HasNamed u.new n.0 (again_name w)) }
{
    put_numbered(u, b"again_", w as u64)
}

/// The label of what follows a loop.
pub fn behind_label(u: &mut Unit, w: u32) -> Result<CNameId, NoMemory>
    ensures grows { Grows u.old u.new }
    ensures made { IfOk result (λ n. HasNamed u.new n.0 (behind_name w)) }
{
    put_numbered(u, b"behind_", w as u64)
}

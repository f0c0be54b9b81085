// The structs of a package: whether an object is ready, which coroutine is active, the source's fields, and what each
// coroutine keeps.

ghost use Rattle.std.specs.Prelude.{◌≡◌, ◌<◌, ◌&&◌, ◌++◌, ◌∷◌, [], true, if◌then◌else◌, codes, length, map, nat_eq, slice_get, Some, None, IsTrue, IfOk, OnOk};
ghost use Rattle.std.specs.List.{list_all};
ghost use Rattle.wf_ast.specs.TypedPackage.{MethodTree, package_of, variable_of};
ghost use Rattle.wf_ast.specs.WellTyped.{is_coroutine as is_marked_coroutine, may_be_field};
ghost use Rattle.c_text.specs.CFits.{HasType};
ghost use Rattle.c_text.specs.CGrammar.{IsName};
ghost use Rattle.c_text.specs.CNodes.{bytes_at, type_in};
ghost use Rattle.c_text.specs.CSpelling.{is_word_byte};
ghost use Rattle.c_text.specs.declared.kinds.CUint.TheVariants.{U8, U16, U32, U64};
ghost use Rattle.c_text.specs.declared.nodes.CFieldType.TheVariants as held;
ghost use Rattle.c_text.specs.CTree.{inside, size, uint, uint_pointer, boolean};
ghost use Rattle.c_text.specs.CTree as c;
ghost use Rattle.wf_exprs.specs.Grown.{Grows};
ghost use Rattle.wf_exprs.specs.Names.{point_field as point_name, struct_type as type_name};
ghost use Rattle.wf_exprs.specs.Scopes.{is_named};
ghost use Rattle.wf_points.specs.PointNumbers.{locals_kept};
ghost use Rattle.wf_lower_stmts.specs.BodyNodes.{HasWords};
ghost use Rattle.wf_lower.specs.Coroutines.{HaveCoroutines};
ghost use Rattle.wf_lower.specs.Made.{AddsFields, HasFieldTree, HasFieldTrees, HasItemTree, IsPlain, IsReady};
ghost use Rattle.wf_lower.specs.Structs.{buffer_fields as buffer_fields_of, kept_field, kept_of, method_fields, number_fields, typed_field as typed_field_of};
ghost use Rattle.wf_lower.specs.Unit.{field as field_of, io_buffer_item, kept_fields, kept_type as kept_type_of, methods_fields, source_field as source_field_of, source_fields, struct_fields as struct_fields_of};

use crate::coroutines::is_coroutine;
use crate::source::Source;
use c_text::{CField, CFieldType, CItem, CList, CNameId, CType, CUint, Unit};
use std::alloc::Global;
use wf_ast::{LocalId, Method, StructId, Ty, Typed, Var};
use wf_exprs::names::{put_name, put_spelt};
use wf_exprs::nodes::{literal, uint_of};
use wf_lower_stmts::spelling::{point_field, saved_field, struct_type};
use wf_lower_stmts::walks::StartedNumbers;
use wf_text::{MethodId, NoMemory};

/// A field that holds one value.
fn plain(kind: CType, name: CNameId) -> CField
    ensures { result ≡ record { kind = held.Plain kind; name = name; count = None } }
{
    CField {
        kind: CFieldType::Plain(kind),
        name,
        count: None,
    }
}

/// Adds a field that holds one value.
fn add_plain(
    u: &mut Unit,
    kind: CType,
    name: &[u8],
    fields: &mut CList<CField>,
) -> Result<(), NoMemory>
    requires kind { HasType u.old kind }
    requires name { IsName name.now }
    ensures grows { Grows u.old u.new }
    ensures made { OnOk result (AddsFields u.old u.new fields.old fields.new (field_of (type_in u.old.names kind) name.now ∷ [])) }
{
    let name = put_name(u, name)?;
    fields.push(plain(kind, name))
}

/// Adds a field of the type `kind`, with a name that the unit has.
fn add_named(
    u: &Unit,
    kind: CType,
    name: CNameId,
    fields: &mut CList<CField>,
) -> Result<(), NoMemory>
    requires kind { HasType u.now kind }
    requires name { name.0 < length u.now.names }
    ensures { OnOk result (AddsFields u.now u.now fields.old fields.new (field_of (type_in u.now.names kind) (bytes_at u.now.names name.0) ∷ [])) }
{
    let _known = u.exprs();
    fields.push(plain(kind, name))
}

/// The bytes of a buffer, and how many there is room for.
#[tactic(auto, using(wf_exprs::proofs::Growing::grows_on), unfolding(c_text::specs::CSpelling::is_reserved))]
fn add_room(u: &mut Unit, fields: &mut CList<CField>) -> Result<(), NoMemory>
    ensures grows { Grows u.old u.new }
    ensures made { OnOk result (AddsFields u.old u.new fields.old fields.new (field_of (uint_pointer U8) (codes "ptr") ∷ field_of size (codes "len") ∷ [])) }
{
    add_plain(u, CType::UintPointer(CUint::U8), b"ptr", fields)?;
    add_plain(u, CType::Size, b"len", fields)
}

/// Where a buffer is written and read.
#[tactic(auto, using(wf_exprs::proofs::Growing::grows_on), unfolding(c_text::specs::CSpelling::is_reserved))]
fn add_places(u: &mut Unit, fields: &mut CList<CField>) -> Result<(), NoMemory>
    ensures grows { Grows u.old u.new }
    ensures made { OnOk result (AddsFields u.old u.new fields.old fields.new (field_of size (codes "wi") ∷ field_of size (codes "ri") ∷ [])) }
{
    add_plain(u, CType::Size, b"wi", fields)?;
    add_plain(u, CType::Size, b"ri", fields)
}

/// How many bytes came before those of a buffer, and whether more can come.
#[tactic(auto, using(wf_exprs::proofs::Growing::grows_on), unfolding(c_text::specs::CSpelling::is_reserved))]
fn add_outlook(u: &mut Unit, fields: &mut CList<CField>) -> Result<(), NoMemory>
    ensures grows { Grows u.old u.new }
    ensures made { OnOk result (AddsFields u.old u.new fields.old fields.new (field_of (uint U64) (codes "pos") ∷ field_of boolean (codes "closed") ∷ [])) }
{
    add_plain(u, CType::Uint(CUint::U64), b"pos", fields)?;
    add_plain(u, CType::Bool, b"closed", fields)
}

fn buffer_fields(alloc: Global, u: &mut Unit) -> Result<CList<CField>, NoMemory>
    ensures grows { Grows u.old u.new }
    ensures made { IfOk result (λ list. HasFieldTrees u.new list buffer_fields_of) }
{
    let mut fields = CList::new(alloc);
    add_room(u, &mut fields)?;
    add_places(u, &mut fields)?;
    add_outlook(u, &mut fields)?;
    Ok(fields)
}

/// The struct of an io buffer.
#[tactic(auto, using(wf_exprs::proofs::Growing::grows_on), unfolding(c_text::specs::CSpelling::is_reserved))]
pub(crate) fn io_buffer(alloc: Global, u: &mut Unit) -> Result<CItem, NoMemory>
    ensures grows { Grows u.old u.new }
    ensures made { IfOk result (λ it. HasItemTree u.new it io_buffer_item) }
{
    let fields = buffer_fields(alloc, u)?;
    let name = put_name(u, b"wuffs_base__io_buffer")?;
    Ok(CItem::Struct { fields, name })
}

/// A field that holds an object of a struct.
fn part_field(t: &Typed, u: &mut Unit, s: StructId, name: CNameId) -> Result<CField, NoMemory>
    requires known { s.0 < length t.now.structs }
    requires words { HasWords t.now }
    requires name { name.0 < length u.old.names }
    ensures grows { Grows u.old u.new }
    ensures made { IfOk result (λ it. HasFieldTree u.new it (record { kind = inside (type_name (package_of t.now) s.0); name = bytes_at u.old.names name.0; count = None })) }
{
    let of = struct_type(t, u, s)?;
    Ok(CField {
        kind: CFieldType::Struct(of),
        name,
        count: None,
    })
}

/// A field of the source with its name in C.
fn typed_field(t: &Typed, u: &mut Unit, ty: Ty, name: CNameId) -> Result<CField, NoMemory>
    requires words { HasWords t.now }
    requires held { IsTrue (may_be_field (package_of t.now) ty) }
    requires name { name.0 < length u.old.names }
    ensures grows { Grows u.old u.new }
    ensures made { IfOk result (λ it. HasFieldTree u.new it (typed_field_of (package_of t.now) ty (bytes_at u.old.names name.0))) }
{
    match ty {
        Ty::Num { width, .. } => Ok(plain(CType::Uint(uint_of(width)), name)),
        Ty::Status => Ok(plain(CType::Text, name)),
        Ty::Array { width, len, .. } => Ok(CField {
            kind: CFieldType::Plain(CType::Uint(uint_of(width))),
            name,
            count: Some(literal(len as u64)),
        }),
        Ty::Part(s) => part_field(t, u, s, name),
        Ty::Flag => Ok(plain(CType::Bool, name)),
        Ty::Reader => Ok(plain(CType::Bool, name)),
        Ty::Writer => Ok(plain(CType::Bool, name)),
        Ty::Slice(_) => Ok(plain(CType::Bool, name)),
    }
}

/// Adds a field of the source.
fn add_source(t: &Typed, u: &mut Unit, x: Var, fields: &mut CList<CField>) -> Result<(), NoMemory>
    requires words { HasWords t.now }
    requires named { is_named t.now x ≡ true }
    requires held { IsTrue (may_be_field (package_of t.now) x.ty) }
    ensures grows { Grows u.old u.new }
    ensures made { OnOk result (AddsFields u.old u.new fields.old fields.new (source_field_of (package_of t.now) (variable_of t.now x) ∷ [])) }
{
    let name = put_spelt(u, b"f_", t.text(x.name))?;
    let field = typed_field(t, u, x.ty, name)?;
    fields.push(field)
}

/// Adds the fields of the source.
fn add_all_source(
    t: &Typed,
    u: &mut Unit,
    declared: &[Var],
    fields: &mut CList<CField>,
) -> Result<(), NoMemory>
    requires words { HasWords t.now }
    requires named { list_all (is_named t.now) declared.now ≡ true }
    requires held { list_all (λ x. may_be_field (package_of t.now) x.ty) declared.now ≡ true }
    ensures grows { Grows u.old u.new }
    ensures made { OnOk result (AddsFields u.old u.new fields.old fields.new (source_fields (package_of t.now) (map (variable_of t.now) declared.now))) }
{
    for i in 0..declared.len() {
        add_source(t, u, declared[i], fields)?;
    }
    Ok(())
}

/// The type of the field that keeps a local.
fn kept_type(ty: Ty) -> CType
    ensures { IsPlain result (kept_type_of ty) }
{
    match ty {
        Ty::Num { width, .. } => CType::Uint(uint_of(width)),
        Ty::Status => CType::Text,
        Ty::Flag | Ty::Reader | Ty::Writer => CType::Bool,
        Ty::Slice(_) | Ty::Array { .. } | Ty::Part(_) => CType::Bool,
    }
}

/// Adds the field that keeps a local of a coroutine.
fn add_kept(
    t: &Typed,
    u: &mut Unit,
    method: &[u8],
    x: Var,
    fields: &mut CList<CField>,
) -> Result<(), NoMemory>
    requires method { list_all is_word_byte method.now ≡ true }
    requires named { is_named t.now x ≡ true }
    ensures grows { Grows u.old u.new }
    ensures made { OnOk result (AddsFields u.old u.new fields.old fields.new (kept_field method.now (variable_of t.now x) ∷ [])) }
{
    let name = saved_field(u, method, t.text(x.name))?;
    add_named(u, kept_type(x.ty), name, fields)
}

/// The local with this number.
fn local_at(locals: &[Var], x: LocalId) -> Var
    requires { x.0 < length locals.now }
    ensures { slice_get locals.now x.0 ≡ Some result }
{
    locals[x.0 as usize]
}

/// Adds the fields that keep a coroutine's locals: `saved` are those that it keeps.
fn add_all_kept(
    t: &Typed,
    u: &mut Unit,
    method: &[u8],
    locals: &[Var],
    saved: &[LocalId],
    fields: &mut CList<CField>,
) -> Result<(), NoMemory>
    requires method { list_all is_word_byte method.now ≡ true }
    requires named { list_all (is_named t.now) locals.now ≡ true }
    requires saved { saved.now ≡ locals_kept 0 (map (variable_of t.now) locals.now) }
    ensures grows { Grows u.old u.new }
    ensures made { OnOk result (AddsFields u.old u.new fields.old fields.new (kept_fields method.now (map (variable_of t.now) locals.now))) }
{
    for i in 0..saved.len() {
        add_kept(t, u, method, local_at(locals, saved[i]), fields)?;
    }
    Ok(())
}

/// Adds the field that keeps a number for the started statement, named by these bytes and the method, where it is there.
fn add_number(
    u: &mut Unit,
    there: bool,
    ty: CUint,
    begin: &[u8],
    method: &[u8],
    fields: &mut CList<CField>,
) -> Result<(), NoMemory>
    requires { IsName (begin.now ++ method.now) }
    ensures grows { Grows u.old u.new }
    ensures made { OnOk result (AddsFields u.old u.new fields.old fields.new (if there then field_of (uint ty) (begin.now ++ method.now) ∷ [] else [])) }
{
    if there {
        let name = put_spelt(u, begin, method)?;
        add_named(u, CType::Uint(ty), name, fields)
    } else {
        Ok(())
    }
}

/// Adds the fields of the numbers that the started statements of a method keep.
fn add_started(
    u: &mut Unit,
    method: &[u8],
    started: StartedNumbers,
    fields: &mut CList<CField>,
) -> Result<(), NoMemory>
    requires { list_all is_word_byte method.now ≡ true }
    ensures grows { Grows u.old u.new }
    ensures made { OnOk result (AddsFields u.old u.new fields.old fields.new (number_fields method.now started)) }
{
    add_number(u, started.held, CUint::U64, b"h_", method, fields)?;
    add_number(u, started.counted, CUint::U8, b"n_", method, fields)
}

/// Adds the field that keeps where a coroutine goes on.
fn add_point(u: &mut Unit, method: &[u8], fields: &mut CList<CField>) -> Result<(), NoMemory>
    requires { list_all is_word_byte method.now ≡ true }
    ensures grows { Grows u.old u.new }
    ensures made { OnOk result (AddsFields u.old u.new fields.old fields.new (field_of (uint U16) (point_name method.now) ∷ [])) }
{
    let name = point_field(u, method)?;
    add_named(u, CType::Uint(CUint::U16), name, fields)
}

/// Adds what a coroutine keeps.
fn add_coroutine(
    p: &Source,
    u: &mut Unit,
    m: MethodId,
    fields: &mut CList<CField>,
) -> Result<(), NoMemory>
    requires ready { IsReady p.now.t.now p.now.points.now p.now.started.now }
    requires known { m.0 < length p.now.t.now.methods }
    ensures grows { Grows u.old u.new }
    ensures made { OnOk result ((method : MethodTree) → slice_get (package_of p.now.t.now).methods m.0 ≡ Some method → AddsFields u.old u.new fields.old fields.new (kept_of method)) }
{
    let method = p.t.method(m);
    let name = p.t.text(method.name);
    add_point(u, name, fields)?;
    add_all_kept(
        p.t,
        u,
        name,
        method.locals.as_slice(),
        p.points.saved(m),
        fields,
    )?;
    add_started(u, name, p.started(m), fields)
}

/// Whether a method is a coroutine of the struct `s`.
fn keeps_in(m: &Method, s: StructId) -> bool
    ensures { result ≡ (nat_eq m.now.of.0 s.0 && is_marked_coroutine m.now.mark) }
{
    m.of.0 == s.0 && is_coroutine(m.mark)
}

/// Adds what a method keeps in the struct `s`: nothing where it isn't a coroutine of that struct.
fn add_method(
    p: &Source,
    u: &mut Unit,
    s: StructId,
    m: MethodId,
    fields: &mut CList<CField>,
) -> Result<(), NoMemory>
    requires ready { IsReady p.now.t.now p.now.points.now p.now.started.now }
    requires known { m.0 < length p.now.t.now.methods }
    ensures grows { Grows u.old u.new }
    ensures made { OnOk result ((method : MethodTree) → slice_get (package_of p.now.t.now).methods m.0 ≡ Some method → AddsFields u.old u.new fields.old fields.new (method_fields s.0 method)) }
{
    if keeps_in(p.t.method(m), s) {
        add_coroutine(p, u, m, fields)
    } else {
        Ok(())
    }
}

/// Adds what the methods of a package keep in the struct `s`.
fn add_methods(
    p: &Source,
    u: &mut Unit,
    s: StructId,
    fields: &mut CList<CField>,
) -> Result<(), NoMemory>
    requires { IsReady p.now.t.now p.now.points.now p.now.started.now }
    ensures grows { Grows u.old u.new }
    ensures made { OnOk result (AddsFields u.old u.new fields.old fields.new (methods_fields s.0 (package_of p.now.t.now).methods)) }
{
    for n in 0..p.t.methods() {
        add_method(p, u, s, MethodId(n), fields)?;
    }
    Ok(())
}

/// Adds what the coroutines of a struct keep. Where it has none, no method is looked at.
fn add_coroutines(
    p: &Source,
    u: &mut Unit,
    s: StructId,
    fields: &mut CList<CField>,
) -> Result<(), NoMemory>
    requires ready { IsReady p.now.t.now p.now.points.now p.now.started.now }
    requires coroutines { HaveCoroutines (package_of p.now.t.now) p.now.coroutines.now }
    requires known { s.0 < length p.now.t.now.structs }
    ensures grows { Grows u.old u.new }
    ensures made { OnOk result (AddsFields u.old u.new fields.old fields.new (methods_fields s.0 (package_of p.now.t.now).methods)) }
{
    if p.has_coroutine(s) {
        add_methods(p, u, s, fields)
    } else {
        Ok(())
    }
}

/// Adds whether an object is ready, and which coroutine is active.
#[tactic(auto, using(wf_exprs::proofs::Growing::grows_on), unfolding(c_text::specs::CSpelling::is_reserved))]
fn add_life(u: &mut Unit, fields: &mut CList<CField>) -> Result<(), NoMemory>
    ensures grows { Grows u.old u.new }
    ensures made { OnOk result (AddsFields u.old u.new fields.old fields.new (field_of (uint U8) (codes "life") ∷ field_of (uint U32) (codes "active") ∷ [])) }
{
    add_plain(u, CType::Uint(CUint::U8), b"life", fields)?;
    add_plain(u, CType::Uint(CUint::U32), b"active", fields)
}

/// The fields of a struct.
fn struct_fields(p: &Source, u: &mut Unit, s: StructId) -> Result<CList<CField>, NoMemory>
    requires ready { IsReady p.now.t.now p.now.points.now p.now.started.now }
    requires coroutines { HaveCoroutines (package_of p.now.t.now) p.now.coroutines.now }
    requires known { s.0 < length p.now.t.now.structs }
    ensures grows { Grows u.old u.new }
    ensures made { IfOk result (λ list. HasFieldTrees u.new list (struct_fields_of (package_of p.now.t.now) s.0)) }
{
    let mut fields = CList::new(p.alloc);
    add_life(u, &mut fields)?;
    add_all_source(p.t, u, p.t.structure(s).fields.as_slice(), &mut fields)?;
    add_coroutines(p, u, s, &mut fields)?;
    Ok(fields)
}

/// A struct.
pub(crate) fn struct_item(p: &Source, u: &mut Unit, s: StructId) -> Result<CItem, NoMemory>
    requires ready { IsReady p.now.t.now p.now.points.now p.now.started.now }
    requires coroutines { HaveCoroutines (package_of p.now.t.now) p.now.coroutines.now }
    requires known { s.0 < length p.now.t.now.structs }
    ensures grows { Grows u.old u.new }
    ensures made { IfOk result (λ it. HasItemTree u.new it (c.struct_item (struct_fields_of (package_of p.now.t.now) s.0) (type_name (package_of p.now.t.now) s.0))) }
{
    let fields = struct_fields(p, u, s)?;
    let name = struct_type(p.t, u, s)?;
    Ok(CItem::Struct { fields, name })
}

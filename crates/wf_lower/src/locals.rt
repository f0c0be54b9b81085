// The locals of a body: the places and ends of its readers and writers, the source's locals, zero, false, ok or empty, and where
// the code reads them the pointers to the bytes of readers and writers, and what else it reads.

ghost use Rattle.std.specs.Prelude.{◌≡◌, ◌<◌, ◌++◌, ◌∷◌, [], true, codes, length, IfOk, OnOk};
ghost use Rattle.std.specs.List.{list_all};
ghost use Rattle.wf_ast.specs.TypedPackage.{variable_of};
ghost use Rattle.c_text.specs.CFits.{HasLocal, HasType};
ghost use Rattle.c_text.specs.CGrammar.{IsName};
ghost use Rattle.c_text.specs.CNodes.{bytes_at, expr_of, local_tree, type_in};
ghost use Rattle.c_text.specs.CSpelling.{is_word_byte};
ghost use Rattle.c_text.specs.declared.kinds.CUint.TheVariants.{U8};
ghost use Rattle.c_text.specs.CTree.{Code, member, size, uint_pointer};
ghost use Rattle.wf_exprs.specs.Exprs.{io_code};
ghost use Rattle.wf_exprs.specs.Grown.{Grows};
ghost use Rattle.wf_exprs.specs.Names.{io_bytes, io_end, io_place, named};
ghost use Rattle.wf_exprs.specs.Scopes.{is_named};
ghost use Rattle.wf_exprs.specs.Words.{num};
ghost use Rattle.wf_lower_stmts.specs.BodyNodes.{form_in};
ghost use Rattle.wf_lower_stmts.specs.Forms.{end_of as end_code, place_in as place_code};
ghost use Rattle.wf_lower.specs.Bodies.{bytes_locals, declared, fixed_locals as fixed_locals_of, further_locals, io_locals, local_of, locals_of, resume_of};
ghost use Rattle.wf_lower.specs.Made.{AddsLocals, AddsRead, CodeReads, HasLocalTree, HasLocalTrees, more_locals, resume_locals};
ghost use Rattle.wf_lower.specs.Shared.{HasOwnNames};
ghost use Rattle.wf_lower.specs.Locals.{answer_locals, bytes_in, place_locals, started_locals};

use crate::declaring::{local, zero_named, zero_spelt};
use crate::shared::OwnNames;
use c_text::{CExprId, CList, CLocal, CNameId, CType, CUint, Unit};
use wf_ast::{Ty, Var};
use wf_exprs::names::put_spelt;
use wf_exprs::nodes::uint_of;
use wf_exprs_nodes::marks::ReadNames;
use wf_lower_stmts::Body;
use wf_lower_stmts::keeping::point_there;
use wf_lower_stmts::places::{end_of, is_io, place_in};
use wf_text::NoMemory;

/// A `size_t` that tells a place in a buffer.
fn size_local(u: &mut Unit, begin: &[u8], end: &[u8], initial: CExprId) -> Result<CLocal, NoMemory>
    requires name { IsName (begin.now ++ end.now) }
    requires initial { initial.0 < length u.old.exprs }
    ensures grows { Grows u.old u.new }
    ensures made { IfOk result (λ it. HasLocalTree u.new it (declared size (begin.now ++ end.now) (expr_of u.old initial.0))) }
{
    let name = put_spelt(u, begin, end)?;
    Ok(CLocal {
        kind: CType::Size,
        name,
        initial: Some(initial),
    })
}

/// The source's name of an argument.
fn argument_name<'a>(b: &'a Body, n: usize) -> &'a [u8]
    requires { n < length b.now.method.args }
    ensures is { result.now ≡ named (form_in b.now).names.args n }
    ensures word { list_all is_word_byte result.now ≡ true }
    ensures few { n < 64 }
{
    b.is_sound();
    b.typed().text(b.arguments()[n].name)
}

/// The place of a reader or a writer.
fn place_local(b: &Body, u: &mut Unit, n: usize, ty: Ty) -> Result<CLocal, NoMemory>
    requires { n < length b.now.method.args }
    ensures grows { Grows u.old u.new }
    ensures made { IfOk result (λ it. HasLocalTree u.new it (declared size (io_place (form_in b.now).names n) (place_code (io_code (form_in b.now).names n) ty))) }
{
    let name = argument_name(b, n);
    let place = place_in(b.scope(), u, n as u32, ty)?;
    size_local(u, b"p_", name, place)
}

/// The end of a reader or a writer.
fn end_local(b: &Body, u: &mut Unit, n: usize, ty: Ty) -> Result<CLocal, NoMemory>
    requires { n < length b.now.method.args }
    ensures grows { Grows u.old u.new }
    ensures made { IfOk result (λ it. HasLocalTree u.new it (declared size (io_end (form_in b.now).names n) (end_code (io_code (form_in b.now).names n) ty))) }
{
    let name = argument_name(b, n);
    let end = end_of(b.scope(), u, n as u32, ty)?;
    size_local(u, b"e_", name, end)
}

/// The place and the end of an argument that is a reader or a writer.
fn add_io(
    b: &Body,
    u: &mut Unit,
    n: usize,
    ty: Ty,
    locals: &mut CList<CLocal>,
) -> Result<(), NoMemory>
    requires { n < length b.now.method.args }
    ensures grows { Grows u.old u.new }
    ensures made { OnOk result (AddsLocals u.old u.new locals.old locals.new (place_locals (form_in b.now).names n ty)) }
{
    if is_io(ty) {
        let place = place_local(b, u, n, ty)?;
        locals.push(place)?;
        let end = end_local(b, u, n, ty)?;
        locals.push(end)
    } else {
        Ok(())
    }
}

fn add_all_io(b: &Body, u: &mut Unit, locals: &mut CList<CLocal>) -> Result<(), NoMemory>
    ensures grows { Grows u.old u.new }
    ensures made { OnOk result (AddsLocals u.old u.new locals.old locals.new (io_locals (form_in b.now) 0 (form_in b.now).method.args)) }
{
    let args = b.arguments();
    for i in 0..args.len() {
        add_io(b, u, i, args[i].ty, locals)?;
    }
    Ok(())
}

/// A local that is 0 at first, with a name that ends with the source's.
fn add_zero(
    u: &mut Unit,
    kind: CType,
    begin: &[u8],
    end: &[u8],
    locals: &mut CList<CLocal>,
) -> Result<(), NoMemory>
    requires kind { HasType u.old kind }
    requires name { IsName (begin.now ++ end.now) }
    ensures grows { Grows u.old u.new }
    ensures made { OnOk result (AddsLocals u.old u.new locals.old locals.new (declared (type_in u.old.names kind) (begin.now ++ end.now) (num 0) ∷ [])) }
{
    let local = zero_spelt(u, kind, begin, end)?;
    locals.push(local)
}

/// The pointer and the length of a local slice.
fn add_slice(
    u: &mut Unit,
    cells: CUint,
    name: &[u8],
    locals: &mut CList<CLocal>,
) -> Result<(), NoMemory>
    requires { list_all is_word_byte name.now ≡ true }
    ensures grows { Grows u.old u.new }
    ensures made { OnOk result (AddsLocals u.old u.new locals.old locals.new (declared (uint_pointer cells) (codes "vp_" ++ name.now) (num 0) ∷ declared size (codes "vl_" ++ name.now) (num 0) ∷ [])) }
{
    add_zero(u, CType::UintPointer(cells), b"vp_", name, locals)?;
    add_zero(u, CType::Size, b"vl_", name, locals)
}

/// The locals of one local of the source.
fn add_typed(u: &mut Unit, ty: Ty, name: &[u8], locals: &mut CList<CLocal>) -> Result<(), NoMemory>
    requires { list_all is_word_byte name.now ≡ true }
    ensures grows { Grows u.old u.new }
    ensures made { OnOk result (AddsLocals u.old u.new locals.old locals.new (local_of (record { name = name.now; ty = ty }))) }
{
    match ty {
        Ty::Num { width, .. } => add_zero(u, CType::Uint(uint_of(width)), b"v_", name, locals),
        Ty::Flag => add_zero(u, CType::Bool, b"v_", name, locals),
        Ty::Status => add_zero(u, CType::Text, b"v_", name, locals),
        Ty::Slice(width) => add_slice(u, uint_of(width), name, locals),
        Ty::Reader => Ok(()),
        Ty::Writer => Ok(()),
        Ty::Array { .. } => Ok(()),
        Ty::Part(_) => Ok(()),
    }
}

fn add_local(b: &Body, u: &mut Unit, x: Var, locals: &mut CList<CLocal>) -> Result<(), NoMemory>
    requires { is_named b.now.nodes x ≡ true }
    ensures grows { Grows u.old u.new }
    ensures made { OnOk result (AddsLocals u.old u.new locals.old locals.new (local_of (variable_of b.now.nodes x))) }
{
    add_typed(u, x.ty, b.typed().text(x.name), locals)
}

fn add_all_locals(b: &Body, u: &mut Unit, locals: &mut CList<CLocal>) -> Result<(), NoMemory>
    ensures grows { Grows u.old u.new }
    ensures made { OnOk result (AddsLocals u.old u.new locals.old locals.new (locals_of (form_in b.now).method.locals)) }
{
    let declared = b.locals();
    for i in 0..declared.len() {
        add_local(b, u, declared[i], locals)?;
    }
    Ok(())
}

/// The locals that every body of the method has.
pub(crate) fn fixed_locals(b: &Body, u: &mut Unit) -> Result<CList<CLocal>, NoMemory>
    ensures grows { Grows u.old u.new }
    ensures made { IfOk result (λ list. HasLocalTrees u.new list (fixed_locals_of (form_in b.now))) }
{
    let mut locals = CList::new(b.alloc());
    add_all_io(b, u, &mut locals)?;
    add_all_locals(b, u, &mut locals)?;
    Ok(locals)
}

/// Adds a local, where the code reads it.
fn add_where_read(
    u: &Unit,
    read: &ReadNames,
    local: CLocal,
    locals: &mut CList<CLocal>,
) -> Result<(), NoMemory>
    requires { HasLocal u.now local }
    ensures { OnOk result (AddsRead read.now u.now u.now locals.old locals.new (local_tree u.now.names (expr_of u.now) local ∷ [])) }
{
    if read.has(u, local.name) {
        locals.push(local)
    } else {
        Ok(())
    }
}

/// A further local, where the code reads it: its value is only put where it is added.
fn add_read(
    u: &mut Unit,
    read: &ReadNames,
    kind: CType,
    name: CNameId,
    locals: &mut CList<CLocal>,
) -> Result<(), NoMemory>
    requires kind { HasType u.old kind }
    requires name { name.0 < length u.old.names }
    ensures grows { Grows u.old u.new }
    ensures made { OnOk result (AddsRead read.now u.old u.new locals.old locals.new (declared (type_in u.old.names kind) (bytes_at u.old.names name.0) (num 0) ∷ [])) }
{
    if read.has(u, name) {
        let local = zero_named(u, kind, name)?;
        locals.push(local)
    } else {
        Ok(())
    }
}

/// The pointer to the bytes of a reader or a writer.
#[tactic(auto, using(wf_exprs::proofs::Growing::grows_on), unfolding(c_text::specs::CSpelling::is_reserved))]
fn bytes_local(b: &Body, u: &mut Unit, n: usize) -> Result<CLocal, NoMemory>
    requires { n < length b.now.method.args }
    ensures grows { Grows u.old u.new }
    ensures made { IfOk result (λ it. HasLocalTree u.new it (declared (uint_pointer U8) (io_bytes (form_in b.now).names n) (member (io_code (form_in b.now).names n) (codes "ptr")))) }
{
    let own = argument_name(b, n);
    let initial = b.scope().buffer_member(u, n as u32, b"ptr")?;
    let name = put_spelt(u, b"b_", own)?;
    Ok(CLocal {
        kind: CType::UintPointer(CUint::U8),
        name,
        initial: Some(initial),
    })
}

/// The same for an argument, where it is a reader or a writer and the code reads the pointer.
fn add_bytes(
    b: &Body,
    u: &mut Unit,
    n: usize,
    ty: Ty,
    read: &ReadNames,
    locals: &mut CList<CLocal>,
) -> Result<(), NoMemory>
    requires known { n < length b.now.method.args }
    ensures grows { Grows u.old u.new }
    ensures made { OnOk result (AddsRead read.now u.old u.new locals.old locals.new (bytes_in (form_in b.now).names n ty)) }
{
    if is_io(ty) {
        let bytes = bytes_local(b, u, n)?;
        add_where_read(u, read, bytes, locals)
    } else {
        Ok(())
    }
}

fn add_all_bytes(
    b: &Body,
    u: &mut Unit,
    read: &ReadNames,
    locals: &mut CList<CLocal>,
) -> Result<(), NoMemory>
    ensures grows { Grows u.old u.new }
    ensures made { OnOk result (AddsRead read.now u.old u.new locals.old locals.new (bytes_locals (form_in b.now) 0 (form_in b.now).method.args)) }
{
    let args = b.arguments();
    for i in 0..args.len() {
        add_bytes(b, u, i, args[i].ty, read, locals)?;
    }
    Ok(())
}

/// Where a coroutine goes on.
#[tactic(auto, using(wf_exprs::proofs::Growing::grows_on), unfolding(c_text::specs::CSpelling::is_reserved))]
fn resume_local(b: &Body, u: &mut Unit) -> Result<CLocal, NoMemory>
    ensures grows { Grows u.old u.new }
    ensures made { IfOk result (λ it. HasLocalTree u.new it (resume_of (form_in b.now).method)) }
{
    let there = point_there(b, u)?;
    local(u, CType::Uint(CUint::U16), b"resume", there)
}

fn add_resume(b: &Body, u: &mut Unit, locals: &mut CList<CLocal>) -> Result<(), NoMemory>
    ensures grows { Grows u.old u.new }
    ensures made { OnOk result (AddsLocals u.old u.new locals.old locals.new (resume_locals (form_in b.now).method)) }
{
    if b.is_coroutine() {
        let resume = resume_local(b, u)?;
        locals.push(resume)
    } else {
        Ok(())
    }
}

/// What a call answers, and how many bytes are copied.
fn add_answers(
    u: &mut Unit,
    read: &ReadNames,
    names: &OwnNames,
    locals: &mut CList<CLocal>,
) -> Result<(), NoMemory>
    requires { HasOwnNames u.old names.now }
    ensures grows { Grows u.old u.new }
    ensures made { OnOk result (AddsRead read.now u.old u.new locals.old locals.new answer_locals) }
{
    add_read(u, read, CType::Text, names.status, locals)?;
    add_read(u, read, CType::Uint(CUint::U64), names.got, locals)?;
    add_read(u, read, CType::Size, names.size, locals)
}

/// What a started statement has.
fn add_started(
    u: &mut Unit,
    read: &ReadNames,
    names: &OwnNames,
    locals: &mut CList<CLocal>,
) -> Result<(), NoMemory>
    requires { HasOwnNames u.old names.now }
    ensures grows { Grows u.old u.new }
    ensures made { OnOk result (AddsRead read.now u.old u.new locals.old locals.new started_locals) }
{
    add_read(u, read, CType::Uint(CUint::U64), names.held, locals)?;
    add_read(u, read, CType::Uint(CUint::U8), names.count, locals)
}

fn add_own(
    u: &mut Unit,
    read: &ReadNames,
    names: &OwnNames,
    locals: &mut CList<CLocal>,
) -> Result<(), NoMemory>
    requires { HasOwnNames u.old names.now }
    ensures grows { Grows u.old u.new }
    ensures made { OnOk result (AddsRead read.now u.old u.new locals.old locals.new further_locals) }
{
    add_answers(u, read, names, locals)?;
    add_started(u, read, names, locals)
}

/// What else the code reads.
pub(crate) fn add_further(
    b: &Body,
    u: &mut Unit,
    read: &ReadNames,
    names: &OwnNames,
    locals: &mut CList<CLocal>,
) -> Result<(), NoMemory>
    requires { HasOwnNames u.old names.now }
    ensures grows { Grows u.old u.new }
    ensures made { OnOk result ((code : Code) → CodeReads code u.old.names read.now → AddsLocals u.old u.new locals.old locals.new (more_locals (form_in b.now) code)) }
{
    add_all_bytes(b, u, read, locals)?;
    add_own(u, read, names, locals)?;
    add_resume(b, u, locals)
}

// Parameters, results and locals of functions.

ghost use Rattle.std.specs.Prelude.{◌≡◌, ◌<◌, ◌++◌, ◌∷◌, [], true, length, map, codes, OnOk, IfOk};
ghost use Rattle.std.specs.List.{list_all};
ghost use Rattle.wf_ast.specs.TypedPackage.{answers_of, kind_of, package_of, variable_of};
ghost use Rattle.wf_bufs.specs.SurfaceViews.{answer_kind_of};
ghost use Rattle.c_text.specs.CFits.{HasType};
ghost use Rattle.c_text.specs.CGrammar.{IsName};
ghost use Rattle.c_text.specs.CNodes.{bytes_at, expr_of, type_in};
ghost use Rattle.c_text.specs.CSpelling.{is_word_byte};
ghost use Rattle.c_text.specs.CTree.{struct_pointer, uint_pointer, size};
ghost use Rattle.c_meaning.specs.UnitForm.{answer_type as type_answered, arg_params, args_params};
ghost use Rattle.wf_exprs.specs.Grown.{Grows};
ghost use Rattle.wf_exprs.specs.Scopes.{are_named, is_named};
ghost use Rattle.wf_exprs.specs.Words.{num};
ghost use Rattle.wf_lower_stmts.specs.BodyNodes.{HasWords, is_spelt_method};
ghost use Rattle.wf_lower.specs.Bodies.{declared, public_args};
ghost use Rattle.wf_lower.specs.Made.{AddsParams, HasLocalTree, HasParamTree, HasParamTrees, HasTypeTree, IsResult, params_in, receiver_param};

use c_text::{CExprId, CList, CLocal, CNameId, CParam, CType, CUint, Unit};
use std::alloc::Global;
use wf_ast::{Method, StructId, Ty, Typed, Var};
use wf_bufs::AnswerKind;
use wf_exprs::names::{put_name, put_spelt};
use wf_exprs::nodes::{number, uint_of};
use wf_lower_stmts::spelling::struct_type;
use wf_surfaces::answer_kind;
use wf_text::NoMemory;

/// A parameter whose name ends with the source's.
fn param(u: &mut Unit, kind: CType, begin: &[u8], end: &[u8]) -> Result<CParam, NoMemory>
    requires kind { HasType u.old kind }
    requires name { IsName (begin.now ++ end.now) }
    ensures grows { Grows u.old u.new }
    ensures made { IfOk result (λ it. HasParamTree u.new it (record { kind = type_in u.old.names kind; name = begin.now ++ end.now })) }
{
    let name = put_spelt(u, begin, end)?;
    Ok(CParam { kind, name })
}

/// The pointer to the receiver.
#[tactic(auto, using(wf_exprs::proofs::Growing::grows_on), unfolding(c_text::specs::CSpelling::is_reserved))]
pub(crate) fn self_param(t: &Typed, u: &mut Unit, s: StructId) -> Result<CParam, NoMemory>
    requires known { s.0 < length t.now.structs }
    requires words { HasWords t.now }
    ensures grows { Grows u.old u.new }
    ensures made { IfOk result (λ it. HasParamTree u.new it (receiver_param (package_of t.now) s.0)) }
{
    let of = struct_type(t, u, s)?;
    let name = put_name(u, b"self")?;
    Ok(CParam {
        kind: CType::StructPointer(of),
        name,
    })
}

/// The pointer to a buffer.
#[tactic(auto, using(wf_exprs::proofs::Growing::grows_on), unfolding(c_text::specs::CSpelling::is_reserved))]
fn buffer(u: &mut Unit) -> Result<CType, NoMemory>
    ensures grows { Grows u.old u.new }
    ensures made { IfOk result (λ kind. HasTypeTree u.new kind (struct_pointer (codes "wuffs_base__io_buffer"))) }
{
    let name = put_name(u, b"wuffs_base__io_buffer")?;
    Ok(CType::StructPointer(name))
}

/// Adds a parameter whose name ends with the source's.
fn add_param(
    u: &mut Unit,
    kind: CType,
    begin: &[u8],
    end: &[u8],
    params: &mut CList<CParam>,
) -> Result<(), NoMemory>
    requires kind { HasType u.old kind }
    requires name { IsName (begin.now ++ end.now) }
    ensures grows { Grows u.old u.new }
    ensures made { OnOk result (AddsParams u.old u.new params.old params.new (record { kind = type_in u.old.names kind; name = begin.now ++ end.now } ∷ [])) }
{
    let param = param(u, kind, begin, end)?;
    params.push(param)
}

/// The pointer to a buffer that is an argument.
fn add_buffer(u: &mut Unit, name: &[u8], params: &mut CList<CParam>) -> Result<(), NoMemory>
    requires { list_all is_word_byte name.now ≡ true }
    ensures grows { Grows u.old u.new }
    ensures made { OnOk result (AddsParams u.old u.new params.old params.new (record { kind = struct_pointer (codes "wuffs_base__io_buffer"); name = codes "a_" ++ name.now } ∷ [])) }
{
    let kind = buffer(u)?;
    add_param(u, kind, b"a_", name, params)
}

/// The pointer and the length of a slice that is an argument.
fn add_slice(
    u: &mut Unit,
    cells: CUint,
    name: &[u8],
    params: &mut CList<CParam>,
) -> Result<(), NoMemory>
    requires { list_all is_word_byte name.now ≡ true }
    ensures grows { Grows u.old u.new }
    ensures made { OnOk result (AddsParams u.old u.new params.old params.new (record { kind = uint_pointer cells; name = codes "ap_" ++ name.now } ∷ record { kind = size; name = codes "al_" ++ name.now } ∷ [])) }
{
    add_param(u, CType::UintPointer(cells), b"ap_", name, params)?;
    add_param(u, CType::Size, b"al_", name, params)
}

/// The parameters of one argument.
fn add_params(u: &mut Unit, name: &[u8], ty: Ty, params: &mut CList<CParam>) -> Result<(), NoMemory>
    requires { list_all is_word_byte name.now ≡ true }
    ensures grows { Grows u.old u.new }
    ensures made { OnOk result (AddsParams u.old u.new params.old params.new (arg_params (record { name = name.now; kind = kind_of ty }))) }
{
    match ty {
        Ty::Num { width, .. } => { add_param(u, CType::Uint(uint_of(width)), b"a_", name, params) }
        Ty::Reader => add_buffer(u, name, params),
        Ty::Writer => add_buffer(u, name, params),
        Ty::Slice(width) => add_slice(u, uint_of(width), name, params),
        Ty::Flag => add_param(u, CType::Bool, b"a_", name, params),
        Ty::Status => add_param(u, CType::Bool, b"a_", name, params),
        Ty::Array { .. } => add_param(u, CType::Bool, b"a_", name, params),
        Ty::Part(_) => add_param(u, CType::Bool, b"a_", name, params),
    }
}

/// The parameters of an argument as the source declares it.
fn add_arg(t: &Typed, u: &mut Unit, x: Var, params: &mut CList<CParam>) -> Result<(), NoMemory>
    requires { is_named t.now x ≡ true }
    ensures grows { Grows u.old u.new }
    ensures made { OnOk result (AddsParams u.old u.new params.old params.new (args_params (public_args (variable_of t.now x ∷ [])))) }
{
    add_params(u, t.text(x.name), x.ty, params)
}

/// The parameters of these arguments.
fn add_args(
    t: &Typed,
    u: &mut Unit,
    args: &[Var],
    params: &mut CList<CParam>,
) -> Result<(), NoMemory>
    requires { are_named t.now args.now ≡ true }
    ensures grows { Grows u.old u.new }
    ensures made { OnOk result (AddsParams u.old u.new params.old params.new (args_params (public_args (map (variable_of t.now) args.now)))) }
{
    for i in 0..args.len() {
        add_arg(t, u, args[i], params)?;
    }
    Ok(())
}

/// The parameters of a method: the receiver, and each argument as a host knows it.
pub(crate) fn params_of(
    alloc: Global,
    t: &Typed,
    u: &mut Unit,
    m: &Method,
) -> Result<CList<CParam>, NoMemory>
    requires words { HasWords t.now }
    requires spelt { is_spelt_method t.now m.now ≡ true }
    ensures grows { Grows u.old u.new }
    ensures made { IfOk result (λ list. HasParamTrees u.new list (params_in t.now m.now)) }
{
    let receiver = self_param(t, u, m.of)?;
    let mut params = CList::new(alloc);
    params.push(receiver)?;
    add_args(t, u, m.args.as_slice(), &mut params)?;
    Ok(params)
}

/// The type of what a function answers.
pub(crate) fn answer_type(answers: AnswerKind) -> Option<CType>
    ensures { IsResult result (type_answered (answer_kind_of answers)) }
{
    match answers {
        AnswerKind::Status => Some(CType::Text),
        AnswerKind::Number(width) => Some(CType::Uint(uint_of(width))),
        AnswerKind::Flag => Some(CType::Bool),
        AnswerKind::Nothing => None,
    }
}

/// The type of what a method answers.
pub(crate) fn result_of(m: &Method) -> Option<CType>
    ensures { IsResult result (type_answered (answers_of m.now.mark m.now.gives)) }
{
    answer_type(answer_kind(m.mark, m.gives))
}

/// A local with its initial value.
pub(crate) fn local(
    u: &mut Unit,
    kind: CType,
    name: &[u8],
    initial: CExprId,
) -> Result<CLocal, NoMemory>
    requires kind { HasType u.old kind }
    requires name { IsName name.now }
    requires initial { initial.0 < length u.old.exprs }
    ensures grows { Grows u.old u.new }
    ensures made { IfOk result (λ it. HasLocalTree u.new it (declared (type_in u.old.names kind) name.now (expr_of u.old initial.0))) }
{
    let name = put_name(u, name)?;
    Ok(CLocal {
        kind,
        name,
        initial: Some(initial),
    })
}

/// A local that is 0 at first.
pub(crate) fn zero_local(u: &mut Unit, kind: CType, name: &[u8]) -> Result<CLocal, NoMemory>
    requires kind { HasType u.old kind }
    requires name { IsName name.now }
    ensures grows { Grows u.old u.new }
    ensures made { IfOk result (λ it. HasLocalTree u.new it (declared (type_in u.old.names kind) name.now (num 0))) }
{
    let zero = number(u, 0)?;
    local(u, kind, name, zero)
}

/// The same, with a name that the unit has.
pub(crate) fn zero_named(u: &mut Unit, kind: CType, name: CNameId) -> Result<CLocal, NoMemory>
    requires kind { HasType u.old kind }
    requires name { name.0 < length u.old.names }
    ensures grows { Grows u.old u.new }
    ensures made { IfOk result (λ it. HasLocalTree u.new it (declared (type_in u.old.names kind) (bytes_at u.old.names name.0) (num 0))) }
{
    let zero = number(u, 0)?;
    Ok(CLocal {
        kind,
        name,
        initial: Some(zero),
    })
}

/// The same, with a name that ends with the source's.
pub(crate) fn zero_spelt(
    u: &mut Unit,
    kind: CType,
    begin: &[u8],
    end: &[u8],
) -> Result<CLocal, NoMemory>
    requires kind { HasType u.old kind }
    requires name { IsName (begin.now ++ end.now) }
    ensures grows { Grows u.old u.new }
    ensures made { IfOk result (λ it. HasLocalTree u.new it (declared (type_in u.old.names kind) (begin.now ++ end.now) (num 0))) }
{
    let zero = number(u, 0)?;
    let name = put_spelt(u, begin, end)?;
    Ok(CLocal {
        kind,
        name,
        initial: Some(zero),
    })
}

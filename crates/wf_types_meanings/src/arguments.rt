// The types of arguments.

ghost use Rattle.std.specs.Prelude.{◌≡◌, slice_get, option_map, option_and_then};
ghost use Rattle.wf_base.specs.BaseTable.{row_of};
ghost use Rattle.wf_base.specs.declared.base_methods.ArgTy.TheVariants as arg_types;
ghost use Rattle.wf_types_rules.specs.Judgements.{base_arg as base_type_wanted, own_arg as own_type_wanted, wanted as type_wanted};

use crate::variables::variable;
use wf_ast::Ty;
use wf_base::{ArgTy, BaseSig, Kind, Width};
use wf_named::NamedCallee;
use wf_text::MethodId;
use wf_types_operators::meanings::all_of;
use wf_types_rules::{Around, MethodType};

/// The kind of values that a base method is called on.
pub(crate) fn kind(sig: BaseSig) -> Kind
    ensures { result ≡ (row_of sig).on }
{
    match sig {
        BaseSig::ReaderLength => Kind::Reader,
        BaseSig::ReaderIsClosed => Kind::Reader,
        BaseSig::ReaderPosition => Kind::Reader,
        BaseSig::Read(_) => Kind::Reader,
        BaseSig::Skip => Kind::Reader,
        BaseSig::Peek(_) => Kind::Reader,
        BaseSig::SkipFast => Kind::Reader,
        BaseSig::WriterLength => Kind::Writer,
        BaseSig::WriterPosition => Kind::Writer,
        BaseSig::Write => Kind::Writer,
        BaseSig::WriteFast => Kind::Writer,
        BaseSig::WriterCopy => Kind::Writer,
        BaseSig::SliceCopy(width) => Kind::Slice(width),
        BaseSig::SliceLength(width) => Kind::Slice(width),
        BaseSig::ArrayLength(width) => Kind::Array(width),
        BaseSig::IsOk => Kind::Status,
        BaseSig::IsNote => Kind::Status,
        BaseSig::IsSuspension => Kind::Status,
        BaseSig::IsError => Kind::Status,
    }
}

fn slice_on(kind: Kind) -> Ty
    ensures { result ≡ base_type_wanted kind arg_types.SameSlice }
{
    match kind {
        Kind::Slice(width) => Ty::Slice(width),
        Kind::Reader | Kind::Writer | Kind::Array(_) | Kind::Status => Ty::Slice(Width::W8),
    }
}

/// The type that an argument of a base method has, on values of this kind.
pub(crate) fn base_arg(kind: Kind, of: ArgTy) -> Ty
    ensures { result ≡ base_type_wanted kind of }
{
    match of {
        ArgTy::U8 => all_of(Width::W8),
        ArgTy::U32 => all_of(Width::W32),
        ArgTy::SameSlice => slice_on(kind),
    }
}

fn base_arg_at(sig: BaseSig, n: usize) -> Option<Ty>
    ensures { result ≡ option_map (λ a. base_type_wanted (row_of sig).on a.1) (slice_get (row_of sig).args n) }
{
    if n < 2 {
        let (_, of) = sig.arg(n as u32)?;
        Some(base_arg(kind(sig), of))
    } else {
        None
    }
}

fn own_arg(m: &MethodType, n: usize) -> Option<Ty>
    ensures { result ≡ own_type_wanted n m.now }
{
    *m.args.as_slice().get(n)?
}

fn own_arg_at(methods: &[MethodType], m: MethodId, n: usize) -> Option<Ty>
    ensures { result ≡ option_and_then (own_type_wanted n) (slice_get methods.now m.0) }
{
    own_arg(methods.get(m.0 as usize)?, n)
}

/// The type of the argument with the number `n`, from 0, of what is called, where that is known.
pub fn wanted(around: &Around<'_>, callee: NamedCallee, n: usize) -> Option<Ty>
    ensures { result ≡ type_wanted around.now callee n }
{
    match callee {
        NamedCallee::Own(m) => own_arg_at(around.methods(), m, n),
        NamedCallee::Sub { method, .. } => own_arg_at(around.methods(), method, n),
        NamedCallee::Base { on, sig } => {
            if variable(around, on.of).is_some() {
                base_arg_at(sig, n)
            } else {
                None
            }
        }
    }
}

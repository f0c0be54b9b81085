// The table of base methods: the methods that the language brings along for readers, writers, slices, arrays
// and statuses.

ghost use Rattle.std.specs.Prelude.{◌≡◌, IfSome, IfNone, option_map, slice_get, bytes_eq, find};
ghost use Rattle.wf_base.specs.BaseTable.{row_of, read_width, peek_width, name_of_read, name_of_peek, IsMethod, method_named};

use crate::marks::Mark;
use crate::widths::Width;

/// The kinds of values that have base methods. A slice's and an array's kind tell the width of an element.
#[derive(Clone, Copy, PartialEq, Eq)]
pub enum Kind {
    /// `base.io_reader`
    Reader,
    /// `base.io_writer`
    Writer,
    Slice(Width),
    Array(Width),
    /// `base.status`
    Status,
}

/// The type of an argument of a base method.
#[derive(Clone, Copy, PartialEq, Eq)]
pub enum ArgTy {
    U8,
    U32,
    /// A slice whose elements are those of the value that the method is called on; a writer's are bytes.
    SameSlice,
}

/// What a base method gives. A coroutine gives it when it doesn't suspend.
#[derive(Clone, Copy, PartialEq, Eq)]
pub enum Gives {
    Nothing,
    Num(Width),
    Flag,
}

/// The numbers that can be read: their width, and for more than one byte whether the highest byte comes first
/// (`Be`) or the lowest (`Le`).
#[derive(Clone, Copy, PartialEq, Eq)]
pub enum ReadForm {
    ReadU8,
    ReadU16Be,
    ReadU16Le,
    ReadU32Be,
    ReadU32Le,
    ReadU64Be,
    ReadU64Le,
}

/// The numbers that can be looked at without being taken.
#[derive(Clone, Copy, PartialEq, Eq)]
pub enum PeekForm {
    PeekU8,
    PeekU16Le,
    PeekU32Le,
}

/// A base method of one kind of value: one row of the table.
#[derive(Clone, Copy, PartialEq, Eq)]
pub enum BaseSig {
    /// How many bytes are unread.
    ReaderLength,
    /// Whether no more bytes will be written.
    ReaderIsClosed,
    /// The place of the next unread byte in the stream.
    ReaderPosition,
    /// Takes the bytes of a number.
    Read(ReadForm),
    /// Takes `n` bytes.
    Skip,
    /// Looks at the bytes of a number, which have to stand there.
    Peek(PeekForm),
    /// Takes `actual` bytes, where at least `worst_case` stand there.
    SkipFast,
    /// How many bytes can be written.
    WriterLength,
    /// The place in the stream of the next byte that is written.
    WriterPosition,
    /// Appends the byte `a`.
    Write,
    /// Appends the byte `a`, for which there has to be room.
    WriteFast,
    /// Appends the first bytes of the slice `s`, as many as fit, and gives their number.
    WriterCopy,
    /// Copies the first elements of the slice `s`, as many as the shorter has, and gives their number.
    SliceCopy(Width),
    SliceLength(Width),
    ArrayLength(Width),
    IsOk,
    IsNote,
    IsSuspension,
    IsError,
}

const READER_METHODS: [BaseSig; 15] = [
    BaseSig::ReaderLength,
    BaseSig::ReaderIsClosed,
    BaseSig::ReaderPosition,
    BaseSig::Read(ReadForm::ReadU8),
    BaseSig::Read(ReadForm::ReadU16Be),
    BaseSig::Read(ReadForm::ReadU16Le),
    BaseSig::Read(ReadForm::ReadU32Be),
    BaseSig::Read(ReadForm::ReadU32Le),
    BaseSig::Read(ReadForm::ReadU64Be),
    BaseSig::Read(ReadForm::ReadU64Le),
    BaseSig::Skip,
    BaseSig::Peek(PeekForm::PeekU8),
    BaseSig::Peek(PeekForm::PeekU16Le),
    BaseSig::Peek(PeekForm::PeekU32Le),
    BaseSig::SkipFast,
];

const WRITER_METHODS: [BaseSig; 5] = [
    BaseSig::WriterLength,
    BaseSig::WriterPosition,
    BaseSig::Write,
    BaseSig::WriteFast,
    BaseSig::WriterCopy,
];

const STATUS_METHODS: [BaseSig; 4] = [
    BaseSig::IsOk,
    BaseSig::IsNote,
    BaseSig::IsSuspension,
    BaseSig::IsError,
];

impl ReadForm {
    /// The width of the number that is read.
    pub fn width(self) -> Width
        ensures { result ≡ read_width self }
    {
        match self {
            ReadForm::ReadU8 => Width::W8,
            ReadForm::ReadU16Be | ReadForm::ReadU16Le => Width::W16,
            ReadForm::ReadU32Be | ReadForm::ReadU32Le => Width::W32,
            ReadForm::ReadU64Be | ReadForm::ReadU64Le => Width::W64,
        }
    }
}

impl PeekForm {
    /// The width of the number that is looked at.
    pub fn width(self) -> Width
        ensures { result ≡ peek_width self }
    {
        match self {
            PeekForm::PeekU8 => Width::W8,
            PeekForm::PeekU16Le => Width::W16,
            PeekForm::PeekU32Le => Width::W32,
        }
    }
}

impl BaseSig {
    /// The method's name, without its mark.
    pub(crate) fn name(self) -> &'static str
        ensures { result.now ≡ (row_of self).name }
    {
        match self {
            BaseSig::ReaderLength | BaseSig::WriterLength => "length",
            BaseSig::SliceLength(_) | BaseSig::ArrayLength(_) => "length",
            BaseSig::ReaderIsClosed => "is_closed",
            BaseSig::ReaderPosition | BaseSig::WriterPosition => "position",
            BaseSig::Read(form) => read_name(form),
            BaseSig::Skip => "skip_u32",
            BaseSig::Peek(form) => peek_name(form),
            BaseSig::SkipFast => "skip_u32_fast",
            BaseSig::Write => "write_u8",
            BaseSig::WriteFast => "write_u8_fast",
            BaseSig::WriterCopy | BaseSig::SliceCopy(_) => "copy_from_slice",
            BaseSig::IsOk => "is_ok",
            BaseSig::IsNote => "is_note",
            BaseSig::IsSuspension => "is_suspension",
            BaseSig::IsError => "is_error",
        }
    }

    /// The method's mark.
    pub fn mark(self) -> Mark
        ensures { result ≡ (row_of self).mark }
    {
        match self {
            BaseSig::Read(_) | BaseSig::Skip | BaseSig::Write => Mark::Coroutine,
            BaseSig::SkipFast | BaseSig::WriteFast => Mark::Impure,
            BaseSig::WriterCopy | BaseSig::SliceCopy(_) => Mark::Impure,
            _ => Mark::Pure,
        }
    }

    /// The name and the type of argument `i`, from 0; None where the method has no such argument.
    pub fn arg(self, i: u32) -> Option<(&'static str, ArgTy)>
        ensures { option_map (λ arg. (arg.0.now, arg.1)) result ≡ slice_get (row_of self).args i }
    {
        match (self, i) {
            (BaseSig::Skip, 0) => Some(("n", ArgTy::U32)),
            (BaseSig::SkipFast, 0) => Some(("actual", ArgTy::U32)),
            (BaseSig::SkipFast, 1) => Some(("worst_case", ArgTy::U32)),
            (BaseSig::Write | BaseSig::WriteFast, 0) => Some(("a", ArgTy::U8)),
            (BaseSig::WriterCopy | BaseSig::SliceCopy(_), 0) => Some(("s", ArgTy::SameSlice)),
            _ => None,
        }
    }

    /// What the method gives.
    pub fn gives(self) -> Gives
        ensures { result ≡ (row_of self).gives }
    {
        match self {
            BaseSig::ReaderLength | BaseSig::WriterLength => Gives::Num(Width::W64),
            BaseSig::SliceLength(_) | BaseSig::ArrayLength(_) => Gives::Num(Width::W64),
            BaseSig::ReaderPosition | BaseSig::WriterPosition => Gives::Num(Width::W64),
            BaseSig::WriterCopy | BaseSig::SliceCopy(_) => Gives::Num(Width::W64),
            BaseSig::Read(form) => Gives::Num(form.width()),
            BaseSig::Peek(form) => Gives::Num(form.width()),
            BaseSig::Skip | BaseSig::SkipFast => Gives::Nothing,
            BaseSig::Write | BaseSig::WriteFast => Gives::Nothing,
            _ => Gives::Flag,
        }
    }
}

fn read_name(form: ReadForm) -> &'static str
    ensures { result.now ≡ name_of_read form }
{
    match form {
        ReadForm::ReadU8 => "read_u8",
        ReadForm::ReadU16Be => "read_u16be",
        ReadForm::ReadU16Le => "read_u16le",
        ReadForm::ReadU32Be => "read_u32be",
        ReadForm::ReadU32Le => "read_u32le",
        ReadForm::ReadU64Be => "read_u64be",
        ReadForm::ReadU64Le => "read_u64le",
    }
}

fn peek_name(form: PeekForm) -> &'static str
    ensures { result.now ≡ name_of_peek form }
{
    match form {
        PeekForm::PeekU8 => "peek_u8",
        PeekForm::PeekU16Le => "peek_u16le",
        PeekForm::PeekU32Le => "peek_u32le",
    }
}

/// The base method with this name on values of this kind; None exactly where the table has no such row.
#[tactic(auto, using(crate::proofs::TableLemmas::method_named_found, crate::proofs::TableLemmas::method_named_none))]
pub fn base_method(kind: Kind, name: &[u8]) -> Option<BaseSig>
    ensures value { result ≡ method_named kind name.now }
    ensures found { IfSome result (λ method. IsMethod kind name.now method) }
    ensures none { IfNone result ((method : _) → IsMethod kind name.now method → ⊥) }
{
    look_up(kind, name)
}

fn look_up(kind: Kind, name: &[u8]) -> Option<BaseSig>
    ensures { result ≡ method_named kind name.now }
{
    match kind {
        Kind::Reader => with_name(&READER_METHODS, name),
        Kind::Writer => with_name(&WRITER_METHODS, name),
        Kind::Slice(width) => {
            with_name(
                &[BaseSig::SliceCopy(width), BaseSig::SliceLength(width)],
                name,
            )
        }
        Kind::Array(width) => with_name(&[BaseSig::ArrayLength(width)], name),
        Kind::Status => with_name(&STATUS_METHODS, name),
    }
}

fn with_name(methods: &[BaseSig], name: &[u8]) -> Option<BaseSig>
    ensures { result ≡ find (λ method. bytes_eq (row_of method).name name.now) methods.now }
{
    methods
        .iter()
        .copied()
        .find(|method| method.name().as_bytes() == name)
}

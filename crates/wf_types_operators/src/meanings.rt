// Tests of what an expression means.

ghost use Rattle.std.specs.Prelude.{◌≡◌, ◌-◌, ◌^◌};
ghost use Rattle.wf_base.specs.BaseTable.{bits_of};
ghost use Rattle.wf_types_rules.specs.Meanings.{all_of as all_numbers, same_width as same_widths, is_value as means_value, is_io as means_io, is_number as means_number, is_flag as means_flag, is_status as means_status, is_constant as means_constant, constant_number as number_meant, width_of as width_meant};
ghost use Rattle.wf_types_rules.specs.Operands.{first_of as first_there, differs_in as differ};

use wf_ast::Ty;
use wf_base::Width;
use wf_types_rules::Meaning;

/// The greatest number of a width.
pub fn greatest(width: Width) -> u64
    ensures { result ≡ 2 ^ bits_of width - 1 }
{
    match width {
        Width::W8 => 0xff,
        Width::W16 => 0xffff,
        Width::W32 => 0xffff_ffff,
        Width::W64 => 0xffff_ffff_ffff_ffff,
    }
}

/// The type of all numbers of a width.
pub fn all_of(width: Width) -> Ty
    ensures { result ≡ all_numbers width }
{
    Ty::Num {
        width,
        lo: 0,
        hi: greatest(width),
    }
}

/// Whether two widths are the same.
pub fn same_width(a: Width, b: Width) -> bool
    ensures { result ≡ same_widths a b }
{
    a.bits() == b.bits()
}

/// Whether it may stand as a value: an array, a struct, a reader and a writer may not.
pub fn is_value(m: Meaning) -> bool
    ensures { result ≡ means_value m }
{
    match m {
        Meaning::Typed(Ty::Reader | Ty::Writer | Ty::Array { .. } | Ty::Part(_)) => false,
        _ => true,
    }
}

/// Whether it is a reader or a writer.
pub fn is_io(m: Meaning) -> bool
    ensures { result ≡ means_io m }
{
    match m {
        Meaning::Typed(Ty::Reader | Ty::Writer) => true,
        _ => false,
    }
}

/// Whether it is a number.
pub fn is_number(m: Meaning) -> bool
    ensures { result ≡ means_number m }
{
    match m {
        Meaning::Constant { .. } => true,
        Meaning::Typed(Ty::Num { .. }) => true,
        _ => false,
    }
}

/// Whether it is a bool.
pub fn is_flag(m: Meaning) -> bool
    ensures { result ≡ means_flag m }
{
    match m {
        Meaning::Typed(Ty::Flag) => true,
        _ => false,
    }
}

/// Whether it is a status.
pub fn is_status(m: Meaning) -> bool
    ensures { result ≡ means_status m }
{
    match m {
        Meaning::Typed(Ty::Status) => true,
        _ => false,
    }
}

/// Whether it is a constant expression.
pub fn is_constant(m: Meaning) -> bool
    ensures { result ≡ means_constant m }
{
    match m {
        Meaning::Constant { .. } => true,
        Meaning::Typed(_) => false,
    }
}

/// The number of a constant expression.
pub fn constant_number(m: Meaning) -> Option<u64>
    ensures { result ≡ number_meant m }
{
    match m {
        Meaning::Constant { value, .. } => Some(value),
        Meaning::Typed(_) => None,
    }
}

/// The width of a number. A constant of literals alone has none.
pub fn width_of(m: Meaning) -> Option<Width>
    ensures { result ≡ width_meant m }
{
    match m {
        Meaning::Constant { width, .. } => width,
        Meaning::Typed(Ty::Num { width, .. }) => Some(width),
        _ => None,
    }
}

/// Of two widths the first that is there.
pub(crate) fn first_of(a: Option<Width>, b: Option<Width>) -> Option<Width>
    ensures { result ≡ first_there a b }
{
    match a {
        Some(width) => Some(width),
        None => b,
    }
}

/// Whether both widths are there, and aren't the same.
pub fn differs_in(a: Option<Width>, b: Option<Width>) -> bool
    ensures { result ≡ differ a b }
{
    match (a, b) {
        (Some(a), Some(b)) => !same_width(a, b),
        _ => false,
    }
}

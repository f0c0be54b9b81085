// Which constants fit the operands beside them.

ghost use Rattle.std.specs.Prelude.{◌≡◌};
ghost use Rattle.wf_ast.specs.TypedTrees.{operator_kind};
ghost use Rattle.wf_types_rules.specs.Operands.{first_not, common_width as width_in_common, fits_width as fits_in, not_fitting as first_unfit};

use crate::meanings::{first_of, greatest, width_of};
use wf_ast::Op;
use wf_base::Width;
use wf_text::Place;
use wf_types_rules::{Meaning, Operand};

/// The width of the first operand that has one.
pub(crate) fn common_width(os: &[Operand]) -> Option<Width>
    ensures { result ≡ width_in_common os.now }
{
    let mut width = None;
    for o in os {
        width = first_of(width, width_of(o.of));
    }
    width
}

/// Whether it is anything but a constant without a width that lies outside this one.
pub(crate) fn fits_width(width: Option<Width>, m: Meaning) -> bool
    ensures { result ≡ fits_in width m }
{
    match (width, m) {
        (Some(width), Meaning::Constant { width: None, value }) => value <= greatest(width),
        _ => true,
    }
}

fn first_unfit_in(width: Option<Width>, os: &[Operand]) -> Option<Place>
    ensures { result ≡ first_not (fits_in width) os.now }
{
    for o in os {
        if !fits_width(width, o.of) {
            return Some(o.at);
        }
    }
    None
}

fn first_unfit_beside(os: &[Operand]) -> Option<Place>
    ensures { result ≡ first_not (fits_in (width_in_common os.now)) os.now }
{
    first_unfit_in(common_width(os), os)
}

/// The place of the first constant that doesn't fit the width of the operands beside it. The right side of a shift
/// needn't.
pub fn not_fitting(op: Op, os: &[Operand]) -> Option<Place>
    ensures { result ≡ first_unfit (operator_kind op) os.now }
{
    match op {
        Op::And => None,
        Op::Or => None,
        Op::Shl => None,
        Op::Shr => None,
        Op::ModShl => None,
        Op::Same => first_unfit_beside(os),
        Op::Differs => first_unfit_beside(os),
        Op::Add => first_unfit_beside(os),
        Op::Mul => first_unfit_beside(os),
        Op::BitAnd => first_unfit_beside(os),
        Op::BitOr => first_unfit_beside(os),
        Op::BitXor => first_unfit_beside(os),
        Op::Sub => first_unfit_beside(os),
        Op::Div => first_unfit_beside(os),
        Op::Rem => first_unfit_beside(os),
        Op::Less => first_unfit_beside(os),
        Op::LessOrSame => first_unfit_beside(os),
        Op::Greater => first_unfit_beside(os),
        Op::GreaterOrSame => first_unfit_beside(os),
        Op::ModAdd => first_unfit_beside(os),
        Op::ModSub => first_unfit_beside(os),
        Op::ModMul => first_unfit_beside(os),
        Op::SatAdd => first_unfit_beside(os),
        Op::SatSub => first_unfit_beside(os),
    }
}

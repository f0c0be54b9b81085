// What operators give.

ghost use Rattle.std.specs.Prelude.{◌≡◌};
ghost use Rattle.wf_ast.specs.TypedTrees.{operator_kind};
ghost use Rattle.wf_types_rules.specs.Operands.{left_width as width_on_the_left, are_taken as takes_all, constant_of as constant_with, number_in as number_with, constants_in, given as gives, meaning_of_operator as meaning_given, has_no_value as lacks_value, not_taken as first_untaken, not_fitting as first_unfit};
ghost use Rattle.wf_types_operators.specs.Working.{width_by, computed_by};

use crate::fitting::{common_width, not_fitting};
use crate::meanings::{all_of, width_of};
use crate::taken::not_taken;
use crate::values::{are_constants, constant_value};
use wf_ast::{Op, Ty};
use wf_base::Width;
use wf_text::Place;
use wf_types_rules::{Meaning, Operand};

// The width of the operand on the left.
fn left_width(os: &[Operand]) -> Option<Width>
    ensures { result ≡ width_on_the_left os.now }
{
    width_of(os.first()?.of)
}

// The width of the number that an arithmetic operator gives: that of its operands, and of a shift that of its left side.
fn width_given(op: Op, os: &[Operand]) -> Option<Width>
    ensures { result ≡ width_by (operator_kind op) os.now }
{
    match op {
        Op::Shl => left_width(os),
        Op::Shr => left_width(os),
        Op::ModShl => left_width(os),
        Op::Add => common_width(os),
        Op::Mul => common_width(os),
        Op::BitAnd => common_width(os),
        Op::BitOr => common_width(os),
        Op::BitXor => common_width(os),
        Op::Sub => common_width(os),
        Op::Div => common_width(os),
        Op::Rem => common_width(os),
        Op::ModAdd => common_width(os),
        Op::ModSub => common_width(os),
        Op::ModMul => common_width(os),
        Op::SatAdd => common_width(os),
        Op::SatSub => common_width(os),
        Op::And => None,
        Op::Or => None,
        Op::Same => None,
        Op::Differs => None,
        Op::Less => None,
        Op::LessOrSame => None,
        Op::Greater => None,
        Op::GreaterOrSame => None,
    }
}

// The constant with this width and number, where there is one.
fn constant_of(width: Option<Width>, number: Option<u64>) -> Option<Meaning>
    ensures { result ≡ constant_with width number }
{
    let value = number?;
    Some(Meaning::Constant { width, value })
}

// Any number of a width, where there is one.
fn number_in(width: Option<Width>) -> Option<Meaning>
    ensures { result ≡ number_with width }
{
    Some(Meaning::Typed(all_of(width?)))
}

// What an arithmetic operator gives: a constant where all operands are constant, else a number of the width.
fn computed(op: Op, os: &[Operand]) -> Option<Meaning>
    ensures { result ≡ computed_by (operator_kind op) os.now (constants_in os.now) }
{
    let width = width_given(op, os);
    if are_constants(os) {
        constant_of(width, constant_value(op, width, os))
    } else {
        number_in(width)
    }
}

/// What an operator gives of operands that it takes.
pub fn given(op: Op, os: &[Operand]) -> Option<Meaning>
    ensures { result ≡ gives (operator_kind op) os.now }
{
    match op {
        Op::And => Some(Meaning::Typed(Ty::Flag)),
        Op::Or => Some(Meaning::Typed(Ty::Flag)),
        Op::Same => Some(Meaning::Typed(Ty::Flag)),
        Op::Differs => Some(Meaning::Typed(Ty::Flag)),
        Op::Less => Some(Meaning::Typed(Ty::Flag)),
        Op::LessOrSame => Some(Meaning::Typed(Ty::Flag)),
        Op::Greater => Some(Meaning::Typed(Ty::Flag)),
        Op::GreaterOrSame => Some(Meaning::Typed(Ty::Flag)),
        Op::Add => computed(op, os),
        Op::Mul => computed(op, os),
        Op::BitAnd => computed(op, os),
        Op::BitOr => computed(op, os),
        Op::BitXor => computed(op, os),
        Op::Sub => computed(op, os),
        Op::Div => computed(op, os),
        Op::Rem => computed(op, os),
        Op::Shl => computed(op, os),
        Op::Shr => computed(op, os),
        Op::ModAdd => computed(op, os),
        Op::ModSub => computed(op, os),
        Op::ModMul => computed(op, os),
        Op::ModShl => computed(op, os),
        Op::SatAdd => computed(op, os),
        Op::SatSub => computed(op, os),
    }
}

// Whether an operator takes all operands, and each constant fits those beside it.
fn are_taken(op: Op, os: &[Operand]) -> bool
    ensures { result ≡ takes_all (operator_kind op) os.now }
{
    not_taken(op, os).is_none() && not_fitting(op, os).is_none()
}

/// What an operator gives, None where it doesn't take its operands or has no value. Takes time in proportion to the
/// operands.
pub fn meaning_of_operator(op: Op, os: &[Operand]) -> Option<Meaning>
    ensures { result ≡ meaning_given (operator_kind op) os.now }
{
    if are_taken(op, os) {
        given(op, os)
    } else {
        None
    }
}

/// What an operator makes of operands.
#[derive(Clone, Copy)]
pub struct Answer {
    /// The place of the first operand that it doesn't take.
    pub untaken: Option<Place>,
    /// The place of the first constant that doesn't fit the operands beside it.
    pub unfit: Option<Place>,
    /// Whether the operands are taken and constant, and yet there is no value.
    pub has_no_value: bool,
    /// What it gives, None where it doesn't take its operands or has no value.
    pub of: Option<Meaning>,
}

/// What an operator makes of operands, worked out once. Takes time in proportion to the operands.
pub fn answer_of(op: Op, os: &[Operand]) -> Answer
    ensures untaken { result.untaken ≡ first_untaken (operator_kind op) os.now }
    ensures unfit { result.unfit ≡ first_unfit (operator_kind op) os.now }
    ensures has_no_value { result.has_no_value ≡ lacks_value (operator_kind op) os.now }
    ensures of { result.of ≡ meaning_given (operator_kind op) os.now }
{
    let untaken = not_taken(op, os);
    let unfit = not_fitting(op, os);
    if untaken.is_none() && unfit.is_none() {
        let of = given(op, os);
        Answer {
            untaken,
            unfit,
            has_no_value: of.is_none(),
            of,
        }
    } else {
        Answer {
            untaken,
            unfit,
            has_no_value: false,
            of: None,
        }
    }
}

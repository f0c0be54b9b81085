// Which operands an operator takes.

ghost use Rattle.std.specs.Prelude.{◌≡◌, None};
ghost use Rattle.wf_ast.specs.TypedTrees.{operator_kind};
ghost use Rattle.wf_types_rules.specs.Meanings.{is_flag as means_flag, is_status as means_status};
ghost use Rattle.wf_types_rules.specs.Operands.{first_not, not_of_one_width as first_of_other_width, shift_takes as takes_shift, not_shifted as first_unshifted, not_compared as first_uncompared, not_taken as first_untaken};

use crate::meanings::{differs_in, first_of, is_constant, is_flag, is_number, is_status, width_of};
use wf_ast::Op;
use wf_text::Place;
use wf_types_rules::{Meaning, Operand};

fn first_no_flag(os: &[Operand]) -> Option<Place>
    ensures { result ≡ first_not means_flag os.now }
{
    for o in os {
        if !is_flag(o.of) {
            return Some(o.at);
        }
    }
    None
}

fn first_no_status(os: &[Operand]) -> Option<Place>
    ensures { result ≡ first_not means_status os.now }
{
    for o in os {
        if !is_status(o.of) {
            return Some(o.at);
        }
    }
    None
}

// The first operand that is no number, or of another width than one before it.
fn not_of_one_width(os: &[Operand]) -> Option<Place>
    ensures { result ≡ first_of_other_width None os.now }
{
    let mut width = None;
    for o in os {
        if !is_number(o.of) {
            return Some(o.at);
        }
        if differs_in(width, width_of(o.of)) {
            return Some(o.at);
        }
        width = first_of(width, width_of(o.of));
    }
    None
}

fn shift_takes(left: Meaning, right: Meaning) -> bool
    ensures { result ≡ takes_shift left right }
{
    is_number(right) && (width_of(left).is_some() || is_constant(right))
}

fn not_shifted(os: &[Operand]) -> Option<Place>
    ensures { result ≡ first_unshifted os.now }
{
    match os {
        [a, b, ..] => {
            if !is_number(a.of) {
                Some(a.at)
            } else if shift_takes(a.of, b.of) {
                None
            } else {
                Some(b.at)
            }
        }
        _ => None,
    }
}

// `==` and `<>`: after a status statuses, else numbers.
fn not_compared(os: &[Operand]) -> Option<Place>
    ensures { result ≡ first_uncompared os.now }
{
    let (first, others) = os.split_first()?;
    if is_status(first.of) {
        first_no_status(others)
    } else {
        not_of_one_width(os)
    }
}

/// The place of the first operand that an operator doesn't take.
pub fn not_taken(op: Op, os: &[Operand]) -> Option<Place>
    ensures { result ≡ first_untaken (operator_kind op) os.now }
{
    match op {
        Op::And => first_no_flag(os),
        Op::Or => first_no_flag(os),
        Op::Same => not_compared(os),
        Op::Differs => not_compared(os),
        Op::Shl => not_shifted(os),
        Op::Shr => not_shifted(os),
        Op::ModShl => not_shifted(os),
        Op::Add => not_of_one_width(os),
        Op::Mul => not_of_one_width(os),
        Op::BitAnd => not_of_one_width(os),
        Op::BitOr => not_of_one_width(os),
        Op::BitXor => not_of_one_width(os),
        Op::Sub => not_of_one_width(os),
        Op::Div => not_of_one_width(os),
        Op::Rem => not_of_one_width(os),
        Op::Less => not_of_one_width(os),
        Op::LessOrSame => not_of_one_width(os),
        Op::Greater => not_of_one_width(os),
        Op::GreaterOrSame => not_of_one_width(os),
        Op::ModAdd => not_of_one_width(os),
        Op::ModSub => not_of_one_width(os),
        Op::ModMul => not_of_one_width(os),
        Op::SatAdd => not_of_one_width(os),
        Op::SatSub => not_of_one_width(os),
    }
}

// The values of operators on constants.

ghost use Rattle.std.specs.Prelude.{◌≡◌, ◌+◌, ◌*◌, ◌<◌, ◌^◌, Some, None, true, if◌then◌else◌, nat_eq};
ghost use Rattle.std.specs.List.{list_all};
ghost use Rattle.wf_ast.specs.TypedTrees.{operator_kind};
ghost use Rattle.wf_ast.specs.Value.{fitted as fits_in};
ghost use Rattle.wf_types_rules.specs.Meanings.{is_constant as means_constant};
ghost use Rattle.wf_types_rules.specs.Operands.{bits_in};
ghost use Rattle.wf_types_operators.specs.Working.{number_or_zero, numbers, folded, capped_by, applied_by, two_by, value_by, joins};

use crate::meanings::is_constant;
use crate::widths::{
    count, difference, fitted, fitted_if, quotient, reduced, remainder, saturated, shifted_left,
    shifted_right, shifted_within, wide_product,
};
use wf_ast::Op;
use wf_base::Width;
use wf_types_rules::{Meaning, Operand};

/// Whether all operands are constant.
pub(crate) fn are_constants(os: &[Operand]) -> bool
    ensures { result ≡ list_all (λ o. means_constant o.of) os.now }
{
    for o in os {
        if !is_constant(o.of) {
            return false;
        }
    }
    true
}

// The number of a constant, and 0 for anything else.
fn number(m: Meaning) -> u64
    ensures number { result ≡ number_or_zero m }
    ensures small { result < 2 ^ 64 }
{
    match m {
        Meaning::Constant { value, .. } => value,
        Meaning::Typed(_) => 0,
    }
}

// A sum and a product, where they lie in 64 bits.
fn sum(a: u64, n: u64) -> Option<u64>
    ensures { result ≡ fits_in 64 (a + n) }
{
    a.checked_add(n)
}

fn product(a: u64, n: u64) -> Option<u64>
    ensures { result ≡ fits_in 64 (a * n) }
{
    a.checked_mul(n)
}

// The product of a number beyond 64 bits and this one, where it lies in 64 bits.
fn large_product(n: u64) -> Option<u64>
    ensures { result ≡ (if nat_eq n 0 then Some 0 else None) }
{
    if n == 0 { Some(0) } else { None }
}

// What a chain makes of its number so far, where it lies in 64 bits, and the next one.
fn small_joined(op: Op, a: u64, n: u64) -> Option<u64>
    ensures { result ≡ capped_by (operator_kind op) (Some a) n }
{
    match op {
        Op::Add => sum(a, n),
        Op::Mul => product(a, n),
        Op::BitAnd => Some(a & n),
        Op::BitOr => Some(a | n),
        Op::BitXor => Some(a ^ n),
        Op::And => None,
        Op::Or => None,
        Op::Sub => None,
        Op::Div => None,
        Op::Rem => None,
        Op::Shl => None,
        Op::Shr => None,
        Op::Same => None,
        Op::Differs => None,
        Op::Less => None,
        Op::LessOrSame => None,
        Op::Greater => None,
        Op::GreaterOrSame => None,
        Op::ModAdd => None,
        Op::ModSub => None,
        Op::ModMul => None,
        Op::ModShl => None,
        Op::SatAdd => None,
        Op::SatSub => None,
    }
}

// The same where it lies beyond.
fn large_joined(op: Op, n: u64) -> Option<u64>
    ensures { result ≡ capped_by (operator_kind op) None n }
{
    match op {
        Op::Mul => large_product(n),
        _ => None,
    }
}

// The chain so far with one number more.
fn joined_one(op: Op, so_far: Option<u64>, n: u64) -> Option<u64>
    ensures { result ≡ capped_by (operator_kind op) so_far n }
{
    match so_far {
        Some(a) => small_joined(op, a, n),
        None => large_joined(op, n),
    }
}

// The whole chain.
fn joined(op: Op, first: u64, others: &[Operand]) -> Option<u64>
    ensures { result ≡ folded (capped_by (operator_kind op)) (Some first) (numbers others.now) }
{
    let mut so_far = Some(first);
    for o in others {
        so_far = joined_one(op, so_far, number(o.of));
    }
    so_far
}

// The value of a chain: the whole lies in its width, and parts of it need not.
fn chain_value(op: Op, width: Option<Width>, os: &[Operand]) -> Option<u64>
    requires { joins (operator_kind op) ≡ true }
    ensures { result ≡ value_by (operator_kind op) (bits_in width) (numbers os.now) }
{
    let (first, others) = os.split_first()?;
    fitted_if(width, joined(op, number(first.of), others))
}

// What an operator makes of two numbers of a width.
fn applied(op: Op, width: Option<Width>, m: u64, n: u64) -> Option<u64>
    ensures { result ≡ applied_by (operator_kind op) (bits_in width) m n }
{
    match op {
        Op::Add => fitted(width, m as u128 + n as u128),
        Op::Mul => fitted(width, wide_product(m, n)),
        Op::BitAnd => fitted_if(width, Some(m & n)),
        Op::BitOr => fitted_if(width, Some(m | n)),
        Op::BitXor => fitted_if(width, Some(m ^ n)),
        Op::Sub => difference(width, m, n),
        Op::Div => quotient(width, m, n),
        Op::Rem => remainder(width, m, n),
        Op::Shl => shifted_left(width, m, n),
        Op::Shr => shifted_right(width, m, n),
        Op::ModAdd => Some(reduced(width, m as u128 + n as u128)),
        Op::ModSub => Some(reduced(width, m as u128 + count(width).saturating_sub(n as u128))),
        Op::ModMul => Some(reduced(width, wide_product(m, n))),
        Op::ModShl => shifted_within(width, m, n),
        Op::SatAdd => Some(saturated(width, m as u128 + n as u128)),
        Op::SatSub => Some(m.saturating_sub(n)),
        Op::And => None,
        Op::Or => None,
        Op::Same => None,
        Op::Differs => None,
        Op::Less => None,
        Op::LessOrSame => None,
        Op::Greater => None,
        Op::GreaterOrSame => None,
    }
}

// The value of an operator that takes two operands.
fn value_of_two(op: Op, width: Option<Width>, os: &[Operand]) -> Option<u64>
    ensures { result ≡ two_by (operator_kind op) (bits_in width) (numbers os.now) }
{
    match os {
        [a, b] => applied(op, width, number(a.of), number(b.of)),
        _ => None,
    }
}

/// The value of an arithmetic operator on operands that are all constant, and None where it has none: it leaves the
/// width, its divisor is 0, or its shift isn't below the width. Takes time in proportion to the operands.
pub(crate) fn constant_value(op: Op, width: Option<Width>, os: &[Operand]) -> Option<u64>
    ensures { result ≡ value_by (operator_kind op) (bits_in width) (numbers os.now) }
{
    match op {
        Op::Add => chain_value(op, width, os),
        Op::Mul => chain_value(op, width, os),
        Op::BitAnd => chain_value(op, width, os),
        Op::BitOr => chain_value(op, width, os),
        Op::BitXor => chain_value(op, width, os),
        Op::Sub => value_of_two(op, width, os),
        Op::Div => value_of_two(op, width, os),
        Op::Rem => value_of_two(op, width, os),
        Op::Shl => value_of_two(op, width, os),
        Op::Shr => value_of_two(op, width, os),
        Op::ModAdd => value_of_two(op, width, os),
        Op::ModSub => value_of_two(op, width, os),
        Op::ModMul => value_of_two(op, width, os),
        Op::ModShl => value_of_two(op, width, os),
        Op::SatAdd => value_of_two(op, width, os),
        Op::SatSub => value_of_two(op, width, os),
        Op::And => None,
        Op::Or => None,
        Op::Same => None,
        Op::Differs => None,
        Op::Less => None,
        Op::LessOrSame => None,
        Op::Greater => None,
        Op::GreaterOrSame => None,
    }
}

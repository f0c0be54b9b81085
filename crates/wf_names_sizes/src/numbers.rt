// Values of constant expressions, and what operators make of their numbers.

ghost use Rattle.std.specs.Prelude.{◌≡◌, ◌+◌, ◌*◌, ◌%◌, ◌^◌, ◌<◌, ◌-◌, ◌≤◌, ℕ, Some, true, min, option_map};
ghost use Rattle.wf_names_rules.specs.ConstantValues.{bits_or_most, fitted as fits_in, joined_bits, joined_number as number_joined, shifted_number as number_shifted};
ghost use Rattle.wf_names_sizes.specs.Capped.{bits_in, sized, within, all_within, grows, Stays};

use wf_ast::operators::Op;
use wf_base::widths::Width;

/// A number with its width. A literal has none until it stands beside one.
#[derive(Clone, Copy, PartialEq, Eq)]
pub(crate) struct ConstantValue {
    pub width: Option<Width>,
    pub number: u64,
}

/// The bits of a width, 64 without one.
pub(crate) fn bits(width: Option<Width>) -> u32
    ensures bits { result ≡ bits_or_most (bits_in width) }
    ensures most { result ≤ 64 }
{
    match width {
        Some(width) => width.bits(),
        None => 64,
    }
}

/// How many numbers a width has; without one there are as many as in 64 bits.
pub(crate) fn count(width: Option<Width>) -> u128
    ensures count { result ≡ 2 ^ bits_or_most (bits_in width) }
    ensures most { result ≤ 2 ^ 64 }
{
    match width {
        Some(Width::W8) => 0x100,
        Some(Width::W16) => 0x1_0000,
        Some(Width::W32) => 0x1_0000_0000,
        Some(Width::W64) => 0x1_0000_0000_0000_0000,
        None => 0x1_0000_0000_0000_0000,
    }
}

/// The number as a value of a width, where it lies in it.
pub(crate) fn fitted(width: Option<Width>, number: u64) -> Option<ConstantValue>
    ensures { sized result ≡ fits_in (bits_in width) number }
{
    if (number as u128) < count(width) {
        Some(ConstantValue { width, number })
    } else {
        None
    }
}

/// The one width of two operands, None where they can't have one.
pub(crate) fn joined(a: Option<Width>, b: Option<Width>) -> Option<Option<Width>>
    ensures { option_map bits_in result ≡ joined_bits (bits_in a) (bits_in b) }
{
    match (a, b) {
        (None, b) => Some(b),
        (Some(a), None) => Some(Some(a)),
        (Some(a), Some(b)) => {
            if a.bits() == b.bits() {
                Some(Some(a))
            } else {
                None
            }
        }
    }
}

// A number that lies in 64 bits.
fn small(number: u64) -> Option<u64>
    ensures within { result ≡ within number }
    ensures some { result ≡ Some number }
{
    Some(number)
}

fn sum(a: u64, b: u64) -> Option<u64>
    ensures { result ≡ within (a + b) }
{
    a.checked_add(b)
}

fn product(a: u64, b: u64) -> Option<u64>
    ensures { result ≡ within (a * b) }
{
    a.checked_mul(b)
}

fn shifted_left(a: u64, b: u32) -> Option<u64>
    requires { b < 64 }
    ensures { result ≡ within (a * 2 ^ b) }
{
    a.checked_mul(1 << b)
}

// The number that is left of one when its width is full.
fn reduced(width: Option<Width>, number: u128) -> u64
    ensures { result ≡ number % 2 ^ bits_or_most (bits_in width) }
{
    (number % count(width)) as u64
}

fn wide_product(a: u64, b: u64) -> u128
    ensures { result ≡ a * b }
{
    a as u128 * b as u128
}

fn wide_shift(a: u64, b: u32) -> u128
    requires { b < 64 }
    ensures { result ≡ a * 2 ^ b }
{
    a as u128 * (1u64 << b) as u128
}

// The number, or the largest of its width where it is larger.
fn saturated(width: Option<Width>, number: u128) -> u64
    ensures { result ≡ min number (2 ^ bits_or_most (bits_in width) - 1) }
{
    number.min(count(width) - 1) as u64
}

// A difference that mustn't fall below 0.
fn difference(a: u64, b: u64) -> Option<Option<u64>>
    ensures number { (bits : ℕ) → result ≡ all_within (number_joined Op.Sub bits a b) }
    ensures stays { Stays (grows Op.Sub) result }
{
    if a < b { None } else { Some(small(a - b)) }
}

fn quotient(a: u64, b: u64) -> Option<Option<u64>>
    ensures number { (bits : ℕ) → result ≡ all_within (number_joined Op.Div bits a b) }
    ensures stays { Stays (grows Op.Div) result }
{
    if b == 0 { None } else { Some(small(a / b)) }
}

fn remainder(a: u64, b: u64) -> Option<Option<u64>>
    ensures number { (bits : ℕ) → result ≡ all_within (number_joined Op.Rem bits a b) }
    ensures stays { Stays (grows Op.Rem) result }
{
    if b == 0 { None } else { Some(small(a % b)) }
}

// What an operator makes of two numbers.
fn small_joined(op: Op, width: Option<Width>, a: u64, b: u64) -> Option<Option<u64>>
    ensures number { result ≡ all_within (number_joined op (bits_or_most (bits_in width)) a b) }
    ensures stays { Stays (grows op) result }
{
    match op {
        Op::Add => Some(sum(a, b)),
        Op::Mul => Some(product(a, b)),
        Op::BitAnd => Some(small(a & b)),
        Op::BitOr => Some(small(a | b)),
        Op::BitXor => Some(small(a ^ b)),
        Op::Sub => difference(a, b),
        Op::Div => quotient(a, b),
        Op::Rem => remainder(a, b),
        Op::ModAdd => Some(small(reduced(width, a as u128 + b as u128))),
        Op::ModSub => Some(small(reduced(
            width,
            (a as u128 + count(width)).saturating_sub(b as u128),
        ))),
        Op::ModMul => Some(small(reduced(width, wide_product(a, b)))),
        Op::SatAdd => Some(small(saturated(width, a as u128 + b as u128))),
        Op::SatSub => Some(small(a.saturating_sub(b))),
        Op::And => None,
        Op::Or => None,
        Op::Shl => None,
        Op::Shr => None,
        Op::Same => None,
        Op::Differs => None,
        Op::Less => None,
        Op::LessOrSame => None,
        Op::Greater => None,
        Op::GreaterOrSame => None,
        Op::ModShl => None,
    }
}

// The same of a number beyond 64 bits, which only an operator makes that may grow.
fn large_joined(op: Op, b: u64) -> Option<Option<u64>>
    requires { grows op ≡ true }
    ensures number { (bits a : ℕ) → 2 ^ 64 ≤ a → result ≡ all_within (number_joined op bits a b) }
{
    match op {
        Op::Add => Some(None),
        Op::Mul => Some(if b == 0 { Some(0) } else { None }),
        _ => None,
    }
}

/// What an operator makes of the number of a chain so far, None beyond 64 bits, and of the next operand. The outer
/// None: it makes none at all.
pub(crate) fn joined_number(
    op: Op,
    width: Option<Width>,
    so_far: Option<u64>,
    b: u64,
) -> Option<Option<u64>>
    requires { Stays (grows op) (Some so_far) }
    ensures number { (a : ℕ) → so_far ≡ within a → result ≡ all_within (number_joined op (bits_or_most (bits_in width)) a b) }
    ensures stays { Stays (grows op) result }
{
    match so_far {
        Some(a) => small_joined(op, width, a, b),
        None => large_joined(op, b),
    }
}

// What a shift makes of a number; `b` is less than its bits.
fn small_shifted(op: Op, width: Option<Width>, a: u64, b: u32) -> Option<Option<u64>>
    requires { b < bits_or_most (bits_in width) }
    ensures number { result ≡ all_within (number_shifted op (bits_or_most (bits_in width)) a b) }
    ensures stays { Stays (grows op) result }
{
    match op {
        Op::Shl => Some(shifted_left(a, b)),
        Op::Shr => Some(small(a >> b)),
        Op::ModShl => Some(small(reduced(width, wide_shift(a, b)))),
        Op::Add => None,
        Op::Mul => None,
        Op::BitAnd => None,
        Op::BitOr => None,
        Op::BitXor => None,
        Op::And => None,
        Op::Or => None,
        Op::Sub => None,
        Op::Div => None,
        Op::Rem => None,
        Op::Same => None,
        Op::Differs => None,
        Op::Less => None,
        Op::LessOrSame => None,
        Op::Greater => None,
        Op::GreaterOrSame => None,
        Op::ModAdd => None,
        Op::ModSub => None,
        Op::ModMul => None,
        Op::SatAdd => None,
        Op::SatSub => None,
    }
}

fn large_shifted(op: Op) -> Option<Option<u64>>
    requires { grows op ≡ true }
    ensures number { (bits a b : ℕ) → 2 ^ 64 ≤ a → b < bits → result ≡ all_within (number_shifted op bits a b) }
{
    match op {
        Op::Shl => Some(None),
        _ => None,
    }
}

/// What a shift makes of the number of a chain so far, as above.
pub(crate) fn shifted_number(
    op: Op,
    width: Option<Width>,
    so_far: Option<u64>,
    b: u64,
) -> Option<Option<u64>>
    requires { Stays (grows op) (Some so_far) }
    ensures number { (a : ℕ) → so_far ≡ within a → result ≡ all_within (number_shifted op (bits_or_most (bits_in width)) a b) }
    ensures stays { Stays (grows op) result }
{
    if b < bits(width) as u64 {
        match so_far {
            Some(a) => small_shifted(op, width, a, b as u32),
            None => large_shifted(op),
        }
    } else {
        None
    }
}

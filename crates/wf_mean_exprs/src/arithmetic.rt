// The operators on whole numbers, each within a width, and what compares them.

ghost use Rattle.std.specs.Prelude.{◌≡◌, ◌≤◌, ◌<◌, ◌^◌, ◌*◌, ◌+◌, ◌-◌, ◌%◌, min, IsTrue};
ghost use Rattle.wf_base.specs.BaseTable.{bits_of};
ghost use Rattle.wf_ast.specs.TypedTree.{divided, remainder as remains, shift_left as shifts_left, shift_right as shifts_right, mod_shift_left as shifts_within};
ghost use Rattle.wf_ast.specs.TypedTrees.{operator_kind};
ghost use Rattle.wf_ast.specs.Value.{applied, fitted, compares};
ghost use Rattle.wf_ast.specs.OperatorForms.{arith_in, is_arithmetic, order_in, is_ordering};

use wf_ast::Op;
use wf_base::Width;

/// What an operator makes of two numbers; None where it is stuck.
pub(crate) fn apply(op: Op, width: Width, m: u64, n: u64) -> Option<u64>
    requires { IsTrue (is_arithmetic (operator_kind op)) }
    ensures { result ≡ applied (arith_in (operator_kind op)) (bits_of width) m n }
{
    match op {
        Op::Add => fit(width, m as u128 + n as u128),
        Op::Sub => {
            if n <= m {
                fit(width, (m - n) as u128)
            } else {
                None
            }
        }
        Op::Mul => fit(width, m as u128 * n as u128),
        Op::Div => divide(width, m, n),
        Op::Rem => remainder(width, m, n),
        Op::Shl => shift_left(width, m, n),
        Op::Shr => shift_right(width, m, n),
        Op::BitAnd => fit(width, m as u128 & n as u128),
        Op::BitOr => fit(width, m as u128 | n as u128),
        Op::BitXor => fit(width, m as u128 ^ n as u128),
        Op::ModAdd => Some(modulo(width, m as u128 + n as u128)),
        Op::ModSub => Some(subtract_within(width, m, n)),
        Op::ModMul => Some(modulo(width, m as u128 * n as u128)),
        Op::ModShl => shift_left_within(width, m, n),
        Op::SatAdd => Some(add_up_to(width, m, n)),
        Op::SatSub => Some(m.saturating_sub(n)),
        Op::And | Op::Or | Op::Same | Op::Differs => unreachable!(),
        Op::Less | Op::LessOrSame | Op::Greater | Op::GreaterOrSame => unreachable!(),
    }
}

/// Whether two numbers compare so.
pub(crate) fn compare(op: Op, m: u64, n: u64) -> bool
    requires { IsTrue (is_ordering (operator_kind op)) }
    ensures { result ≡ compares (order_in (operator_kind op)) m n }
{
    match op {
        Op::Less => m < n,
        Op::LessOrSame => m <= n,
        Op::Same => m == n,
        Op::Differs => m != n,
        Op::GreaterOrSame => n <= m,
        Op::Greater => n < m,
        _ => unreachable!(),
    }
}

/// The number, where it lies in the width.
pub(crate) fn fit(width: Width, n: u128) -> Option<u64>
    ensures { result ≡ fitted (bits_of width) n }
{
    if n < limit(width) {
        Some(n as u64)
    } else {
        None
    }
}

// How many numbers a width has.
fn limit(width: Width) -> u128
    ensures count { result ≡ 2 ^ bits_of width }
    ensures most { result ≤ 2 ^ 64 }
    ensures some { 0 < result }
{
    match width {
        Width::W8 => 0x100,
        Width::W16 => 0x1_0000,
        Width::W32 => 0x1_0000_0000,
        Width::W64 => 0x1_0000_0000_0000_0000,
    }
}

fn bits(width: Width) -> u64
    ensures bits { result ≡ bits_of width }
    ensures most { result ≤ 64 }
{
    match width {
        Width::W8 => 8,
        Width::W16 => 16,
        Width::W32 => 32,
        Width::W64 => 64,
    }
}

fn modulo(width: Width, n: u128) -> u64
    ensures { result ≡ n % 2 ^ bits_of width }
{
    (n % limit(width)) as u64
}

#[tactic(auto, using(crate::proofs::Quotients::quotient))]
fn divide(width: Width, m: u64, n: u64) -> Option<u64>
    ensures { result ≡ applied divided (bits_of width) m n }
{
    if n == 0 {
        None
    } else {
        fit(width, (m / n) as u128)
    }
}

#[tactic(auto, using(crate::proofs::Quotients::rest))]
fn remainder(width: Width, m: u64, n: u64) -> Option<u64>
    ensures { result ≡ applied remains (bits_of width) m n }
{
    if n == 0 {
        None
    } else {
        fit(width, (m % n) as u128)
    }
}

fn shift_left(width: Width, m: u64, n: u64) -> Option<u64>
    ensures { result ≡ applied shifts_left (bits_of width) m n }
{
    if n < bits(width) {
        fit(width, shifted(m, n))
    } else {
        None
    }
}

fn shift_right(width: Width, m: u64, n: u64) -> Option<u64>
    ensures { result ≡ applied shifts_right (bits_of width) m n }
{
    if n < bits(width) {
        fit(width, (m >> n) as u128)
    } else {
        None
    }
}

fn shift_left_within(width: Width, m: u64, n: u64) -> Option<u64>
    ensures { result ≡ applied shifts_within (bits_of width) m n }
{
    if n < bits(width) {
        Some(modulo(width, shifted(m, n)))
    } else {
        None
    }
}

fn shifted(m: u64, n: u64) -> u128
    requires { n < 64 }
    ensures { result ≡ m * 2 ^ n }
{
    (m as u128) << n
}

fn subtract_within(width: Width, m: u64, n: u64) -> u64
    ensures { result ≡ (m + (2 ^ bits_of width - n)) % 2 ^ bits_of width }
{
    modulo(width, m as u128 + limit(width).saturating_sub(n as u128))
}

fn add_up_to(width: Width, m: u64, n: u64) -> u64
    ensures { result ≡ min (m + n) (2 ^ bits_of width - 1) }
{
    (m as u128 + n as u128).min(limit(width) - 1) as u64
}

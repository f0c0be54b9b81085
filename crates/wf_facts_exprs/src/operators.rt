// The range of each operator, and what it asks of its right operand.

ghost use Rattle.std.specs.Prelude.{◌≡◌, ◌≤◌, ◌<◌, IsTrue};
ghost use Rattle.wf_num.specs.Ranges.{IsSmall, div_ranges, low, rem_ranges};
ghost use Rattle.wf_ast.specs.TypedTrees.{operator_kind};
ghost use Rattle.wf_ast.specs.OperatorForms.{is_arithmetic};
ghost use Rattle.wf_facts_exprs.specs.RangeOf.{cut_off as range_cut_off, difference as range_difference, operator_range as range_by_operator, wrapped as range_wrapped};
ghost use Rattle.wf_facts_exprs.specs.Demands.{demand as wanted, is_below, is_divisor, operand_demand as wanted_of_operand, unless_refused};
ghost use Rattle.wf_facts_exprs.specs.Operands.{arith_of, is_difference};

use wf_ast::Op;
use wf_num::Range;
use wf_text::{Place, Refusal, Rule};

/// A demand that is met, or refused.
pub(crate) fn demand(met: bool, rule: Rule, at: Place) -> Result<(), Refusal>
    ensures { result ≡ unless_refused (wanted met rule at) tt }
{
    if met {
        Ok(())
    } else {
        Err(Refusal { rule, at })
    }
}

/// What an operator asks of its right operand: not 0 for a divisor, less than the width for a shift.
pub(crate) fn operand_demand(op: Op, bits: u32, sign: Place, b: Range) -> Result<(), Refusal>
    ensures { result ≡ unless_refused (wanted_of_operand (arith_of op) bits sign b) tt }
{
    match op {
        Op::Div | Op::Rem => demand(divides(b), Rule::B5, sign),
        Op::Shl | Op::Shr | Op::ModShl => demand(shifts(bits, b), Rule::B4, sign),
        Op::Add | Op::Mul | Op::BitAnd | Op::BitOr | Op::BitXor | Op::And | Op::Or => Ok(()),
        Op::Sub | Op::ModAdd | Op::ModSub | Op::ModMul | Op::SatAdd | Op::SatSub => Ok(()),
        Op::Same | Op::Differs | Op::Less | Op::LessOrSame | Op::Greater => Ok(()),
        Op::GreaterOrSame => Ok(()),
    }
}

fn divides(b: Range) -> bool
    ensures { result ≡ is_divisor b }
{
    b.is_empty() || 1 <= b.lo
}

fn shifts(bits: u32, b: Range) -> bool
    ensures { result ≡ is_below bits b }
{
    b.is_empty() || b.hi < bits as u128
}

/// The range of an operator for those of its operands. `ordered` tells that the right operand of `-` is given to be at
/// most the left one.
pub(crate) fn operator_range(op: Op, bits: u32, ordered: bool, a: Range, b: Range) -> Range
    requires arithmetic { IsTrue (is_arithmetic (operator_kind op)) }
    requires width { bits ≤ 64 }
    requires left { IsSmall a }
    requires right { IsSmall b }
    requires asked { (sign : Place) → wanted_of_operand (arith_of op) bits sign b ≡ None }
    ensures { result ≡ range_by_operator (arith_of op) bits ordered a b }
{
    match op {
        Op::Add => a.add(b),
        Op::Sub => difference(ordered, a, b),
        Op::Mul => a.mul(b),
        Op::Div => quotient(a, b),
        Op::Rem => remainder(a, b),
        Op::Shl => a.shl(b),
        Op::Shr => a.shr(b),
        Op::BitAnd => a.and(b),
        Op::BitOr => a.or(b),
        Op::BitXor => a.xor(b),
        Op::ModAdd => wrapped(bits, a.add(b)),
        Op::ModSub => wrapped(bits, difference(ordered, a, b)),
        Op::ModMul => wrapped(bits, a.mul(b)),
        Op::ModShl => wrapped(bits, a.shl(b)),
        Op::SatAdd => cut_off(bits, a.add(b)),
        Op::SatSub => cut_off(bits, difference(ordered, a, b)),
        Op::And | Op::Or | Op::Same | Op::Differs | Op::Less | Op::LessOrSame => unreachable!(),
        Op::Greater | Op::GreaterOrSame => unreachable!(),
    }
}

/// Whether an operator takes its right operand from the left one, so that it counts which of them is larger.
pub(crate) fn subtracts(op: Op) -> bool
    ensures { result ≡ is_difference (arith_of op) }
{
    matches!(op, Op::Sub | Op::ModSub | Op::SatSub)
}

fn difference(ordered: bool, a: Range, b: Range) -> Range
    requires left { IsSmall a }
    requires right { IsSmall b }
    ensures { result ≡ range_difference ordered a b }
{
    let plain = a.sub(b);
    if ordered {
        let zero: i128 = 0;
        Range {
            lo: zero.max(plain.lo),
            hi: plain.hi,
        }
    } else {
        plain
    }
}

// The divisor is at least 1, or there is none.
fn quotient(a: Range, b: Range) -> Range
    requires left { IsSmall a }
    requires right { IsSmall b }
    requires divisor { IsTrue (is_divisor b) }
    ensures { result ≡ div_ranges a b }
{
    if b.is_empty() { a.add(b) } else { a.div(b) }
}

fn remainder(a: Range, b: Range) -> Range
    requires left { IsSmall a }
    requires right { IsSmall b }
    requires divisor { IsTrue (is_divisor b) }
    ensures { result ≡ rem_ranges a b }
{
    if b.is_empty() { a.add(b) } else { a.rem(b) }
}

// The plain range where it lies in the width, else all numbers of the width.
fn wrapped(bits: u32, r: Range) -> Range
    requires { bits ≤ 64 }
    ensures { result ≡ range_wrapped bits r }
{
    if r.fits(bits) {
        r
    } else {
        Range::of_bits(bits)
    }
}

// The plain ends, cut to 0 and the largest number of the width.
fn cut_off(bits: u32, r: Range) -> Range
    requires { bits ≤ 64 }
    ensures { result ≡ range_cut_off bits r }
{
    if r.is_empty() {
        return Range::EMPTY;
    }
    let top = (1u128 << bits) - 1;
    Range {
        lo: natural(r.lo).min(top) as i128,
        hi: r.hi.min(top),
    }
}

// The number, or 0 where it is negative.
fn natural(n: i128) -> u128
    ensures { result ≡ low n }
{
    if n < 0 { 0 } else { n as u128 }
}

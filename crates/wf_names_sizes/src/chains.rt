// Chains of operands with one operator between them.

ghost use Rattle.std.specs.Prelude.{◌≡◌, Option, Some, nat_lt, if◌then◌else◌};
ghost use Rattle.wf_names_rules.specs.ConstantValues.{Running, started as start_of, is_shift as shifts, joined_bits, run_joined, run_shifted, run_on, ended as end_of, fitted as fits_in};
ghost use Rattle.wf_names_sizes.specs.Capped.{bits_in, sized, within, grows, Stays, ChainStays, IsRun, Runs};

use crate::numbers::{ConstantValue, count, fitted, joined, joined_number, shifted_number};
use wf_ast::operators::Op;
use wf_base::widths::Width;

/// A chain so far: the width of its operands, the largest of them, and the number, None where it lies beyond 64 bits.
#[derive(Clone, Copy, PartialEq, Eq)]
pub(crate) struct Chain {
    pub width: Option<Width>,
    pub largest: u64,
    pub number: Option<u64>,
}

/// A chain of one operand.
pub(crate) fn started(first: Option<ConstantValue>) -> Option<Chain>
    ensures runs { Runs result (start_of (sized first)) }
    ensures stays { (op : _) → ChainStays op result }
{
    let a = first?;
    Some(Chain {
        width: a.width,
        largest: a.number,
        number: Some(a.number),
    })
}

fn is_shift(op: Op) -> bool
    ensures { result ≡ shifts op }
{
    match op {
        Op::Shl => true,
        Op::Shr => true,
        Op::ModShl => true,
        _ => false,
    }
}

fn larger(a: u64, b: u64) -> u64
    ensures { result ≡ (if nat_lt a b then b else a) }
{
    if a < b { b } else { a }
}

fn join(op: Op, chain: Chain, b: ConstantValue) -> Option<Chain>
    requires { Stays (grows op) (Some chain.number) }
    ensures runs { (r : Running) → IsRun chain r → Runs result (run_joined op r (record { bits = bits_in b.width; number = b.number }) (joined_bits r.bits (bits_in b.width))) }
    ensures stays { ChainStays op result }
{
    let width = joined(chain.width, b.width)?;
    let number = joined_number(op, width, chain.number, b.number)?;
    Some(Chain {
        width,
        largest: larger(chain.largest, b.number),
        number,
    })
}

fn shift(op: Op, chain: Chain, b: ConstantValue) -> Option<Chain>
    requires { Stays (grows op) (Some chain.number) }
    ensures runs { (r : Running) → IsRun chain r → Runs result (run_shifted op r (record { bits = bits_in b.width; number = b.number })) }
    ensures stays { ChainStays op result }
{
    let number = shifted_number(op, chain.width, chain.number, b.number)?;
    Some(Chain {
        width: chain.width,
        largest: chain.largest,
        number,
    })
}

fn joined_or_shifted(op: Op, chain: Chain, b: ConstantValue) -> Option<Chain>
    requires { Stays (grows op) (Some chain.number) }
    ensures runs { (r : Running) → IsRun chain r → Runs result (run_on op (Some r) (sized (Some b))) }
    ensures stays { ChainStays op result }
{
    if is_shift(op) {
        shift(op, chain, b)
    } else {
        join(op, chain, b)
    }
}

/// A chain with one operand more.
pub(crate) fn run(op: Op, so_far: Option<Chain>, operand: Option<ConstantValue>) -> Option<Chain>
    requires { ChainStays op so_far }
    ensures runs { (r : Option Running) → Runs so_far r → Runs result (run_on op r (sized operand)) }
    ensures stays { ChainStays op result }
{
    match (so_far, operand) {
        (Some(chain), Some(b)) => joined_or_shifted(op, chain, b),
        (Some(_), None) => None,
        (None, _) => None,
    }
}

fn ended_at(width: Option<Width>, number: Option<u64>) -> Option<ConstantValue>
    ensures { (n : _) → number ≡ within n → sized result ≡ fits_in (bits_in width) n }
{
    let number = number?;
    fitted(width, number)
}

/// The value of a whole chain.
pub(crate) fn ended(chain: Option<Chain>) -> Option<ConstantValue>
    ensures { (r : Option Running) → Runs chain r → sized result ≡ end_of r }
{
    let chain = chain?;
    if (chain.largest as u128) < count(chain.width) {
        ended_at(chain.width, chain.number)
    } else {
        None
    }
}

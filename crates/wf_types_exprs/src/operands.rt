// Lists of operands, arguments and bounds as they grow.

ghost use Rattle.std.specs.Prelude.{◌≡◌, ◌&&◌, ◌||◌, ◌++◌, ◌∷◌, [], IfOk, option_and_then};
ghost use Rattle.wf_types_rules.specs.Meanings.{is_constant as means_constant, constant_number as number_meant};
ghost use Rattle.wf_types_rules.specs.Judgements.{fails};
ghost use Rattle.wf_types_exprs.specs.Judged.{operand_behind as behind};

use wf_ast::Sequence;
use wf_text::faults::NoMemory;
use wf_types_meanings::values::number_in;
use wf_types_operators::meanings::is_constant;
use wf_types_rules::{Bound, Meaning, Operand, PlacedMeaning};

fn pushed(mut os: Sequence<Operand>, o: Operand) -> Result<Sequence<Operand>, NoMemory>
    ensures { IfOk result (λ all. all ≡ os ++ o ∷ []) }
{
    os.push(o)?;
    Ok(os)
}

/// An operand after others, where each means something.
pub fn operand_behind(
    os: Option<Sequence<Operand>>,
    v: PlacedMeaning,
) -> Result<Option<Sequence<Operand>>, NoMemory>
    ensures { IfOk result (λ all. all ≡ behind os v) }
{
    match (os, v.of) {
        (Some(os), Some(of)) => {
            let all = pushed(os, Operand { at: v.at, of })?;
            Ok(Some(all))
        }
        _ => Ok(None),
    }
}

/// Whether arguments fit, and the one after them.
pub(crate) fn all_fit(before: bool, next: bool) -> bool
    ensures { result ≡ (before && next) }
{
    before && next
}

fn is_not_constant(of: Option<Meaning>) -> bool
    ensures { result ≡ fails means_constant of }
{
    match of {
        Some(m) => !is_constant(m),
        None => false,
    }
}

/// What has to be a constant number, by whether it names anything but constants, and what it means.
pub(crate) fn bound(others: bool, v: PlacedMeaning) -> Bound
    ensures { result ≡ record { unfit = others || fails means_constant v.of; number = option_and_then number_meant v.of; at = v.at } }
{
    Bound {
        unfit: others || is_not_constant(v.of),
        number: number_in(v.of),
        at: v.at,
    }
}

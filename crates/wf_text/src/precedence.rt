// Which of two refusals is first: of all that is broken by place, and of one place by the rule that is named first.

ghost use Rattle.std.specs.Prelude.{◌≡◌};
ghost use Rattle.wf_text.specs.Precedence.{is_before as comes_before, rank as rank_of, sooner as sooner_of};

use crate::rules::{Refusal, Rule};

// The rule's place in the order of the rules.
fn rank(rule: Rule) -> u8
    ensures { result ≡ rank_of rule }
{
    rule as u8
}

/// Whether `first` is before `second`: by file, line and column of its place, then by the order of the
/// rules (by letter in the order of the phases, the limits last, then by number).
#[tactic(auto, unfolding(crate::specs::Precedence::is_before))]
pub fn is_before(first: Refusal, second: Refusal) -> bool
    ensures { result ≡ comes_before first second }
{
    if first.at.file != second.at.file {
        first.at.file < second.at.file
    } else if first.at.line != second.at.line {
        first.at.line < second.at.line
    } else if first.at.col != second.at.col {
        first.at.col < second.at.col
    } else {
        rank(first.rule) < rank(second.rule)
    }
}

/// The first refusal of what was found so far and what is found now.
pub fn sooner(found: Option<Refusal>, now: Option<Refusal>) -> Option<Refusal>
    ensures { result ≡ sooner_of found now }
{
    match (found, now) {
        (Some(old), Some(new)) => {
            if is_before(new, old) {
                Some(new)
            } else {
                Some(old)
            }
        }
        (None, Some(new)) => Some(new),
        (found, None) => found,
    }
}

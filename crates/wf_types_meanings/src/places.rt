// The place of a refusal, where a test holds or a part before has none.

ghost use Rattle.std.specs.Prelude.{◌≡◌};
ghost use Rattle.wf_types_rules.specs.Operands.{first_of};
ghost use Rattle.wf_types_rules.specs.Judgements.{at_if as place_if};

use wf_text::Place;

/// The place, where the test holds.
pub fn at_if(test: bool, at: Place) -> Option<Place>
    ensures { result ≡ place_if test at }
{
    if test { Some(at) } else { None }
}

/// Of two places the first that is there.
pub fn first_place(a: Option<Place>, b: Option<Place>) -> Option<Place>
    ensures { result ≡ first_of a b }
{
    match a {
        Some(at) => Some(at),
        None => b,
    }
}

// The table of axioms.

ghost use Rattle.std.specs.Prelude.{◌≡◌, ◌≢◌, nat_eq, IfSome, IfNone, find};
ghost use Rattle.std.specs.Cmp.Lexicographic.{pointwise};
ghost use Rattle.wf_axioms.specs.Axioms.{axiom_text};

use crate::axioms::{Axiom, text_of_axiom};

/// Every axiom, once.
const AXIOMS: [Axiom; 18] = [
    Axiom::LtByGt,
    Axiom::LtByLtLt,
    Axiom::LtByLtEq,
    Axiom::LtByEqLt,
    Axiom::LtByLtLe,
    Axiom::LtByLeLt,
    Axiom::GtByLt,
    Axiom::LeByGe,
    Axiom::LeByLeLe,
    Axiom::LeByLeEq,
    Axiom::LeByEqLe,
    Axiom::GeByLe,
    Axiom::LtSum,
    Axiom::LtSums,
    Axiom::LeSum,
    Axiom::LeByLt,
    Axiom::EqByLeLe,
    Axiom::SumsByLeLe,
];

/// The axiom that is written so, if one is. The text is compared whole.
pub fn axiom(name: &[u8]) -> Option<Axiom>
    ensures found { IfSome result (λ a. name.now ≡ axiom_text a) }
    ensures none { IfNone result ((a : Axiom) → name.now ≢ axiom_text a) }
{
    find_axiom(name)
}

// The first axiom of the table that is written so.
fn find_axiom(name: &[u8]) -> Option<Axiom>
    ensures { result ≡ find (λ a. pointwise nat_eq (axiom_text a) name.now) AXIOMS }
{
    AXIOMS
        .iter()
        .copied()
        .find(|a| text_of_axiom(*a).as_bytes() == name)
}

// The letters of an axiom that are given with their expressions.

ghost use Rattle.std.specs.Prelude.{◌≡◌, true, find, option_map, IfSome, IsTrue, All};
ghost use Rattle.wf_ast.specs.TypedTrees.{num_in, text_of, tree_of};
ghost use Rattle.wf_ast.specs.NodeKinds.{is_number_at};
ghost use Rattle.wf_axioms.specs.Axioms.{letter_text};
ghost use Rattle.wf_axioms.specs.Matching.{bind_free as bind_free_tree, given_trees, is_free as free_in, letter_named as named_so, with_given, with_one};
ghost use Rattle.wf_axioms.specs.Bindings.{trees_in, is_given_number, AreNumbers};

use crate::axioms::{Axiom, Letter};
use crate::binding::Binding;
use wf_ast::{ExprId, TextId, Typed};

/// Binds the letters that are given; None where one isn't free in the axiom, or is given twice.
pub(crate) fn bind_given(
    a: Axiom,
    t: &Typed,
    given: &[(TextId, ExprId)],
    b: Binding,
) -> Option<Binding>
    requires given { All (λ g. is_given_number t.now g ≡ true) given.now }
    requires bound { AreNumbers t.now b }
    ensures trees { option_map (trees_in t.now) result ≡ with_given a (given_trees t.now given.now) (trees_in t.now b) }
    ensures numbers { IfSome result (λ r. AreNumbers t.now r) }
{
    let mut bound = b;
    for item in given {
        bound = bind_one(a, t, *item, bound)?;
    }
    Some(bound)
}

fn bind_one(a: Axiom, t: &Typed, item: (TextId, ExprId), b: Binding) -> Option<Binding>
    requires given { IsTrue (is_given_number t.now item) }
    requires bound { AreNumbers t.now b }
    ensures trees { option_map (trees_in t.now) result ≡ with_one a (text_of t.now item.0, num_in (tree_of t.now item.1)) (trees_in t.now b) }
    ensures numbers { IfSome result (λ r. AreNumbers t.now r) }
{
    let l = letter_named(t.text(item.0))?;
    bind_free(a, t, l, item.1, b)
}

// Binds a letter that has to be free in the axiom, and to stand for nothing yet.
fn bind_free(a: Axiom, t: &Typed, l: Letter, e: ExprId, b: Binding) -> Option<Binding>
    requires node { IsTrue (is_number_at t.now e) }
    requires bound { AreNumbers t.now b }
    ensures trees { option_map (trees_in t.now) result ≡ bind_free_tree a (num_in (tree_of t.now e)) (trees_in t.now b) l }
    ensures numbers { IfSome result (λ r. AreNumbers t.now r) }
{
    if !is_free(a, l) {
        return None;
    }
    match b.get(l) {
        Some(_) => None,
        None => Some(b.with(l, e)),
    }
}

// A letter that a premise has and the goal doesn't.
fn is_free(a: Axiom, l: Letter) -> bool
    ensures { result ≡ free_in a l }
{
    match a {
        Axiom::LtByLtLt | Axiom::LtByLtEq | Axiom::LtByEqLt => matches!(l, Letter::C),
        Axiom::LtByLtLe | Axiom::LtByLeLt | Axiom::LeByLeLe => matches!(l, Letter::C),
        Axiom::LeByLeEq | Axiom::LeByEqLe => matches!(l, Letter::C),
        Axiom::LtSums => matches!(l, Letter::B0 | Letter::C0),
        Axiom::LtByGt | Axiom::GtByLt | Axiom::LeByGe | Axiom::GeByLe | Axiom::LtSum => false,
        Axiom::LeSum | Axiom::LeByLt | Axiom::EqByLeLe | Axiom::SumsByLeLe => false,
    }
}

// The letter that is written so, if one is.
fn letter_named(text: &[u8]) -> Option<Letter>
    ensures { result ≡ named_so text.now }
{
    LETTERS
        .iter()
        .copied()
        .find(|l| text_of_letter(*l).as_bytes() == text)
}

/// Every letter, once.
const LETTERS: [Letter; 6] = [
    Letter::A,
    Letter::B,
    Letter::C,
    Letter::D,
    Letter::B0,
    Letter::C0,
];

fn text_of_letter(l: Letter) -> &'static str
    ensures { result.now ≡ letter_text l }
{
    match l {
        Letter::A => "a",
        Letter::B => "b",
        Letter::C => "c",
        Letter::D => "d",
        Letter::B0 => "b0",
        Letter::C0 => "c0",
    }
}

// What an axiom asks for, or why it can't be used.

ghost use Rattle.std.specs.Prelude.{◌≡◌, ◌+◌, ◌<◌, ◌++◌, ◌∷◌, [], true, All};
ghost use Rattle.wf_ast.specs.declared.typed_nodes.TypedNodes.{TypedNodes};
ghost use Rattle.wf_axioms.specs.Items.{claim_of_item, claims_of_items, is_item};

use wf_facts_exprs::{Cmp, Side};

/// What has to be given where an axiom is used.
#[derive(Clone, Copy)]
pub struct Premises {
    /// How many of the items are premises: one to three.
    pub count: u8,
    /// The premises in order. What stands after them compares 0 with 0, and is no premise.
    pub items: [(Side, Cmp, Side); 3],
}

impl Premises {
    /// No premise.
    pub(crate) fn none() -> Premises
        ensures count { result.count ≡ 0 }
        ensures sides { (nodes : TypedNodes) → All (λ i. is_item nodes i ≡ true) result.items }
    {
        Premises {
            count: 0,
            items: [(Side::Num(0), Cmp::Eq, Side::Num(0)); 3],
        }
    }

    /// Adds a premise after the others.
    pub(crate) fn push(&mut self, item: (Side, Cmp, Side))
        requires { self.old.count < 3 }
        ensures claims { (nodes : TypedNodes) → claims_of_items nodes self.new ≡ claims_of_items nodes self.old ++ claim_of_item nodes item ∷ [] }
        ensures count { self.new.count ≡ self.old.count + 1 }
        ensures sides { (nodes : TypedNodes) → All (λ i. is_item nodes i ≡ true) self.old.items → is_item nodes item ≡ true → All (λ i. is_item nodes i ≡ true) self.new.items }
    {
        self.items[self.count as usize] = item;
        self.count += 1;
    }
}

/// Why an axiom can't be used for a goal.
#[derive(Clone, Copy)]
pub enum AxiomFault {
    /// The goal hasn't the form of what follows by the axiom.
    NotTheForm,
    /// A letter has no tree, neither by the goal nor given; or a given letter isn't one of the axiom's, is the goal's, or comes
    /// twice.
    UnboundLetter,
}

// What holds of expressions that mean something by the rules of types: their types by a rule for each form, and the places of their
// typed trees.
#![tactic(auto)]

pub mod laws;

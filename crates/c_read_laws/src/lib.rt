// That C texts are read or refused: laws alone, on functions that do nothing.
#![tactic(auto)]

pub mod laws;

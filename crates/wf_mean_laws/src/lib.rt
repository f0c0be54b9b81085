// That the engine of an accepted package shows what its source means: laws alone, on functions that do nothing.
#![tactic(auto)]

pub mod laws;

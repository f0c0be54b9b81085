// What holds of the typed package of every package that is read and keeps the rules of names: of the names in it.
#![tactic(auto)]

pub mod laws;

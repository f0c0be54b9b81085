// What the rules of names and the rules of types say alike of constants and of the lengths of arrays. Laws alone, on functions that
// do nothing.
#![tactic(auto)]

pub mod laws;

// Tests of the crates at the bottom, through their public calls: what the built program doesn't show. Nothing stands on
// this crate.
#![tactic(auto)]

#[cfg(test)]
mod base_tests;
#[cfg(test)]
mod buffer_tests;
#[cfg(test)]
mod c_arithmetic_tests;
#[cfg(test)]
mod engine_tests;
#[cfg(test)]
mod graph_tests;
#[cfg(test)]
mod outside_tests;
#[cfg(test)]
mod range_tests;
#[cfg(test)]
mod script_tests;
#[cfg(test)]
mod text_tests;
#[cfg(test)]
mod tree_tests;

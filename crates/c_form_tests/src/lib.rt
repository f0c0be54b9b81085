// Tests of the unit form, through its public call, on texts that are read: what docs/C-SUBSET.md says of each rule, with
// what breaks it, and long chains that no bracket bounds. Nothing stands on this crate.
#![tactic(auto)]

#[cfg(test)]
mod body_tests;
#[cfg(test)]
mod forming;
#[cfg(test)]
mod item_tests;
#[cfg(test)]
mod long_tests;

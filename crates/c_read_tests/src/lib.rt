// Tests of the printer and of the reader of C texts, through their public calls: texts that are read whole, and broken
// texts with the place where they break. Nothing stands on this crate.
#![tactic(auto)]

#[cfg(test)]
mod broken_tests;
#[cfg(test)]
mod long_tests;
#[cfg(test)]
mod print_tests;
#[cfg(test)]
mod reading;
#[cfg(test)]
mod whole_tests;

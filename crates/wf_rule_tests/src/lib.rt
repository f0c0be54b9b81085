// Tests of the phases of a package and of the top call, through their public calls: what the built program doesn't show.
// The typed tree of a small package, what is known before its statements, inputs and sinks that fail where they are told
// to, and the cells that a C machine tells of a text. Nothing stands on this crate.
#![tactic(auto)]

#[cfg(test)]
mod accepted_tests;
#[cfg(test)]
mod statement_tests;
#[cfg(test)]
mod tool_tests;
#[cfg(test)]
mod typed_tests;

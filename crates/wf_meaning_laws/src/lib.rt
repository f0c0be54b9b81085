// Laws of the source's meaning: what a disabled receiver answers, and what remains of suspended coroutines.
#![tactic(auto)]

pub mod laws;

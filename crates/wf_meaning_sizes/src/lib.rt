// A law of the source's meaning: a call leaves as many buffers and byte arrays as there were, each as large as it was.
#![tactic(auto)]

pub mod laws;

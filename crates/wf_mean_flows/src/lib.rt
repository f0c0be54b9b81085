// What parts of a body come to as they run, as the source's meaning has it: how a run goes on after a part, or leaves it; what
// loops' heads and their passes come to; and the statements that stand by themselves. Nothing here takes memory.
#![tactic(auto)]

pub mod flows;
pub mod looping;
pub mod simple;

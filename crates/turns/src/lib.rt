// Runs of a machine that counts turns: what one step may come to, a run within a number of turns, and the laws
// that a meaning stated by such a run rests on. The machine is any step function; nothing of a language or of a
// memory is known here.
#![tactic(auto)]

pub mod laws;

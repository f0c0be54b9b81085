// What declarations break: names that are declared twice or reserved, and too many of a kind. The pass is exact against its
// section of the table of the rules of names; beside it stands the law of what loops and the jumps in them break.
#![tactic(auto)]

pub mod declarations;
pub mod gathering;
pub mod judging;
pub mod laws;

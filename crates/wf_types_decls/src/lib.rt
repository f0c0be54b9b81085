// The rules of types and effects on declarations and whole packages: one walk over a resolved package finds the first refusal,
// if there is one, and what the typed tree is made of.
#![tactic(auto)]

pub mod declarations;
mod declared_types;
pub mod heads;
pub mod packages;

pub use heads::Head;
pub use packages::{Judged, judge_package};

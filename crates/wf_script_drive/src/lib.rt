// Scripts, driven over any engine: their reports, and the law that their actions are lawful.
#![tactic(auto)]

pub mod driving;
pub mod laws;
mod printing;
mod report;
pub mod steps;

pub use driving::{DriveEnd, drive};

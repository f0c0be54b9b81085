// Scripts run over the engines of an accepted package: a script is read over the package's public surface, an engine is made for
// its receivers, and the script's report is written.
#![tactic(auto)]

pub mod lowered;
pub mod prepared;
pub mod source;
pub mod texts;
mod units;

pub use lowered::run_lowered;
pub use source::run_source;
pub use texts::{RunFault, TextFault, run_text};

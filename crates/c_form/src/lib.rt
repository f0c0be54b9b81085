//! The unit form (ISO/IEC 9899:1999, 6.7 to 6.9): whether a C text is one for a package, and if not, at which item it
//! isn't.
#![tactic(auto)]

mod demands;
pub mod faults;
pub mod forming;
mod items;
pub mod names;
mod signatures;
pub mod units;

pub use faults::LoadFault;
pub use forming::formed;
pub use names::{function_name, type_name};
pub use units::Formed;

// Scripts, read over a package's public surface.
#![tactic(auto)]

pub mod commands;
pub mod declared;
pub mod faults;
pub mod names;
pub mod script;
pub mod values;

pub use commands::{Command, NumberedCommand};
pub use declared::Declared;
pub use faults::ScriptFault;
pub use script::{Script, read_script};

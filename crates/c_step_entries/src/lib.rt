//! What a machine keeps of a package's public surface, out of a text of C that has the unit form: the numbers of the public
//! functions, and the statuses of the text's strings. Each name and each string is looked up once.
#![tactic(auto)]

mod statuses;
mod structs;

pub use statuses::text_statuses;
pub use structs::struct_entries;

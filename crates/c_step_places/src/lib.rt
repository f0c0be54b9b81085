//! The numbers of the statements of C functions (ISO/IEC 9899:1999, 6.8): how many the code from each statement on takes, the
//! statements of a body with their numbers, and the cases of a `switch`. Nothing calls itself, whatever the text nests or
//! repeats.
#![tactic(auto)]

mod cases;
pub mod listing;
pub mod weighing;

pub use cases::add_cases;
pub use listing::{Place, list_places};
pub use weighing::{Weighed, next_number, number, weigh_all};

//! Functions of C as a machine runs them (ISO/IEC 9899:1999, 6.5.2.2, 6.8, 6.9.1): the flat text of all functions, memory, a
//! stack of values, and for each function the object of its parameters and locals. A call takes no memory. Calls call
//! themselves as deep as the functions of the text do, each of which calls only functions before it.
#![tactic(auto)]

mod calls;
pub mod code;
mod evals;
mod leaps;
pub mod moved;
pub mod store;
mod stores;
mod values;

pub use code::{Code, Func, Initial, Inline};
pub use moved::Ended;
pub use store::{Active, Store};

// What the language brings along: the widths of numbers, the marks of methods and the base methods. The
// operations of buffers, what a host sees of its actions, and which actions are lawful stand in specs/.
#![tactic(auto)]

pub mod base_methods;
pub mod marks;
pub mod widths;

pub use base_methods::{ArgTy, BaseSig, Gives, Kind, PeekForm, ReadForm, base_method};
pub use marks::Mark;
pub use widths::Width;

//! The objects of calls (ISO/IEC 9899:1999, 6.2.4p5, 6.5.2.2p4, 6.9.1p10): each function has one object of its parameters
//! and locals, which stands at the end of memory while the function is called. Functions don't call themselves, so one is
//! enough, and a call takes no memory.
#![tactic(auto)]

mod frames;
mod passing;

pub use frames::Frame;

//! What the number of cells of a C machine means (ISO/IEC 9899:1999, 6.2.4): it is the greatest number of parameters and locals along
//! a chain of calls, and no run of a host's call has more cells at any time. Laws and examples alone, on functions that do
//! nothing.
#![tactic(auto)]

pub mod examples;
pub mod laws;

// What a host knows of a typed package: its public surface, copied out of the package's nodes.
#![tactic(auto)]

pub mod kinds;
pub mod surface;

pub use kinds::answer_kind;
pub use surface::public_surface;

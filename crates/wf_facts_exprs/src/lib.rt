// What a list of facts says of an expression: the facts themselves and sets of them, which range a number has under a list,
// which conditions a list gives, and which demands the value of an expression makes.
#![tactic(auto)]

mod conditions;
pub mod facts;
mod given;
mod giving;
mod heads;
mod judging;
mod known;
pub mod laws;
mod meeting;
mod numbered;
mod operands;
mod operators;
mod ranges;
mod sets;
mod shapes;
mod sides;

pub use conditions::check_value;
pub use facts::{Cmp, Fact, Side};
pub use giving::{gives, gives_at};
pub use known::{Known, fact_head};
pub use numbered::Sets;
pub use operands::{compared_by, is_number, joins, needs_all};
pub use ranges::{checked_range, gives_sides, range_of};
pub use sets::FactSet;
pub use sides::same_side;

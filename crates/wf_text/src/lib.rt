// What every other crate speaks of: places in a package's files, the rules by which a package is refused,
// status texts, numbers and bytes as text, the numbers of structs, methods and statuses, and long lists that grow. The
// package's public surface, the host's actions and what a host sees of them are plain data of specs/.
#![tactic(auto)]

pub mod categories;
pub mod digits;
pub mod faults;
pub mod found;
pub mod growing;
pub mod numbers;
pub mod place;
pub mod precedence;
pub mod rules;
pub mod status_text;

pub use categories::Category;
pub use digits::{hex_text, number_text};
pub use faults::{NoMemory, PhaseFault};
pub use growing::{add_last, make_room};
pub use numbers::{MethodId, StatusId, StructId};
pub use place::Place;
pub use precedence::sooner;
pub use rules::{Refusal, Rule, rule_name};

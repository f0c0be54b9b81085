// The program as one call: from the words of a command to what is written and how the program ends, over any
// inputs and any sink. A package is read whole and judged by the rules of names, of types and effects, of bounds and of
// suspension points; `gen` writes the C text of one that is accepted, `run` runs a script over that text, `mean` over its source, and
// `exec` over a text that is handed in.
#![tactic(auto)]

pub mod ending;
mod generating;
mod judging;
mod laws;
mod lines;
mod taking;
pub mod tool;
mod words;

pub use ending::Ending;
pub use laws::{
    a_refusal_has_its_file, a_text_runs_as_its_package, a_verdict_exists, an_answer_exists,
    an_answer_is_the_verdict, one_verdict,
};
pub use tool::wuffs_tool;

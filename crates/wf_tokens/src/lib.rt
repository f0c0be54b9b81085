// From the bytes of a file to its tokens with their places. The tokens are exactly those of the relation
// between bytes and lists of tokens in specs/Spelling.antt.
#![tactic(auto)]

mod gaps;
pub mod kinds;
pub mod laws;
pub mod lexer;
mod numbers;
pub mod pieces;
mod places;
mod runs;
mod semicolons;
pub mod symbols;
pub mod token;
pub mod words;

pub use kinds::TokenKind;
pub use lexer::Lexer;
pub use symbols::{Comparison, Operator, Symbol};
pub use token::Token;
pub use words::Word;

// From the parsed tree of a package to its resolved tree, in which every name stands for what it names. The resolved
// tree is a function of the parsed one and of what its names stand for; the code makes its nodes.
#![tactic(auto)]

mod arguments;
pub mod examples;
pub mod parts;
pub mod resolve_exprs;
pub mod resolve_stmts;
mod simple_stmts;
mod stmt_parts;
pub mod words;

// What a declared type lets a call do.

use wf_ast::TextId;
use wf_base::base_methods::Kind;

/// What may be called on a value of a declared type.
#[derive(Clone, Copy, PartialEq, Eq)]
pub enum Sort {
    /// The type is the struct of this name, and nothing else.
    Struct(TextId),
    /// The base methods of this kind.
    Methods(Kind),
    /// Nothing.
    Plain,
}

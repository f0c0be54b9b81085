// Structs and methods as they are declared.

use crate::numbers::TextId;
use crate::sequences::Sequence;
use crate::types::Ty;
use wf_base::Mark;
use wf_text::{Place, StructId};

/// A field, an argument or a local, with the place of its name.
#[derive(Clone, Copy, PartialEq, Eq)]
pub struct Var {
    pub name: TextId,
    pub ty: Ty,
    pub at: Place,
}

/// A struct, with the place of its name.
#[derive(Drop)]
pub struct Struct {
    pub name: TextId,
    pub public: bool,
    pub fields: Sequence<Var>,
    pub at: Place,
}

/// A method, with the place of its name. A coroutine has no declared result: it answers a status.
#[derive(Drop)]
pub struct Method {
    pub name: TextId,
    pub of: StructId,
    pub public: bool,
    pub mark: Mark,
    pub args: Sequence<Var>,
    pub locals: Sequence<Var>,
    pub gives: Option<Ty>,
    pub at: Place,
}

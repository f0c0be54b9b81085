// What a walk answers of parts.

use wf_ast::Ty;
use wf_base::Width;
use wf_text::Place;
use wf_types_rules::{Form, PlacedMeaning};

/// The two ends of a slice: what each means that is there.
#[derive(Clone, Copy, PartialEq, Eq)]
pub(crate) struct Ends {
    pub from: Option<PlacedMeaning>,
    pub to: Option<PlacedMeaning>,
}

/// The operand of an `as`, and the width of its type.
#[derive(Clone, Copy, PartialEq, Eq)]
pub(crate) struct Conversion {
    pub value: PlacedMeaning,
    pub plain: Option<Width>,
}

/// A type that is written: what type it is, its form (which it may have though it is no type), its width where it is
/// numeric and has no bounds, and its first token.
#[derive(Clone, Copy)]
pub(crate) struct WrittenType {
    pub of: Option<Ty>,
    pub kind: Option<Form>,
    pub plain: Option<Width>,
    pub at: Place,
}

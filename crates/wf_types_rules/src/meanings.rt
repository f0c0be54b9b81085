// What expressions, constants and methods mean to the rules of types. The definitions speak of these types with numbers
// of any size; in code a constant has 64 bits, which hold every constant that breaks no rule.

use wf_ast::{Sequence, Ty};
use wf_base::{Mark, Width};
use wf_text::Place;

/// What an expression means.
#[derive(Clone, Copy, PartialEq, Eq)]
pub enum Meaning {
    /// A constant expression: its number, and its width where a name or an `as` gives it one.
    Constant { width: Option<Width>, value: u64 },
    /// Anything else, by its type.
    Typed(Ty),
}

/// An operand, with its place.
#[derive(Clone, Copy, PartialEq, Eq)]
pub struct Operand {
    pub at: Place,
    pub of: Meaning,
}

/// What a part means, if anything, and its place.
#[derive(Clone, Copy, PartialEq, Eq)]
pub struct PlacedMeaning {
    pub of: Option<Meaning>,
    pub at: Place,
}

/// A bound of a type or the length of an array: whether it is no constant, its number, and its place.
#[derive(Clone, Copy, PartialEq, Eq)]
pub struct Bound {
    pub unfit: bool,
    pub number: Option<u64>,
    pub at: Place,
}

/// The value of a constant that breaks no rule. Its type gives its width.
#[derive(Clone, Copy, PartialEq, Eq)]
pub struct Constant {
    pub width: Width,
    pub value: u64,
}

/// What a call knows of a method: its mark, the types of its arguments, and its written result. A type that breaks a
/// rule is absent.
#[derive(Drop)]
pub struct MethodType {
    pub mark: Mark,
    pub args: Sequence<Option<Ty>>,
    pub gives: Option<Option<Ty>>,
}

// The rules by which a package is refused, and a refusal: one rule and one place.

ghost use Rattle.std.specs.Prelude.{◌≡◌};
ghost use Rattle.wf_text.specs.RuleNames.{name_of};

use crate::place::Place;

/// A rule or a limit of the language. The letter tells the phase that finds it: S reading, N names, T types,
/// E effects, B bounds and facts, L limits.
#[derive(Clone, Copy, PartialEq, Eq)]
pub enum Rule {
    /// A byte that begins no token.
    S1,
    /// A text that isn't closed on its line.
    S2,
    /// A number that is misspelt.
    S3,
    /// A number above 2^64 - 1.
    S4,
    /// A token that can't stand here.
    S5,
    /// Operators mixed without parentheses.
    S6,
    /// A name, status or base method that isn't known.
    N1,
    /// A name declared twice, an argument given twice, or one io argument passed twice in a call.
    N2,
    /// A reserved name.
    N3,
    /// A method that can reach itself by calls, or a struct that holds itself.
    N4,
    /// A label that isn't known, or a jump outside every loop.
    N5,
    /// An argument that the callee doesn't have.
    N6,
    /// An argument that is missing.
    N7,
    /// A method of another struct.
    N8,
    /// A wrong type.
    T1,
    /// Not assignable.
    T2,
    /// Not a condition.
    T3,
    /// A wrong or missing result.
    T4,
    /// A constant outside its type, or a misspelt status text.
    T5,
    /// An impure call or a write in a pure method.
    E1,
    /// A coroutine call or `yield?` outside a coroutine.
    E2,
    /// A marked, own or field call inside an expression, or a mark that isn't the declared one.
    E3,
    /// `=?` without a status target or a coroutine call.
    E4,
    /// `yield?` of anything but a suspension's text.
    E5,
    /// A value outside its type.
    B1,
    /// An index not below the length.
    B2,
    /// Slice ends out of order or past the length.
    B3,
    /// A shift by the width or more.
    B4,
    /// A divisor that may be 0.
    B5,
    /// An assertion that isn't given, or an axiom that doesn't fit.
    B6,
    /// A premise of an axiom that isn't given.
    B7,
    /// An argument outside its refinement.
    B8,
    /// A premise of a base method that isn't given.
    B9,
    /// A loop's `pre` that isn't given.
    B10,
    /// A loop's `inv` that isn't given.
    B11,
    /// A loop's `post` that isn't given.
    B12,
    /// Files of more than 1,048,576 bytes together.
    L1,
    /// More than 16 files.
    L2,
    /// More than 262,144 tokens.
    L3,
    /// More than 48 open brackets.
    L4,
    /// More than 4,096 statements in a method.
    L5,
    /// More than 1,024 methods.
    L6,
    /// Too many locals or arguments, or a too large array or struct.
    L7,
    /// More than 512 facts.
    L8,
    /// More than 1,024 suspension points in a method.
    L9,
}

/// That a package breaks a rule, and where.
#[derive(Clone, Copy, PartialEq, Eq)]
pub struct Refusal {
    pub rule: Rule,
    pub at: Place,
}

/// The rule's name as it is printed: its letter and its number.
pub fn rule_name(rule: Rule) -> &'static str
    ensures { result.now ≡ name_of rule }
{
    match rule {
        Rule::S1 => "S1",
        Rule::S2 => "S2",
        Rule::S3 => "S3",
        Rule::S4 => "S4",
        Rule::S5 => "S5",
        Rule::S6 => "S6",
        Rule::N1 => "N1",
        Rule::N2 => "N2",
        Rule::N3 => "N3",
        Rule::N4 => "N4",
        Rule::N5 => "N5",
        Rule::N6 => "N6",
        Rule::N7 => "N7",
        Rule::N8 => "N8",
        Rule::T1 => "T1",
        Rule::T2 => "T2",
        Rule::T3 => "T3",
        Rule::T4 => "T4",
        Rule::T5 => "T5",
        Rule::E1 => "E1",
        Rule::E2 => "E2",
        Rule::E3 => "E3",
        Rule::E4 => "E4",
        Rule::E5 => "E5",
        Rule::B1 => "B1",
        Rule::B2 => "B2",
        Rule::B3 => "B3",
        Rule::B4 => "B4",
        Rule::B5 => "B5",
        Rule::B6 => "B6",
        Rule::B7 => "B7",
        Rule::B8 => "B8",
        Rule::B9 => "B9",
        Rule::B10 => "B10",
        Rule::B11 => "B11",
        Rule::B12 => "B12",
        Rule::L1 => "L1",
        Rule::L2 => "L2",
        Rule::L3 => "L3",
        Rule::L4 => "L4",
        Rule::L5 => "L5",
        Rule::L6 => "L6",
        Rule::L7 => "L7",
        Rule::L8 => "L8",
        Rule::L9 => "L9",
    }
}

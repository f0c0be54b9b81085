// A list of texts, whose bytes stand one after the other in one vector.

ghost use Rattle.std.specs.Prelude.{◌≡◌, ◌<◌, ◌-◌, ◌++◌, ◌∷◌, Some, [], length, slice_get, take, OnOk, OnErr};

use std::alloc::{AllocError, Global};
use std::marker::Model;

/// The bytes of a text, from `start` on before `end`.
#[derive(Clone, Copy)]
struct Span {
    start: usize,
    end: usize,
}

/// Texts, each at its number, from 0.
#[derive(Drop)]
pub(crate) struct Texts {
    bytes: Vec<u8>,
    spans: Vec<Span>,
}

impl Model for Texts {
    ghost use Rattle.std.specs.Prelude.{map, length, ◌≤◌, List, ℕ};
    ghost use Rattle.std.specs.List.{All, between};

    ghost Value = { List (List ℕ) };

    ghost view = { λ it. map (λ span. between span.start span.end it.bytes.items) it.spans.items };

    ghost invariant = { λ it. All (λ span. (span.start ≤ span.end) × (span.end ≤ length it.bytes.items)) it.spans.items };
}

impl Texts {
    /// No texts; nothing is allocated.
    pub(crate) fn new(alloc: Global) -> Self
        ensures { result ≡ [] }
    {
        Texts {
            bytes: Vec::new(alloc),
            spans: Vec::new(alloc),
        }
    }

    /// How many texts there are.
    pub(crate) fn len(&self) -> usize
        ensures { result ≡ length self.now }
    {
        self.spans.len()
    }

    /// The bytes of a text.
    pub(crate) fn text(&self, number: usize) -> &[u8]
        requires { number < length self.now }
        ensures { slice_get self.now number ≡ Some result.now }
    {
        let span = self.spans[number];
        &self.bytes.as_slice()[span.start..span.end]
    }

    /// Adds a text at the end. On `Err` the texts are as they were.
    pub(crate) fn push(&mut self, text: &[u8]) -> Result<(), AllocError>
        ensures ok { OnOk result (self.new ≡ self.old ++ text.now ∷ []) }
        ensures err { OnErr result (self.new ≡ self.old) }
    {
        let start = self.bytes.len();
        self.bytes.extend_from_slice(text)?;
        let end = self.bytes.len();
        self.spans.push(Span { start, end })?;
        Ok(())
    }

    /// Takes the last text off.
    pub(crate) fn pop(&mut self)
        ensures { self.new ≡ take (length self.old - 1) self.old }
    {
        let _ = self.spans.pop();
    }
}

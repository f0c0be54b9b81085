// The numbers of texts that were seen of late. A name mostly comes again soon; then it is found here by one comparison,
// in place of a look-up among all texts of the package.

ghost use Rattle.std.specs.Prelude.{◌≡◌, true, Some, slice_get, IfSome};

use std::alloc::{AllocError, Global};
use wf_ast::{PackageNodes, TextId};

/// How many texts are remembered at most.
const SLOTS: usize = 2048;

/// A number at each slot, that of the last text which has this slot. At first all are 0. What is found here is always
/// compared with the text, so nothing hangs on what stands in the slots.
#[derive(Drop)]
pub(crate) struct Recent {
    numbers: Vec<TextId>,
}

/// The slot of a text, made of its bytes.
fn slot_of(text: &[u8]) -> usize {
    let mut sum: u32 = 0;
    for byte in text {
        sum = sum.wrapping_mul(31).wrapping_add(*byte as u32);
    }
    sum as usize % SLOTS
}

/// Whether the text of this number is that one.
fn is_text(parsed: &PackageNodes, number: TextId, text: &[u8]) -> bool
    ensures { result ≡ true → slice_get parsed.now.texts number.0 ≡ Some text.now }
{
    if parsed.texts() <= number.0 as usize {
        return false;
    }
    parsed.text(number) == text
}

impl Recent {
    /// Nothing is remembered.
    pub(crate) fn new(alloc: Global) -> Result<Self, AllocError> {
        Ok(Recent {
            numbers: vec![in alloc; TextId(0); SLOTS]?,
        })
    }

    /// The number of `text` in the package, if it is remembered.
    pub(crate) fn find(&self, parsed: &PackageNodes, text: &[u8]) -> Option<TextId>
        ensures { IfSome result (λ number. slice_get parsed.now.texts number.0 ≡ Some text.now) }
    {
        let number = *self.numbers.get(slot_of(text))?;
        if is_text(parsed, number, text) {
            Some(number)
        } else {
            None
        }
    }

    /// Remembers the number of `text`.
    pub(crate) fn keep(&mut self, text: &[u8], number: TextId) {
        if let Some(place) = self.numbers.get_mut(slot_of(text)) {
            *place = number;
        }
    }
}

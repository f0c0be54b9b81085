// That reading C has an answer. Each law is the contract of a function that does nothing.

ghost use Rattle.c_read_laws.specs.OutcomeLaws.{BytesAreReadOrRefused, TextsAreWholeOrTooDeep, AnAnswerIsTheOutcome};

/// Every list of bytes has one outcome, and no other: it is the text of one tree, or a bracket is one too many at one
/// place, or it can't go on at one place.
pub fn bytes_are_read_or_refused()
    ensures { BytesAreReadOrRefused }
{}

/// The text of a tree is read whole, or a bracket of it is one too many: what can't go on at a place is no text at all.
pub fn texts_are_whole_or_too_deep()
    ensures { TextsAreWholeOrTooDeep }
{}

/// An answer of the reader that isn't `Memory` is the outcome of the bytes: their tree, or their refusal at its place.
pub fn an_answer_is_the_outcome()
    ensures { AnAnswerIsTheOutcome }
{}

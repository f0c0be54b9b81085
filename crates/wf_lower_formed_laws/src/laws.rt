// The laws of the C text of an accepted package. Each is the contract of a function that does nothing.

ghost use Rattle.wf_lower_formed_laws.specs.AcceptedForm.{AcceptedTextsAreFormed, ReadTextsAreFormed};
ghost use Rattle.wf_lower_formed_laws.specs.NamesKept.{NamesAreKept};

/// Where the names of a typed package are plain and differ as the rules of names ask, and the package isn't named `base`, the names
/// in its text are all in order: those of items, and in each function those of parameters and locals.
pub fn names_are_kept()
    ensures { NamesAreKept }
{}

/// The text of a typed package in which no method has too many points has the unit form for the package's surface, where names are
/// plain and differ as the rules of names ask, the package isn't named `base`, and each array has fewer than 2^31 elements.
pub fn accepted_texts_have_the_unit_form()
    ensures { AcceptedTextsAreFormed }
{}

/// The same of every package that is read from files, keeps the rules of names and is typed: where it isn't named `base` and no method
/// has too many points, its text has the unit form for its surface.
pub fn read_texts_have_the_unit_form()
    ensures { ReadTextsAreFormed }
{}

// The laws of reading. Each is the contract of a function that does nothing.

ghost use Rattle.wf_parse.specs.OneReading.{TreesAreUnique, RefusalsAreUnique, NeverBoth, TextsAreDistinct, RefusalsHaveFiles, DeclsHaveFiles};

/// The files of a package are read to at most one tree, are refused by at most one rule at one place, and never both.
pub fn one_reading()
    ensures trees { TreesAreUnique }
    ensures refusals { RefusalsAreUnique }
    ensures never_both { NeverBoth }
{}

/// Equal texts of a package that is read have equal numbers.
pub fn texts_are_distinct()
    ensures { TextsAreDistinct }
{}

/// A refusal stands in one of the package's files.
pub fn a_refusal_has_its_file()
    ensures { RefusalsHaveFiles }
{}

/// Each declaration of a package that is read is what a form of the grammar means, whose tokens all stand in one of the
/// package's files.
pub fn declarations_have_their_files()
    ensures { DeclsHaveFiles }
{}

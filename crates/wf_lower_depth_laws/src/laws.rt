// The laws of depth. Each is the contract of a function that does nothing.

ghost use Rattle.wf_lower_depth_laws.specs.DepthLaws.{ReadMethodsOpenFew, ResolvingKeepsDepth, TypingKeepsDepth, ReadPackagesAreWithin, ReadTextsAreShallow};

/// The methods of a package that is read open at most 48 brackets inside one another, that of the body among them.
pub fn read_methods_open_few_brackets()
    ensures { ReadMethodsOpenFew }
{}

/// Where the methods of a parsed package open so few, so do those of the resolved one, whatever its names stand for.
pub fn resolving_keeps_depth()
    ensures { ResolvingKeepsDepth }
{}

/// Where the methods of a resolved package open so few, and it is as the grammar gives, at most 97 parts of the typed one stand inside
/// one another: two for each bracket, and one.
pub fn typing_keeps_depth()
    ensures { TypingKeepsDepth }
{}

/// So it is in every package that is read, resolved and typed, in whatever order its methods stand.
pub fn read_packages_are_shallow()
    ensures { ReadPackagesAreWithin }
{}

/// The text in C of every package that is read opens no bracket where 512 are open, as the reader of C texts counts them.
pub fn read_texts_are_shallow()
    ensures { ReadTextsAreShallow }
{}

// The laws of places. Each is the contract of a function that does nothing.

ghost use Rattle.wf_read_laws.specs.PlaceLaws.{DeclsAreInFiles, BreaksHaveFiles, PackagesBreakInFiles};

/// A declaration whose tokens all stand in a file has all its names and places there.
pub fn a_declaration_stands_in_its_file()
    ensures { DeclsAreInFiles }
{}

/// What a package breaks of the rules of names stands in one of its files: so it is of declarations that stand in so
/// many files, and of all that is read from the package's.
pub fn a_broken_rule_has_its_file()
    ensures declarations { BreaksHaveFiles }
    ensures packages { PackagesBreakInFiles }
{}

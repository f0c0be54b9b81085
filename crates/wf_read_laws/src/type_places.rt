// The laws of places of resolved trees. Each is the contract of a function that does nothing.

ghost use Rattle.wf_read_laws.specs.TypePlaceLaws.{ResolvingKeepsPlaces, RulesStandInPackages, BreaksHaveFiles, PackagesBreakInFiles};

/// Declarations all of whose places lie in a region are resolved to a package that lies there.
pub fn resolving_keeps_places()
    ensures { ResolvingKeepsPlaces }
{}

/// What a resolved package breaks of the rules of types and effects stands where one of its parts stands.
pub fn a_broken_rule_stands_in_the_package()
    ensures { RulesStandInPackages }
{}

/// It stands in one of the package's files: so it is of declarations that stand in so many files, and of all that is
/// read from the package's.
pub fn a_broken_rule_of_types_has_its_file()
    ensures declarations { BreaksHaveFiles }
    ensures packages { PackagesBreakInFiles }
{}

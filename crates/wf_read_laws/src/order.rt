// The laws of the order of statements. Each is the contract of a function that does nothing.

ghost use Rattle.wf_read_laws.specs.ReadPackages.{ReadPackagesStandInOrder};

/// The statements of a package that is read stand in order of place in its typed tree.
pub fn statements_of_a_read_package_stand_in_order()
    ensures { ReadPackagesStandInOrder }
{}

// The laws of scoping. Each is the contract of a function that does nothing.

ghost use Rattle.wf_names_scope_laws.specs.ResolvedPackages.{PackagesAreResolved, ReadPackagesAreResolved};
ghost use Rattle.wf_names_scope_laws.specs.ScopeLaws.{NamesHaveMeanings};

/// Wherever a package that breaks no rule of names uses a name, resolving gives the number of the one declaration that the name
/// means there. After nothing it is a local of the method or else a constant, after `this.` a field of the method's struct, after
/// `args.` an argument of the method; a struct and a status are known everywhere; a method is one of the struct of `this`, a public
/// one of the struct that a field is, or a base method of a type.
pub fn names_have_meanings()
    ensures { NamesHaveMeanings }
{}

/// Where declarations break no rule of names, and their texts differ, their resolved package is the same package, declaration by
/// declaration and part by part, with the numbers of what its names mean: of expressions, of calls with the value for each declared
/// argument, of types, and of jumps, whose loop is the innermost, or the one round them that has the label.
pub fn packages_are_resolved()
    ensures { PackagesAreResolved }
{}

/// So it is for every package that is read and keeps the rules of names.
pub fn read_packages_are_resolved()
    ensures { ReadPackagesAreResolved }
{}

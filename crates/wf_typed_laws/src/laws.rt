// The laws of the names of typed packages. Each is the contract of a function that does nothing.

ghost use Rattle.wf_typed_laws.specs.ApartNames.{ReadNamesAreApart};
ghost use Rattle.wf_typed_laws.specs.Owners.{ReadMethodsHaveOwners};
ghost use Rattle.wf_typed_laws.specs.PlainNames.{NodesHaveNames, ReadNamesArePlain};
ghost use Rattle.wf_typed_laws.specs.StatusTexts.{ReadStatusesArePlain};

/// Every name in the typed package of a package that is read, and keeps the rules of names, is a letter and then letters, digits
/// and underscores, of which none stands at its end and no two in a row; and it is no word of the language.
pub fn names_are_plain()
    ensures { ReadNamesArePlain }
{}

/// Where all names of a package are plain, its nodes have texts under the numbers of their names.
pub fn nodes_have_names()
    ensures { NodesHaveNames }
{}

/// In the typed package of a package that is read, and keeps the rules of names, no two structs have one name, nor two fields of a
/// struct, two methods of a struct, two arguments or two locals of a method; and no method is named `initialize`.
pub fn names_are_apart()
    ensures { ReadNamesAreApart }
{}

/// The texts of the statuses in the typed package of a package that is read, and keeps the rules of types, hold bytes that may
/// stand between quotes, with no two `?` in a row. The package's name is made of letters, digits and `_`.
pub fn statuses_are_plain()
    ensures { ReadStatusesArePlain }
{}

/// The struct of each method in the typed package of a package that is read, and keeps the rules of names, is one of the package's.
pub fn methods_have_structs()
    ensures { ReadMethodsHaveOwners }
{}

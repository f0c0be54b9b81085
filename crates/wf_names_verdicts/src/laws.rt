// That the rules of names have an answer. Each law is the contract of a function that does nothing.

ghost use Rattle.wf_names_verdicts.specs.NameVerdicts.{NamesAreDecided, WaysAreDecided, FieldsTakeBytes, KeptPackagesHaveAnOrder};

/// In a graph whose steps start at finitely many numbers there is a way from one to another, or there is none.
pub fn ways_are_decided()
    ensures { WaysAreDecided }
{}

/// The fields of a struct take some number of bytes, whatever it holds.
pub fn fields_take_bytes()
    ensures { FieldsTakeBytes }
{}

/// Of all that a package breaks of the rules of names there is a first refusal, or it breaks none of them.
pub fn names_are_decided()
    ensures { NamesAreDecided }
{}

/// The methods of a package that breaks no rule of names have an order in which each stands after those that it calls.
pub fn kept_packages_have_an_order()
    ensures { KeptPackagesHaveAnOrder }
{}

// The laws of the unit form by its rules. Each is the contract of a function that does nothing.

ghost use Rattle.c_form_laws.specs.CallOrder.{CallsGoBack};
ghost use Rattle.c_form_laws.specs.FormLaw.{ItemsKeepTheirRules, UnitFormIsKept, BreaksAreTold};
ghost use Rattle.c_form_laws.specs.NameRules.{NamesAreDeclared};

/// An item, after the items before it, is formed exactly where it keeps the rules that are its own.
pub fn items_keep_their_rules()
    ensures { ItemsKeepTheirRules }
{}

/// A text has the unit form exactly where each item keeps its rules, there is an item, and no public function is missing.
pub fn has_unit_form()
    ensures { UnitFormIsKept }
{}

/// Otherwise the number that is told is that of the first item that breaks a rule of its own, or the number of items where
/// none does.
pub fn breaks_are_told()
    ensures { BreaksAreTold }
{}

/// The names in an expression that has a type, or in an lvalue, are parameters, locals or strings, and the functions that it calls
/// stand before.
pub fn names_are_declared()
    ensures { NamesAreDeclared }
{}

/// A function that a statement calls stands before the one that the statement is of. With the law on names, no calls go round.
pub fn calls_go_back()
    ensures { CallsGoBack }
{}

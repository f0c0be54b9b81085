// What resolving keeps, whatever names stand for. Each law is the contract of a function that does nothing.

ghost use Rattle.wf_names_laws.specs.ResolvedForms.{ResolvingKeepsForm, ResolvingKeepsOrder};

/// Well formed declarations are resolved to a package as the grammar gives, whatever their names stand for.
pub fn resolving_keeps_the_form()
    ensures { ResolvingKeepsForm }
{}

/// Where the statements of a parsed package stand in order of place, so do those of the resolved one.
pub fn resolving_keeps_the_order_of_statements()
    ensures { ResolvingKeepsOrder }
{}

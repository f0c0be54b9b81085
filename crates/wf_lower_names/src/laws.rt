// The laws of names and texts in C. Each is the contract of a function that does nothing.

ghost use Rattle.wf_lower_names.specs.SpeltNodes.{NodesAreSpelt};

/// Where the names of a typed package are plain, its statuses hold plain texts, its own name is made of letters, digits and `_`,
/// and the struct of each method is there, names and texts are spelt as C spells names and strings.
pub fn nodes_are_spelt()
    ensures { NodesAreSpelt }
{}

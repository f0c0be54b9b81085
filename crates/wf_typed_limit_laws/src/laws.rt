// The laws of the limits of typed packages. Each is the contract of a function that does nothing.

ghost use Rattle.wf_typed_limit_laws.specs.FewMethods.{ReadMethodsAreFew};
ghost use Rattle.wf_typed_limit_laws.specs.StructBytes.{BytesAreOne, ReadStructsAreSmall};

/// The typed package of a package that is read, and keeps the rules of names, has at most 1,024 methods.
pub fn methods_are_few()
    ensures { ReadMethodsAreFew }
{}

/// The fields of each struct in the typed package of a package that is read, and keeps the rules of names and of types, have a
/// number of bytes together, and at most 1,048,576. So no struct of it holds itself.
pub fn structs_are_small()
    ensures { ReadStructsAreSmall }
{}

/// Fields have one number of bytes, or none.
pub fn bytes_are_one()
    ensures { BytesAreOne }
{}

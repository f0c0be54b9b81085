// The laws of constants and of the lengths of arrays. Each is the contract of a function that does nothing.

ghost use Rattle.wf_typed_const_laws.specs.ArrayLengths.{ReadArraysAreBounded};
ghost use Rattle.wf_typed_const_laws.specs.OneValue.{ReadConstantsHaveOneValue};

/// In a package that is read, and keeps the rules of names, whatever has a value by the rules of types, a declared constant or a
/// constant expression where all constants are known, has the same value and width by the rules of names.
pub fn constants_have_one_value()
    ensures { ReadConstantsHaveOneValue }
{}

/// In the typed package of a package that is read, and keeps the rules of names, each array of a field, an argument or a local has at
/// most 65,536 elements, and so fewer than 2^31.
pub fn array_lengths_are_bounded()
    ensures { ReadArraysAreBounded }
{}

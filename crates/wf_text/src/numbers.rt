// The numbers by which a package's structs, methods and statuses are named.

/// A struct: its place, from 0, among the structs of the package in order of declaration.
#[derive(Clone, Copy, PartialEq, Eq)]
pub struct StructId(pub u32);

/// A method: its place, from 0, among the methods of the package in order of declaration.
#[derive(Clone, Copy, PartialEq, Eq)]
pub struct MethodId(pub u32);

/// A status: 0 is ok; the base statuses, as the language has them in order, come from 1 to 9; those of the package after
/// them, as they are declared.
#[derive(Clone, Copy, PartialEq, Eq)]
pub struct StatusId(pub u32);

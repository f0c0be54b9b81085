// The numbers by which a package's constants, a struct's fields and a method's arguments and locals are named.

/// A constant: its place, from 0, among the constants of the package in order of declaration.
#[derive(Clone, Copy, PartialEq, Eq)]
pub struct ConstId(pub u32);

/// A field: its place, from 0, among the fields of its struct in order of declaration.
#[derive(Clone, Copy, PartialEq, Eq)]
pub struct FieldId(pub u32);

/// An argument: its place, from 0, among the arguments of its method in order of declaration.
#[derive(Clone, Copy, PartialEq, Eq)]
pub struct ArgId(pub u32);

/// A local: its place, from 0, among the locals of its method in order of declaration.
#[derive(Clone, Copy, PartialEq, Eq)]
pub struct LocalId(pub u32);

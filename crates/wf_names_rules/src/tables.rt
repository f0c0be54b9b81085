// What is known of a package and at a place in it, in tables. What a name stands for is found by a few look-ups, each time
// that it is asked.

ghost use Rattle.std.specs.Prelude.{◌≡◌, slice_get, nat_eq, option_map};
ghost use Rattle.indexmap.specs.IndexMap.{get};
ghost use Rattle.indexmap.specs.IndexSet.{contains};
ghost use Rattle.wf_base.specs.BaseTable.{method_named};
ghost use Rattle.wf_names_rules.specs.Declarations.{bytes_in};
ghost use Rattle.wf_names_rules.specs.Meanings.{or_sort, path_sort as sort_of_path, this_callee as callee_here, struct_callee as callee_in_struct, found_base, part_callee as callee_in_part, sorted_callee as callee_by_sort, callee_on as callee_of_name};
ghost use Rattle.wf_names_rules.specs.Tables.{known_by, public_at, pair_sort, entry_sort as sort_of_entry, variables_at, local_at, local_sort_at, constant_sort_at, arg_at, arg_sort_at, field_at, own_method_at, constant_in as constant_known, constant_at};

use crate::callees::Callee;
use crate::sorts::Sort;
use indexmap::{IndexMap, IndexSet};
use std::collections::BTreeMap;
use wf_ast::parsed::{Path, Receiver, Root};
use wf_ast::{PackageNodes, TextId};
use wf_base::base_methods::{Kind, base_method};

/// Numbers by the names that stand for them. Each name is declared under the next one; a name that is declared again
/// keeps its first.
pub struct Numbers {
    pub numbers: IndexMap<u32, u32>,
    pub next: u32,
}

impl Drop for Numbers {
    fn drop(self) {
        let Numbers {
            numbers: _,
            next: _,
        } = self;
    }
}

/// A variable: what may be called on it, and its place among those that are declared with it, from 0.
#[derive(Clone, Copy)]
pub struct Entry {
    pub sort: Sort,
    pub place: u32,
}

/// Variables by their names. Each is declared at the next place; a name that is declared again keeps its first.
pub struct Variables {
    pub entries: IndexMap<u32, Entry>,
    pub next: u32,
}

impl Drop for Variables {
    fn drop(self) {
        let Variables {
            entries: _,
            next: _,
        } = self;
    }
}

/// The arguments and the locals of a method.
pub struct MethodVariables {
    pub args: Variables,
    pub locals: Variables,
}

impl Drop for MethodVariables {
    fn drop(self) {
        let MethodVariables { args: _, locals: _ } = self;
    }
}

/// What the whole package knows. Names stand by their texts, methods by their numbers in order.
pub struct Tables {
    /// The statuses, from 10 on: the numbers below are those of the language's own.
    pub statuses: Numbers,
    /// The structs, from 0.
    pub structs: Numbers,
    /// The constants.
    pub constants: Variables,
    /// A field, by its struct's name and its own; ordered, so that a look-up takes few comparisons whatever the names are.
    pub fields: BTreeMap<(u32, u32), Entry>,
    /// The number of a method, by its struct's name and its own.
    pub methods: BTreeMap<(u32, u32), usize>,
    pub method_names: IndexSet<u32>,
    /// Of each method whether it is public.
    pub publics: Vec<bool>,
    /// Of each method its arguments and its locals.
    pub variables: Vec<MethodVariables>,
}

impl Drop for Tables {
    fn drop(self) {
        let Tables {
            statuses: _,
            structs: _,
            constants: _,
            fields: _,
            methods: _,
            method_names: _,
            publics: _,
            variables: _,
        } = self;
    }
}

/// What is known at a place besides: how many constants, from the first, the struct of `this` by its name, and the method,
/// by its number, whose arguments and locals are known. Outside methods there are none.
#[derive(Clone, Copy)]
pub struct Scope {
    pub constants: u32,
    pub this: Option<u32>,
    pub method: Option<usize>,
}

/// The bytes of a text, none where the package doesn't have it.
pub fn text_bytes(parsed: &PackageNodes, text: TextId) -> &[u8]
    ensures { result.now ≡ bytes_in (slice_get parsed.now.texts text.0) }
{
    if (text.0 as usize) < parsed.texts() {
        parsed.text(text)
    } else {
        &[]
    }
}

fn is_public(tables: &Tables, m: usize) -> bool
    ensures { result ≡ public_at tables.now m }
{
    match tables.publics.get(m) {
        Some(public) => *public,
        None => false,
    }
}

fn field_of(tables: &Tables, owner: u32, text: TextId) -> Option<Sort>
    ensures { result ≡ pair_sort tables.now.fields (owner, text.0) }
{
    let entry = tables.fields.get(&(owner, text.0))?;
    Some(entry.sort)
}

fn field(tables: &Tables, scope: &Scope, text: TextId) -> Option<Sort>
    ensures { result ≡ field_at tables.now scope.now.this text.0 }
{
    let owner = scope.this?;
    field_of(tables, owner, text)
}

// The variable of this name.
fn variable(variables: &Variables, text: TextId) -> Option<Entry>
    ensures { result ≡ get nat_eq variables.now.entries text.0 }
{
    variables.entries.get(&text.0).copied()
}

fn constant_in(entry: Option<Entry>, known: u32) -> Option<Entry>
    ensures { result ≡ constant_known known entry }
{
    let entry = entry?;
    if entry.place < known {
        Some(entry)
    } else {
        None
    }
}

/// The constant of this name, where it is known.
pub fn constant(tables: &Tables, scope: &Scope, text: TextId) -> Option<Entry>
    ensures { result ≡ constant_at tables.now scope.now.constants text.0 }
{
    constant_in(variable(&tables.constants, text), scope.constants)
}

// The arguments and the locals that are known.
fn method_variables<'a>(tables: &'a Tables, scope: &Scope) -> Option<&'a MethodVariables>
    ensures { option_map (λ known. known.now) result ≡ variables_at tables.now scope.now.method }
{
    let m = scope.method?;
    tables.variables.get(m)
}

/// The local of this name.
pub fn local(tables: &Tables, scope: &Scope, text: TextId) -> Option<Entry>
    ensures { result ≡ local_at tables.now scope.now.method text.0 }
{
    let known = method_variables(tables, scope)?;
    variable(&known.locals, text)
}

/// The argument of this name.
pub fn arg(tables: &Tables, scope: &Scope, text: TextId) -> Option<Entry>
    ensures { result ≡ arg_at tables.now scope.now.method text.0 }
{
    let known = method_variables(tables, scope)?;
    variable(&known.args, text)
}

fn entry_sort(entry: Option<Entry>) -> Option<Sort>
    ensures { result ≡ sort_of_entry entry }
{
    let entry = entry?;
    Some(entry.sort)
}

/// What may be called on the argument of this name.
pub(crate) fn arg_sort(tables: &Tables, scope: &Scope, text: TextId) -> Option<Sort>
    ensures { result ≡ arg_sort_at tables.now scope.now.method text.0 }
{
    entry_sort(arg(tables, scope, text))
}

fn bare(tables: &Tables, scope: &Scope, text: TextId) -> Option<Sort>
    ensures { result ≡ or_sort (local_sort_at tables.now scope.now.method text.0) (constant_sort_at tables.now scope.now.constants text.0) }
{
    match entry_sort(local(tables, scope, text)) {
        Some(sort) => Some(sort),
        None => entry_sort(constant(tables, scope, text)),
    }
}

/// What may be called on what a path stands for, None where it stands for nothing.
pub(crate) fn path_sort(
    parsed: &PackageNodes,
    tables: &Tables,
    scope: &Scope,
    path: Path,
) -> Option<Sort>
    ensures { result ≡ sort_of_path (known_by parsed.now.texts tables.now scope.now) path }
{
    match path.root {
        Root::Bare => bare(tables, scope, path.name.text),
        Root::This => field(tables, scope, path.name.text),
        Root::Args => arg_sort(tables, scope, path.name.text),
    }
}

fn own_method(tables: &Tables, scope: &Scope, text: TextId) -> Option<usize>
    ensures { result ≡ own_method_at tables.now scope.now.this text.0 }
{
    let owner = scope.this?;
    tables.methods.get(&(owner, text.0)).copied()
}

fn this_callee(tables: &Tables, scope: &Scope, text: TextId) -> Callee
    ensures { result ≡ callee_here (own_method_at tables.now scope.now.this text.0) (contains nat_eq tables.now.method_names text.0) }
{
    match own_method(tables, scope, text) {
        Some(m) => Callee::Own(m),
        None => {
            if tables.method_names.contains(&text.0) {
                Callee::Foreign
            } else {
                Callee::Missing
            }
        }
    }
}

fn struct_callee(
    parsed: &PackageNodes,
    tables: &Tables,
    scope: &Scope,
    owner: TextId,
    text: TextId,
) -> Callee
    ensures { result ≡ callee_in_struct (known_by parsed.now.texts tables.now scope.now) owner.0 text.0 }
{
    if !tables.structs.numbers.contains_key(&owner.0) {
        return Callee::Baseless;
    }
    match tables.methods.get(&(owner.0, text.0)) {
        Some(m) => {
            if is_public(tables, *m) {
                Callee::Own(*m)
            } else {
                Callee::Hidden(*m)
            }
        }
        None => Callee::Missing,
    }
}

fn base_callee(parsed: &PackageNodes, kind: Kind, text: TextId) -> Callee
    ensures { result ≡ found_base (method_named kind (bytes_in (slice_get parsed.now.texts text.0))) }
{
    match base_method(kind, text_bytes(parsed, text)) {
        Some(sig) => Callee::Base(sig),
        None => Callee::Missing,
    }
}

fn part_callee(
    parsed: &PackageNodes,
    tables: &Tables,
    scope: &Scope,
    root: Root,
    owner: TextId,
    text: TextId,
) -> Callee
    ensures { result ≡ callee_in_part (known_by parsed.now.texts tables.now scope.now) root owner.0 text.0 }
{
    match root {
        Root::This => struct_callee(parsed, tables, scope, owner, text),
        Root::Bare => Callee::Missing,
        Root::Args => Callee::Missing,
    }
}

fn path_callee(
    parsed: &PackageNodes,
    tables: &Tables,
    scope: &Scope,
    path: Path,
    text: TextId,
) -> Callee
    ensures { result ≡ callee_by_sort (known_by parsed.now.texts tables.now scope.now) path.root (sort_of_path (known_by parsed.now.texts tables.now scope.now) path) text.0 }
{
    match path_sort(parsed, tables, scope, path) {
        Some(Sort::Struct(owner)) => part_callee(parsed, tables, scope, path.root, owner, text),
        Some(Sort::Methods(kind)) => base_callee(parsed, kind, text),
        Some(Sort::Plain) => Callee::Missing,
        None => Callee::Baseless,
    }
}

/// What the method name of a call on this stands for.
pub fn callee_on(
    parsed: &PackageNodes,
    tables: &Tables,
    scope: &Scope,
    on: Receiver,
    text: TextId,
) -> Callee
    ensures { result ≡ callee_of_name (known_by parsed.now.texts tables.now scope.now) on text.0 }
{
    match on {
        Receiver::This(_) => this_callee(tables, scope, text),
        Receiver::Path(path) => path_callee(parsed, tables, scope, path, text),
    }
}

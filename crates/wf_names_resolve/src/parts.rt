// What single names stand for, and marks.

ghost use Rattle.std.specs.Prelude.{◌≡◌, bytes_eq, drop, IfOk};
ghost use Rattle.std.specs.List.{position_from};
ghost use Rattle.wf_names_rules.specs.Meanings.{base_status_texts, callee_on as callee_of_name};
ghost use Rattle.wf_names_rules.specs.Tables.{pair_place, known_by, number_at, constant_place_at, entry_place as place_of_entry, local_place_at, arg_place_at};
ghost use Rattle.wf_names_rules.specs.Declarations.{bytes_of};
ghost use Rattle.wf_names_resolve.specs.Prefixes.{resolved_core};
ghost use Rattle.wf_names_resolve.specs.Standing.{standing_by, field_numbered};
ghost use Rattle.wf_names_resolve.specs.Resolved.{number_or as or_zero, base_status_number, bare_variable, variable_at, resolved_path, callee_at, resolved_mark, plain_type_named, base_type_named};

use wf_ast::parsed::{Core, Path, Receiver, Root, WrittenMark};
use wf_ast::{
    ArgId, ConstId, FieldId, LocalId, MethodId, PackageNodes, StatusId, StructId, TextId,
};
use wf_base::Mark;
use wf_base::base_methods::BaseSig;
use wf_named::{BaseType, NamedCallee, NamedCore, NamedPath, Variable};
use wf_names_rules::callees::Callee;
use wf_names_rules::here::Here;
use wf_names_rules::tables::{Entry, Scope, Tables, arg, callee_on, constant, local, text_bytes};
use wf_names_rules::types::width_named;
use wf_text::faults::NoMemory;

// How many numbers there are.
const NUMBERS: usize = 4294967296;

/// A number, 0 where there is none.
pub fn number_or(number: Option<u32>) -> u32
    ensures { result ≡ or_zero number }
{
    match number {
        Some(n) => n,
        None => 0,
    }
}

/// The number of a status of the package.
pub(crate) fn own_status(tables: &Tables, text: TextId) -> StatusId
    ensures { result.0 ≡ or_zero (number_at tables.now.statuses text.0) }
{
    StatusId(number_or(tables.statuses.numbers.get(&text.0).copied()))
}

// The number of an error of the language.
fn base_error(text: &[u8]) -> StatusId
    ensures { result.0 ≡ or_zero (position_from (bytes_eq text.now) 4 (drop 3 base_status_texts)) }
{
    if text == b"#bad receiver".as_slice() {
        StatusId(4)
    } else if text == b"#bad argument".as_slice() {
        StatusId(5)
    } else if text == b"#initialize not called".as_slice() {
        StatusId(6)
    } else if text == b"#interleaved coroutine calls".as_slice() {
        StatusId(7)
    } else if text == b"#disabled by previous error".as_slice() {
        StatusId(8)
    } else if text == b"#cannot return a suspension".as_slice() {
        StatusId(9)
    } else {
        StatusId(0)
    }
}

/// The number of a status of the language, by its text after `base.`.
pub(crate) fn base_status(text: &[u8]) -> StatusId
    ensures { result.0 ≡ base_status_number text.now }
{
    if text == b"$short read".as_slice() {
        StatusId(1)
    } else if text == b"$short write".as_slice() {
        StatusId(2)
    } else if text == b"@end of data".as_slice() {
        StatusId(3)
    } else {
        base_error(text)
    }
}

fn field_of(tables: &Tables, owner: u32, text: TextId) -> Option<u32>
    ensures { result ≡ pair_place tables.now.fields (owner, text.0) }
{
    let entry = tables.fields.get(&(owner, text.0))?;
    Some(entry.place)
}

fn field(tables: &Tables, scope: &Scope, text: TextId) -> Option<u32>
    ensures { result ≡ field_numbered tables.now scope.now.this text.0 }
{
    let owner = scope.this?;
    field_of(tables, owner, text)
}

fn entry_place(entry: Option<Entry>) -> Option<u32>
    ensures { result ≡ place_of_entry entry }
{
    let entry = entry?;
    Some(entry.place)
}

fn constant_place(tables: &Tables, scope: &Scope, text: TextId) -> Option<u32>
    ensures { result ≡ constant_place_at tables.now scope.now.constants text.0 }
{
    entry_place(constant(tables, scope, text))
}

fn bare(tables: &Tables, scope: &Scope, text: TextId) -> Variable
    ensures { result ≡ bare_variable (local_place_at tables.now scope.now.method text.0) (constant_place_at tables.now scope.now.constants text.0) }
{
    match entry_place(local(tables, scope, text)) {
        Some(n) => Variable::Local(LocalId(n)),
        None => Variable::Const(ConstId(number_or(constant_place(tables, scope, text)))),
    }
}

fn arg_place(tables: &Tables, scope: &Scope, text: TextId) -> Option<u32>
    ensures { result ≡ arg_place_at tables.now scope.now.method text.0 }
{
    entry_place(arg(tables, scope, text))
}

fn variable(tables: &Tables, scope: &Scope, root: Root, text: TextId) -> Variable
    ensures { (texts : _) → result ≡ variable_at (standing_by texts tables.now scope.now) root text.0 }
{
    match root {
        Root::Bare => bare(tables, scope, text),
        Root::This => Variable::Field(FieldId(number_or(field(tables, scope, text)))),
        Root::Args => Variable::Arg(ArgId(number_or(arg_place(tables, scope, text)))),
    }
}

/// What a path stands for.
pub(crate) fn path(tables: &Tables, scope: &Scope, path: Path) -> NamedPath
    ensures { (texts : _) → result ≡ resolved_path (standing_by texts tables.now scope.now) path }
{
    NamedPath {
        of: variable(tables, scope, path.root, path.name.text),
        at: path.at,
    }
}

/// What the method name of a call stands for, as the rules of names say it.
pub(crate) fn callee(here: &Here<'_>, on: Receiver, text: TextId) -> Callee
    ensures { result ≡ callee_of_name (known_by here.now.parsed.now.texts here.now.tables.now here.now.scope.now) on text.0 }
{
    callee_on(here.parsed, here.tables, here.scope, on, text)
}

// A number as nodes have it.
fn numbered(m: usize) -> Result<u32, NoMemory>
    ensures { IfOk result (λ n. n ≡ m) }
{
    if m < NUMBERS {
        Ok(m as u32)
    } else {
        Err(NoMemory)
    }
}

// A method of the package on what its call is made on.
fn method(tables: &Tables, scope: &Scope, on: Receiver, m: u32) -> NamedCallee
    ensures { (texts : _) → result ≡ callee_at (standing_by texts tables.now scope.now) on (Callee.Own m) }
{
    match on {
        Receiver::This(_) => NamedCallee::Own(MethodId(m)),
        Receiver::Path(path) => NamedCallee::Sub {
            field: FieldId(number_or(field(tables, scope, path.name.text))),
            method: MethodId(m),
        },
    }
}

// A base method on what its call is made on.
fn base_method(tables: &Tables, scope: &Scope, on: Receiver, sig: BaseSig) -> NamedCallee
    ensures { (texts : _) → result ≡ callee_at (standing_by texts tables.now scope.now) on (Callee.Base sig) }
{
    match on {
        Receiver::This(_) => NamedCallee::Own(MethodId(0)),
        Receiver::Path(of) => NamedCallee::Base {
            on: path(tables, scope, of),
            sig,
        },
    }
}

/// What is called. `Err` where a method of the package has no number.
pub(crate) fn named_callee(
    tables: &Tables,
    scope: &Scope,
    on: Receiver,
    callee: Callee,
) -> Result<NamedCallee, NoMemory>
    ensures { IfOk result (λ c. (texts : _) → c ≡ callee_at (standing_by texts tables.now scope.now) on callee) }
{
    match callee {
        Callee::Own(m) => {
            let m = numbered(m)?;
            Ok(method(tables, scope, on, m))
        }
        Callee::Base(sig) => Ok(base_method(tables, scope, on, sig)),
        Callee::Hidden(_) => Ok(NamedCallee::Own(MethodId(0))),
        Callee::Foreign => Ok(NamedCallee::Own(MethodId(0))),
        Callee::Missing => Ok(NamedCallee::Own(MethodId(0))),
        Callee::Baseless => Ok(NamedCallee::Own(MethodId(0))),
    }
}

/// The mark that is written.
pub fn mark(written: WrittenMark) -> Mark
    ensures { result ≡ resolved_mark written }
{
    match written {
        WrittenMark::Unmarked => Mark::Pure,
        WrittenMark::Exclamation => Mark::Impure,
        WrittenMark::Question => Mark::Coroutine,
    }
}

fn plain_type(name: &[u8]) -> Option<BaseType>
    ensures { result ≡ plain_type_named name.now }
{
    if name == b"bool".as_slice() {
        Some(BaseType::Flag)
    } else if name == b"io_reader".as_slice() {
        Some(BaseType::Reader)
    } else if name == b"io_writer".as_slice() {
        Some(BaseType::Writer)
    } else {
        None
    }
}

fn base_type(name: &[u8]) -> Option<BaseType>
    ensures { result ≡ base_type_named name.now }
{
    match width_named(name) {
        Some(width) => Some(BaseType::Number(width)),
        None => plain_type(name),
    }
}

/// What a type ends with, after its prefixes and before its bounds.
pub(crate) fn core(parsed: &PackageNodes, tables: &Tables, of: Core) -> NamedCore
    ensures { result ≡ resolved_core (bytes_of parsed.now.texts) (number_at tables.now.structs) of }
{
    match of {
        Core::Base { name, at } => NamedCore::Base {
            of: base_type(text_bytes(parsed, name.text)),
            at,
        },
        Core::BaseStatus { at } => NamedCore::Base {
            of: Some(BaseType::Status),
            at,
        },
        Core::Struct(name) => NamedCore::Struct {
            of: StructId(number_or(tables.structs.numbers.get(&name.text.0).copied())),
            at: name.at,
        },
    }
}

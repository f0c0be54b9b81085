// What the arguments of a call break, where everything in it has a meaning.

ghost use Rattle.std.specs.Prelude.{◌≡◌, ◌<◌, not, [], length, map, slice_get, nat_eq, bytes_eq, IfOk, OnOk};
ghost use Rattle.std.specs.List.{list_any};
ghost use Rattle.indexmap.specs.IndexSet.{insert_all};
ghost use Rattle.wf_text.specs.Precedence.{soonest};
ghost use Rattle.wf_base.specs.BaseTable.{row_of};
ghost use Rattle.wf_ast.specs.ParsedTrees.{expr_trees, expr_at, given_at};
ghost use Rattle.wf_ast.specs.ParsedParts.{GivenBelow};
ghost use Rattle.wf_names_rules.specs.Declarations.{bytes_in, bytes_of};
ghost use Rattle.wf_names_rules.specs.Passes.{rise_from};
ghost use Rattle.wf_names_rules.specs.Tables.{args_at, arg_sort_at};
ghost use Rattle.wf_names_rules.specs.Here.{known_here};
ghost use Rattle.wf_names_rules.specs.Meanings.{given_values, of_base, parameters_of, is_parameter as has_parameter, lacks_one as lacks, is_io as reads_or_writes};
ghost use Rattle.wf_names_rules.specs.Judged.{arg_path, arg_path_at, given_twice as are_given_twice, passed_twice_by_value as is_passed_twice, io_seen, passed_twice as are_passed_twice, unknown_argument as is_unknown_argument, unknown_arguments as are_unknown_arguments, missing_argument as lacks_argument, given_judged};

use crate::callees::Callee;
use crate::here::Here;
use crate::lists::{FEW, doubles, refused_if};
use crate::sorts::Sort;
use crate::tables::{Scope, Tables, arg_sort, text_bytes};
use indexmap::IndexSet;
use std::alloc::Global;
use wf_ast::parsed::{Expr, Given, Name, Path, Root};
use wf_ast::{ExprId, PackageNodes, TextId};
use wf_base::base_methods::{BaseSig, Kind};
use wf_text::faults::NoMemory;
use wf_text::found::Found;
use wf_text::rules::{Refusal, Rule};

fn given_names(alloc: Global, args: &[Given]) -> Result<Vec<Name>, NoMemory>
    ensures { IfOk result (λ names. names.items ≡ map (λ g. g.name) args.now) }
{
    let mut names = Vec::new(alloc);
    for given in args {
        names.push(given.name)?;
    }
    Ok(names)
}

// Whether the texts of the names that are given rise from one to the next, so that no two are alike.
fn given_rise(args: &[Given]) -> bool
    ensures { result ≡ rise_from 0 (map (λ g. g.name) args.now) }
{
    let mut low: u64 = 0;
    for given in args {
        let text = given.name.text.0 as u64;
        if text < low {
            return false;
        }
        low = text + 1;
    }
    true
}

// Arguments that are given twice: none where their names rise.
fn given_twice(alloc: Global, found: &mut Found, args: &[Given]) -> Result<(), NoMemory>
    ensures { OnOk result (found.new ≡ soonest found.old (are_given_twice (map (λ g. g.name) args.now))) }
{
    if given_rise(args) {
        return Ok(());
    }
    let names = given_names(alloc, args)?;
    doubles(alloc, found, names.as_slice())
}

fn is_io(sort: Option<Sort>) -> bool
    ensures { result ≡ reads_or_writes sort }
{
    match sort {
        Some(Sort::Methods(Kind::Reader)) => true,
        Some(Sort::Methods(Kind::Writer)) => true,
        _ => false,
    }
}

fn is_io_arg(tables: &Tables, scope: &Scope, text: TextId) -> bool
    ensures { result ≡ reads_or_writes (arg_sort_at tables.now scope.now.method text.0) }
{
    is_io(arg_sort(tables, scope, text))
}

// The argument of the calling method that a value is, where it is nothing else.
fn passed(parsed: &PackageNodes, value: ExprId) -> Option<Path>
    requires { value.0 < length parsed.now.exprs }
    ensures { result ≡ arg_path (expr_at (expr_trees parsed.now.exprs) value) }
{
    match &parsed.expr(value).expr {
        Expr::Path(path) => as_arg(*path),
        _ => None,
    }
}

fn as_arg(path: Path) -> Option<Path>
    ensures { result ≡ arg_path_at path.root path }
{
    match path.root {
        Root::Args => Some(path),
        Root::Bare => None,
        Root::This => None,
    }
}

// One value after those that passed the readers and writers in `seen`, which its own joins.
fn passed_twice_by_value(
    tables: &Tables,
    scope: &Scope,
    seen: &mut IndexSet<u32>,
    path: Option<Path>,
) -> Result<Option<Refusal>, NoMemory>
    ensures item { IfOk result (λ now. now ≡ is_passed_twice (arg_sort_at tables.now scope.now.method) seen.old.keys path) }
    ensures seen { OnOk result (seen.new.keys ≡ io_seen (arg_sort_at tables.now scope.now.method) seen.old.keys path) }
{
    match path {
        Some(path) => {
            if !is_io_arg(tables, scope, path.name.text) {
                return Ok(None);
            }
            let fresh = seen.insert(path.name.text.0)?;
            Ok(refused_if(!fresh, Rule::N2, path.at))
        }
        None => Ok(None),
    }
}

// Readers and writers that are passed twice.
fn passed_twice(
    alloc: Global,
    found: &mut Found,
    parsed: &PackageNodes,
    tables: &Tables,
    scope: &Scope,
    args: &[Given],
) -> Result<(), NoMemory>
    requires { GivenBelow (length parsed.now.exprs) args.now }
    ensures { OnOk result (found.new ≡ soonest found.old (are_passed_twice (arg_sort_at tables.now scope.now.method) [] (given_values (given_at (expr_trees parsed.now.exprs) args.now)))) }
{
    let mut seen = IndexSet::new(alloc);
    for given in args {
        let now = passed_twice_by_value(tables, scope, &mut seen, passed(parsed, given.value))?;
        found.refuse(now);
    }
    Ok(())
}

fn is_spelt(parsed: &PackageNodes, name: &[u8], text: TextId) -> bool
    ensures { result ≡ bytes_eq name.now (bytes_of parsed.now.texts text.0) }
{
    name == text_bytes(parsed, text)
}

// Whether a base method has an argument of this name.
fn base_has(parsed: &PackageNodes, sig: BaseSig, text: TextId) -> bool
    ensures { result ≡ has_parameter (bytes_of parsed.now.texts) (of_base (map (λ arg. arg.0) (row_of sig).args)) text.0 }
{
    let mut i = 0;
    while let Some((arg, _)) = sig.arg(i) {
        if is_spelt(parsed, arg.as_bytes(), text) {
            return true;
        }
        i += 1;
    }
    false
}

// Whether what is given lacks an argument of a base method.
fn base_lacks(parsed: &PackageNodes, sig: BaseSig, args: &[Given]) -> bool
    ensures { result ≡ lacks (bytes_of parsed.now.texts) (of_base (map (λ arg. arg.0) (row_of sig).args)) (map (λ n. n.text.0) (map (λ g. g.name) args.now)) }
{
    let mut i = 0;
    while let Some((arg, _)) = sig.arg(i) {
        if !gives_bytes(parsed, args, arg.as_bytes()) {
            return true;
        }
        i += 1;
    }
    false
}

// Whether a name of these bytes is given.
fn gives_bytes(parsed: &PackageNodes, args: &[Given], wanted: &[u8]) -> bool
    ensures { result ≡ list_any (λ text. bytes_eq wanted.now (bytes_in (slice_get parsed.now.texts text))) (map (λ n. n.text.0) (map (λ g. g.name) args.now)) }
{
    for given in args {
        if wanted == text_bytes(parsed, given.name.text) {
            return true;
        }
    }
    false
}

fn has_arg(tables: &Tables, m: usize, text: TextId) -> bool
    ensures { result ≡ list_any (nat_eq text.0) (args_at tables.now m) }
{
    match tables.variables.get(m) {
        Some(known) => known.args.entries.contains_key(&text.0),
        None => false,
    }
}

// Whether a method has an argument of this name.
fn is_parameter(parsed: &PackageNodes, tables: &Tables, callee: Callee, text: TextId) -> bool
    ensures { result ≡ has_parameter (bytes_of parsed.now.texts) (parameters_of (args_at tables.now) callee) text.0 }
{
    match callee {
        Callee::Own(m) => has_arg(tables, m, text),
        Callee::Hidden(m) => has_arg(tables, m, text),
        Callee::Base(sig) => base_has(parsed, sig, text),
        Callee::Foreign => false,
        Callee::Missing => false,
        Callee::Baseless => false,
    }
}

// An argument that the method doesn't have.
fn unknown_argument(
    parsed: &PackageNodes,
    tables: &Tables,
    callee: Callee,
    name: Name,
) -> Option<Refusal>
    ensures { result ≡ is_unknown_argument (bytes_of parsed.now.texts) (parameters_of (args_at tables.now) callee) name }
{
    refused_if(
        !is_parameter(parsed, tables, callee, name.text),
        Rule::N6,
        name.at,
    )
}

fn unknown_arguments(
    found: &mut Found,
    parsed: &PackageNodes,
    tables: &Tables,
    callee: Callee,
    args: &[Given],
)
    ensures { found.new ≡ soonest found.old (are_unknown_arguments (bytes_of parsed.now.texts) (parameters_of (args_at tables.now) callee) (map (λ g. g.name) args.now)) }
{
    for given in args {
        found.refuse(unknown_argument(parsed, tables, callee, given.name));
    }
}

// The texts of the names that are given, each once.
fn texts(alloc: Global, args: &[Given]) -> Result<IndexSet<u32>, NoMemory>
    ensures { IfOk result (λ set. set.keys ≡ insert_all nat_eq [] (map (λ n. n.text.0) (map (λ g. g.name) args.now))) }
{
    let mut set = IndexSet::new(alloc);
    for given in args {
        set.insert(given.name.text.0)?;
    }
    Ok(set)
}

// Whether one of these isn't in the set.
fn any_outside(wanted: &[u32], given: &IndexSet<u32>) -> bool
    ensures { result ≡ list_any (λ text. not (list_any (nat_eq text) given.now.keys)) wanted.now }
{
    for text in wanted {
        if !given.contains(text) {
            return true;
        }
    }
    false
}

fn wanted_args(tables: &Tables, m: usize) -> &[u32]
    ensures { result.now ≡ args_at tables.now m }
{
    match tables.variables.get(m) {
        Some(known) => known.args.entries.keys().as_slice(),
        None => &[],
    }
}

// Whether a name of this text is given.
fn gives(text: u32, args: &[Given]) -> bool
    ensures { result ≡ list_any (nat_eq text) (map (λ n. n.text.0) (map (λ g. g.name) args.now)) }
{
    for given in args {
        if text == given.name.text.0 {
            return true;
        }
    }
    false
}

// Whether one of these isn't given.
fn any_not_given(wanted: &[u32], args: &[Given]) -> bool
    ensures { result ≡ list_any (λ text. not (list_any (nat_eq text) (map (λ n. n.text.0) (map (λ g. g.name) args.now)))) wanted.now }
{
    for text in wanted {
        if !gives(*text, args) {
            return true;
        }
    }
    false
}

// Whether an argument of the method with this number isn't given. Where few are, they are compared with each that is
// wanted, rather than gathered in a set.
fn lacks_arg(alloc: Global, tables: &Tables, m: usize, args: &[Given]) -> Result<bool, NoMemory>
    ensures { IfOk result (λ lacking. lacking ≡ list_any (λ text. not (list_any (nat_eq text) (map (λ n. n.text.0) (map (λ g. g.name) args.now)))) (args_at tables.now m)) }
{
    let wanted = wanted_args(tables, m);
    if args.len() <= FEW {
        return Ok(any_not_given(wanted, args));
    }
    let given = texts(alloc, args)?;
    Ok(any_outside(wanted, &given))
}

// Whether an argument of the method isn't given.
fn lacks_one(
    alloc: Global,
    parsed: &PackageNodes,
    tables: &Tables,
    callee: Callee,
    args: &[Given],
) -> Result<bool, NoMemory>
    ensures { IfOk result (λ lacking. lacking ≡ lacks (bytes_of parsed.now.texts) (parameters_of (args_at tables.now) callee) (map (λ n. n.text.0) (map (λ g. g.name) args.now))) }
{
    match callee {
        Callee::Own(m) => lacks_arg(alloc, tables, m, args),
        Callee::Hidden(m) => lacks_arg(alloc, tables, m, args),
        Callee::Base(sig) => Ok(base_lacks(parsed, sig, args)),
        Callee::Foreign => Ok(false),
        Callee::Missing => Ok(false),
        Callee::Baseless => Ok(false),
    }
}

// That an argument of the method isn't given, at the method's name.
fn missing_argument(
    alloc: Global,
    here: &Here<'_>,
    callee: Callee,
    method: Name,
    args: &[Given],
) -> Result<Option<Refusal>, NoMemory>
    ensures { IfOk result (λ refusal. refusal ≡ lacks_argument (bytes_of here.now.parsed.now.texts) (parameters_of (args_at here.now.tables.now) callee) method (map (λ g. g.name) args.now)) }
{
    let lacking = lacks_one(alloc, here.parsed, here.tables, callee, args)?;
    Ok(refused_if(lacking, Rule::N7, method.at))
}

/// What the arguments of a call break joins what was found before.
pub(crate) fn judge_given(
    alloc: Global,
    found: &mut Found,
    here: &Here<'_>,
    callee: Callee,
    name: Name,
    args: &[Given],
) -> Result<(), NoMemory>
    requires { GivenBelow (length here.now.parsed.now.exprs) args.now }
    ensures { OnOk result (found.new ≡ given_judged (known_here here.now) found.old (parameters_of (args_at here.now.tables.now) callee) name (map (λ g. g.name) args.now) (given_values (given_at (expr_trees here.now.parsed.now.exprs) args.now))) }
{
    given_twice(alloc, found, args)?;
    passed_twice(alloc, found, here.parsed, here.tables, here.scope, args)?;
    unknown_arguments(found, here.parsed, here.tables, callee, args);
    let missing = missing_argument(alloc, here, callee, name, args)?;
    found.refuse(missing);
    Ok(())
}

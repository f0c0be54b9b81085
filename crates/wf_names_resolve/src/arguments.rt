// The arguments of a call in the order in which its method declares them. A method has at most 64 arguments, so each is
// looked for among those that are given.

ghost use Rattle.std.specs.Prelude.{◌≡◌, ◌++◌, map, bytes_eq, IfOk, OnOk};
ghost use Rattle.std.specs.List.{find};
ghost use Rattle.wf_base.specs.BaseTable.{row_of};
ghost use Rattle.wf_names_rules.specs.Declarations.{bytes_of, is_spelt};
ghost use Rattle.wf_names_rules.specs.Tables.{args_at};
ghost use Rattle.wf_names_resolve.specs.Ordered.{value_in, values_named, values_spelt, values_for};

use std::alloc::Global;
use wf_ast::parsed::Given;
use wf_ast::{ExprId, PackageNodes, Sequence};
use wf_base::base_methods::BaseSig;
use wf_names_rules::callees::Callee;
use wf_names_rules::tables::{Tables, text_bytes};
use wf_text::faults::NoMemory;

// What is given under the name with this text, the first of it.
fn given_named(given: &[Given], text: u32) -> Option<Given>
    ensures { result ≡ find (λ g. is_spelt text g.name) given.now }
{
    for one in given {
        if one.name.text.0 == text {
            return Some(*one);
        }
    }
    None
}

fn has_bytes(parsed: &PackageNodes, one: Given, name: &[u8]) -> bool
    ensures { result ≡ bytes_eq name.now (bytes_of parsed.now.texts one.name.text.0) }
{
    name == text_bytes(parsed, one.name.text)
}

// What is given under the name with these bytes.
fn given_spelt(parsed: &PackageNodes, given: &[Given], name: &[u8]) -> Option<Given>
    ensures { result ≡ find (λ g. bytes_eq name.now (bytes_of parsed.now.texts g.name.text.0)) given.now }
{
    for one in given {
        if has_bytes(parsed, *one, name) {
            return Some(*one);
        }
    }
    None
}

fn add_value(values: &mut Sequence<ExprId>, one: Option<Given>) -> Result<(), NoMemory>
    ensures { OnOk result (values.new ≡ values.old ++ value_in one) }
{
    match one {
        Some(one) => {
            values.push(one.value)?;
            Ok(())
        }
        None => Ok(()),
    }
}

fn named_args(alloc: Global, given: &[Given], wanted: &[u32]) -> Result<Sequence<ExprId>, NoMemory>
    ensures { IfOk result (λ values. values ≡ values_named given.now wanted.now) }
{
    let mut values = Sequence::new(alloc);
    for text in wanted {
        add_value(&mut values, given_named(given, *text))?;
    }
    Ok(values)
}

fn method_args(
    alloc: Global,
    tables: &Tables,
    m: usize,
    given: &[Given],
) -> Result<Sequence<ExprId>, NoMemory>
    ensures { IfOk result (λ values. values ≡ values_named given.now (args_at tables.now m)) }
{
    match tables.variables.get(m) {
        Some(known) => named_args(alloc, given, known.args.entries.keys().as_slice()),
        None => Ok(Sequence::new(alloc)),
    }
}

fn base_args(
    alloc: Global,
    parsed: &PackageNodes,
    sig: BaseSig,
    given: &[Given],
) -> Result<Sequence<ExprId>, NoMemory>
    ensures { IfOk result (λ values. values ≡ values_spelt (bytes_of parsed.now.texts) given.now (map (λ arg. arg.0) (row_of sig).args)) }
{
    let mut values = Sequence::new(alloc);
    let mut i = 0;
    while let Some((arg, _)) = sig.arg(i) {
        add_value(&mut values, given_spelt(parsed, given, arg.as_bytes()))?;
        i += 1;
    }
    Ok(values)
}

/// The values for the arguments of what is called, in order of declaration. An argument that isn't given has none.
pub(crate) fn values(
    alloc: Global,
    parsed: &PackageNodes,
    tables: &Tables,
    callee: Callee,
    given: &[Given],
) -> Result<Sequence<ExprId>, NoMemory>
    ensures { IfOk result (λ values. values ≡ values_for (bytes_of parsed.now.texts) (args_at tables.now) callee given.now) }
{
    match callee {
        Callee::Own(m) => method_args(alloc, tables, m, given),
        Callee::Base(sig) => base_args(alloc, parsed, sig, given),
        Callee::Hidden(_) => Ok(Sequence::new(alloc)),
        Callee::Foreign => Ok(Sequence::new(alloc)),
        Callee::Missing => Ok(Sequence::new(alloc)),
        Callee::Baseless => Ok(Sequence::new(alloc)),
    }
}

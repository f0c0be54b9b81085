// Declarations added to the resolved package: each after those of its kind.

ghost use Rattle.std.specs.Prelude.{◌≡◌, ◌<◌, [], ◌∷◌, length, OnOk};
ghost use Rattle.wf_ast.specs.ParsedTrees.{expr_trees, stmt_trees, expr_at as parsed_expr_at, type_at as parsed_type_at, fields_at as parsed_fields_at};
ghost use Rattle.wf_ast.specs.ParsedParts.{TypeBelow, FieldsBelow, ResultBelow, BlockBelow};
ghost use Rattle.wf_named.specs.NamedParts.{named_package};
ghost use Rattle.wf_names_rules.specs.Declarations.{bytes_of, variables};
ghost use Rattle.wf_names_resolve.specs.Standing.{standing_here};
ghost use Rattle.wf_names_resolve.specs.Resolved.{word_of};
ghost use Rattle.wf_names_resolve.specs.Package.{resolved_const, resolved_struct, resolved_method};
ghost use Rattle.wf_names_nodes.specs.Declaring.{method_parsed, with_consts, with_statuses, with_structs, with_methods};

use crate::declarations::{
    WrittenMethod, WrittenStruct, resolve_const, resolve_method, resolve_struct,
};
use std::alloc::Global;
use wf_ast::PackageNodes;
use wf_ast::parsed::Name;
use wf_named::NamedNodes;
use wf_names_resolve::words::named_word;
use wf_names_rules::here::Here;
use wf_names_scopes::written::WrittenConst;
use wf_text::faults::NoMemory;

/// Adds a constant; `scope` knows those before it.
pub(crate) fn put_const(
    alloc: Global,
    nodes: &mut NamedNodes,
    here: &Here<'_>,
    constant: WrittenConst<'_>,
) -> Result<(), NoMemory>
    requires of { TypeBelow (length here.now.parsed.now.exprs) constant.of.now }
    requires value { constant.value.0 < length here.now.parsed.now.exprs }
    ensures { OnOk result (named_package nodes.new ≡ with_consts (named_package nodes.old) (resolved_const (standing_here here.now) constant.entry.name (parsed_type_at (expr_trees here.now.parsed.now.exprs) constant.entry.of.now) (parsed_expr_at (expr_trees here.now.parsed.now.exprs) constant.entry.value) ∷ [])) }
{
    let made = resolve_const(alloc, nodes, here, constant)?;
    nodes.push_const(made)?;
    Ok(())
}

/// Adds a status of the package.
pub(crate) fn put_status(
    nodes: &mut NamedNodes,
    parsed: &PackageNodes,
    text: Name,
) -> Result<(), NoMemory>
    ensures { OnOk result (named_package nodes.new ≡ with_statuses (named_package nodes.old) (word_of (bytes_of parsed.now.texts) text ∷ [])) }
{
    let text = named_word(nodes, parsed, text)?;
    nodes.push_status(text)?;
    Ok(())
}

/// Adds a struct.
pub(crate) fn put_struct(
    alloc: Global,
    nodes: &mut NamedNodes,
    here: &Here<'_>,
    structure: WrittenStruct<'_>,
) -> Result<(), NoMemory>
    requires { FieldsBelow (length here.now.parsed.now.exprs) structure.fields.now }
    ensures { OnOk result (named_package nodes.new ≡ with_structs (named_package nodes.old) (resolved_struct (standing_here here.now) structure.entry.public structure.entry.name (variables (parsed_fields_at (expr_trees here.now.parsed.now.exprs) structure.entry.fields.now)) ∷ [])) }
{
    let made = resolve_struct(alloc, nodes, here, structure)?;
    nodes.push_struct(made)?;
    Ok(())
}

/// Adds a method; `scope` knows its arguments and its locals.
pub(crate) fn put_method(
    alloc: Global,
    nodes: &mut NamedNodes,
    here: &Here<'_>,
    method: WrittenMethod<'_>,
) -> Result<(), NoMemory>
    requires args { FieldsBelow (length here.now.parsed.now.exprs) method.args.now }
    requires gives { ResultBelow (length here.now.parsed.now.exprs) method.gives.now }
    requires body { BlockBelow (length here.now.parsed.now.stmts) method.body.now }
    ensures { OnOk result (named_package nodes.new ≡ with_methods (named_package nodes.old) (resolved_method (standing_here here.now) method.entry.mark
        (method_parsed (expr_trees here.now.parsed.now.exprs) (stmt_trees here.now.parsed.now.exprs here.now.parsed.now.stmts) method.entry.public method.entry.owner method.entry.name method.entry.args.now method.entry.gives.now method.entry.body.now) ∷ [])) }
{
    let made = resolve_method(alloc, nodes, here, method)?;
    nodes.push_method(made)?;
    Ok(())
}

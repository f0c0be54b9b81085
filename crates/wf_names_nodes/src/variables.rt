// Names with their types: constants, fields, arguments and locals, and what a method gives.

ghost use Rattle.std.specs.Prelude.{◌≡◌, ◌<◌, ◌++◌, length, map, option_map, IfOk, OnOk};
ghost use Rattle.std.specs.List.{AllByRecursion};
ghost use Rattle.wf_ast.specs.ParsedTrees.{expr_trees, stmt_trees, stmt_at as parsed_stmt_at, block_at as parsed_block_at, type_at as parsed_type_at, fields_at as parsed_fields_at, result_at as parsed_result_at};
ghost use Rattle.wf_ast.specs.ParsedParts.{TypeBelow, FieldsBelow, ResultBelow, BlockBelow};
ghost use Rattle.wf_named.specs.NamedParts.{exprs_of, NamedVarBelow, NamedResultBelow};
ghost use Rattle.wf_named.specs.NamedTrees.{type_at, var_made};
ghost use Rattle.wf_names_rules.specs.Declarations.{variables, local_of, locals_of};
ghost use Rattle.wf_names_resolve.specs.Standing.{standing_here};
ghost use Rattle.wf_names_resolve.specs.Package.{resolved_variable, resolved_result};
ghost use Rattle.wf_names_resolve.specs.Growth.{Grows};
ghost use Rattle.wf_names_resolve.specs.Statements.{listed};

use std::alloc::Global;
use wf_ast::parsed::{Block, Field, Name, Stmt, TypeExpr};
use wf_ast::{Sequence, StmtId};
use wf_named::nodes::NamedType;
use wf_named::{NamedNodes, NamedVar};
use wf_names_resolve::resolve_exprs::resolve_type;
use wf_names_resolve::words::named_word;
use wf_names_rules::here::Here;
use wf_text::faults::NoMemory;

/// Adds the nodes of a variable's type, and answers the variable.
pub(crate) fn resolve_variable(
    alloc: Global,
    nodes: &mut NamedNodes,
    here: &Here<'_>,
    name: Name,
    of: &TypeExpr,
) -> Result<NamedVar, NoMemory>
    requires { TypeBelow (length here.now.parsed.now.exprs) of.now }
    ensures grows { OnOk result (Grows nodes.old nodes.new) }
    ensures below { IfOk result (NamedVarBelow (length nodes.new.texts) (length nodes.new.exprs)) }
    ensures made { IfOk result (λ r. var_made nodes.new.texts (exprs_of nodes.new) r ≡ resolved_variable (standing_here here.now) (record { name = name; of = parsed_type_at (expr_trees here.now.parsed.now.exprs) of.now })) }
{
    let name = named_word(nodes, here.parsed, name)?;
    let of = resolve_type(alloc, nodes, here, of)?;
    Ok(NamedVar { name, of })
}

/// Adds the nodes of the types of fields or arguments, and answers these in their order.
pub(crate) fn resolve_fields(
    alloc: Global,
    nodes: &mut NamedNodes,
    here: &Here<'_>,
    fields: &[Field],
) -> Result<Sequence<NamedVar>, NoMemory>
    requires { FieldsBelow (length here.now.parsed.now.exprs) fields.now }
    ensures grows { OnOk result (Grows nodes.old nodes.new) }
    ensures below { IfOk result (λ r. AllByRecursion (NamedVarBelow (length nodes.new.texts) (length nodes.new.exprs)) r) }
    ensures made { IfOk result (λ r. map (var_made nodes.new.texts (exprs_of nodes.new)) r ≡ map (resolved_variable (standing_here here.now)) (variables (parsed_fields_at (expr_trees here.now.parsed.now.exprs) fields.now))) }
{
    let mut made = Sequence::new(alloc);
    for field in fields {
        let one = resolve_variable(alloc, nodes, here, field.name, &field.of)?;
        made.push(one)?;
    }
    Ok(made)
}

// The local that a statement declares, if it does.
fn resolve_local(
    alloc: Global,
    nodes: &mut NamedNodes,
    here: &Here<'_>,
    s: StmtId,
) -> Result<Option<NamedVar>, NoMemory>
    requires { s.0 < length here.now.parsed.now.stmts }
    ensures grows { OnOk result (Grows nodes.old nodes.new) }
    ensures below { IfOk result (λ r. AllByRecursion (NamedVarBelow (length nodes.new.texts) (length nodes.new.exprs)) (listed r)) }
    ensures made { IfOk result (λ r. map (var_made nodes.new.texts (exprs_of nodes.new)) (listed r) ≡ map (resolved_variable (standing_here here.now)) (local_of (parsed_stmt_at (stmt_trees here.now.parsed.now.exprs here.now.parsed.now.stmts) s))) }
{
    match &here.parsed.stmt(s).stmt {
        Stmt::Var { name, of } => {
            let one = resolve_variable(alloc, nodes, here, *name, of)?;
            Ok(Some(one))
        }
        _ => Ok(None),
    }
}

fn add_variable(made: &mut Sequence<NamedVar>, one: Option<NamedVar>) -> Result<(), NoMemory>
    ensures { OnOk result (made.new ≡ made.old ++ listed one) }
{
    match one {
        Some(one) => {
            made.push(one)?;
            Ok(())
        }
        None => Ok(()),
    }
}

/// Adds the nodes of the types of a method's locals, and answers these in their order: what the statements of its body
/// declare, and not those of the blocks in it.
pub(crate) fn resolve_locals(
    alloc: Global,
    nodes: &mut NamedNodes,
    here: &Here<'_>,
    body: &Block,
) -> Result<Sequence<NamedVar>, NoMemory>
    requires { BlockBelow (length here.now.parsed.now.stmts) body.now }
    ensures grows { OnOk result (Grows nodes.old nodes.new) }
    ensures below { IfOk result (λ r. AllByRecursion (NamedVarBelow (length nodes.new.texts) (length nodes.new.exprs)) r) }
    ensures made { IfOk result (λ r. map (var_made nodes.new.texts (exprs_of nodes.new)) r ≡ map (resolved_variable (standing_here here.now)) (locals_of (parsed_block_at (stmt_trees here.now.parsed.now.exprs here.now.parsed.now.stmts) body.now))) }
{
    let mut made = Sequence::new(alloc);
    for s in body.items.as_slice() {
        let one = resolve_local(alloc, nodes, here, *s)?;
        add_variable(&mut made, one)?;
    }
    Ok(made)
}

/// Adds the nodes of what a method gives, if it gives something, and answers the type.
pub(crate) fn resolve_result(
    alloc: Global,
    nodes: &mut NamedNodes,
    here: &Here<'_>,
    gives: &Option<TypeExpr>,
) -> Result<Option<NamedType>, NoMemory>
    requires { ResultBelow (length here.now.parsed.now.exprs) gives.now }
    ensures grows { OnOk result (Grows nodes.old nodes.new) }
    ensures below { IfOk result (NamedResultBelow (length nodes.new.exprs)) }
    ensures made { IfOk result (λ r. option_map (type_at (exprs_of nodes.new)) r ≡ resolved_result (standing_here here.now) (parsed_result_at (expr_trees here.now.parsed.now.exprs) gives.now)) }
{
    match gives {
        Some(of) => {
            let of = resolve_type(alloc, nodes, here, of)?;
            Ok(Some(of))
        }
        None => Ok(None),
    }
}

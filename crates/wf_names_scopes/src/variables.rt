// The tables of constants, arguments and locals: what may be called on each and its place, by its name. Of two with one
// name the first declared is meant.

ghost use Rattle.std.specs.Prelude.{◌≡◌, ◌<◌, ◌++◌, [], ◌∷◌, ℕ, List, length, IfOk, OnOk};
ghost use Rattle.wf_ast.specs.ParsedTrees.{expr_trees, stmt_trees, type_at, fields_at, stmt_at, block_at};
ghost use Rattle.wf_ast.specs.ParsedParts.{BlockBelow};
ghost use Rattle.wf_names_rules.specs.Declarations.{Method, Variable, variables, local_of, locals_of};
ghost use Rattle.wf_names_scopes.specs.Agreeing.{TellsVariables, TellsMethod};

use crate::numbers::add_entry;
use indexmap::IndexMap;
use std::alloc::Global;
use wf_ast::parsed::{Block, Field, Name, Stmt, TypeExpr};
use wf_ast::{PackageNodes, StmtId};
use wf_names_rules::tables::{MethodVariables, Variables};
use wf_names_rules::types::sort;
use wf_text::faults::NoMemory;

/// No variables.
pub(crate) fn no_variables(alloc: Global) -> Variables
    ensures { (texts : List (List ℕ)) → TellsVariables texts [] result }
{
    Variables {
        entries: IndexMap::new(alloc),
        next: 0,
    }
}

/// Adds a variable after those that the table tells.
pub(crate) fn add_variable(
    table: &mut Variables,
    parsed: &PackageNodes,
    name: Name,
    of: &TypeExpr,
) -> Result<(), NoMemory>
    ensures { OnOk result ((front : List Variable) → TellsVariables parsed.now.texts front table.old
        → TellsVariables parsed.now.texts (front ++ record { name = name; of = type_at (expr_trees parsed.now.exprs) of.now } ∷ []) table.new) }
{
    add_entry(table, name.text, sort(parsed, of))
}

// The table of a method's arguments.
fn arguments(alloc: Global, parsed: &PackageNodes, args: &[Field]) -> Result<Variables, NoMemory>
    ensures { IfOk result (λ table. TellsVariables parsed.now.texts (variables (fields_at (expr_trees parsed.now.exprs) args.now)) table) }
{
    let mut table = no_variables(alloc);
    for arg in args {
        add_variable(&mut table, parsed, arg.name, &arg.of)?;
    }
    Ok(table)
}

// Adds the local that a statement declares, if it does.
fn add_local(table: &mut Variables, parsed: &PackageNodes, s: StmtId) -> Result<(), NoMemory>
    requires { s.0 < length parsed.now.stmts }
    ensures { OnOk result ((front : List Variable) → TellsVariables parsed.now.texts front table.old
        → TellsVariables parsed.now.texts (front ++ local_of (stmt_at (stmt_trees parsed.now.exprs parsed.now.stmts) s)) table.new) }
{
    match &parsed.stmt(s).stmt {
        Stmt::Var { name, of } => add_variable(table, parsed, *name, of),
        _ => Ok(()),
    }
}

// The table of a method's locals: what the statements of its body, and not of the blocks in it, declare.
fn locals(alloc: Global, parsed: &PackageNodes, body: &Block) -> Result<Variables, NoMemory>
    requires { BlockBelow (length parsed.now.stmts) body.now }
    ensures { IfOk result (λ table. TellsVariables parsed.now.texts (locals_of (block_at (stmt_trees parsed.now.exprs parsed.now.stmts) body.now)) table) }
{
    let mut table = no_variables(alloc);
    for s in body.items.as_slice() {
        add_local(&mut table, parsed, *s)?;
    }
    Ok(table)
}

/// The tables of a method's arguments and locals.
pub(crate) fn method_variables(
    alloc: Global,
    parsed: &PackageNodes,
    args: &[Field],
    body: &Block,
) -> Result<MethodVariables, NoMemory>
    requires { BlockBelow (length parsed.now.stmts) body.now }
    ensures { IfOk result (λ known. (m : Method) → m.args ≡ variables (fields_at (expr_trees parsed.now.exprs) args.now)
        → m.locals ≡ locals_of (block_at (stmt_trees parsed.now.exprs parsed.now.stmts) body.now) → TellsMethod parsed.now.texts m known) }
{
    let args = arguments(alloc, parsed, args)?;
    let locals = locals(alloc, parsed, body)?;
    Ok(MethodVariables { args, locals })
}

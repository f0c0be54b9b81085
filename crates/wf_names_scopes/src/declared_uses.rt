// The walk over one declaration, where its scope is known: what it uses, which methods it calls, and its loops and jumps.

ghost use Rattle.std.specs.Prelude.{◌≡◌, ◌<◌, ◌++◌, ◌∷◌, length, OnOk};
ghost use Rattle.wf_ast.specs.ParsedTrees.{expr_trees, stmt_trees, expr_at, type_at, fields_at, result_at, block_at};
ghost use Rattle.wf_ast.specs.ParsedParts.{TypeBelow, FieldsBelow, ResultBelow, BlockBelow};
ghost use Rattle.wf_names_rules.specs.Declarations.{variables};
ghost use Rattle.wf_names_rules.specs.Uses.{structure, uses_of, type_uses, result_uses, variable_uses, block_uses};
ghost use Rattle.wf_names_rules.specs.Here.{known_here};
ghost use Rattle.wf_names_rules.specs.Jumps.{block_jumps, jumped};
ghost use Rattle.wf_names_rules.specs.Judged.{walked};
ghost use Rattle.wf_names_rules.specs.Called.{with_calls};

use crate::written::MethodParts;
use graphs::rows::Row;
use std::alloc::Global;
use wf_ast::ExprId;
use wf_ast::parsed::{Block, Field, TypeExpr};
use wf_names_rules::here::Here;
use wf_names_rules::seen::{Gathered, Seen};
use wf_names_rules::walk_exprs::{walk_expr, walk_struct, walk_type};
use wf_names_rules::walk_stmts::walk_block;
use wf_text::faults::NoMemory;

/// A walk past the types of fields or arguments.
pub(crate) fn walk_fields(
    alloc: Global,
    seen: &mut Seen,
    row: &mut Row,
    here: &Here<'_>,
    fields: &[Field],
) -> Result<(), NoMemory>
    requires { FieldsBelow (length here.now.parsed.now.exprs) fields.now }
    ensures seen { OnOk result (seen.new ≡ walked (known_here here.now) seen.old (variable_uses (variables (fields_at (expr_trees here.now.parsed.now.exprs) fields.now)))) }
    ensures row { OnOk result (row.new ≡ with_calls (known_here here.now) row.old (variable_uses (variables (fields_at (expr_trees here.now.parsed.now.exprs) fields.now)))) }
{
    for field in fields {
        walk_type(alloc, seen, row, here, &field.of)?;
    }
    Ok(())
}

fn walk_result(
    alloc: Global,
    seen: &mut Seen,
    row: &mut Row,
    here: &Here<'_>,
    gives: &Option<TypeExpr>,
) -> Result<(), NoMemory>
    requires { ResultBelow (length here.now.parsed.now.exprs) gives.now }
    ensures seen { OnOk result (seen.new ≡ walked (known_here here.now) seen.old (result_uses (result_at (expr_trees here.now.parsed.now.exprs) gives.now))) }
    ensures row { OnOk result (row.new ≡ with_calls (known_here here.now) row.old (result_uses (result_at (expr_trees here.now.parsed.now.exprs) gives.now))) }
{
    match gives {
        Some(of) => walk_type(alloc, seen, row, here, of),
        None => Ok(()),
    }
}

/// A walk past the type of a constant and its value.
pub(crate) fn walk_constant(
    alloc: Global,
    seen: &mut Seen,
    row: &mut Row,
    here: &Here<'_>,
    of: &TypeExpr,
    value: ExprId,
) -> Result<(), NoMemory>
    requires of { TypeBelow (length here.now.parsed.now.exprs) of.now }
    requires value { value.0 < length here.now.parsed.now.exprs }
    ensures seen { OnOk result (seen.new ≡ walked (known_here here.now) seen.old (type_uses (type_at (expr_trees here.now.parsed.now.exprs) of.now) ++ uses_of (expr_at (expr_trees here.now.parsed.now.exprs) value))) }
    ensures row { OnOk result (row.new ≡ with_calls (known_here here.now) row.old (type_uses (type_at (expr_trees here.now.parsed.now.exprs) of.now) ++ uses_of (expr_at (expr_trees here.now.parsed.now.exprs) value))) }
{
    walk_type(alloc, seen, row, here, of)?;
    walk_expr(alloc, seen, row, here, value)
}

// A walk past what a method gives and its body.
fn walk_inside(
    alloc: Global,
    seen: &mut Seen,
    gathered: &mut Gathered,
    here: &Here<'_>,
    gives: &Option<TypeExpr>,
    body: &Block,
) -> Result<(), NoMemory>
    requires gives { ResultBelow (length here.now.parsed.now.exprs) gives.now }
    requires body { BlockBelow (length here.now.parsed.now.stmts) body.now }
    ensures seen { OnOk result (seen.new ≡ walked (known_here here.now) seen.old (result_uses (result_at (expr_trees here.now.parsed.now.exprs) gives.now) ++ block_uses (block_at (stmt_trees here.now.parsed.now.exprs here.now.parsed.now.stmts) body.now))) }
    ensures row { OnOk result (gathered.new.row ≡ with_calls (known_here here.now) gathered.old.row (result_uses (result_at (expr_trees here.now.parsed.now.exprs) gives.now) ++ block_uses (block_at (stmt_trees here.now.parsed.now.exprs here.now.parsed.now.stmts) body.now))) }
    ensures labels { OnOk result (gathered.new.labels ≡ jumped here.now.parsed.now.texts gathered.old.labels (block_jumps gathered.old.loops.items (block_at (stmt_trees here.now.parsed.now.exprs here.now.parsed.now.stmts) body.now))) }
{
    walk_result(alloc, seen, &mut gathered.row, here, gives)?;
    walk_block(alloc, seen, gathered, here, body)
}

/// A walk past a method: its owner, its arguments, what it gives, and its body.
pub(crate) fn walk_method(
    alloc: Global,
    seen: &mut Seen,
    gathered: &mut Gathered,
    here: &Here<'_>,
    method: MethodParts<'_>,
) -> Result<(), NoMemory>
    requires args { FieldsBelow (length here.now.parsed.now.exprs) method.args.now }
    requires gives { ResultBelow (length here.now.parsed.now.exprs) method.gives.now }
    requires body { BlockBelow (length here.now.parsed.now.stmts) method.body.now }
    ensures seen { OnOk result (seen.new ≡ walked (known_here here.now) seen.old (structure method.entry.owner
        ∷ (variable_uses (variables (fields_at (expr_trees here.now.parsed.now.exprs) method.entry.args.now)) ++ (result_uses (result_at (expr_trees here.now.parsed.now.exprs) method.entry.gives.now) ++ block_uses (block_at (stmt_trees here.now.parsed.now.exprs here.now.parsed.now.stmts) method.entry.body.now))))) }
    ensures row { OnOk result (gathered.new.row ≡ with_calls (known_here here.now) gathered.old.row (structure method.entry.owner
        ∷ (variable_uses (variables (fields_at (expr_trees here.now.parsed.now.exprs) method.entry.args.now)) ++ (result_uses (result_at (expr_trees here.now.parsed.now.exprs) method.entry.gives.now) ++ block_uses (block_at (stmt_trees here.now.parsed.now.exprs here.now.parsed.now.stmts) method.entry.body.now))))) }
    ensures labels { OnOk result (gathered.new.labels ≡ jumped here.now.parsed.now.texts gathered.old.labels (block_jumps gathered.old.loops.items (block_at (stmt_trees here.now.parsed.now.exprs here.now.parsed.now.stmts) method.entry.body.now))) }
{
    walk_struct(seen, here.tables, method.owner);
    walk_fields(alloc, seen, &mut gathered.row, here, method.args)?;
    walk_inside(alloc, seen, gathered, here, method.gives, method.body)
}

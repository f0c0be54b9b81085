// The values of a package's constants, in order.

ghost use Rattle.std.specs.Prelude.{◌≡◌, ◌<◌, [], ◌∷◌, List, ℕ, Some, nat_eq, length, slice_get, None, IfOk, OnOk};
ghost use Rattle.indexmap.specs.IndexMap.{get};
ghost use Rattle.wf_base.specs.BaseTable.{bits_of};
ghost use Rattle.wf_ast.specs.declared.parsed.Name.{Name};
ghost use Rattle.wf_ast.specs.declared.parsed.DeclNode.{DeclNode};
ghost use Rattle.wf_ast.specs.ParsedTrees.{expr_trees, expr_at, part_at, type_at, bounds_at, stmt_trees, decl_made};
ghost use Rattle.wf_ast.specs.ParsedParts.{IsBelow, BoundsBelow, TypeBelow};
ghost use Rattle.wf_names_rules.specs.Declarations.{constants_of, declared_in};
ghost use Rattle.wf_names_rules.specs.ConstantValues.{Valued, bounded as bounds, constant_value as value_of_constant, known_from, known_constants};
ghost use Rattle.wf_names_sizes.specs.Capped.{sized};
ghost use Rattle.wf_names_sizes.specs.ValuesBy.{Knows, with_first, value_in, low_by, refined_by};

use crate::environment::Environment;
use crate::numbers::{ConstantValue, count, fitted};
use crate::values::{numeric_width, value};
use indexmap::IndexMap;
use std::alloc::Global;
use wf_ast::parsed::{Bounds, Decl, TypeExpr};
use wf_ast::{ExprId, PackageNodes};
use wf_base::widths::Width;
use wf_text::faults::NoMemory;

// A number that lies between its bounds, which lie in their type.
fn bounded(
    width: Width,
    low: Option<ConstantValue>,
    high: Option<ConstantValue>,
    number: Option<ConstantValue>,
) -> Option<ConstantValue>
    ensures { sized result ≡ bounds (bits_of width) (sized low) (sized high) (sized number) }
{
    match (low, high, number) {
        (Some(low), Some(high), Some(number)) => {
            if low.number <= number.number
                && (number.number <= high.number && (high.number as u128) < count(Some(width)))
            {
                Some(ConstantValue {
                    width: Some(width),
                    number: number.number,
                })
            } else {
                None
            }
        }
        (Some(_), Some(_), None) => None,
        (Some(_), None, _) => None,
        (None, _, _) => None,
    }
}

fn low_value(env: &Environment<'_>, low: Option<ExprId>) -> Option<ConstantValue>
    requires { IsBelow (length env.now.parsed.now.exprs) low }
    ensures { sized result ≡ low_by (value_in env.now) (part_at (expr_trees env.now.parsed.now.exprs) low) }
{
    match low {
        Some(low) => value(env, low),
        None => Some(ConstantValue {
            width: None,
            number: 0,
        }),
    }
}

// The number of a constant as its type has it.
fn refined(
    env: &Environment<'_>,
    width: Width,
    bounds: Option<Bounds>,
    number: Option<ConstantValue>,
) -> Option<ConstantValue>
    requires { BoundsBelow (length env.now.parsed.now.exprs) bounds }
    ensures { sized result ≡ refined_by (value_in env.now) (bits_of width) (bounds_at (expr_trees env.now.parsed.now.exprs) bounds) (sized number) }
{
    match bounds {
        Some(bounds) => bounded(
            width,
            low_value(env, bounds.low),
            value(env, bounds.high),
            number,
        ),
        None => fitted(Some(width), number?.number),
    }
}

// The value of a constant by those before it. Nothing is hidden.
fn constant_value(env: &Environment<'_>, of: &TypeExpr, number: ExprId) -> Option<ConstantValue>
    requires of { TypeBelow (length env.now.parsed.now.exprs) of.now }
    requires number { number.0 < length env.now.parsed.now.exprs }
    requires outside { env.now.locals ≡ None }
    ensures { (known : List Valued) (name : Name) → Knows env.now.constants.now known → sized result ≡ value_of_constant (declared_in env.now.parsed.now) known (record { name = name; of = type_at (expr_trees env.now.parsed.now.exprs) of.now; value = expr_at (expr_trees env.now.parsed.now.exprs) number }) }
{
    let width = numeric_width(env.parsed, of)?;
    refined(env, width, of.bounds, value(env, number))
}

// The value of a constant by those that are noted.
fn noted_value<'a>(
    parsed: &'a PackageNodes,
    constants: &'a IndexMap<u32, Option<ConstantValue>>,
    of: &TypeExpr,
    number: ExprId,
) -> Option<ConstantValue>
    requires of { TypeBelow (length parsed.now.exprs) of.now }
    requires number { number.0 < length parsed.now.exprs }
    ensures { (known : List Valued) (name : Name) → Knows constants.now known → sized result ≡ value_of_constant (declared_in parsed.now) known (record { name = name; of = type_at (expr_trees parsed.now.exprs) of.now; value = expr_at (expr_trees parsed.now.exprs) number }) }
{
    let env = Environment {
        parsed,
        constants,
        locals: None,
    };
    constant_value(&env, of, number)
}

// Notes the value of a name, where none is noted yet.
fn note(
    constants: &mut IndexMap<u32, Option<ConstantValue>>,
    text: u32,
    value: Option<ConstantValue>,
) -> Result<(), NoMemory>
    ensures { OnOk result ((other : ℕ) → get nat_eq constants.new other ≡ with_first (get nat_eq constants.old) text value other) }
{
    if constants.contains_key(&text) {
        return Ok(());
    }
    constants.insert(text, value)?;
    Ok(())
}

// Notes the constant that a declaration declares, if it declares one.
fn note_decl(
    constants: &mut IndexMap<u32, Option<ConstantValue>>,
    parsed: &PackageNodes,
    number: usize,
) -> Result<(), NoMemory>
    requires { number < length parsed.now.decls }
    ensures { OnOk result ((known : List Valued) (node : DeclNode) → slice_get parsed.now.decls number ≡ Some node → Knows constants.old known → Knows constants.new (known_from (declared_in parsed.now) known (constants_of (decl_made (expr_trees parsed.now.exprs) (stmt_trees parsed.now.exprs parsed.now.stmts) node.public node.decl node.at ∷ [])))) }
{
    let node = parsed.decl(number);
    match &node.decl {
        Decl::Const { name, of, value } => {
            let value = noted_value(parsed, constants, of, *value);
            note(constants, name.text.0, value)
        }
        Decl::Status(_) => Ok(()),
        Decl::Struct { .. } => Ok(()),
        Decl::Method { .. } => Ok(()),
    }
}

/// The values of a package's constants by their names; of constants of one name that of the first.
pub(crate) fn constants(
    alloc: Global,
    parsed: &PackageNodes,
) -> Result<IndexMap<u32, Option<ConstantValue>>, NoMemory>
    ensures { IfOk result (λ table. Knows table (known_constants (declared_in parsed.now))) }
{
    let mut constants = IndexMap::new(alloc);
    for number in 0..parsed.decls().len() {
        note_decl(&mut constants, parsed, number)?;
    }
    Ok(constants)
}

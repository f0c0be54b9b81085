// The walk over a package by which it is known what its uses of names break: constants in order, each with those before it,
// structs, and methods, with what the loops and jumps of each break and the row of the methods that it calls.

ghost use Rattle.std.specs.Prelude.{◌≡◌, ◌<◌, ◌++◌, ◌∷◌, [], List, fold, map, length, IfOk, OnOk};
ghost use Rattle.std.specs.List.{flat_map};
ghost use Rattle.wf_ast.specs.ParsedTrees.{expr_trees, stmt_trees, expr_at, type_at, fields_at, result_at, block_at, decl_made};
ghost use Rattle.wf_ast.specs.ParsedParts.{TypeBelow, FieldsBelow, ResultBelow, BlockBelow, DeclParts};
ghost use Rattle.wf_names_rules.specs.Called.{with_calls};
ghost use Rattle.wf_names_rules.specs.Jumps.{block_jumps, jumped, method_labels, labels_found};
ghost use Rattle.wf_names_rules.specs.Declarations.{Declared, Variable, Method, variables, locals_of, as_variable, constants_of, structs_of, methods_of, declared_in};
ghost use Rattle.wf_names_rules.specs.Uses.{structure, uses_of, type_uses, result_uses, variable_uses, block_uses, sites_in, constant_scope, constant_sites, struct_sites, method_sites};
ghost use Rattle.wf_names_rules.specs.Meanings.{known_at};
ghost use Rattle.wf_names_scopes.specs.Agreeing.{TellsPackage, TellsScope, TellsConstants};
ghost use Rattle.wf_names_scopes.specs.CallRows.{AreRows, AreRowsInFront};
ghost use Rattle.wf_names_scopes.specs.Growing.{scope_in, AreNext};
ghost use Rattle.wf_names_scopes.specs.UsesFound.{sites_judged, names_found};

use crate::declared_uses::{walk_constant, walk_fields, walk_method};
use crate::scopes::{enter_method, enter_struct, outside, pass_constant};
use crate::written::{MethodParts, WrittenConst};
use graphs::rows::Row;
use std::alloc::Global;
use wf_ast::parsed::{Decl, DeclNode, Field, Name, TypeExpr};
use wf_ast::{ExprId, PackageNodes};
use wf_names_rules::here::Here;
use wf_names_rules::seen::{Gathered, Seen};
use wf_names_rules::tables::{Scope, Tables};
use wf_text::faults::NoMemory;
use wf_text::found::Found;

// A package and what is known of all of it.
#[derive(Clone, Copy)]
struct Whole<'a> {
    parsed: &'a PackageNodes,
    tables: &'a Tables,
}

// What the methods before the next one come to: the first refusal of what was found before and of their loops and jumps, and
// the rows of their calls.
#[derive(Drop)]
struct Bodies {
    labels: Found,
    rows: Vec<Row>,
}

// What a constant's declaration uses, where those before it are known. What it calls is in no method's row.
fn constant_uses(
    alloc: Global,
    seen: &mut Seen,
    here: &Here<'_>,
    of: &TypeExpr,
    value: ExprId,
) -> Result<(), NoMemory>
    requires of { TypeBelow (length here.now.parsed.now.exprs) of.now }
    requires value { value.0 < length here.now.parsed.now.exprs }
    requires tables { TellsPackage (declared_in here.now.parsed.now) here.now.tables.now }
    ensures { OnOk result ((known : List Variable) → TellsScope (declared_in here.now.parsed.now) (constant_scope known) here.now.scope.now
        → seen.new.found ≡ sites_judged (declared_in here.now.parsed.now) seen.old.found (sites_in (constant_scope known) (type_uses (type_at (expr_trees here.now.parsed.now.exprs) of.now) ++ uses_of (expr_at (expr_trees here.now.parsed.now.exprs) value)))) }
{
    let mut row = Row::new(alloc);
    walk_constant(alloc, seen, &mut row, here, of, value)?;
    Ok(())
}

// A constant's declaration: what it uses, and the constant after those that are known.
fn constant_next(
    alloc: Global,
    seen: &mut Seen,
    whole: &Whole<'_>,
    scope: &mut Scope,
    constant: WrittenConst<'_>,
) -> Result<(), NoMemory>
    requires of { TypeBelow (length whole.now.parsed.now.exprs) constant.of.now }
    requires value { constant.value.0 < length whole.now.parsed.now.exprs }
    requires tables { TellsPackage (declared_in whole.now.parsed.now) whole.now.tables.now }
    ensures found { OnOk result ((known : List Variable) → TellsScope (declared_in whole.now.parsed.now) (constant_scope known) scope.old
        → seen.new.found ≡ sites_judged (declared_in whole.now.parsed.now) seen.old.found (sites_in (constant_scope known) (type_uses (type_at (expr_trees whole.now.parsed.now.exprs) constant.entry.of.now) ++ uses_of (expr_at (expr_trees whole.now.parsed.now.exprs) constant.entry.value)))) }
    ensures constants { OnOk result ((d : Declared) (known left : List Variable) → (known ++ record { name = constant.entry.name; of = type_at (expr_trees whole.now.parsed.now.exprs) constant.entry.of.now } ∷ []) ++ left ≡ map as_variable d.constants
        → TellsScope d (constant_scope known) scope.old → TellsScope d (constant_scope (known ++ record { name = constant.entry.name; of = type_at (expr_trees whole.now.parsed.now.exprs) constant.entry.of.now } ∷ [])) scope.new) }
{
    let here = Here {
        parsed: whole.parsed,
        tables: whole.tables,
        scope,
    };
    constant_uses(alloc, seen, &here, constant.of, constant.value)?;
    pass_constant(scope)
}

fn constant_decl(
    alloc: Global,
    seen: &mut Seen,
    whole: &Whole<'_>,
    scope: &mut Scope,
    node: &DeclNode,
) -> Result<(), NoMemory>
    requires parts { DeclParts (length whole.now.parsed.now.exprs) (length whole.now.parsed.now.stmts) node.now.decl }
    requires tables { TellsPackage (declared_in whole.now.parsed.now) whole.now.tables.now }
    ensures found { OnOk result ((known : List Variable) → TellsScope (declared_in whole.now.parsed.now) (constant_scope known) scope.old
        → seen.new.found ≡ sites_judged (declared_in whole.now.parsed.now) seen.old.found (constant_sites known (constants_of (decl_made (expr_trees whole.now.parsed.now.exprs) (stmt_trees whole.now.parsed.now.exprs whole.now.parsed.now.stmts) node.now.public node.now.decl node.now.at ∷ [])))) }
    ensures constants { OnOk result ((d : Declared) (known left : List Variable) → (known ++ map as_variable (constants_of (decl_made (expr_trees whole.now.parsed.now.exprs) (stmt_trees whole.now.parsed.now.exprs whole.now.parsed.now.stmts) node.now.public node.now.decl node.now.at ∷ []))) ++ left ≡ map as_variable d.constants
        → TellsScope d (constant_scope known) scope.old → TellsScope d (constant_scope (known ++ map as_variable (constants_of (decl_made (expr_trees whole.now.parsed.now.exprs) (stmt_trees whole.now.parsed.now.exprs whole.now.parsed.now.stmts) node.now.public node.now.decl node.now.at ∷ [])))) scope.new) }
{
    match &node.decl {
        Decl::Const { name, of, value } => {
            let constant = WrittenConst {
                name: *name,
                of,
                value: *value,
            };
            constant_next(alloc, seen, whole, scope, constant)
        }
        Decl::Status(_) => Ok(()),
        Decl::Struct { .. } => Ok(()),
        Decl::Method { .. } => Ok(()),
    }
}

// The constants of a package in order: what their declarations use, each where those before it are known. After them `scope`, which knew nothing, knows all constants. `Err` where
// memory was refused.
fn constants(
    alloc: Global,
    seen: &mut Seen,
    whole: &Whole<'_>,
    scope: &mut Scope,
) -> Result<(), NoMemory>
    requires tables { TellsPackage (declared_in whole.now.parsed.now) whole.now.tables.now }
    requires outside { TellsScope (declared_in whole.now.parsed.now) (constant_scope []) scope.old }
    ensures found { OnOk result (seen.new.found ≡ sites_judged (declared_in whole.now.parsed.now) seen.old.found (constant_sites [] (declared_in whole.now.parsed.now).constants)) }
    ensures constants { OnOk result (TellsConstants (declared_in whole.now.parsed.now) scope.new) }
{
    let mut number = 0;
    while number < whole.parsed.decls().len() {
        constant_decl(alloc, seen, whole, scope, whole.parsed.decl(number))?;
        number += 1;
    }
    Ok(())
}

// What a struct's declaration uses. What it calls is in no method's row.
fn struct_uses(
    alloc: Global,
    seen: &mut Seen,
    whole: &Whole<'_>,
    scope: &mut Scope,
    name: Name,
    fields: &[Field],
) -> Result<(), NoMemory>
    requires fields { FieldsBelow (length whole.now.parsed.now.exprs) fields.now }
    requires tables { TellsPackage (declared_in whole.now.parsed.now) whole.now.tables.now }
    requires constants { TellsConstants (declared_in whole.now.parsed.now) scope.old }
    ensures found { OnOk result (seen.new.found ≡ sites_judged (declared_in whole.now.parsed.now) seen.old.found (struct_sites (declared_in whole.now.parsed.now) (record { name = name; fields = variables (fields_at (expr_trees whole.now.parsed.now.exprs) fields.now) }))) }
    ensures constants { TellsConstants (declared_in whole.now.parsed.now) scope.new }
{
    enter_struct(scope, name);
    let mut row = Row::new(alloc);
    let here = Here {
        parsed: whole.parsed,
        tables: whole.tables,
        scope,
    };
    walk_fields(alloc, seen, &mut row, &here, fields)?;
    Ok(())
}

fn struct_decl(
    alloc: Global,
    seen: &mut Seen,
    whole: &Whole<'_>,
    scope: &mut Scope,
    node: &DeclNode,
) -> Result<(), NoMemory>
    requires parts { DeclParts (length whole.now.parsed.now.exprs) (length whole.now.parsed.now.stmts) node.now.decl }
    requires tables { TellsPackage (declared_in whole.now.parsed.now) whole.now.tables.now }
    requires constants { TellsConstants (declared_in whole.now.parsed.now) scope.old }
    ensures found { OnOk result (seen.new.found ≡ sites_judged (declared_in whole.now.parsed.now) seen.old.found (flat_map (struct_sites (declared_in whole.now.parsed.now)) (structs_of (decl_made (expr_trees whole.now.parsed.now.exprs) (stmt_trees whole.now.parsed.now.exprs whole.now.parsed.now.stmts) node.now.public node.now.decl node.now.at ∷ [])))) }
    ensures constants { TellsConstants (declared_in whole.now.parsed.now) scope.new }
{
    match &node.decl {
        Decl::Struct { name, fields, .. } => {
            struct_uses(alloc, seen, whole, scope, *name, fields.as_slice())
        }
        Decl::Status(_) => Ok(()),
        Decl::Const { .. } => Ok(()),
        Decl::Method { .. } => Ok(()),
    }
}

fn structs(
    alloc: Global,
    seen: &mut Seen,
    whole: &Whole<'_>,
    scope: &mut Scope,
) -> Result<(), NoMemory>
    requires tables { TellsPackage (declared_in whole.now.parsed.now) whole.now.tables.now }
    requires constants { TellsConstants (declared_in whole.now.parsed.now) scope.old }
    ensures found { OnOk result (seen.new.found ≡ sites_judged (declared_in whole.now.parsed.now) seen.old.found (flat_map (struct_sites (declared_in whole.now.parsed.now)) (declared_in whole.now.parsed.now).structs)) }
    ensures constants { TellsConstants (declared_in whole.now.parsed.now) scope.new }
{
    let mut number = 0;
    while number < whole.parsed.decls().len() {
        struct_decl(alloc, seen, whole, scope, whole.parsed.decl(number))?;
        number += 1;
    }
    Ok(())
}

// What a method uses; the methods that it calls join the row at its end, and what its loops and jumps break joins that of
// those before it.
fn method_uses(
    alloc: Global,
    seen: &mut Seen,
    gathered: &mut Gathered,
    whole: &Whole<'_>,
    scope: &Scope,
    method: MethodParts<'_>,
) -> Result<(), NoMemory>
    requires args { FieldsBelow (length whole.now.parsed.now.exprs) method.args.now }
    requires gives { ResultBelow (length whole.now.parsed.now.exprs) method.gives.now }
    requires body { BlockBelow (length whole.now.parsed.now.stmts) method.body.now }
    requires tables { TellsPackage (declared_in whole.now.parsed.now) whole.now.tables.now }
    requires inside { TellsScope (declared_in whole.now.parsed.now) (scope_in (declared_in whole.now.parsed.now) method.owner (variables (fields_at (expr_trees whole.now.parsed.now.exprs) method.args.now)) (locals_of (block_at (stmt_trees whole.now.parsed.now.exprs whole.now.parsed.now.stmts) method.body.now))) scope.now }
    ensures found { OnOk result (seen.new.found ≡ sites_judged (declared_in whole.now.parsed.now) seen.old.found (sites_in (scope_in (declared_in whole.now.parsed.now) method.entry.owner (variables (fields_at (expr_trees whole.now.parsed.now.exprs) method.entry.args.now)) (locals_of (block_at (stmt_trees whole.now.parsed.now.exprs whole.now.parsed.now.stmts) method.entry.body.now)))
        (structure method.entry.owner ∷ (variable_uses (variables (fields_at (expr_trees whole.now.parsed.now.exprs) method.entry.args.now)) ++ (result_uses (result_at (expr_trees whole.now.parsed.now.exprs) method.entry.gives.now) ++ block_uses (block_at (stmt_trees whole.now.parsed.now.exprs whole.now.parsed.now.stmts) method.entry.body.now)))))) }
    ensures row { OnOk result (gathered.new.row ≡ with_calls (known_at (declared_in whole.now.parsed.now) (scope_in (declared_in whole.now.parsed.now) method.entry.owner (variables (fields_at (expr_trees whole.now.parsed.now.exprs) method.entry.args.now)) (locals_of (block_at (stmt_trees whole.now.parsed.now.exprs whole.now.parsed.now.stmts) method.entry.body.now)))) gathered.old.row
        (variable_uses (variables (fields_at (expr_trees whole.now.parsed.now.exprs) method.entry.args.now)) ++ (result_uses (result_at (expr_trees whole.now.parsed.now.exprs) method.entry.gives.now) ++ block_uses (block_at (stmt_trees whole.now.parsed.now.exprs whole.now.parsed.now.stmts) method.entry.body.now)))) }
    ensures labels { OnOk result (gathered.new.labels ≡ jumped whole.now.parsed.now.texts gathered.old.labels (block_jumps gathered.old.loops.items (block_at (stmt_trees whole.now.parsed.now.exprs whole.now.parsed.now.stmts) method.entry.body.now))) }
{
    let here = Here {
        parsed: whole.parsed,
        tables: whole.tables,
        scope,
    };
    walk_method(alloc, seen, gathered, &here, method)
}

// What was gathered of a method joins what is known of those before it.
fn add_body(bodies: &mut Bodies, gathered: Gathered) -> Result<(), NoMemory>
    ensures labels { OnOk result (bodies.new.labels ≡ gathered.labels) }
    ensures rows { OnOk result (bodies.new.rows.items ≡ bodies.old.rows.items ++ gathered.row ∷ []) }
{
    bodies.labels = gathered.labels;
    bodies.rows.push(gathered.row)?;
    Ok(())
}

// What the method uses that a declaration declares, if it declares one; its row joins those of the methods before it, and
// what its loops and jumps break what theirs do.
fn method_decl(
    alloc: Global,
    seen: &mut Seen,
    bodies: &mut Bodies,
    whole: &Whole<'_>,
    scope: &mut Scope,
    node: &DeclNode,
) -> Result<(), NoMemory>
    requires parts { DeclParts (length whole.now.parsed.now.exprs) (length whole.now.parsed.now.stmts) node.now.decl }
    requires tables { TellsPackage (declared_in whole.now.parsed.now) whole.now.tables.now }
    requires constants { TellsConstants (declared_in whole.now.parsed.now) scope.old }
    requires next { AreNext (declared_in whole.now.parsed.now) (length bodies.old.rows.items) (methods_of (decl_made (expr_trees whole.now.parsed.now.exprs) (stmt_trees whole.now.parsed.now.exprs whole.now.parsed.now.stmts) node.now.public node.now.decl node.now.at ∷ [])) }
    ensures found { OnOk result (seen.new.found ≡ sites_judged (declared_in whole.now.parsed.now) seen.old.found (flat_map (method_sites (declared_in whole.now.parsed.now)) (methods_of (decl_made (expr_trees whole.now.parsed.now.exprs) (stmt_trees whole.now.parsed.now.exprs whole.now.parsed.now.stmts) node.now.public node.now.decl node.now.at ∷ [])))) }
    ensures rows { OnOk result ((left : List Method) → AreRowsInFront (declared_in whole.now.parsed.now) bodies.old.rows.items (methods_of (decl_made (expr_trees whole.now.parsed.now.exprs) (stmt_trees whole.now.parsed.now.exprs whole.now.parsed.now.stmts) node.now.public node.now.decl node.now.at ∷ []) ++ left)
        → AreRowsInFront (declared_in whole.now.parsed.now) bodies.new.rows.items left) }
    ensures labels { OnOk result (bodies.new.labels ≡ fold (method_labels whole.now.parsed.now.texts) bodies.old.labels (methods_of (decl_made (expr_trees whole.now.parsed.now.exprs) (stmt_trees whole.now.parsed.now.exprs whole.now.parsed.now.stmts) node.now.public node.now.decl node.now.at ∷ []))) }
    ensures constants { OnOk result (TellsConstants (declared_in whole.now.parsed.now) scope.new) }
{
    match &node.decl {
        Decl::Method {
            of,
            args,
            gives,
            body,
            ..
        } => {
            let method = MethodParts {
                owner: *of,
                args: args.as_slice(),
                gives,
                body,
            };
            let mut gathered = Gathered {
                row: Row::new(alloc),
                loops: Vec::new(alloc),
                labels: bodies.labels,
            };
            enter_method(scope, *of, bodies.rows.len());
            method_uses(alloc, seen, &mut gathered, whole, scope, method)?;
            add_body(bodies, gathered)
        }
        Decl::Status(_) => Ok(()),
        Decl::Const { .. } => Ok(()),
        Decl::Struct { .. } => Ok(()),
    }
}

fn methods(
    alloc: Global,
    seen: &mut Seen,
    bodies: &mut Bodies,
    whole: &Whole<'_>,
    scope: &mut Scope,
) -> Result<(), NoMemory>
    requires tables { TellsPackage (declared_in whole.now.parsed.now) whole.now.tables.now }
    requires constants { TellsConstants (declared_in whole.now.parsed.now) scope.old }
    requires none { bodies.old.rows.items ≡ [] }
    ensures found { OnOk result (seen.new.found ≡ sites_judged (declared_in whole.now.parsed.now) seen.old.found (flat_map (method_sites (declared_in whole.now.parsed.now)) (declared_in whole.now.parsed.now).methods)) }
    ensures labels { OnOk result (bodies.new.labels ≡ labels_found (declared_in whole.now.parsed.now) bodies.old.labels) }
    ensures rows { OnOk result (AreRows (declared_in whole.now.parsed.now) bodies.new.rows.items (length (declared_in whole.now.parsed.now).methods)) }
{
    let mut number = 0;
    while number < whole.parsed.decls().len() {
        method_decl(alloc, seen, bodies, whole, scope, whole.parsed.decl(number))?;
        number += 1;
    }
    Ok(())
}

/// All that the uses of names, the loops and the jumps in the package break joins what was found before. Answers for each
/// method that is declared, in order, the methods that it calls, by their numbers, in the order of its calls and each as often
/// as it is called. `Err` where memory was refused. The time is that of one walk over the package.
pub fn uses(
    alloc: Global,
    found: &mut Found,
    parsed: &PackageNodes,
    tables: &Tables,
) -> Result<Vec<Row>, NoMemory>
    requires { TellsPackage (declared_in parsed.now) tables.now }
    ensures found { OnOk result (found.new ≡ names_found (declared_in parsed.now) found.old) }
    ensures rows { IfOk result (λ rows. AreRows (declared_in parsed.now) rows.items (length (declared_in parsed.now).methods)) }
{
    let mut scope = outside();
    let mut seen = Seen {
        found: Found::nothing(),
        known: true,
    };
    let mut bodies = Bodies {
        labels: *found,
        rows: Vec::new(alloc),
    };
    let whole = Whole { parsed, tables };
    constants(alloc, &mut seen, &whole, &mut scope)?;
    structs(alloc, &mut seen, &whole, &mut scope)?;
    methods(alloc, &mut seen, &mut bodies, &whole, &mut scope)?;
    *found = bodies.labels;
    found.refuse(seen.found.first());
    Ok(bodies.rows)
}

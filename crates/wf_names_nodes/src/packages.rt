// The declarations of a package: constants in order, each where those before it are known, then all others, where
// all constants are.

ghost use Rattle.std.specs.Prelude.{◌≡◌, ◌<◌, ◌++◌, [], ◌∷◌, List, map, length, IfOk, OnOk};
ghost use Rattle.wf_ast.specs.ParsedTrees.{expr_trees, stmt_trees, decl_trees, expr_at, type_at, fields_at, decl_made};
ghost use Rattle.wf_ast.specs.ParsedParts.{TypeBelow, FieldsBelow, ResultBelow, BlockBelow, DeclParts};
ghost use Rattle.wf_named.specs.NamedParts.{named_package};
ghost use Rattle.wf_names_rules.specs.Declarations.{Declared, Variable, variables, as_variable, constants_of, methods_of, declared_in};
ghost use Rattle.wf_names_rules.specs.Uses.{constant_scope};
ghost use Rattle.wf_names_scopes.specs.Agreeing.{TellsPackage, TellsScope, TellsConstants};
ghost use Rattle.wf_names_scopes.specs.Growing.{AreNext};
ghost use Rattle.wf_names_resolve.specs.Package.{resolved_consts, struct_in, method_in, resolved_by};
ghost use Rattle.wf_names_nodes.specs.Declaring.{method_parsed, with_consts, with_structs, with_methods, with_others};

use crate::adding::{put_const, put_method, put_status, put_struct};
use crate::declarations::{WrittenMethod, WrittenStruct};
use std::alloc::Global;
use wf_ast::PackageNodes;
use wf_ast::parsed::{Decl, DeclNode};
use wf_named::NamedNodes;
use wf_names_rules::here::Here;
use wf_names_rules::tables::{Scope, Tables};
use wf_names_scopes::scopes::{enter_method, enter_struct, outside, pass_constant};
use wf_names_scopes::written::WrittenConst;
use wf_text::faults::NoMemory;

// A constant, which is known after its declaration.
fn next_const(
    alloc: Global,
    nodes: &mut NamedNodes,
    parsed: &PackageNodes,
    tables: &Tables,
    scope: &mut Scope,
    constant: WrittenConst<'_>,
) -> Result<(), NoMemory>
    requires of { TypeBelow (length parsed.now.exprs) constant.of.now }
    requires value { constant.value.0 < length parsed.now.exprs }
    requires tables { TellsPackage (declared_in parsed.now) tables.now }
    ensures added { OnOk result ((known : List Variable) → TellsScope (declared_in parsed.now) (constant_scope known) scope.old
        → named_package nodes.new ≡ with_consts (named_package nodes.old) (resolved_consts (declared_in parsed.now) known (record { name = constant.entry.name; of = type_at (expr_trees parsed.now.exprs) constant.entry.of.now; value = expr_at (expr_trees parsed.now.exprs) constant.entry.value } ∷ []))) }
    ensures known { OnOk result ((d : Declared) (known left : List Variable) → (known ++ record { name = constant.entry.name; of = type_at (expr_trees parsed.now.exprs) constant.entry.of.now } ∷ []) ++ left ≡ map as_variable d.constants
        → TellsScope d (constant_scope known) scope.old → TellsScope d (constant_scope (known ++ record { name = constant.entry.name; of = type_at (expr_trees parsed.now.exprs) constant.entry.of.now } ∷ [])) scope.new) }
{
    let here = Here {
        parsed,
        tables,
        scope,
    };
    put_const(alloc, nodes, &here, constant)?;
    pass_constant(scope)
}

// A declaration, which may be of a constant.
fn const_decl(
    alloc: Global,
    nodes: &mut NamedNodes,
    parsed: &PackageNodes,
    tables: &Tables,
    scope: &mut Scope,
    node: &DeclNode,
) -> Result<(), NoMemory>
    requires parts { DeclParts (length parsed.now.exprs) (length parsed.now.stmts) node.now.decl }
    requires tables { TellsPackage (declared_in parsed.now) tables.now }
    ensures added { OnOk result ((known : List Variable) → TellsScope (declared_in parsed.now) (constant_scope known) scope.old
        → named_package nodes.new ≡ with_consts (named_package nodes.old) (resolved_consts (declared_in parsed.now) known (constants_of (decl_made (expr_trees parsed.now.exprs) (stmt_trees parsed.now.exprs parsed.now.stmts) node.now.public node.now.decl node.now.at ∷ [])))) }
    ensures known { OnOk result ((d : Declared) (known left : List Variable) → (known ++ map as_variable (constants_of (decl_made (expr_trees parsed.now.exprs) (stmt_trees parsed.now.exprs parsed.now.stmts) node.now.public node.now.decl node.now.at ∷ []))) ++ left ≡ map as_variable d.constants
        → TellsScope d (constant_scope known) scope.old → TellsScope d (constant_scope (known ++ map as_variable (constants_of (decl_made (expr_trees parsed.now.exprs) (stmt_trees parsed.now.exprs parsed.now.stmts) node.now.public node.now.decl node.now.at ∷ [])))) scope.new) }
{
    match &node.decl {
        Decl::Const { name, of, value } => {
            let constant = WrittenConst {
                name: *name,
                of,
                value: *value,
            };
            next_const(alloc, nodes, parsed, tables, scope, constant)
        }
        Decl::Status(_) => Ok(()),
        Decl::Struct { .. } => Ok(()),
        Decl::Method { .. } => Ok(()),
    }
}

// The constants of a package. After them `scope`, which knew nothing, knows all of them.
fn all_consts(
    alloc: Global,
    nodes: &mut NamedNodes,
    parsed: &PackageNodes,
    tables: &Tables,
    scope: &mut Scope,
) -> Result<(), NoMemory>
    requires tables { TellsPackage (declared_in parsed.now) tables.now }
    requires outside { TellsScope (declared_in parsed.now) (constant_scope []) scope.old }
    ensures added { OnOk result (named_package nodes.new ≡ with_consts (named_package nodes.old) (resolved_consts (declared_in parsed.now) [] (declared_in parsed.now).constants)) }
    ensures known { OnOk result (TellsConstants (declared_in parsed.now) scope.new) }
{
    let mut number = 0;
    while number < parsed.decls().len() {
        const_decl(alloc, nodes, parsed, tables, scope, parsed.decl(number))?;
        number += 1;
    }
    Ok(())
}

// A struct, in its own scope.
fn next_struct(
    alloc: Global,
    nodes: &mut NamedNodes,
    parsed: &PackageNodes,
    tables: &Tables,
    scope: &mut Scope,
    structure: WrittenStruct<'_>,
) -> Result<(), NoMemory>
    requires fields { FieldsBelow (length parsed.now.exprs) structure.fields.now }
    requires tables { TellsPackage (declared_in parsed.now) tables.now }
    requires constants { TellsConstants (declared_in parsed.now) scope.old }
    ensures added { OnOk result (named_package nodes.new ≡ with_structs (named_package nodes.old) (struct_in (declared_in parsed.now) structure.entry.public (record { name = structure.entry.name; fields = variables (fields_at (expr_trees parsed.now.exprs) structure.entry.fields.now) }) ∷ [])) }
    ensures known { OnOk result (TellsConstants (declared_in parsed.now) scope.new) }
{
    enter_struct(scope, structure.name);
    let here = Here {
        parsed,
        tables,
        scope,
    };
    put_struct(alloc, nodes, &here, structure)
}

// A method, in its own scope: its number is how many come before it.
fn next_method(
    alloc: Global,
    nodes: &mut NamedNodes,
    parsed: &PackageNodes,
    tables: &Tables,
    scope: &mut Scope,
    method: WrittenMethod<'_>,
) -> Result<(), NoMemory>
    requires args { FieldsBelow (length parsed.now.exprs) method.args.now }
    requires gives { ResultBelow (length parsed.now.exprs) method.gives.now }
    requires body { BlockBelow (length parsed.now.stmts) method.body.now }
    requires tables { TellsPackage (declared_in parsed.now) tables.now }
    requires constants { TellsConstants (declared_in parsed.now) scope.old }
    requires next { AreNext (declared_in parsed.now) (length nodes.old.methods) (method_parsed (expr_trees parsed.now.exprs) (stmt_trees parsed.now.exprs parsed.now.stmts) method.public method.owner method.name method.args.now method.gives.now method.body.now ∷ []) }
    ensures added { OnOk result (named_package nodes.new ≡ with_methods (named_package nodes.old) (method_in (declared_in parsed.now) method.entry.mark
        (method_parsed (expr_trees parsed.now.exprs) (stmt_trees parsed.now.exprs parsed.now.stmts) method.entry.public method.entry.owner method.entry.name method.entry.args.now method.entry.gives.now method.entry.body.now) ∷ [])) }
    ensures known { OnOk result (TellsConstants (declared_in parsed.now) scope.new) }
{
    enter_method(scope, method.owner, nodes.methods().len());
    let here = Here {
        parsed,
        tables,
        scope,
    };
    put_method(alloc, nodes, &here, method)
}

// A declaration, where all constants are known; those of constants are passed.
fn other_decl(
    alloc: Global,
    nodes: &mut NamedNodes,
    parsed: &PackageNodes,
    tables: &Tables,
    scope: &mut Scope,
    node: &DeclNode,
) -> Result<(), NoMemory>
    requires parts { DeclParts (length parsed.now.exprs) (length parsed.now.stmts) node.now.decl }
    requires tables { TellsPackage (declared_in parsed.now) tables.now }
    requires constants { TellsConstants (declared_in parsed.now) scope.old }
    requires next { AreNext (declared_in parsed.now) (length nodes.old.methods) (methods_of (decl_made (expr_trees parsed.now.exprs) (stmt_trees parsed.now.exprs parsed.now.stmts) node.now.public node.now.decl node.now.at ∷ [])) }
    ensures added { OnOk result (named_package nodes.new ≡ with_others (declared_in parsed.now) (named_package nodes.old) (decl_made (expr_trees parsed.now.exprs) (stmt_trees parsed.now.exprs parsed.now.stmts) node.now.public node.now.decl node.now.at ∷ [])) }
    ensures known { OnOk result (TellsConstants (declared_in parsed.now) scope.new) }
{
    match &node.decl {
        Decl::Status(text) => put_status(nodes, parsed, *text),
        Decl::Const { .. } => Ok(()),
        Decl::Struct { name, fields, .. } => {
            let structure = WrittenStruct {
                public: node.public,
                name: *name,
                fields: fields.as_slice(),
            };
            next_struct(alloc, nodes, parsed, tables, scope, structure)
        }
        Decl::Method {
            of,
            name,
            mark,
            args,
            gives,
            body,
        } => {
            let method = WrittenMethod {
                public: node.public,
                owner: *of,
                name: *name,
                mark: *mark,
                args: args.as_slice(),
                gives,
                body,
            };
            next_method(alloc, nodes, parsed, tables, scope, method)
        }
    }
}

// The statuses, structs and methods of a package, added to one that has no methods.
fn all_others(
    alloc: Global,
    nodes: &mut NamedNodes,
    parsed: &PackageNodes,
    tables: &Tables,
    scope: &mut Scope,
) -> Result<(), NoMemory>
    requires tables { TellsPackage (declared_in parsed.now) tables.now }
    requires constants { TellsConstants (declared_in parsed.now) scope.old }
    requires none { length nodes.old.methods ≡ 0 }
    ensures { OnOk result (named_package nodes.new ≡ with_others (declared_in parsed.now) (named_package nodes.old) (decl_trees parsed.now.exprs parsed.now.stmts parsed.now.decls)) }
{
    let mut number = 0;
    while number < parsed.decls().len() {
        other_decl(alloc, nodes, parsed, tables, scope, parsed.decl(number))?;
        number += 1;
    }
    Ok(())
}

// All declarations, added to a package that has none.
fn all_decls(
    alloc: Global,
    nodes: &mut NamedNodes,
    parsed: &PackageNodes,
    tables: &Tables,
) -> Result<(), NoMemory>
    requires tables { TellsPackage (declared_in parsed.now) tables.now }
    requires none { length nodes.old.methods ≡ 0 }
    ensures { OnOk result (named_package nodes.new ≡ with_others (declared_in parsed.now) (with_consts (named_package nodes.old) (resolved_consts (declared_in parsed.now) [] (declared_in parsed.now).constants)) (decl_trees parsed.now.exprs parsed.now.stmts parsed.now.decls)) }
{
    let mut scope = outside();
    all_consts(alloc, nodes, parsed, tables, &mut scope)?;
    all_others(alloc, nodes, parsed, tables, &mut scope)
}

/// The nodes of the resolved package. `tables` are those of what the package declares; `order` has the numbers of all
/// methods, each after those that it calls, and `struct_order` those of all structs, each after those that its fields
/// hold. `Err` where memory was refused or no number is left.
pub fn resolve_package(
    alloc: Global,
    parsed: &PackageNodes,
    tables: &Tables,
    order: Vec<u32>,
    struct_order: Vec<u32>,
) -> Result<NamedNodes, NoMemory>
    requires { TellsPackage (declared_in parsed.now) tables.now }
    ensures { IfOk result (λ nodes. named_package nodes ≡ resolved_by (declared_in parsed.now) parsed.now.name (decl_trees parsed.now.exprs parsed.now.stmts parsed.now.decls) order.items struct_order.items) }
{
    let mut nodes = NamedNodes::new(alloc, parsed.name())?;
    all_decls(alloc, &mut nodes, parsed, tables)?;
    nodes.set_order(order);
    nodes.set_struct_order(struct_order);
    Ok(nodes)
}

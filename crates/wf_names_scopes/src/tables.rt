// The tables of a package: what its declarations mean, by their names. Of two declarations with one name the first is
// meant.

ghost use Rattle.std.specs.Prelude.{◌≡◌, ◌++◌, ◌||◌, [], ◌∷◌, ℕ, List, length, nat_eq, IfOk, OnOk};
ghost use Rattle.indexmap.specs.IndexSet.{contains};
ghost use Rattle.wf_ast.specs.declared.parsed.Name.{Name};
ghost use Rattle.wf_ast.specs.ParsedTree.{ExprTree, DeclTree};
ghost use Rattle.wf_ast.specs.ParsedTrees.{expr_trees, stmt_trees, type_at, fields_at, block_at, decl_made};
ghost use Rattle.wf_ast.specs.ParsedParts.{BlockBelow, DeclParts};
ghost use Rattle.wf_names_rules.specs.Declarations.{Declared, Constant, Structure, Method, declared, variables, locals_of, declared_in};
ghost use Rattle.wf_names_rules.specs.Tables.{pair_sort, pair_place};
ghost use Rattle.wf_names_scopes.specs.Agreeing.{TellsNumbers, TellsPackage, TellsMethod, sort_among};
ghost use Rattle.wf_names_scopes.specs.Growing.{with_fields, place_from, with_status, with_constant, with_struct, with_method};

use crate::numbers::{add_field, add_number, next_number, put_pair};
use crate::variables::{add_variable, method_variables, no_variables};
use indexmap::{IndexMap, IndexSet};
use std::alloc::Global;
use std::collections::BTreeMap;
use wf_ast::parsed::{Block, Decl, DeclNode, Field, Name, TypeExpr};
use wf_ast::{PackageNodes, TextId};
use wf_names_rules::tables::{Entry, MethodVariables, Numbers, Tables};
use wf_names_rules::types::sort;
use wf_text::faults::NoMemory;

// How many statuses the language has, with the one that says that all is fine.
const BASE_STATUSES: u32 = 10;

// No names; the first has the number `next`.
fn no_names(alloc: Global, next: u32) -> Numbers
    ensures statuses { TellsNumbers next (λ (name : Name). name) [] result }
    ensures structs { TellsNumbers next (λ (s : Structure). s.name) [] result }
{
    Numbers {
        numbers: IndexMap::new(alloc),
        next,
    }
}

// The tables of a package that declares nothing.
fn empty(alloc: Global) -> Tables
    ensures { (texts : List (List ℕ)) → TellsPackage (declared texts []) result }
{
    Tables {
        statuses: no_names(alloc, BASE_STATUSES),
        structs: no_names(alloc, 0),
        constants: no_variables(alloc),
        fields: BTreeMap::new(alloc),
        methods: BTreeMap::new(alloc),
        method_names: IndexSet::new(alloc),
        publics: Vec::new(alloc),
        variables: Vec::new(alloc),
    }
}

// Adds a name.
fn add_name(names: &mut IndexSet<u32>, name: Name) -> Result<(), NoMemory>
    ensures { OnOk result ((text : ℕ) → contains nat_eq names.new text ≡ (contains nat_eq names.old text || nat_eq name.text.0 text)) }
{
    names.insert(name.text.0)?;
    Ok(())
}

// The fields of a struct whose name is new.
fn add_fields(
    table: &mut BTreeMap<(u32, u32), Entry>,
    parsed: &PackageNodes,
    owner: TextId,
    fields: &[Field],
) -> Result<(), NoMemory>
    ensures sorts { OnOk result ((other text : ℕ) → pair_sort table.new (other, text)
        ≡ with_fields (pair_sort table.old) owner.0 (sort_among parsed.now.texts) (variables (fields_at (expr_trees parsed.now.exprs) fields.now)) other text) }
    ensures places { OnOk result ((es : List ExprTree) (other text : ℕ) → pair_place table.new (other, text)
        ≡ with_fields (pair_place table.old) owner.0 (place_from 0) (variables (fields_at es fields.now)) other text) }
{
    let mut place = 0;
    for field in fields {
        let entry = Entry {
            sort: sort(parsed, &field.of),
            place,
        };
        add_field(table, owner, field.name.text, entry)?;
        place = next_number(place)?;
    }
    Ok(())
}

fn add_status(tables: &mut Tables, name: Name) -> Result<(), NoMemory>
    ensures { OnOk result ((d : Declared) → TellsPackage d tables.old → TellsPackage (with_status d name) tables.new) }
{
    add_number(&mut tables.statuses, name.text)?;
    Ok(())
}

fn add_constant(
    tables: &mut Tables,
    parsed: &PackageNodes,
    name: Name,
    of: &TypeExpr,
) -> Result<(), NoMemory>
    ensures { OnOk result ((d : Declared) (c : Constant) → d.texts ≡ parsed.now.texts → c.name ≡ name → c.of ≡ type_at (expr_trees parsed.now.exprs) of.now
        → TellsPackage d tables.old → TellsPackage (with_constant d c) tables.new) }
{
    add_variable(&mut tables.constants, parsed, name, of)
}

fn add_struct(
    tables: &mut Tables,
    parsed: &PackageNodes,
    name: Name,
    fields: &[Field],
) -> Result<(), NoMemory>
    ensures { OnOk result ((d : Declared) → d.texts ≡ parsed.now.texts → TellsPackage d tables.old
        → TellsPackage (with_struct d (record { name = name; fields = variables (fields_at (expr_trees parsed.now.exprs) fields.now) })) tables.new) }
{
    if add_number(&mut tables.structs, name.text)? {
        add_fields(&mut tables.fields, parsed, name.text, fields)
    } else {
        Ok(())
    }
}

// What the heading of a method says of it.
#[derive(Clone, Copy)]
struct Heading {
    public: bool,
    owner: Name,
    name: Name,
}

// A method after those that the tables tell, by the tables of its variables: its number is how many these are.
fn put_method(
    tables: &mut Tables,
    heading: Heading,
    variables: MethodVariables,
) -> Result<(), NoMemory>
    ensures { OnOk result ((d : Declared) (m : Method) → m.public ≡ heading.public → m.owner ≡ heading.owner → m.name ≡ heading.name
        → TellsMethod d.texts m variables → TellsPackage d tables.old → TellsPackage (with_method d m) tables.new) }
{
    let m = tables.publics.len();
    tables.variables.push(variables)?;
    tables.publics.push(heading.public)?;
    add_name(&mut tables.method_names, heading.name)?;
    put_pair(
        &mut tables.methods,
        (heading.owner.text.0, heading.name.text.0),
        m,
    )
}

fn add_method(
    alloc: Global,
    tables: &mut Tables,
    parsed: &PackageNodes,
    heading: Heading,
    args: &[Field],
    body: &Block,
) -> Result<(), NoMemory>
    requires { BlockBelow (length parsed.now.stmts) body.now }
    ensures { OnOk result ((d : Declared) (m : Method) → d.texts ≡ parsed.now.texts → m.public ≡ heading.public → m.owner ≡ heading.owner → m.name ≡ heading.name
        → m.args ≡ variables (fields_at (expr_trees parsed.now.exprs) args.now) → m.locals ≡ locals_of (block_at (stmt_trees parsed.now.exprs parsed.now.stmts) body.now)
        → TellsPackage d tables.old → TellsPackage (with_method d m) tables.new) }
{
    let variables = method_variables(alloc, parsed, args, body)?;
    put_method(tables, heading, variables)
}

fn add_decl(
    alloc: Global,
    tables: &mut Tables,
    parsed: &PackageNodes,
    node: &DeclNode,
) -> Result<(), NoMemory>
    requires { DeclParts (length parsed.now.exprs) (length parsed.now.stmts) node.now.decl }
    ensures { OnOk result ((ds : List DeclTree) → TellsPackage (declared parsed.now.texts ds) tables.old
        → TellsPackage (declared parsed.now.texts (ds ++ decl_made (expr_trees parsed.now.exprs) (stmt_trees parsed.now.exprs parsed.now.stmts) node.now.public node.now.decl node.now.at ∷ [])) tables.new) }
{
    match &node.decl {
        Decl::Status(name) => add_status(tables, *name),
        Decl::Const { name, of, .. } => add_constant(tables, parsed, *name, of),
        Decl::Struct { name, fields, .. } => add_struct(tables, parsed, *name, fields.as_slice()),
        Decl::Method {
            of,
            name,
            args,
            body,
            ..
        } => {
            let heading = Heading {
                public: node.public,
                owner: *of,
                name: *name,
            };
            add_method(alloc, tables, parsed, heading, args.as_slice(), body)
        }
    }
}

/// The tables of a package.
pub fn tables(alloc: Global, parsed: &PackageNodes) -> Result<Tables, NoMemory>
    ensures { IfOk result (λ tables. TellsPackage (declared_in parsed.now) tables) }
{
    let mut tables = empty(alloc);
    for number in 0..parsed.decls().len() {
        add_decl(alloc, &mut tables, parsed, parsed.decl(number))?;
    }
    Ok(tables)
}

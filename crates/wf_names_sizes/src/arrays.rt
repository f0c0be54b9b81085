// Arrays that are too long: a pass over the variables of a package.

ghost use Rattle.std.specs.Prelude.{◌≡◌, ◌+◌, ◌<◌, ◌||◌, ◌++◌, [], ◌∷◌, Some, None, drop, length, map, nat_lt, slice_get};
ghost use Rattle.std.specs.List.{flat_map};
ghost use Rattle.wf_text.specs.Precedence.{soonest};
ghost use Rattle.wf_ast.specs.declared.parsed.DeclNode.{DeclNode};
ghost use Rattle.wf_ast.specs.ParsedTree.{TypeTree};
ghost use Rattle.wf_ast.specs.ParsedTrees.{expr_trees, expr_at, type_at, stmt_trees, stmt_at, block_at, fields_at, prefixed, decl_made, decl_trees};
ghost use Rattle.wf_ast.specs.ParsedParts.{PrefixBelow, TypeBelow, FieldsBelow, BlockBelow};
ghost use Rattle.wf_names_rules.specs.Declarations.{variables, local_of, locals_of, structs_of, methods_of, declared_in};
ghost use Rattle.wf_names_rules.specs.ConstantValues.{known_constants};
ghost use Rattle.wf_names_rules.specs.Sizes.{number_or_zero};
ghost use Rattle.wf_names_scopes.specs.Agreeing.{TellsVariables, TellMethods};
ghost use Rattle.wf_names_sizes.specs.Settings.{TellsSetting};
ghost use Rattle.wf_names_sizes.specs.ValuesBy.{Knows, value_in};
ghost use Rattle.wf_names_sizes.specs.LongArrays.{is_long_by, too_long_array_by, too_long_array as is_too_long_array, struct_longs, method_longs, arrays_found};

use crate::environment::Environment;
use crate::setting::Setting;
use crate::values::value;
use wf_ast::parsed::{Block, Decl, Field, Name, Prefix, Stmt, TypeExpr};
use wf_ast::{ExprId, StmtId};
use wf_names_rules::lists::refused_if;
use wf_names_rules::tables::{MethodVariables, Variables};
use wf_text::found::Found;
use wf_text::rules::{Refusal, Rule};

// The longest array.
const MOST_ELEMENTS: u64 = 65_536;

fn is_long(env: &Environment<'_>, elements: ExprId) -> bool
    requires { elements.0 < length env.now.parsed.now.exprs }
    ensures { result ≡ nat_lt 65536 (number_or_zero (value_in env.now (expr_at (expr_trees env.now.parsed.now.exprs) elements))) }
{
    match value(env, elements) {
        Some(value) => MOST_ELEMENTS < value.number,
        None => false,
    }
}

// Whether a prefix of a type is an array that is too long.
fn is_long_prefix(env: &Environment<'_>, prefix: Prefix) -> bool
    requires { PrefixBelow (length env.now.parsed.now.exprs) prefix }
    ensures { (element : TypeTree) → is_long_by (value_in env.now) (prefixed (expr_trees env.now.parsed.now.exprs) prefix element) ≡ (result || is_long_by (value_in env.now) element) }
{
    match prefix {
        Prefix::Slice(_) => false,
        Prefix::Array { length, .. } => is_long(env, length),
    }
}

// Whether a type has an array, nested ones too, that is too long.
fn is_too_long(env: &Environment<'_>, of: &TypeExpr) -> bool
    requires { TypeBelow (length env.now.parsed.now.exprs) of.now }
    ensures { result ≡ is_long_by (value_in env.now) (type_at (expr_trees env.now.parsed.now.exprs) of.now) }
{
    for prefix in of.prefixes.as_slice() {
        if is_long_prefix(env, *prefix) {
            return true;
        }
    }
    false
}

// A variable whose type has an array that is too long.
fn too_long_array(env: &Environment<'_>, name: Name, of: &TypeExpr) -> Option<Refusal>
    requires { TypeBelow (length env.now.parsed.now.exprs) of.now }
    ensures { result ≡ too_long_array_by (value_in env.now) (record { name = name; of = type_at (expr_trees env.now.parsed.now.exprs) of.now }) }
{
    refused_if(is_too_long(env, of), Rule::L7, name.at)
}

// Fields or arguments with arrays that are too long.
fn long_fields(found: &mut Found, env: &Environment<'_>, fields: &[Field])
    requires { FieldsBelow (length env.now.parsed.now.exprs) fields.now }
    ensures { found.new ≡ soonest found.old (map (too_long_array_by (value_in env.now)) (variables (fields_at (expr_trees env.now.parsed.now.exprs) fields.now))) }
{
    for field in fields {
        found.refuse(too_long_array(env, field.name, &field.of));
    }
}

// A local, if the statement declares one, with an array that is too long.
fn long_local(found: &mut Found, env: &Environment<'_>, s: StmtId)
    requires { s.0 < length env.now.parsed.now.stmts }
    ensures { found.new ≡ soonest found.old (map (too_long_array_by (value_in env.now)) (local_of (stmt_at (stmt_trees env.now.parsed.now.exprs env.now.parsed.now.stmts) s))) }
{
    let node = env.parsed.stmt(s);
    match &node.stmt {
        Stmt::Var { name, of } => { found.refuse(too_long_array(env, *name, of)) }
        Stmt::Assign { .. } => {}
        Stmt::Keep { .. } => {}
        Stmt::Call(_) => {}
        Stmt::If { .. } => {}
        Stmt::While { .. } => {}
        Stmt::Break(_) => {}
        Stmt::Continue(_) => {}
        Stmt::Return(_) => {}
        Stmt::Yield(_) => {}
        Stmt::Assert { .. } => {}
    }
}

// Locals with arrays that are too long.
fn long_locals(found: &mut Found, env: &Environment<'_>, body: &Block)
    requires { BlockBelow (length env.now.parsed.now.stmts) body.now }
    ensures { found.new ≡ soonest found.old (map (too_long_array_by (value_in env.now)) (locals_of (block_at (stmt_trees env.now.parsed.now.exprs env.now.parsed.now.stmts) body.now))) }
{
    for s in body.items.as_slice() {
        long_local(found, env, *s);
    }
}

// Fields with arrays that are too long, of the struct that a declaration declares, if it declares one. Nothing is hidden.
fn long_in_struct(found: &mut Found, env: &Environment<'_>, number: usize)
    requires number { number < length env.now.parsed.now.decls }
    requires knows { Knows env.now.constants.now (known_constants (declared_in env.now.parsed.now)) }
    requires outside { env.now.locals ≡ None }
    ensures { (node : DeclNode) → slice_get env.now.parsed.now.decls number ≡ Some node → found.new ≡ soonest found.old (flat_map (struct_longs (declared_in env.now.parsed.now)) (structs_of (decl_made (expr_trees env.now.parsed.now.exprs) (stmt_trees env.now.parsed.now.exprs env.now.parsed.now.stmts) node.public node.decl node.at ∷ []))) }
{
    let node = env.parsed.decl(number);
    match &node.decl {
        Decl::Struct { fields, .. } => long_fields(found, env, fields.as_slice()),
        Decl::Status(_) => {}
        Decl::Const { .. } => {}
        Decl::Method { .. } => {}
    }
}

// Fields with arrays that are too long.
fn long_in_structs(found: &mut Found, setting: &Setting<'_>)
    requires { TellsSetting setting.now }
    ensures { found.new ≡ soonest found.old (flat_map (struct_longs (declared_in setting.now.parsed.now)) (structs_of (decl_trees setting.now.parsed.now.exprs setting.now.parsed.now.stmts setting.now.parsed.now.decls))) }
{
    let env = Environment {
        parsed: setting.parsed,
        constants: setting.constants,
        locals: None,
    };
    for number in 0..setting.parsed.decls().len() {
        long_in_struct(found, &env, number);
    }
}

// Arguments and locals of a method with arrays that are too long; the locals hide constants.
fn long_variables<'a>(
    found: &mut Found,
    setting: &Setting<'a>,
    locals: &'a Variables,
    args: &[Field],
    body: &Block,
)
    requires setting { TellsSetting setting.now }
    requires args { FieldsBelow (length setting.now.parsed.now.exprs) args.now }
    requires body { BlockBelow (length setting.now.parsed.now.stmts) body.now }
    requires locals { TellsVariables setting.now.parsed.now.texts (locals_of (block_at (stmt_trees setting.now.parsed.now.exprs setting.now.parsed.now.stmts) body.now)) locals.now }
    ensures { found.new ≡ soonest found.old (map (is_too_long_array (declared_in setting.now.parsed.now) (locals_of (block_at (stmt_trees setting.now.parsed.now.exprs setting.now.parsed.now.stmts) body.now))) (variables (fields_at (expr_trees setting.now.parsed.now.exprs) args.now)) ++ map (is_too_long_array (declared_in setting.now.parsed.now) (locals_of (block_at (stmt_trees setting.now.parsed.now.exprs setting.now.parsed.now.stmts) body.now))) (locals_of (block_at (stmt_trees setting.now.parsed.now.exprs setting.now.parsed.now.stmts) body.now))) }
{
    let env = Environment {
        parsed: setting.parsed,
        constants: setting.constants,
        locals: Some(locals),
    };
    long_fields(found, &env, args);
    long_locals(found, &env, body);
}

// The same of the method that a declaration declares, if it declares one. `left` are the variables of the methods from here
// on; answers those after this declaration.
fn long_in_method<'a>(
    found: &mut Found,
    setting: &Setting<'a>,
    left: &'a [MethodVariables],
    number: usize,
) -> &'a [MethodVariables]
    requires number { number < length setting.now.parsed.now.decls }
    requires setting { TellsSetting setting.now }
    requires left { TellMethods setting.now.parsed.now.texts (methods_of (drop number (decl_trees setting.now.parsed.now.exprs setting.now.parsed.now.stmts setting.now.parsed.now.decls))) left.now }
    ensures found { (node : DeclNode) → slice_get setting.now.parsed.now.decls number ≡ Some node → found.new ≡ soonest found.old (flat_map (method_longs (declared_in setting.now.parsed.now)) (methods_of (decl_made (expr_trees setting.now.parsed.now.exprs) (stmt_trees setting.now.parsed.now.exprs setting.now.parsed.now.stmts) node.public node.decl node.at ∷ []))) }
    ensures left { TellMethods setting.now.parsed.now.texts (methods_of (drop (number + 1) (decl_trees setting.now.parsed.now.exprs setting.now.parsed.now.stmts setting.now.parsed.now.decls))) result.now }
{
    let node = setting.parsed.decl(number);
    match &node.decl {
        Decl::Method { args, body, .. } => match left.split_first() {
            Some((variables, left)) => {
                long_variables(found, setting, &variables.locals, args.as_slice(), body);
                left
            }
            None => left,
        },
        Decl::Status(_) => left,
        Decl::Const { .. } => left,
        Decl::Struct { .. } => left,
    }
}

// Arguments and locals with arrays that are too long.
fn long_in_methods(found: &mut Found, setting: &Setting<'_>)
    requires { TellsSetting setting.now }
    ensures { found.new ≡ soonest found.old (flat_map (method_longs (declared_in setting.now.parsed.now)) (methods_of (decl_trees setting.now.parsed.now.exprs setting.now.parsed.now.stmts setting.now.parsed.now.decls))) }
{
    let mut left = setting.tables.variables.as_slice();
    for number in 0..setting.parsed.decls().len() {
        left = long_in_method(found, setting, left, number);
    }
}

/// Variables whose types have arrays of more than 65,536 elements by the values of the constants, each refused by L7 at its
/// name, join what was found before.
pub(crate) fn long_by_constants(found: &mut Found, setting: &Setting<'_>)
    requires { TellsSetting setting.now }
    ensures { found.new ≡ arrays_found (declared_in setting.now.parsed.now) found.old }
{
    long_in_structs(found, setting);
    long_in_methods(found, setting);
}

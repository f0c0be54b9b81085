// Single declarations: what each makes in its own scope.

ghost use Rattle.std.specs.Prelude.{◌≡◌, ◌<◌, [], length, map, option_map, IfOk, OnOk};
ghost use Rattle.std.specs.List.{AllByRecursion};
ghost use Rattle.wf_ast.specs.ParsedTrees.{expr_trees, stmt_trees, expr_at as parsed_expr_at, block_at as parsed_block_at, type_at as parsed_type_at, fields_at as parsed_fields_at, result_at as parsed_result_at};
ghost use Rattle.wf_ast.specs.ParsedParts.{TypeBelow, FieldsBelow, ResultBelow, BlockBelow};
ghost use Rattle.wf_named.specs.NamedParts.{exprs_of, stmts_of, NamedConstBelow, NamedStructBelow, NamedMethodBelow, NamedVarBelow, NamedResultBelow};
ghost use Rattle.wf_named.specs.NamedTrees.{type_at, block_at, word_at, var_made, const_made, struct_made, method_made};
ghost use Rattle.wf_names_rules.specs.Declarations.{bytes_of, variables, locals_of};
ghost use Rattle.wf_names_rules.specs.Tables.{number_at};
ghost use Rattle.wf_names_resolve.specs.Standing.{standing_here};
ghost use Rattle.wf_names_resolve.specs.Resolved.{number_or as or_zero, word_of, resolved_block};
ghost use Rattle.wf_names_resolve.specs.Package.{resolved_variable, resolved_const, resolved_struct, resolved_result, resolved_method};
ghost use Rattle.wf_names_resolve.specs.Growth.{Grows};
ghost use Rattle.wf_names_nodes.specs.Declaring.{method_parsed};

use crate::variables::{resolve_fields, resolve_locals, resolve_result, resolve_variable};
use std::alloc::Global;
use wf_ast::parsed::{Block, Field, Name, TypeExpr, WrittenMark};
use wf_ast::{Sequence, StructId};
use wf_named::nodes::NamedType;
use wf_named::{NamedConst, NamedMethod, NamedNodes, NamedStruct, NamedVar};
use wf_names_resolve::parts::{mark, number_or};
use wf_names_resolve::resolve_exprs::resolve_expr;
use wf_names_resolve::resolve_stmts::resolve_body;
use wf_names_resolve::words::named_word;
use wf_names_rules::here::Here;
use wf_names_rules::tables::Tables;
use wf_names_scopes::written::WrittenConst;
use wf_text::faults::NoMemory;

/// Adds the nodes of a constant's type and value, and answers the constant.
pub(crate) fn resolve_const(
    alloc: Global,
    nodes: &mut NamedNodes,
    here: &Here<'_>,
    constant: WrittenConst<'_>,
) -> Result<NamedConst, NoMemory>
    requires of { TypeBelow (length here.now.parsed.now.exprs) constant.of.now }
    requires value { constant.value.0 < length here.now.parsed.now.exprs }
    ensures grows { OnOk result (Grows nodes.old nodes.new) }
    ensures below { IfOk result (NamedConstBelow (length nodes.new.texts) (length nodes.new.exprs)) }
    ensures made { IfOk result (λ r. const_made nodes.new.texts (exprs_of nodes.new) r ≡ resolved_const (standing_here here.now) constant.entry.name (parsed_type_at (expr_trees here.now.parsed.now.exprs) constant.entry.of.now) (parsed_expr_at (expr_trees here.now.parsed.now.exprs) constant.entry.value)) }
{
    let declared = resolve_variable(alloc, nodes, here, constant.name, constant.of)?;
    let value = resolve_expr(alloc, nodes, here, constant.value)?;
    Ok(NamedConst {
        name: declared.name,
        of: declared.of,
        value,
    })
}

// A name with fields or arguments.
fn resolve_named(
    alloc: Global,
    nodes: &mut NamedNodes,
    here: &Here<'_>,
    name: Name,
    fields: &[Field],
) -> Result<(Name, Sequence<NamedVar>), NoMemory>
    requires { FieldsBelow (length here.now.parsed.now.exprs) fields.now }
    ensures grows { OnOk result (Grows nodes.old nodes.new) }
    ensures below { IfOk result (λ r. (r.0.text.0 < length nodes.new.texts) × AllByRecursion (NamedVarBelow (length nodes.new.texts) (length nodes.new.exprs)) r.1) }
    ensures word { IfOk result (λ r. word_at nodes.new.texts r.0 ≡ word_of (bytes_of here.now.parsed.now.texts) name) }
    ensures fields { IfOk result (λ r. map (var_made nodes.new.texts (exprs_of nodes.new)) r.1 ≡ map (resolved_variable (standing_here here.now)) (variables (parsed_fields_at (expr_trees here.now.parsed.now.exprs) fields.now))) }
{
    let name = named_word(nodes, here.parsed, name)?;
    let fields = resolve_fields(alloc, nodes, here, fields)?;
    Ok((name, fields))
}

/// What a struct's declaration says.
#[derive(Clone, Copy)]
pub(crate) struct WrittenStruct<'a> {
    pub public: bool,
    pub name: Name,
    pub fields: &'a [Field],
}

/// Adds the nodes of the types of a struct's fields, and answers the struct.
pub(crate) fn resolve_struct(
    alloc: Global,
    nodes: &mut NamedNodes,
    here: &Here<'_>,
    structure: WrittenStruct<'_>,
) -> Result<NamedStruct, NoMemory>
    requires { FieldsBelow (length here.now.parsed.now.exprs) structure.fields.now }
    ensures grows { OnOk result (Grows nodes.old nodes.new) }
    ensures below { IfOk result (NamedStructBelow (length nodes.new.texts) (length nodes.new.exprs)) }
    ensures made { IfOk result (λ r. struct_made nodes.new.texts (exprs_of nodes.new) r ≡ resolved_struct (standing_here here.now) structure.entry.public structure.entry.name (variables (parsed_fields_at (expr_trees here.now.parsed.now.exprs) structure.entry.fields.now))) }
{
    let (name, fields) = resolve_named(alloc, nodes, here, structure.name, structure.fields)?;
    Ok(NamedStruct {
        name,
        public: structure.public,
        fields,
    })
}

// The locals of a method, and its body.
fn resolve_inside(
    alloc: Global,
    nodes: &mut NamedNodes,
    here: &Here<'_>,
    body: &Block,
) -> Result<(Sequence<NamedVar>, Block), NoMemory>
    requires { BlockBelow (length here.now.parsed.now.stmts) body.now }
    ensures grows { OnOk result (Grows nodes.old nodes.new) }
    ensures below { IfOk result (λ r. AllByRecursion (NamedVarBelow (length nodes.new.texts) (length nodes.new.exprs)) r.0 × BlockBelow (length nodes.new.stmts) r.1) }
    ensures locals { IfOk result (λ r. map (var_made nodes.new.texts (exprs_of nodes.new)) r.0 ≡ map (resolved_variable (standing_here here.now)) (locals_of (parsed_block_at (stmt_trees here.now.parsed.now.exprs here.now.parsed.now.stmts) body.now))) }
    ensures body { IfOk result (λ r. block_at (stmts_of nodes.new) r.1 ≡ resolved_block (standing_here here.now) [] (parsed_block_at (stmt_trees here.now.parsed.now.exprs here.now.parsed.now.stmts) body.now)) }
{
    let locals = resolve_locals(alloc, nodes, here, body)?;
    let body = resolve_body(alloc, nodes, here, body)?;
    Ok((locals, body))
}

// What a method gives, then its locals and its body.
fn resolve_behind(
    alloc: Global,
    nodes: &mut NamedNodes,
    here: &Here<'_>,
    gives: &Option<TypeExpr>,
    body: &Block,
) -> Result<(Option<NamedType>, Sequence<NamedVar>, Block), NoMemory>
    requires gives { ResultBelow (length here.now.parsed.now.exprs) gives.now }
    requires body { BlockBelow (length here.now.parsed.now.stmts) body.now }
    ensures grows { OnOk result (Grows nodes.old nodes.new) }
    ensures below { IfOk result (λ r. NamedResultBelow (length nodes.new.exprs) r.0 × AllByRecursion (NamedVarBelow (length nodes.new.texts) (length nodes.new.exprs)) r.1 × BlockBelow (length nodes.new.stmts) r.2) }
    ensures gives { IfOk result (λ r. option_map (type_at (exprs_of nodes.new)) r.0 ≡ resolved_result (standing_here here.now) (parsed_result_at (expr_trees here.now.parsed.now.exprs) gives.now)) }
    ensures locals { IfOk result (λ r. map (var_made nodes.new.texts (exprs_of nodes.new)) r.1 ≡ map (resolved_variable (standing_here here.now)) (locals_of (parsed_block_at (stmt_trees here.now.parsed.now.exprs here.now.parsed.now.stmts) body.now))) }
    ensures body { IfOk result (λ r. block_at (stmts_of nodes.new) r.2 ≡ resolved_block (standing_here here.now) [] (parsed_block_at (stmt_trees here.now.parsed.now.exprs here.now.parsed.now.stmts) body.now)) }
{
    let gives = resolve_result(alloc, nodes, here, gives)?;
    let (locals, body) = resolve_inside(alloc, nodes, here, body)?;
    Ok((gives, locals, body))
}

// The struct that a method's declaration names, by number.
fn owned_by(tables: &Tables, owner: Name) -> StructId
    ensures { result.0 ≡ or_zero (number_at tables.now.structs owner.text.0) }
{
    StructId(number_or(tables.structs.numbers.get(&owner.text.0).copied()))
}

/// What a method's declaration says.
#[derive(Clone, Copy)]
pub(crate) struct WrittenMethod<'a> {
    pub public: bool,
    /// The struct that it is a method of.
    pub owner: Name,
    pub name: Name,
    pub mark: WrittenMark,
    pub args: &'a [Field],
    pub gives: &'a Option<TypeExpr>,
    pub body: &'a Block,
}

/// Adds the nodes of a method's types and of its body, and answers the method. `scope` knows its arguments and its
/// locals.
pub(crate) fn resolve_method(
    alloc: Global,
    nodes: &mut NamedNodes,
    here: &Here<'_>,
    method: WrittenMethod<'_>,
) -> Result<NamedMethod, NoMemory>
    requires args { FieldsBelow (length here.now.parsed.now.exprs) method.args.now }
    requires gives { ResultBelow (length here.now.parsed.now.exprs) method.gives.now }
    requires body { BlockBelow (length here.now.parsed.now.stmts) method.body.now }
    ensures grows { OnOk result (Grows nodes.old nodes.new) }
    ensures below { IfOk result (NamedMethodBelow (length nodes.new.texts) (length nodes.new.exprs) (length nodes.new.stmts)) }
    ensures made { IfOk result (λ r. method_made nodes.new.texts (exprs_of nodes.new) (stmts_of nodes.new) r ≡ resolved_method (standing_here here.now) method.entry.mark
        (method_parsed (expr_trees here.now.parsed.now.exprs) (stmt_trees here.now.parsed.now.exprs here.now.parsed.now.stmts) method.entry.public method.entry.owner method.entry.name method.entry.args.now method.entry.gives.now method.entry.body.now)) }
{
    let (name, args) = resolve_named(alloc, nodes, here, method.name, method.args)?;
    let (gives, locals, body) = resolve_behind(alloc, nodes, here, method.gives, method.body)?;
    Ok(NamedMethod {
        name,
        of: owned_by(here.tables, method.owner),
        public: method.public,
        mark: mark(method.mark),
        args,
        locals,
        gives,
        body,
    })
}

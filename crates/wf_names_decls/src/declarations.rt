// What the declarations of a package break by their names and their number.

ghost use Rattle.std.specs.Prelude.{◌≡◌, [], ◌∷◌, fold, length, OnOk};
ghost use Rattle.wf_ast.specs.ParsedTrees.{expr_trees, stmt_trees, decl_trees, decl_made, block_at};
ghost use Rattle.wf_ast.specs.ParsedParts.{BlockBelow, DeclParts};
ghost use Rattle.wf_names_rules.specs.Declarations.{declared, structs_of, methods_of, locals_of};
ghost use Rattle.wf_names_rules.specs.NameRules.{variable_names};
ghost use Rattle.wf_names_decls.specs.Gathering.{constant_names, field_names as names_of_fields};
ghost use Rattle.wf_names_decls.specs.NameLists.{AreNameLists};
ghost use Rattle.wf_names_decls.specs.ConstantNames.{constant_by, AreConstantPlaces};
ghost use Rattle.wf_names_decls.specs.DeclarationPass.{names_judged, args_judged, locals_judged, struct_judged, method_judged, names_found, fields_found, variables_found, declarations_found};

use crate::gathering::{NameLists, field_names, local_names};
use crate::judging::{
    Constants, declared_twice, judge_args, judge_locals, judge_methods, judge_names,
};
use std::alloc::Global;
use wf_ast::PackageNodes;
use wf_ast::parsed::{Block, Decl, Field, Name};
use wf_names_rules::tables::Variables;
use wf_text::faults::NoMemory;
use wf_text::found::Found;

// The names of statuses, constants, structs and methods.
fn judge_package(
    alloc: Global,
    found: &mut Found,
    parsed: &PackageNodes,
    names: &NameLists,
) -> Result<(), NoMemory>
    requires { AreNameLists (declared parsed.now.texts (decl_trees parsed.now.exprs parsed.now.stmts parsed.now.decls)) names.now }
    ensures { OnOk result (found.new ≡ names_found (declared parsed.now.texts (decl_trees parsed.now.exprs parsed.now.stmts parsed.now.decls)) found.old) }
{
    declared_twice(alloc, found, names.statuses.as_slice())?;
    judge_names(alloc, found, parsed, names.constants.as_slice())?;
    judge_names(alloc, found, parsed, names.structs.as_slice())?;
    judge_methods(
        alloc,
        found,
        parsed,
        names.owners.as_slice(),
        names.methods.as_slice(),
    )
}

// The fields of a struct; their names pass through `names`, as those of each list do, so that one list serves all.
fn judge_fields(
    alloc: Global,
    found: &mut Found,
    parsed: &PackageNodes,
    names: &mut Vec<Name>,
    fields: &[Field],
) -> Result<(), NoMemory>
    ensures { OnOk result (found.new ≡ names_judged parsed.now.texts found.old (names_of_fields fields.now)) }
{
    field_names(names, fields)?;
    judge_names(alloc, found, parsed, names.as_slice())
}

// The fields of a struct; other declarations have none.
fn judge_struct(
    alloc: Global,
    found: &mut Found,
    parsed: &PackageNodes,
    names: &mut Vec<Name>,
    decl: &Decl,
) -> Result<(), NoMemory>
    ensures { (public : _) (at : _) → OnOk result (found.new ≡ fold (struct_judged parsed.now.texts) found.old (structs_of (decl_made (expr_trees parsed.now.exprs) (stmt_trees parsed.now.exprs parsed.now.stmts) public decl.now at ∷ []))) }
{
    match decl {
        Decl::Struct { fields, .. } => judge_fields(alloc, found, parsed, names, fields.as_slice()),
        Decl::Status(_) => Ok(()),
        Decl::Const { .. } => Ok(()),
        Decl::Method { .. } => Ok(()),
    }
}

fn judge_all_fields(alloc: Global, found: &mut Found, parsed: &PackageNodes) -> Result<(), NoMemory>
    ensures { OnOk result (found.new ≡ fields_found (declared parsed.now.texts (decl_trees parsed.now.exprs parsed.now.stmts parsed.now.decls)) found.old) }
{
    let mut names = Vec::new(alloc);
    for number in 0..parsed.decls().len() {
        judge_struct(alloc, found, parsed, &mut names, &parsed.decl(number).decl)?;
    }
    Ok(())
}

fn judge_arg_list(
    alloc: Global,
    found: &mut Found,
    parsed: &PackageNodes,
    names: &mut Vec<Name>,
    args: &[Field],
) -> Result<(), NoMemory>
    ensures { OnOk result (found.new ≡ args_judged parsed.now.texts found.old (names_of_fields args.now)) }
{
    field_names(names, args)?;
    judge_args(alloc, found, parsed, names.as_slice())
}

fn judge_body(
    alloc: Global,
    found: &mut Found,
    parsed: &PackageNodes,
    constants: &Constants<'_>,
    names: &mut Vec<Name>,
    body: &Block,
) -> Result<(), NoMemory>
    requires { BlockBelow (length parsed.now.stmts) body.now }
    ensures { OnOk result (found.new ≡ locals_judged (constant_by constants.now.names.now constants.now.places.now) parsed.now.texts found.old (variable_names (locals_of (block_at (stmt_trees parsed.now.exprs parsed.now.stmts) body.now)))) }
{
    local_names(names, parsed, body)?;
    judge_locals(alloc, found, parsed, constants, names.as_slice())
}

fn judge_variables(
    alloc: Global,
    found: &mut Found,
    parsed: &PackageNodes,
    constants: &Constants<'_>,
    names: &mut Vec<Name>,
    args: &[Field],
    body: &Block,
) -> Result<(), NoMemory>
    requires { BlockBelow (length parsed.now.stmts) body.now }
    ensures { OnOk result (found.new ≡ locals_judged (constant_by constants.now.names.now constants.now.places.now) parsed.now.texts (args_judged parsed.now.texts found.old (names_of_fields args.now)) (variable_names (locals_of (block_at (stmt_trees parsed.now.exprs parsed.now.stmts) body.now)))) }
{
    judge_arg_list(alloc, found, parsed, names, args)?;
    judge_body(alloc, found, parsed, constants, names, body)
}

// The arguments and locals of a method; other declarations have none.
fn judge_method(
    alloc: Global,
    found: &mut Found,
    parsed: &PackageNodes,
    constants: &Constants<'_>,
    names: &mut Vec<Name>,
    decl: &Decl,
) -> Result<(), NoMemory>
    requires { DeclParts (length parsed.now.exprs) (length parsed.now.stmts) decl.now }
    ensures { (public : _) (at : _) → OnOk result (found.new ≡ fold (method_judged (constant_by constants.now.names.now constants.now.places.now) parsed.now.texts) found.old (methods_of (decl_made (expr_trees parsed.now.exprs) (stmt_trees parsed.now.exprs parsed.now.stmts) public decl.now at ∷ []))) }
{
    match decl {
        Decl::Method { args, body, .. } => {
            judge_variables(
                alloc,
                found,
                parsed,
                constants,
                names,
                args.as_slice(),
                body,
            )
        }
        Decl::Status(_) => Ok(()),
        Decl::Const { .. } => Ok(()),
        Decl::Struct { .. } => Ok(()),
    }
}

fn judge_all_variables(
    alloc: Global,
    found: &mut Found,
    parsed: &PackageNodes,
    constants: &Constants<'_>,
) -> Result<(), NoMemory>
    ensures { OnOk result (found.new ≡ fold (method_judged (constant_by constants.now.names.now constants.now.places.now) parsed.now.texts) found.old (methods_of (decl_trees parsed.now.exprs parsed.now.stmts parsed.now.decls))) }
{
    let mut names = Vec::new(alloc);
    for number in 0..parsed.decls().len() {
        judge_method(
            alloc,
            found,
            parsed,
            constants,
            &mut names,
            &parsed.decl(number).decl,
        )?;
    }
    Ok(())
}

fn judge_methods_within(
    alloc: Global,
    found: &mut Found,
    parsed: &PackageNodes,
    constants: &Constants<'_>,
) -> Result<(), NoMemory>
    requires names { constants.now.names.now ≡ constant_names (declared parsed.now.texts (decl_trees parsed.now.exprs parsed.now.stmts parsed.now.decls)) }
    requires places { AreConstantPlaces (declared parsed.now.texts (decl_trees parsed.now.exprs parsed.now.stmts parsed.now.decls)) constants.now.places.now }
    ensures { OnOk result (found.new ≡ variables_found (declared parsed.now.texts (decl_trees parsed.now.exprs parsed.now.stmts parsed.now.decls)) found.old) }
{
    judge_all_variables(alloc, found, parsed, constants)
}

/// What the declarations of a package break joins what was found before: a name that is declared twice, a local of the name
/// of a constant, a reserved name, and more methods than 1,024, or locals than 256 or arguments than 64 of a method.
/// `names` are those of the package, and `constants` the table of its constants. `Err` only where memory was refused.
pub fn declarations(
    alloc: Global,
    found: &mut Found,
    parsed: &PackageNodes,
    names: &NameLists,
    constants: &Variables,
) -> Result<(), NoMemory>
    requires names { AreNameLists (declared parsed.now.texts (decl_trees parsed.now.exprs parsed.now.stmts parsed.now.decls)) names.now }
    requires constants { AreConstantPlaces (declared parsed.now.texts (decl_trees parsed.now.exprs parsed.now.stmts parsed.now.decls)) constants.now }
    ensures { OnOk result (found.new ≡ declarations_found (declared parsed.now.texts (decl_trees parsed.now.exprs parsed.now.stmts parsed.now.decls)) found.old) }
{
    let constants = Constants {
        names: names.constants.as_slice(),
        places: constants,
    };
    judge_package(alloc, found, parsed, names)?;
    judge_all_fields(alloc, found, parsed)?;
    judge_methods_within(alloc, found, parsed, &constants)
}

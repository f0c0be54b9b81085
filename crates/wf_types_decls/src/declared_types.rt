// The types of variables, of results and of the fields of structs.

ghost use Rattle.std.specs.Prelude.{◌≡◌, length, map, option_map, slice_get, IfOk, OnOk};
ghost use Rattle.std.specs.List.{AllByRecursion, flat_map};
ghost use Rattle.wf_named.specs.NamedParts.{exprs_of, NamedVarBelow, NamedResultBelow};
ghost use Rattle.wf_named.specs.NamedTrees.{type_at, var_made, struct_made};
ghost use Rattle.wf_types_rules.specs.declared.settings.Role.TheVariants as roles;
ghost use Rattle.wf_types_rules.specs.DeclaredTypes.{declared};
ghost use Rattle.wf_types_rules.specs.Parts.{variables_parts, result_parts};
ghost use Rattle.wf_types_exprs.specs.Judged.{judged};
ghost use Rattle.wf_types_decls.specs.Packages.{types_or_none};

use wf_ast::{Sequence, Ty};
use wf_base::Mark;
use wf_named::{NamedType, NamedVar};
use wf_text::StructId;
use wf_text::faults::NoMemory;
use wf_text::found::Found;
use wf_types_exprs::Here;
use wf_types_exprs::whole::judge_type;
use wf_types_rules::Role;

/// The types of fields, arguments or locals, in order, each where it breaks no rule.
pub(crate) fn judge_variables(
    here: &Here<'_>,
    found: &mut Found,
    role: Role,
    variables: &[NamedVar],
) -> Result<Sequence<Option<Ty>>, NoMemory>
    requires { AllByRecursion (NamedVarBelow (length here.now.nodes.now.texts) (length here.now.nodes.now.exprs)) variables.now }
    ensures found { OnOk result (found.new ≡ judged here.now.around.now found.old (variables_parts role (map (var_made here.now.nodes.now.texts (exprs_of here.now.nodes.now)) variables.now))) }
    ensures of { IfOk result (λ types. types ≡ map (λ x. declared here.now.around.now role x.of) (map (var_made here.now.nodes.now.texts (exprs_of here.now.nodes.now)) variables.now)) }
{
    let mut all = Sequence::new(here.alloc);
    for variable in variables {
        let ty = judge_type(here, found, role, &variable.of)?;
        all.push(ty)?;
    }
    Ok(all)
}

/// The type of the written result of a method with this mark, if there is one.
pub(crate) fn judge_result(
    here: &Here<'_>,
    found: &mut Found,
    mark: Mark,
    gives: &Option<NamedType>,
) -> Result<Option<Option<Ty>>, NoMemory>
    requires { NamedResultBelow (length here.now.nodes.now.exprs) gives.now }
    ensures found { OnOk result (found.new ≡ judged here.now.around.now found.old (result_parts mark (option_map (type_at (exprs_of here.now.nodes.now)) gives.now))) }
    ensures of { IfOk result (λ ty. ty ≡ option_map (declared here.now.around.now (roles.Result mark)) (option_map (type_at (exprs_of here.now.nodes.now)) gives.now)) }
{
    match gives {
        Some(of) => {
            let ty = judge_type(here, found, Role::Result(mark), of)?;
            Ok(Some(ty))
        }
        None => Ok(None),
    }
}

/// The types of the fields of all structs, by struct.
pub(crate) fn judge_fields(
    here: &Here<'_>,
    found: &mut Found,
) -> Result<Sequence<Sequence<Option<Ty>>>, NoMemory>
    ensures found { OnOk result (found.new ≡ judged here.now.around.now found.old (flat_map (λ x. variables_parts roles.Field x.fields) (map (struct_made here.now.nodes.now.texts (exprs_of here.now.nodes.now)) here.now.nodes.now.structs))) }
    ensures of { IfOk result (λ fields. fields ≡ map (λ x. map (λ y. declared here.now.around.now roles.Field y.of) x.fields) (map (struct_made here.now.nodes.now.texts (exprs_of here.now.nodes.now)) here.now.nodes.now.structs)) }
{
    let mut all = Sequence::new(here.alloc);
    for structure in here.nodes.structs() {
        let fields = judge_variables(here, found, Role::Field, structure.fields.as_slice())?;
        all.push(fields)?;
    }
    Ok(all)
}

/// The types of the fields of a struct, of those of all.
pub(crate) fn fields_of(fields: &[Sequence<Option<Ty>>], of: StructId) -> &[Option<Ty>]
    ensures { result.now ≡ types_or_none (slice_get fields.now of.0) }
{
    match fields.get(of.0 as usize) {
        Some(types) => types.as_slice(),
        None => &[],
    }
}

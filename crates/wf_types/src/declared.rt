// Structs and methods as they are declared, with their types.

ghost use Rattle.std.specs.Prelude.{◌≡◌, length, map, option_map, IfOk};
ghost use Rattle.wf_named.specs.NamedParts.{named_package};
ghost use Rattle.wf_types_decls.specs.Packages.{field_types, heads_of};
ghost use Rattle.wf_types.specs.DeclaredNodes.{type_or_flag as or_flag, variable_with, variables_with, struct_with, method_with, declared_struct, declared_method};

use std::alloc::Global;
use wf_ast::{Method, Sequence, Struct, Ty, Var};
use wf_named::{NamedMethod, NamedNodes, NamedStruct, NamedVar};
use wf_text::faults::NoMemory;
use wf_types_decls::Head;

fn type_or_flag(ty: Option<Ty>) -> Ty
    ensures { result ≡ or_flag ty }
{
    match ty {
        Some(ty) => ty,
        None => Ty::Flag,
    }
}

fn result_type(gives: Option<Option<Ty>>) -> Option<Ty>
    ensures { result ≡ option_map or_flag gives }
{
    Some(type_or_flag(gives?))
}

fn variable(of: &NamedVar, ty: Option<Ty>) -> Var
    ensures { result ≡ variable_with of.now ty }
{
    Var {
        name: of.name.text,
        ty: type_or_flag(ty),
        at: of.name.at,
    }
}

/// Fields, arguments or locals with their types, in order.
pub(crate) fn variables(
    alloc: Global,
    of: &[NamedVar],
    types: &[Option<Ty>],
) -> Result<Sequence<Var>, NoMemory>
    requires { length types.now ≡ length of.now }
    ensures { IfOk result (λ all. all ≡ variables_with of.now types.now) }
{
    let mut all = Sequence::new(alloc);
    for number in 0..of.len() {
        all.push(variable(&of[number], types[number]))?;
    }
    Ok(all)
}

/// A struct, whose fields have these types.
pub(crate) fn structure(
    alloc: Global,
    of: &NamedStruct,
    types: &[Option<Ty>],
) -> Result<Struct, NoMemory>
    requires { length types.now ≡ length of.now.fields }
    ensures { IfOk result (λ s. s ≡ struct_with of.now types.now) }
{
    let fields = variables(alloc, of.fields.as_slice(), types)?;
    Ok(Struct {
        name: of.name.text,
        public: of.public,
        fields,
        at: of.name.at,
    })
}

/// All structs of a package, where `fields` are the types of their fields.
pub(crate) fn structs(
    alloc: Global,
    nodes: &NamedNodes,
    fields: &[Sequence<Option<Ty>>],
) -> Result<Sequence<Struct>, NoMemory>
    requires { fields.now ≡ field_types (named_package nodes.now) }
    ensures { IfOk result (λ all. all ≡ map (declared_struct nodes.now) nodes.now.structs) }
{
    let mut all = Sequence::new(alloc);
    let of = nodes.structs();
    for number in 0..of.len() {
        let one = structure(alloc, &of[number], fields[number].as_slice())?;
        all.push(one)?;
    }
    Ok(all)
}

/// A method, where `head` has the types of what it declares.
pub(crate) fn method(alloc: Global, of: &NamedMethod, head: &Head) -> Result<Method, NoMemory>
    requires args { length head.now.args ≡ length of.now.args }
    requires locals { length head.now.locals ≡ length of.now.locals }
    ensures { IfOk result (λ m. m ≡ method_with of.now head.now.args head.now.locals head.now.gives) }
{
    let args = variables(alloc, of.args.as_slice(), head.args.as_slice())?;
    let locals = variables(alloc, of.locals.as_slice(), head.locals.as_slice())?;
    Ok(Method {
        name: of.name.text,
        of: of.of,
        public: of.public,
        mark: of.mark,
        args,
        locals,
        gives: result_type(head.gives),
        at: of.name.at,
    })
}

/// All methods of a package, where `heads` are the types of what they declare.
pub(crate) fn methods(
    alloc: Global,
    nodes: &NamedNodes,
    heads: &[Head],
) -> Result<Sequence<Method>, NoMemory>
    requires { heads.now ≡ heads_of (named_package nodes.now) }
    ensures { IfOk result (λ all. all ≡ map (declared_method nodes.now) nodes.now.methods) }
{
    let mut all = Sequence::new(alloc);
    let of = nodes.methods();
    for number in 0..of.len() {
        let one = method(alloc, &of[number], &heads[number])?;
        all.push(one)?;
    }
    Ok(all)
}

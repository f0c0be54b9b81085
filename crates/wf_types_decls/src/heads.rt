// What methods declare: the types of their arguments, their locals and their results.

ghost use Rattle.std.specs.Prelude.{◌≡◌, length, map, IfOk, OnOk};
ghost use Rattle.std.specs.List.{flat_map};
ghost use Rattle.wf_named.specs.NamedParts.{exprs_of, stmts_of, named_package, NamedMethodBelow};
ghost use Rattle.wf_named.specs.NamedTrees.{method_made};
ghost use Rattle.wf_types_rules.specs.DeclaredTypes.{for_types, method_type as type_of_method};
ghost use Rattle.wf_types_exprs.specs.Judged.{judged};
ghost use Rattle.wf_types_decls.specs.Packages.{head_of, heads_of, head_parts};

use crate::declared_types::{judge_result, judge_variables};
use std::alloc::Global;
use wf_ast::{Sequence, Ty};
use wf_named::{NamedMethod, NamedNodes};
use wf_text::faults::NoMemory;
use wf_text::found::Found;
use wf_types_exprs::Here;
use wf_types_rules::{MethodType, Role};

/// The types of a method's arguments and locals, in order, and of its written result. A type that breaks a rule is absent.
#[derive(Drop)]
pub struct Head {
    pub args: Sequence<Option<Ty>>,
    pub locals: Sequence<Option<Ty>>,
    pub gives: Option<Option<Ty>>,
}

// What a method declares.
fn judge_head(here: &Here<'_>, found: &mut Found, method: &NamedMethod) -> Result<Head, NoMemory>
    requires types { here.now.around.now ≡ for_types (named_package here.now.nodes.now) }
    requires below { NamedMethodBelow (length here.now.nodes.now.texts) (length here.now.nodes.now.exprs) (length here.now.nodes.now.stmts) method.now }
    ensures found { OnOk result (found.new ≡ judged here.now.around.now found.old (head_parts (method_made here.now.nodes.now.texts (exprs_of here.now.nodes.now) (stmts_of here.now.nodes.now) method.now))) }
    ensures of { IfOk result (λ head. head ≡ head_of (named_package here.now.nodes.now) (method_made here.now.nodes.now.texts (exprs_of here.now.nodes.now) (stmts_of here.now.nodes.now) method.now)) }
{
    let args = judge_variables(here, found, Role::Arg, method.args.as_slice())?;
    let locals = judge_variables(here, found, Role::Local, method.locals.as_slice())?;
    let gives = judge_result(here, found, method.mark, &method.gives)?;
    Ok(Head {
        args,
        locals,
        gives,
    })
}

/// What all methods declare, by method, where the constants are known.
pub(crate) fn judge_heads(here: &Here<'_>, found: &mut Found) -> Result<Sequence<Head>, NoMemory>
    requires { here.now.around.now ≡ for_types (named_package here.now.nodes.now) }
    ensures found { OnOk result (found.new ≡ judged here.now.around.now found.old (flat_map head_parts (map (method_made here.now.nodes.now.texts (exprs_of here.now.nodes.now) (stmts_of here.now.nodes.now)) here.now.nodes.now.methods))) }
    ensures of { IfOk result (λ heads. heads ≡ map (head_of (named_package here.now.nodes.now)) (map (method_made here.now.nodes.now.texts (exprs_of here.now.nodes.now) (stmts_of here.now.nodes.now)) here.now.nodes.now.methods)) }
{
    let mut all = Sequence::new(here.alloc);
    for method in here.nodes.methods() {
        let head = judge_head(here, found, method)?;
        all.push(head)?;
    }
    Ok(all)
}

// What calls know of a method that declares this.
fn method_type(alloc: Global, method: &NamedMethod, head: &Head) -> Result<MethodType, NoMemory>
    ensures { IfOk result (λ t. t ≡ record { mark = method.now.mark; args = head.now.args; gives = head.now.gives }) }
{
    let args = Sequence::from_slice(alloc, head.args.as_slice())?;
    Ok(MethodType {
        mark: method.mark,
        args,
        gives: head.gives,
    })
}

/// What calls know of all methods, by number.
pub(crate) fn method_types(
    alloc: Global,
    nodes: &NamedNodes,
    heads: &[Head],
) -> Result<Sequence<MethodType>, NoMemory>
    requires { heads.now ≡ heads_of (named_package nodes.now) }
    ensures { IfOk result (λ all. all ≡ map (type_of_method (named_package nodes.now)) (map (method_made nodes.now.texts (exprs_of nodes.now) (stmts_of nodes.now)) nodes.now.methods)) }
{
    let mut all = Sequence::new(alloc);
    let methods = nodes.methods();
    for number in 0..methods.len() {
        let of = method_type(alloc, &methods[number], &heads[number])?;
        all.push(of)?;
    }
    Ok(all)
}

// A function of a unit (ISO/IEC 9899:1999, 6.9.1): the names in its expressions, and its value in an expression.

ghost use Rattle.std.specs.Prelude.{◌≡◌, ◌<◌, ◌++◌, ◌∷◌, [], false, true, length, map, is_some, option_map, IfOk, OnOk};
ghost use Rattle.c_text.specs.CNodes.{bytes_at, type_in, param_tree, local_tree, expr_of, code_of};
ghost use Rattle.c_text.specs.CFits.{HasName, HasType, HasParams, HasLocals};
ghost use Rattle.c_text.specs.CGrammar.{is_finish};
ghost use Rattle.c_meaning.specs.CTypes.{local_name, returned};
ghost use Rattle.c_meaning.specs.UnitForm.{is_among, all_distinct};
ghost use Rattle.c_form_exprs.specs.Front.{scope_in};
ghost use Rattle.c_form_stmts.specs.Functions.{HasParts};
ghost use Rattle.c_form_stmts.specs.Names.{are_new};
ghost use Rattle.c_step_run.specs.Coding.{is_static, inline_length as inline_length_of};
ghost use Rattle.c_step_load.specs.Loading.{own_names, inline_by};

use c_form_exprs::{CScope, Front};
use c_form_stmts::Parts;
use c_step_load_exprs::{Numbers, cell_type};
use c_step_places::Weighed;
use c_step_run::Inline;
use c_step_text::Span;
use c_text::{CLocal, CNameId, CParam, CStmt, CStmtId, CType, Linkage, Unit};
use std::alloc::Global;
use wf_text::NoMemory;

/// What is known of the whole unit.
#[derive(Clone, Copy)]
pub(crate) struct Known<'k, 'u> {
    /// What all its items declare.
    pub front: &'k Front<'u>,
    /// The numbers of what they declare.
    pub numbers: &'k Numbers<'u>,
    /// Its statements with their weights.
    pub weighed: Weighed<'k>,
    /// Where lists come from.
    pub alloc: Global,
}

/// Adds a parameter or local, whose name is new.
fn declare<'k, 'u>(scope: &mut CScope<'k, 'u>, name: CNameId, kind: CType) -> Result<(), NoMemory>
    requires name { HasName scope.old.front.nodes name }
    requires kind { HasType scope.old.front.nodes kind }
    requires fresh { is_among (map (λ it. it.name) (scope_in scope.old).names) (bytes_at scope.old.front.nodes.names name.0) ≡ false }
    ensures front { OnOk result (scope.new.front ≡ scope.old.front) }
    ensures names { OnOk result ((scope_in scope.new).names ≡ (scope_in scope.old).names ++ record { kind = type_in scope.old.front.nodes.names kind; name = bytes_at scope.old.front.nodes.names name.0 } ∷ []) }
{
    scope.declare(name, kind)?;
    Ok(())
}

/// Adds parameters, whose names are new.
fn declare_params<'k, 'u>(scope: &mut CScope<'k, 'u>, params: &[CParam]) -> Result<(), NoMemory>
    requires params { HasParams scope.old.front.nodes params.now }
    requires fresh { are_new (map (λ it. it.name) (scope_in scope.old).names) (map (λ it. it.name) (map (param_tree scope.old.front.nodes.names) params.now)) ≡ true }
    ensures front { OnOk result (scope.new.front ≡ scope.old.front) }
    ensures names { OnOk result ((scope_in scope.new).names ≡ (scope_in scope.old).names ++ map (param_tree scope.old.front.nodes.names) params.now) }
{
    for param in params {
        declare(scope, param.name, param.kind)?;
    }
    Ok(())
}

/// Adds locals, whose names are new.
fn declare_locals<'k, 'u>(scope: &mut CScope<'k, 'u>, locals: &[CLocal]) -> Result<(), NoMemory>
    requires locals { HasLocals scope.old.front.nodes locals.now }
    requires fresh { are_new (map (λ it. it.name) (scope_in scope.old).names) (map (λ it. it.name) (map local_name (map (local_tree scope.old.front.nodes.names (expr_of scope.old.front.nodes)) locals.now))) ≡ true }
    ensures front { OnOk result (scope.new.front ≡ scope.old.front) }
    ensures names { OnOk result ((scope_in scope.new).names ≡ (scope_in scope.old).names ++ map local_name (map (local_tree scope.old.front.nodes.names (expr_of scope.old.front.nodes)) locals.now)) }
{
    for local in locals {
        declare(scope, local.name, local.kind)?;
    }
    Ok(())
}

/// The scope of a function with these parts, after what `front` declares.
pub(crate) fn scope_of<'k, 'u>(
    alloc: Global,
    front: &'k Front<'u>,
    parts: Parts<'_>,
) -> Result<CScope<'k, 'u>, NoMemory>
    requires parts { HasParts front.now.nodes parts }
    requires own { all_distinct (map (λ it. it.name) (own_names front.now.nodes parts)) ≡ true }
    ensures front { IfOk result (λ scope. scope.front ≡ front.now) }
    ensures names { IfOk result (λ scope. (scope_in scope).names ≡ own_names front.now.nodes parts.entry) }
{
    let mut scope = CScope::new(alloc, front);
    declare_params(&mut scope, parts.params)?;
    declare_locals(&mut scope, parts.locals)?;
    Ok(scope)
}

/// Whether a block is empty.
fn is_end(unit: &Unit, body: CStmtId) -> bool
    requires { body.0 < length unit.now.stmts }
    ensures { result ≡ is_finish (code_of unit.now body.0) }
{
    match unit.stmt(body) {
        CStmt::End => true,
        _ => false,
    }
}

/// Whether a body is one `return` of a value.
fn is_value(unit: &Unit, body: CStmtId) -> bool
    requires { body.0 < length unit.now.stmts }
    ensures { result ≡ is_some (returned (code_of unit.now body.0)) }
{
    match unit.stmt(body) {
        CStmt::Return { value, rest } => {
            if is_end(unit, *rest) {
                value.is_some()
            } else {
                false
            }
        }
        _ => false,
    }
}

/// What a function returns in an expression, where the instructions of its body's expressions are `value`; none where its body
/// isn't one `return` of a value.
pub(crate) fn inline(unit: &Unit, parts: Parts<'_>, value: Span) -> Option<Inline>
    requires { parts.body.0 < length unit.now.stmts }
    ensures { result ≡ inline_by value (returned (code_of unit.now parts.entry.body.0)) (option_map (type_in unit.now.names) parts.entry.result_type) }
{
    let ty = parts.result_type?;
    if is_value(unit, parts.body) {
        Some(Inline {
            value,
            ty: cell_type(ty),
        })
    } else {
        None
    }
}

/// How many instructions a function's value in an expression has; 0 where it has none.
pub(crate) fn inline_length(inline: Option<Inline>) -> usize
    ensures { result ≡ inline_length_of inline }
{
    match inline {
        Some(it) => it.value.to.saturating_sub(it.value.from),
        None => 0,
    }
}

/// Whether a function's entry is a turn.
pub(crate) fn takes_turn(linkage: Linkage) -> bool
    ensures { result ≡ is_static linkage }
{
    match linkage {
        Linkage::Static => true,
        Linkage::External => false,
        Linkage::StaticInline => false,
    }
}

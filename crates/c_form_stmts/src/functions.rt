// The parts of a function: its names, the initial values of its locals, and its body (ISO/IEC 9899:1999, 6.9.1).

ghost use Rattle.std.specs.Prelude.{◌≡◌, ◌<◌, ℕ, List, length, map, is_some, option_map, true, IfOk, IfSome};
ghost use Rattle.c_text.specs.CNodes.{bytes_at, type_in, value_in, param_tree, local_tree, expr_of, code_of};
ghost use Rattle.c_text.specs.CFits.{HasName, HasType, HasParams, HasLocal, HasLocals};
ghost use Rattle.c_meaning.specs.CTypes.{local_name};
ghost use Rattle.c_meaning.specs.UnitForm.{is_among, is_result as is_result_type, formed_initial};
ghost use Rattle.c_form_exprs.specs.Front.{scope_in};
ghost use Rattle.c_form_stmts.specs.Names.{is_addable, with_name, with_names, params_fit, is_local, locals_fit, is_in};
ghost use Rattle.c_form_stmts.specs.Functions.{HasParts, formed_parts, formed_body};

use crate::calls::is_library;
use crate::labels::labels;
use crate::lines::lines;
use crate::statements::Frame;
use c_form_exprs::{CScope, Front, SpellingTable};
use c_text::{CExprId, CLocal, CNameId, CParam, CStmtId, CType, Linkage};
use std::alloc::Global;
use wf_text::NoMemory;

/// What a function is made of, its name apart.
#[derive(Clone, Copy)]
pub struct Parts<'u> {
    /// Where it can be called from.
    pub linkage: Linkage,
    /// The type of its result; none for `void`.
    pub result_type: Option<CType>,
    /// The parameters, in order.
    pub params: &'u [CParam],
    /// The locals, in order.
    pub locals: &'u [CLocal],
    /// The statements.
    pub body: CStmtId,
}

/// Whether a result is void, a number or a string's pointer.
fn is_result(result_type: Option<CType>) -> bool
    ensures { (names : List (List ℕ)) → result ≡ is_result_type (option_map (type_in names) result_type) }
{
    match result_type {
        None => true,
        Some(CType::Uint(_)) => true,
        Some(CType::Size) => true,
        Some(CType::Bool) => true,
        Some(CType::Text) => true,
        Some(CType::UintPointer(_)) => false,
        Some(CType::StructPointer(_)) => false,
    }
}

/// Adds a parameter or local to the scope, where it can be.
fn add<'k, 'u>(
    scope: &mut CScope<'k, 'u>,
    items: &SpellingTable<'u, usize>,
    name: CNameId,
    kind: CType,
) -> Result<bool, NoMemory>
    requires name { HasName scope.old.front.nodes name }
    requires kind { HasType scope.old.front.nodes kind }
    ensures fits { IfOk result (λ fits. fits ≡ is_addable (is_in items.now) (scope_in scope.old) (record { kind = type_in scope.old.front.nodes.names kind; name = bytes_at scope.old.front.nodes.names name.0 })) }
    ensures front { IfOk result (λ fits. fits ≡ true → scope.new.front ≡ scope.old.front) }
    ensures added { IfOk result (λ fits. fits ≡ true → scope_in scope.new ≡ with_name (scope_in scope.old) (record { kind = type_in scope.old.front.nodes.names kind; name = bytes_at scope.old.front.nodes.names name.0 })) }
{
    if !scope.is_known(kind) {
        return Ok(false);
    }
    let spelt = scope.unit().name(name);
    if items.get(spelt).is_some() {
        return Ok(false);
    }
    if is_library(spelt) {
        return Ok(false);
    }
    scope.declare(name, kind)
}

/// Adds the parameters to the scope, where they can be.
fn add_params<'k, 'u>(
    scope: &mut CScope<'k, 'u>,
    items: &SpellingTable<'u, usize>,
    params: &[CParam],
) -> Result<bool, NoMemory>
    requires { HasParams scope.old.front.nodes params.now }
    ensures fits { IfOk result (λ fits. fits ≡ params_fit (is_in items.now) (scope_in scope.old) (map (param_tree scope.old.front.nodes.names) params.now)) }
    ensures front { IfOk result (λ fits. fits ≡ true → scope.new.front ≡ scope.old.front) }
    ensures added { IfOk result (λ fits. fits ≡ true → scope_in scope.new ≡ with_names (scope_in scope.old) (map (param_tree scope.old.front.nodes.names) params.now)) }
{
    for param in params {
        if !add(scope, items, param.name, param.kind)? {
            return Ok(false);
        }
    }
    Ok(true)
}

/// Whether the initial value of a local is formed (6.7.8p11).
fn is_initial(
    scope: &CScope<'_, '_>,
    kind: CType,
    initial: Option<CExprId>,
) -> Result<bool, NoMemory>
    requires kind { HasType scope.now.front.nodes kind }
    requires initial { IfSome initial (λ e. e.0 < length scope.now.front.nodes.exprs) }
    ensures { IfOk result (λ formed. formed ≡ formed_initial (scope_in scope.now) (type_in scope.now.front.nodes.names kind) (value_in (expr_of scope.now.front.nodes) initial)) }
{
    match initial {
        None => Ok(true),
        Some(e) => match scope.type_of(e)? {
            Some(ty) => Ok(scope.is_assignable(kind, ty)),
            None => Ok(false),
        },
    }
}

/// Adds a local to the scope, where it can be and its initial value is formed.
fn add_local<'k, 'u>(
    scope: &mut CScope<'k, 'u>,
    items: &SpellingTable<'u, usize>,
    local: CLocal,
) -> Result<bool, NoMemory>
    requires { HasLocal scope.old.front.nodes local }
    ensures fits { IfOk result (λ fits. fits ≡ is_local (is_in items.now) (scope_in scope.old) (local_tree scope.old.front.nodes.names (expr_of scope.old.front.nodes) local)) }
    ensures front { IfOk result (λ fits. fits ≡ true → scope.new.front ≡ scope.old.front) }
    ensures added { IfOk result (λ fits. fits ≡ true → scope_in scope.new ≡ with_name (scope_in scope.old) (local_name (local_tree scope.old.front.nodes.names (expr_of scope.old.front.nodes) local))) }
{
    if is_initial(scope, local.kind, local.initial)? {
        add(scope, items, local.name, local.kind)
    } else {
        Ok(false)
    }
}

/// Adds the locals to the scope, where they can be and their initial values are formed.
fn add_locals<'k, 'u>(
    scope: &mut CScope<'k, 'u>,
    items: &SpellingTable<'u, usize>,
    locals: &[CLocal],
) -> Result<bool, NoMemory>
    requires { HasLocals scope.old.front.nodes locals.now }
    ensures fits { IfOk result (λ fits. fits ≡ locals_fit (is_in items.now) (scope_in scope.old) (map (local_tree scope.old.front.nodes.names (expr_of scope.old.front.nodes)) locals.now)) }
    ensures front { IfOk result (λ fits. fits ≡ true → scope.new.front ≡ scope.old.front) }
    ensures added { IfOk result (λ fits. fits ≡ true → scope_in scope.new ≡ with_names (scope_in scope.old) (map local_name (map (local_tree scope.old.front.nodes.names (expr_of scope.old.front.nodes)) locals.now))) }
{
    for local in locals {
        if !add_local(scope, items, *local)? {
            return Ok(false);
        }
    }
    Ok(true)
}

/// Whether the statements of a function are formed.
fn is_formed_body(
    alloc: Global,
    scope: &CScope<'_, '_>,
    linkage: Linkage,
    result_type: Option<CType>,
    body: CStmtId,
) -> Result<bool, NoMemory>
    requires result_type { IfSome result_type (HasType scope.now.front.nodes) }
    requires body { body.0 < length scope.now.front.nodes.stmts }
    ensures { IfOk result (λ formed. formed ≡ formed_body (record { scope = scope_in scope.now; linkage = linkage; result_type = option_map (type_in scope.now.front.nodes.names) result_type; body = code_of scope.now.front.nodes body.0 })) }
{
    let unit = scope.unit();
    let listed = lines(alloc, unit, body, true)?;
    match labels(alloc, unit, listed.as_slice())? {
        Some(labels) => {
            let frame = Frame {
                scope,
                linkage,
                result_type,
                labels,
            };
            frame.are_formed(listed.as_slice())
        }
        None => Ok(false),
    }
}

/// Whether a function of these parts, after the items of `front`, is formed; `items` are the names of all items of the
/// text.
pub fn is_formed_function<'u>(
    alloc: Global,
    front: &Front<'u>,
    items: &SpellingTable<'u, usize>,
    parts: Parts<'u>,
) -> Result<bool, NoMemory>
    requires { HasParts front.now.nodes parts }
    ensures { (all : List (List ℕ)) → ((q : List ℕ) → is_in items.now q ≡ is_among all q) → IfOk result (λ formed. formed ≡ formed_parts front.now all parts.entry) }
{
    if !is_result(parts.result_type) {
        return Ok(false);
    }
    let mut scope = CScope::new(alloc, front);
    if !add_params(&mut scope, items, parts.params)? {
        return Ok(false);
    }
    if !add_locals(&mut scope, items, parts.locals)? {
        return Ok(false);
    }
    is_formed_body(alloc, &scope, parts.linkage, parts.result_type, parts.body)
}

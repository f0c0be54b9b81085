// Which functions may be called in an expression: `static inline`, of numbers alone, and one `return` (ISO/IEC
// 9899:1999, 6.7.4, 6.8.6.4).

ghost use Rattle.std.specs.Prelude.{◌≡◌, ◌<◌, ℕ, List, length, map, is_some, option_map};
ghost use Rattle.c_text.specs.CGrammar.{is_finish};
ghost use Rattle.c_text.specs.CNodes.{type_in, param_tree, local_tree, expr_of, code_of};
ghost use Rattle.c_meaning.specs.CTypes.{is_inline as is_inline_linkage, returned, is_expression};
ghost use Rattle.c_form_exprs.specs.Callable.{is_numeric_type, gives_numeric};
ghost use Rattle.std.specs.List.{list_all};

use c_text::{CLocal, CParam, CStmt, CStmtId, CType, Linkage, Unit};

/// Whether a type is one of numbers, flags among them (6.2.5p18).
pub(crate) fn is_number(ty: CType) -> bool
    ensures { result ≡ is_numeric_type ty }
{
    match ty {
        CType::Uint(_) | CType::Size | CType::Bool => true,
        CType::UintPointer(_) | CType::StructPointer(_) | CType::Text => false,
    }
}

fn is_inline(linkage: Linkage) -> bool
    ensures { result ≡ is_inline_linkage linkage }
{
    match linkage {
        Linkage::StaticInline => true,
        Linkage::External | Linkage::Static => false,
    }
}

fn gives_number(result_type: Option<CType>) -> bool
    ensures { result ≡ gives_numeric result_type }
{
    match result_type {
        Some(ty) => is_number(ty),
        None => false,
    }
}

fn takes_numbers(params: &[CParam]) -> bool
    ensures { result ≡ list_all (λ p. is_numeric_type p.kind) params.now }
{
    for param in params {
        if !is_number(param.kind) {
            return false;
        }
    }
    true
}

/// Whether nothing stands from this statement on.
fn is_end(unit: &Unit, s: CStmtId) -> bool
    requires { s.0 < length unit.now.stmts }
    ensures { result ≡ is_finish (code_of unit.now s.0) }
{
    match unit.stmt(s) {
        CStmt::End => true,
        _ => false,
    }
}

/// Whether a body is one `return` of a value.
fn returns_at_once(unit: &Unit, body: CStmtId) -> bool
    requires { body.0 < length unit.now.stmts }
    ensures { result ≡ is_some (returned (code_of unit.now body.0)) }
{
    match unit.stmt(body) {
        CStmt::Return {
            value: Some(_),
            rest,
        } => is_end(unit, *rest),
        _ => false,
    }
}

/// Whether a function of these parts may be called in an expression.
pub(crate) fn in_expressions(
    unit: &Unit,
    linkage: Linkage,
    result_type: Option<CType>,
    params: &[CParam],
    locals: &[CLocal],
    body: CStmtId,
) -> bool
    requires { body.0 < length unit.now.stmts }
    ensures { (name : List ℕ) → result ≡ is_expression (record { linkage = linkage; result_type = option_map (type_in unit.now.names) result_type; name = name; params = map (param_tree unit.now.names) params.now; locals = map (local_tree unit.now.names (expr_of unit.now)) locals.now; body = code_of unit.now body.0 }) }
{
    is_inline(linkage)
        & (gives_number(result_type)
            & (takes_numbers(params) & (locals.is_empty() & returns_at_once(unit, body))))
}

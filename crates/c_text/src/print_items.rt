// Prints the items of a unit, each after an empty line.

ghost use Rattle.std.specs.Prelude.{◌≡◌, ◌<◌, ◌++◌, length, map, false, codes, IfSome, slice_get};
ghost use Rattle.std.specs.Option.{option_map};
ghost use Rattle.c_text.specs.CNodes.{bytes_at, type_in, expr_of, code_of, value_in, field_kind, field_tree, param_tree, local_tree, unit_tree};
ghost use Rattle.c_text.specs.CFits.{HasName, HasType, HasFieldType, HasField, HasFields, HasParam, HasParams, HasLocal, HasLocals};
ghost use Rattle.c_text.specs.CLayout.{field_kind_text, count_text, field_text, fields_text, param_text, more_params_text, params_text, initial_text, local_text, locals_text, linkage_bytes, result_text, item_text, code_text, text_of};

use crate::ids::{CExprId, CItemId, CNameId, CStmtId};
use crate::kinds::{CNumber, Linkage};
use crate::nodes::{CField, CFieldType, CItem, CLocal, CParam, CType};
use crate::print_code::code;
use crate::print_exprs::{expr, literal, value_type};
use crate::unit::Unit;
use pens::Pen;

fn field_type<P: Pen>(u: &Unit, kind: CFieldType, pen: &mut P)
    requires has { HasFieldType u.now kind }
    requires ready { P.ready pen.old }
    ensures ready { P.ready pen.new }
    ensures writes { P.writes pen.old pen.new (field_kind_text (field_kind u.now.names kind)) }
{
    match kind {
        CFieldType::Plain(plain) => value_type(u, plain, pen),
        CFieldType::Struct(name) => pen.write(u.name(name)),
    }
}

/// Prints the length of an array field, in brackets.
fn field_count<P: Pen>(count: Option<CNumber>, pen: &mut P)
    requires ready { P.ready pen.old }
    ensures ready { P.ready pen.new }
    ensures writes { P.writes pen.old pen.new (count_text count) }
{
    if let Some(n) = count {
        pen.write(b"[");
        literal(n, pen);
        pen.write(b"]");
    }
}

fn field<P: Pen>(u: &Unit, field: CField, pen: &mut P)
    requires has { HasField u.now field }
    requires ready { P.ready pen.old }
    ensures ready { P.ready pen.new }
    ensures writes { P.writes pen.old pen.new (field_text (field_tree u.now.names field)) }
{
    pen.write(b"  ");
    field_type(u, field.kind, pen);
    pen.write(b" ");
    pen.write(u.name(field.name));
    field_count(field.count, pen);
    pen.write(b";\n");
}

fn fields<P: Pen>(u: &Unit, fields: &[CField], pen: &mut P)
    requires has { HasFields u.now fields.now }
    requires ready { P.ready pen.old }
    ensures ready { P.ready pen.new }
    ensures writes { P.writes pen.old pen.new (fields_text (map (field_tree u.now.names) fields.now)) }
{
    for one in fields {
        field(u, *one, pen);
    }
}

fn param<P: Pen>(u: &Unit, param: CParam, pen: &mut P)
    requires has { HasParam u.now param }
    requires ready { P.ready pen.old }
    ensures ready { P.ready pen.new }
    ensures writes { P.writes pen.old pen.new (param_text (param_tree u.now.names param)) }
{
    value_type(u, param.kind, pen);
    pen.write(b" ");
    pen.write(u.name(param.name));
}

/// Prints parameters, each after a comma.
fn more_params<P: Pen>(u: &Unit, params: &[CParam], pen: &mut P)
    requires has { HasParams u.now params.now }
    requires ready { P.ready pen.old }
    ensures ready { P.ready pen.new }
    ensures writes { P.writes pen.old pen.new (more_params_text (map (param_tree u.now.names) params.now)) }
{
    for one in params {
        pen.write(b", ");
        param(u, *one, pen);
    }
}

fn params<P: Pen>(u: &Unit, params: &[CParam], pen: &mut P)
    requires has { HasParams u.now params.now }
    requires ready { P.ready pen.old }
    ensures ready { P.ready pen.new }
    ensures writes { P.writes pen.old pen.new (params_text (map (param_tree u.now.names) params.now)) }
{
    match params {
        [] => pen.write(b"void"),
        [first, others @ ..] => {
            param(u, *first, pen);
            more_params(u, others, pen);
        }
    }
}

/// Prints the initial value of a local, with a `=` before it.
fn initial<P: Pen>(u: &Unit, initial: Option<CExprId>, pen: &mut P)
    requires has { IfSome initial (λ e. e.0 < length u.now.exprs) }
    requires ready { P.ready pen.old }
    ensures ready { P.ready pen.new }
    ensures writes { P.writes pen.old pen.new (initial_text (value_in (expr_of u.now) initial)) }
{
    if let Some(e) = initial {
        pen.write(b" = ");
        expr(u, e, pen);
    }
}

fn local<P: Pen>(u: &Unit, local: CLocal, pen: &mut P)
    requires has { HasLocal u.now local }
    requires ready { P.ready pen.old }
    ensures ready { P.ready pen.new }
    ensures writes { P.writes pen.old pen.new (local_text (local_tree u.now.names (expr_of u.now) local)) }
{
    pen.write(b"  ");
    value_type(u, local.kind, pen);
    pen.write(b" ");
    pen.write(u.name(local.name));
    initial(u, local.initial, pen);
    pen.write(b";\n");
}

fn locals<P: Pen>(u: &Unit, locals: &[CLocal], pen: &mut P)
    requires has { HasLocals u.now locals.now }
    requires ready { P.ready pen.old }
    ensures ready { P.ready pen.new }
    ensures writes { P.writes pen.old pen.new (locals_text (map (local_tree u.now.names (expr_of u.now)) locals.now)) }
{
    for one in locals {
        local(u, *one, pen);
    }
}

/// Prints an empty line and the words before a function.
fn linkage_words(linkage: Linkage) -> &'static [u8]
    ensures { result.now ≡ linkage_bytes linkage }
{
    match linkage {
        Linkage::External => b"\n",
        Linkage::Static => b"\nstatic ",
        Linkage::StaticInline => b"\nstatic inline ",
    }
}

fn result_type<P: Pen>(u: &Unit, kind: Option<CType>, pen: &mut P)
    requires has { IfSome kind (HasType u.now) }
    requires ready { P.ready pen.old }
    ensures ready { P.ready pen.new }
    ensures writes { P.writes pen.old pen.new (result_text (option_map (type_in u.now.names) kind)) }
{
    match kind {
        None => pen.write(b"void"),
        Some(kind) => value_type(u, kind, pen),
    }
}

/// Prints a function up to its opening brace; `kind` is its linkage and its result type.
fn function_head<P: Pen>(
    u: &Unit,
    kind: (Linkage, Option<CType>),
    name: CNameId,
    given: &[CParam],
    pen: &mut P,
)
    requires kind { IfSome kind.1 (HasType u.now) }
    requires name { HasName u.now name }
    requires has { HasParams u.now given.now }
    requires ready { P.ready pen.old }
    ensures ready { P.ready pen.new }
    ensures writes { P.writes pen.old pen.new (linkage_bytes kind.0 ++ result_text (option_map (type_in u.now.names) kind.1) ++ codes " " ++ bytes_at u.now.names name.0 ++ codes "(" ++ params_text (map (param_tree u.now.names) given.now) ++ codes ") {\n") }
{
    pen.write(linkage_words(kind.0));
    result_type(u, kind.1, pen);
    pen.write(b" ");
    pen.write(u.name(name));
    pen.write(b"(");
    params(u, given, pen);
    pen.write(b") {\n");
}

/// Prints the locals and the statements of a function, and its closing brace.
fn function_body<P: Pen>(u: &Unit, kept: &[CLocal], body: CStmtId, pen: &mut P)
    requires locals { HasLocals u.now kept.now }
    requires body { body.0 < length u.now.stmts }
    requires ready { P.ready pen.old }
    ensures ready { P.ready pen.new }
    ensures writes { P.writes pen.old pen.new (locals_text (map (local_tree u.now.names (expr_of u.now)) kept.now) ++ code_text (code_of u.now body.0) false 1 ++ codes "}\n") }
{
    let all = u.stmts();
    locals(u, kept, pen);
    prove!(body.0 < all);
    code(u, body, 1, pen);
    pen.write(b"}\n");
}

fn item<P: Pen>(u: &Unit, i: CItemId, pen: &mut P)
    requires has { i.0 < length u.now.items }
    requires ready { P.ready pen.old }
    ensures ready { P.ready pen.new }
    ensures writes { IfSome (slice_get (unit_tree u.now) i.0) (λ tree. P.writes pen.old pen.new (item_text tree)) }
{
    match u.item(i) {
        CItem::Struct { fields: held, name } => {
            pen.write(b"\ntypedef struct {\n");
            fields(u, held.as_slice(), pen);
            pen.write(b"} ");
            pen.write(u.name(*name));
            pen.write(b";\n");
        }
        CItem::Text { name, text } => {
            pen.write(b"\nstatic const char ");
            pen.write(u.name(*name));
            pen.write(b"[] = \"");
            pen.write(u.string(*text));
            pen.write(b"\";\n");
        }
        CItem::Function {
            linkage,
            result,
            name,
            params: given,
            locals: kept,
            body,
        } => {
            function_head(u, (*linkage, *result), *name, given.as_slice(), pen);
            function_body(u, kept.as_slice(), *body, pen);
        }
    }
}

/// Prints the whole text of a unit.
pub(crate) fn unit<P: Pen>(u: &Unit, pen: &mut P)
    requires { P.ready pen.old }
    ensures ready { P.ready pen.new }
    ensures writes { P.writes pen.old pen.new (text_of (unit_tree u.now)) }
{
    pen.write(b"#include <stddef.h>\n#include <stdint.h>\n#include <string.h>\n");
    for i in 0..u.items() {
        item(u, CItemId(i), pen);
    }
}

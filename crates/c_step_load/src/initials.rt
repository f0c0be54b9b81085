// The initial values of a function's locals (ISO/IEC 9899:1999, 6.7.8).

ghost use Rattle.std.specs.Prelude.{◌≡◌, ◌<◌, ◌+◌, ◌++◌, ◌∷◌, [], length, map, IfOk, OnOk, IfSome};
ghost use Rattle.c_text.specs.CNodes.{value_in, local_tree, expr_of};
ghost use Rattle.c_text.specs.CFits.{HasLocal, HasLocals};
ghost use Rattle.c_step_load_stmts.specs.Bodies.{nodes_of, scope_of, Fits, with_exprs};
ghost use Rattle.c_step_program.specs.Programs.{initial_exprs_of, initial_exprs, initial_span, initials_of};

use c_step_load_stmts::Body;
use c_step_places::next_number;
use c_step_run::Initial;
use c_step_text::{Span, Text};
use c_text::{CExprId, CLocal};
use wf_text::NoMemory;

/// Puts down the initial value of a local, where it has one; where it stands.
fn put_value(
    body: &Body<'_, '_, '_>,
    text: &mut Text,
    initial: Option<CExprId>,
) -> Result<Option<Span>, NoMemory>
    requires fits { Fits body.now }
    requires initial { IfSome initial (λ e. e.0 < length (nodes_of body.now).exprs) }
    ensures text { OnOk result (text.new ≡ with_exprs text.old (initial_exprs_of (scope_of body.now) (value_in (expr_of (nodes_of body.now)) initial))) }
    ensures span { IfOk result (λ span. span ≡ initial_span (scope_of body.now) (length text.old.exprs) (value_in (expr_of (nodes_of body.now)) initial)) }
{
    match initial {
        Some(e) => Ok(Some(body.put_value(text, e)?)),
        None => Ok(None),
    }
}

/// Puts down a local, which is the field with a number; the number of the next field.
fn put_initial(
    body: &Body<'_, '_, '_>,
    text: &mut Text,
    initials: &mut Vec<Initial>,
    field: usize,
    local: CLocal,
) -> Result<usize, NoMemory>
    requires fits { Fits body.now }
    requires local { HasLocal (nodes_of body.now) local }
    ensures next { IfOk result (λ next. next ≡ field + 1) }
    ensures text { OnOk result (text.new ≡ with_exprs text.old (initial_exprs_of (scope_of body.now) (local_tree (nodes_of body.now).names (expr_of (nodes_of body.now)) local).initial)) }
    ensures initials { OnOk result (initials.new.items ≡ initials.old.items ++ record { field = field; value = initial_span (scope_of body.now) (length text.old.exprs) (local_tree (nodes_of body.now).names (expr_of (nodes_of body.now)) local).initial } ∷ []) }
{
    let value = put_value(body, text, local.initial)?;
    initials.push(Initial { field, value })?;
    next_number(field)
}

/// Puts down the locals of a function, the first of which is the field with a number.
pub(crate) fn put_initials(
    body: &Body<'_, '_, '_>,
    text: &mut Text,
    initials: &mut Vec<Initial>,
    first: usize,
    locals: &[CLocal],
) -> Result<(), NoMemory>
    requires fits { Fits body.now }
    requires locals { HasLocals (nodes_of body.now) locals.now }
    ensures text { OnOk result (text.new ≡ with_exprs text.old (initial_exprs (scope_of body.now) (map (local_tree (nodes_of body.now).names (expr_of (nodes_of body.now))) locals.now))) }
    ensures initials { OnOk result (initials.new.items ≡ initials.old.items ++ initials_of (scope_of body.now) first (length text.old.exprs) (map (local_tree (nodes_of body.now).names (expr_of (nodes_of body.now))) locals.now)) }
{
    let mut field = first;
    for local in locals {
        field = put_initial(body, text, initials, field, *local)?;
    }
    Ok(())
}

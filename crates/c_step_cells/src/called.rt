// The cells of what instructions call, by a table of the cells of functions.

ghost use Rattle.std.specs.Prelude.{◌≡◌, ◌<◌, length, slice_range};
ghost use Rattle.c_step_cells.specs.Chains.{cells_at as cells_at_of, instr_cells as instr_cells_of, code_cells as code_cells_of, span_cells as span_cells_of, optional_cells as optional_cells_of, stmt_cells as stmt_cells_of, body_cells as body_cells_of, initials_cells as initials_cells_of, text_end as text_end_of, func_cells as func_cells_of, called_cells as called_cells_of};

use c_step_exprs::Instr;
use c_step_run::{Code, Func, Initial};
use c_step_text::{Span, StmtInstr};

/// The cells of a function.
fn cells_at(table: &[u64], k: usize) -> u64
    ensures { result ≡ cells_at_of table.now k }
{
    table.get(k).copied().unwrap_or(0)
}

/// The cells of what an instruction of an expression calls.
fn instr_cells(table: &[u64], it: Instr) -> u64
    ensures { result ≡ instr_cells_of table.now it }
{
    match it {
        Instr::Call { function, count: _ } => cells_at(table, function),
        Instr::Put(_) => 0,
        Instr::Turn(_) => 0,
        Instr::Join(_) => 0,
        Instr::Test(_, _) => 0,
        Instr::Skip(_) => 0,
        Instr::Stuck => 0,
    }
}

/// The cells of what an expression calls.
fn code_cells(table: &[u64], code: &[Instr]) -> u64
    ensures { result ≡ code_cells_of table.now code.now }
{
    let mut most = 0;
    for it in code {
        most = most.max(instr_cells(table, *it));
    }
    most
}

/// The same of an expression that is a part of the code's list.
#[tactic(auto, using(c_step_run::proofs::Ranges::cut_range))]
fn span_cells(code: &Code, table: &[u64], span: Span) -> u64
    ensures { result ≡ span_cells_of code.now.text table.now span }
{
    let to = span.to.min(code.text.exprs.len());
    let from = span.from.min(to);
    code_cells(table, &code.text.exprs[from..to])
}

/// The same where there is one.
fn optional_cells(code: &Code, table: &[u64], span: Option<Span>) -> u64
    ensures { result ≡ optional_cells_of code.now.text table.now span }
{
    match span {
        Some(span) => span_cells(code, table, span),
        None => 0,
    }
}

/// The cells of what a statement calls.
fn stmt_cells(code: &Code, table: &[u64], it: StmtInstr) -> u64
    ensures { result ≡ stmt_cells_of code.now.text table.now it }
{
    match it {
        StmtInstr::Assign { target, value, .. } => {
            span_cells(code, table, target).max(span_cells(code, table, value))
        }
        StmtInstr::Call {
            target,
            function,
            given,
            ..
        } => {
            let inner = optional_cells(code, table, target).max(span_cells(code, table, given));
            cells_at(table, function).max(inner)
        }
        StmtInstr::Move { given, .. } => span_cells(code, table, given),
        StmtInstr::Zero { pointer, .. } => span_cells(code, table, pointer),
        StmtInstr::Goto(_) => 0,
        StmtInstr::Test { test, .. } => span_cells(code, table, test),
        StmtInstr::Back { test, .. } => span_cells(code, table, test),
        StmtInstr::Switch { on, .. } => span_cells(code, table, on),
        StmtInstr::Return { value, .. } => span_cells(code, table, value),
        StmtInstr::Finish => 0,
        StmtInstr::Stuck => 0,
    }
}

/// The cells of what statements call.
fn body_cells(code: &Code, table: &[u64], body: &[StmtInstr]) -> u64
    ensures { result ≡ body_cells_of code.now.text table.now body.now }
{
    let mut most = 0;
    for it in body {
        most = most.max(stmt_cells(code, table, *it));
    }
    most
}

/// The cells of what the initial values of locals call.
fn initials_cells(code: &Code, table: &[u64], initials: &[Initial]) -> u64
    ensures { result ≡ initials_cells_of code.now.text table.now initials.now }
{
    let mut most = 0;
    for it in initials {
        most = most.max(optional_cells(code, table, it.value));
    }
    most
}

/// Where the text of the function with a number ends.
fn text_end(code: &Code, k: usize) -> usize
    requires { k < length code.now.functions }
    ensures { result ≡ text_end_of code.now k }
{
    match code.functions.get(k + 1) {
        Some(next) => next.start,
        None => code.text.statements.len(),
    }
}

/// Statements from one number up to another one.
#[tactic(auto, using(c_step_run::proofs::Ranges::cut_range))]
fn statements(code: &Code, start: usize, end: usize) -> &[StmtInstr]
    ensures { result.now ≡ slice_range code.now.text.statements start end }
{
    let to = end.min(code.text.statements.len());
    let from = start.min(to);
    &code.text.statements[from..to]
}

/// Locals, a part of the code's list of these.
#[tactic(auto, using(c_step_run::proofs::Ranges::cut_range))]
fn initials(code: &Code, span: Span) -> &[Initial]
    ensures { result.now ≡ slice_range code.now.initials span.from span.to }
{
    let to = span.to.min(code.initials.len());
    let from = span.from.min(to);
    &code.initials[from..to]
}

/// The cells of what a function calls whose text ends at a number.
fn func_cells(code: &Code, table: &[u64], end: usize, f: Func) -> u64
    ensures { result ≡ func_cells_of code.now table.now end f }
{
    let body = body_cells(code, table, statements(code, f.start, end));
    body.max(initials_cells(code, table, initials(code, f.initials)))
}

/// The cells of what the function with a number calls.
pub(crate) fn called_cells(code: &Code, table: &[u64], k: usize) -> u64
    ensures { result ≡ called_cells_of code.now table.now k }
{
    match code.functions.get(k) {
        Some(f) => func_cells(code, table, text_end(code, k), *f),
        None => 0,
    }
}

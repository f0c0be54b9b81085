// Prints blocks of statements, one statement a line.

ghost use Rattle.std.specs.Prelude.{◌≡◌, ◌<◌, ◌≤◌, ◌+◌, ◌^◌, ◌++◌, length, ℕ, List, false, true, codes, IsTrue, IfNone, IfSome, MatchOption};
ghost use Rattle.c_text.specs.CNodes.{bytes_at, expr_of, code_of, args_in, value_in};
ghost use Rattle.c_text.specs.CFits.{HasCall};
ghost use Rattle.c_text.specs.CLayout.{indented, expr_text, value_text, target_text, call_text, braced, tested, code_text};
ghost use Rattle.c_text.specs.CLines.{IsIfAt, IsRest, is_branch, is_finish};

use crate::ids::{CExprId, CStmtId};
use crate::kinds::Otherwise;
use crate::nodes::{CCall, CStmt};
use crate::print_exprs::{call, expr, literal};
use crate::unit::Unit;
use pens::Pen;

/// Prints the spaces at the front of a line, up to eight levels deep.
fn indent_some<P: Pen>(depth: usize, pen: &mut P)
    requires few { depth ≤ 8 }
    requires ready { P.ready pen.old }
    ensures ready { P.ready pen.new }
    ensures writes { P.writes pen.old pen.new (indented depth) }
{
    let spaces = b"                ";
    pen.write(&spaces[..2 * depth]);
}

/// Prints the spaces at the front of a line.
pub(crate) fn indent<P: Pen>(depth: usize, pen: &mut P)
    requires { P.ready pen.old }
    ensures ready { P.ready pen.new }
    ensures writes { P.writes pen.old pen.new (indented depth) }
{
    let mut left = depth;
    while left > 8 {
        indent_some(8, pen);
        left -= 8;
    }
    indent_some(left, pen);
}

/// Prints the value of a `return`, with a space before it.
fn returned<P: Pen>(u: &Unit, value: Option<CExprId>, pen: &mut P)
    requires has { IfSome value (λ e. e.0 < length u.now.exprs) }
    requires ready { P.ready pen.old }
    ensures ready { P.ready pen.new }
    ensures writes { P.writes pen.old pen.new (value_text (value_in (expr_of u.now) value)) }
{
    if let Some(e) = value {
        pen.write(b" ");
        expr(u, e, pen);
    }
}

/// Prints the target of a call, with a `=` after it.
fn kept_in<P: Pen>(u: &Unit, target: Option<CExprId>, pen: &mut P)
    requires has { IfSome target (λ e. e.0 < length u.now.exprs) }
    requires ready { P.ready pen.old }
    ensures ready { P.ready pen.new }
    ensures writes { P.writes pen.old pen.new (target_text (value_in (expr_of u.now) target)) }
{
    if let Some(e) = target {
        expr(u, e, pen);
        pen.write(b" = ");
    }
}

/// Whether a block ends here.
#[inline]
fn is_end(u: &Unit, s: CStmtId) -> bool
    requires { s.0 < length u.now.stmts }
    ensures { result ≡ is_finish (code_of u.now s.0) }
{
    match u.stmt(s) {
        CStmt::End => true,
        CStmt::Block { .. } => false,
        CStmt::Empty { .. } => false,
        CStmt::Assign { .. } => false,
        CStmt::Call { .. } => false,
        CStmt::Goto { .. } => false,
        CStmt::If { .. } => false,
        CStmt::While { .. } => false,
        CStmt::Switch { .. } => false,
        CStmt::Return { .. } => false,
        CStmt::Case { .. } => false,
        CStmt::Default { .. } => false,
        CStmt::Label { .. } => false,
    }
}

/// Prints the statements of a block from `s` on, `depth` levels deep.
#[cycle(print_code)]
pub(crate) fn code<P: Pen>(u: &Unit, s: CStmtId, depth: usize, pen: &mut P)
    requires has { s.0 < length u.now.stmts }
    requires depth { depth + s.0 < 2 ^ 64 }
    requires ready { P.ready pen.old }
    ensures ready { P.ready pen.new }
    ensures writes { P.writes pen.old pen.new (code_text (code_of u.now s.0) false depth) }
{
    let mut at = s;
    while !is_end(u, at) {
        indent(depth, pen);
        at = line(u, at, depth, pen);
    }
}

/// Prints a block in braces, which stands `depth` levels deep.
#[cycle(print_code)]
fn braces<P: Pen>(u: &Unit, inner: CStmtId, depth: usize, pen: &mut P)
    requires has { inner.0 < length u.now.stmts }
    requires depth { depth + 1 + inner.0 < 2 ^ 64 }
    requires ready { P.ready pen.old }
    ensures ready { P.ready pen.new }
    ensures writes { P.writes pen.old pen.new (braced (code_text (code_of u.now inner.0)) depth) }
{
    pen.write(b"{\n");
    code(u, inner, depth + 1, pen);
    indent(depth, pen);
    pen.write(b"}");
}

/// Prints a word with its opening parenthesis, a condition and a block.
#[cycle(print_code)]
fn tested_block<P: Pen>(
    u: &Unit,
    head: &[u8],
    test: CExprId,
    body: CStmtId,
    depth: usize,
    pen: &mut P,
)
    requires test { test.0 < length u.now.exprs }
    requires has { body.0 < length u.now.stmts }
    requires depth { depth + 1 + body.0 < 2 ^ 64 }
    requires ready { P.ready pen.old }
    ensures ready { P.ready pen.new }
    ensures writes { P.writes pen.old pen.new (tested head.now (expr_of u.now test.0) (code_text (code_of u.now body.0)) depth) }
{
    pen.write(head);
    expr(u, test, pen);
    pen.write(b") ");
    braces(u, body, depth, pen);
}

/// The condition, the block and the `else` of an `if`; none where another statement stands there.
fn if_parts(u: &Unit, s: CStmtId) -> Option<(CExprId, CStmtId, Otherwise, CStmtId)>
    requires has { s.0 < length u.now.stmts }
    ensures { MatchOption result (is_branch (code_of u.now s.0) ≡ false) (λ parts. IsIfAt u.now s.0 parts) }
{
    match u.stmt(s) {
        CStmt::End => None,
        CStmt::Block { .. } => None,
        CStmt::Empty { .. } => None,
        CStmt::Assign { .. } => None,
        CStmt::Call { .. } => None,
        CStmt::Goto { .. } => None,
        CStmt::If {
            test,
            body,
            otherwise,
            other,
            ..
        } => Some((*test, *body, *otherwise, *other)),
        CStmt::While { .. } => None,
        CStmt::Switch { .. } => None,
        CStmt::Return { .. } => None,
        CStmt::Case { .. } => None,
        CStmt::Default { .. } => None,
        CStmt::Label { .. } => None,
    }
}

/// Prints an `if` with its block, and an `else` with what stands after it but for a further `if`, which it
/// answers.
#[cycle(print_code)]
fn branch_arm<P: Pen>(u: &Unit, s: CStmtId, depth: usize, pen: &mut P) -> Option<CStmtId>
    requires has { s.0 < length u.now.stmts }
    requires branch { IsTrue (is_branch (code_of u.now s.0)) }
    requires depth { depth + s.0 < 2 ^ 64 }
    requires ready { P.ready pen.old }
    ensures ready { P.ready pen.new }
    ensures whole { IfNone result (P.writes pen.old pen.new (code_text (code_of u.now s.0) true depth)) }
    ensures more { IfSome result (λ next. (next.0 < s.0) × IsTrue (is_branch (code_of u.now next.0)) × ((front : List ℕ) × P.writes pen.old pen.new front × (code_text (code_of u.now s.0) true depth ≡ front ++ code_text (code_of u.now next.0) true depth))) }
{
    let Some((test, body, otherwise, other)) = if_parts(u, s) else {
        return None;
    };
    tested_block(u, b"if (", test, body, depth, pen);
    match otherwise {
        Otherwise::Nothing => None,
        Otherwise::Block => {
            pen.write(b" else ");
            braces(u, other, depth, pen);
            None
        }
        Otherwise::If => {
            pen.write(b" else ");
            Some(other)
        }
    }
}

/// Prints an `if` with its whole chain of `else`.
#[cycle(print_code)]
fn branch_line<P: Pen>(u: &Unit, s: CStmtId, depth: usize, pen: &mut P)
    requires has { s.0 < length u.now.stmts }
    requires branch { IsTrue (is_branch (code_of u.now s.0)) }
    requires depth { depth + s.0 < 2 ^ 64 }
    requires ready { P.ready pen.old }
    ensures ready { P.ready pen.new }
    ensures writes { P.writes pen.old pen.new (code_text (code_of u.now s.0) true depth) }
{
    let mut at = s;
    while let Some(next) = branch_arm(u, at, depth, pen) {
        at = next;
    }
}

/// Prints the first statement of a block without the front of its line, and answers the rest of the block.
#[cycle(print_code)]
fn line<P: Pen>(u: &Unit, s: CStmtId, depth: usize, pen: &mut P) -> CStmtId
    requires has { s.0 < length u.now.stmts }
    requires more { is_finish (code_of u.now s.0) ≡ false }
    requires depth { depth + s.0 < 2 ^ 64 }
    requires ready { P.ready pen.old }
    ensures ready { P.ready pen.new }
    ensures writes { P.writes pen.old pen.new (code_text (code_of u.now s.0) true depth ++ codes "\n") }
    ensures below { result.0 < s.0 }
    ensures rest { IsRest (code_of u.now s.0) (code_of u.now result.0) }
{
    match u.stmt(s) {
        CStmt::End => unreachable!(),
        CStmt::Block { inner, rest } => {
            braces(u, *inner, depth, pen);
            pen.write(b"\n");
            *rest
        }
        CStmt::If { rest, .. } => {
            branch_line(u, s, depth, pen);
            pen.write(b"\n");
            *rest
        }
        CStmt::While { test, body, rest } => {
            tested_block(u, b"while (", *test, *body, depth, pen);
            pen.write(b"\n");
            *rest
        }
        CStmt::Switch { on, body, rest } => {
            tested_block(u, b"switch (", *on, *body, depth, pen);
            pen.write(b"\n");
            *rest
        }
        CStmt::Empty { rest } => {
            pen.write(b";\n");
            *rest
        }
        CStmt::Assign {
            target,
            value,
            rest,
        } => {
            assignment(u, *target, *value, pen);
            *rest
        }
        CStmt::Call { target, call, rest } => {
            call_line(u, *target, call, pen);
            *rest
        }
        CStmt::Goto { label, rest } => {
            pen.write(b"goto ");
            pen.write(u.name(*label));
            pen.write(b";\n");
            *rest
        }
        CStmt::Return { value, rest } => {
            pen.write(b"return");
            returned(u, *value, pen);
            pen.write(b";\n");
            *rest
        }
        CStmt::Case { number, rest } => {
            pen.write(b"case ");
            literal(*number, pen);
            pen.write(b":\n");
            *rest
        }
        CStmt::Default { rest } => {
            pen.write(b"default:\n");
            *rest
        }
        CStmt::Label { name, rest } => {
            pen.write(u.name(*name));
            pen.write(b":\n");
            *rest
        }
    }
}

/// Prints `target = value;` and the end of its line.
fn assignment<P: Pen>(u: &Unit, target: CExprId, value: CExprId, pen: &mut P)
    requires target { target.0 < length u.now.exprs }
    requires value { value.0 < length u.now.exprs }
    requires ready { P.ready pen.old }
    ensures ready { P.ready pen.new }
    ensures writes { P.writes pen.old pen.new (expr_text (expr_of u.now target.0) ++ codes " = " ++ expr_text (expr_of u.now value.0) ++ codes ";\n") }
{
    expr(u, target, pen);
    pen.write(b" = ");
    expr(u, value, pen);
    pen.write(b";\n");
}

/// Prints `call;` or `target = call;` and the end of its line.
fn call_line<P: Pen>(u: &Unit, target: Option<CExprId>, called: &CCall, pen: &mut P)
    requires target { IfSome target (λ e. e.0 < length u.now.exprs) }
    requires has { HasCall u.now (length u.now.exprs) called.now }
    requires ready { P.ready pen.old }
    ensures ready { P.ready pen.new }
    ensures writes { P.writes pen.old pen.new (target_text (value_in (expr_of u.now) target) ++ call_text (bytes_at u.now.names called.now.function.0) (args_in u.now.names (expr_of u.now) called.now.args) ++ codes ";\n") }
{
    kept_in(u, target, pen);
    call(u, u.exprs(), called, pen);
    pen.write(b";\n");
}

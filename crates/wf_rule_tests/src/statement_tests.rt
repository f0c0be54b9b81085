// What each kind of statement is in the typed tree of a package: its parts, and what the names in it stand for.

ghost use Rattle.std.specs.Prelude.{◌<◌, length};

use crate::typed_tests::{place, typed};
use std::alloc::Global;
use wf_ast::{Callee, Clause, Expr, ExprId, Op, Stmt, StmtId, Typed};
use wf_base::{BaseSig, ReadForm};
use wf_text::{MethodId, PhaseFault, StatusId};

// Each kind of statement once, a place in each comment of the functions below. The first method is `go`, the second `f`.
const STATED: &str =
    "pri const A : base.u8 = 3\npri const B : base.u8 = A\npri status \"$more\"\npub struct p?(\nx : base.u8,\ncells : array[4] base.u8,\ns : q,\n)\npub struct q?()\npub func q.go?(by : base.u8) {\nreturn ok\n}\npub func p.f?(src : base.io_reader, a : base.u8) {\nvar i : base.u8\nvar part : slice base.u8\nvar st : base.status\ni = B\nthis.x = args.a\nthis.cells[i] += i\npart.copy_from_slice!(s: part)\nst =? this.s.go?(by: 1)\ni = args.src.read_u8?()\nif i == 0 {\ni = 7\n} else if st.is_ok() {\n} else {\nthis.x = 1\n}\nwhile.outer true,\npre i == 0,\ninv i <= 9,\n{\nwhile not (i < 5) {\ncontinue.outer\n}\nbreak\n} endwhile.outer\nassert i < 5 via \"a < b: a < c; c < b\"(c: args.a)\nyield? \"$more\"\nreturn st\n}\n";

// What an expression is: a constant number, a variable by its number, or an operator.
#[derive(Clone, Copy)]
enum Found {
    Constant(u64),
    Local(u32),
    Field(u32),
    Arg(u32),
    Element,
    Operator(Op),
}

fn is(typed: &Typed, e: ExprId, wanted: Found) -> bool
    requires { e.0 < length typed.now.exprs }
{
    match wanted {
        Found::Constant(number) => typed.constant(e) == Some(number),
        Found::Local(number) => match typed.expr(e) {
            Expr::Local(local) => local.0 == number,
            _ => false,
        },
        Found::Field(number) => match typed.expr(e) {
            Expr::Field(field) => field.0 == number,
            _ => false,
        },
        Found::Arg(number) => match typed.expr(e) {
            Expr::Arg(arg) => arg.0 == number,
            _ => false,
        },
        Found::Element => matches!(typed.expr(e), Expr::Index { .. }),
        Found::Operator(op) => match typed.expr(e) {
            Expr::Chain { op: found, .. } => *found == op,
            _ => false,
        },
    }
}

// Whether an assignment at this line has this target, this operator and this value.
fn sets(typed: &Typed, line: u32, target: Found, op: Option<Op>, value: Found) -> bool {
    let Some(s) = typed.stmt_at(place(line, 1)) else {
        return false;
    };
    match typed.stmt(s) {
        Stmt::Assign {
            target: to,
            op: found,
            value: of,
        } => is(typed, *to, target) && *found == op && is(typed, *of, value),
        _ => false,
    }
}

// What is called at this line, whether the status is kept, and how many arguments it is given; None where nothing is.
fn called(typed: &Typed, line: u32) -> Option<(Callee, bool, usize)> {
    let Some(s) = typed.stmt_at(place(line, 1)) else {
        return None;
    };
    match typed.stmt(s) {
        Stmt::Call {
            callee,
            keep,
            args,
            ..
        } => Some((*callee, *keep, args.as_slice().len())),
        _ => None,
    }
}

fn has_target(typed: &Typed, line: u32, wanted: Found) -> bool {
    let Some(s) = typed.stmt_at(place(line, 1)) else {
        return false;
    };
    match typed.stmt(s) {
        Stmt::Call {
            target: Some(target),
            ..
        } => is(typed, *target, wanted),
        _ => false,
    }
}

// Whether the values are those that the assignments write, `x op= e` with the node of `x op e`.
fn has_assignments(typed: &Typed) -> bool {
    let plain = sets(typed, 17, Found::Local(0), None, Found::Constant(3));
    let field = sets(typed, 18, Found::Field(0), None, Found::Arg(1));
    let update = sets(
        typed,
        19,
        Found::Element,
        Some(Op::Add),
        Found::Operator(Op::Add),
    );
    plain && field && update
}

// Whether a call of a base method on a slice, one that is kept through a field, and one with a result stand there.
fn has_calls(typed: &Typed) -> bool {
    let copy = match called(typed, 20) {
        Some((Callee::Base { on, sig }, false, 1)) => {
            matches!(sig, BaseSig::SliceCopy(_)) && typed.expr_at(place(20, 1)) == Some(on)
        }
        _ => false,
    };
    let kept = match called(typed, 21) {
        Some((Callee::Sub { field, method }, true, 1)) => field.0 == 2 && method == MethodId(0),
        _ => false,
    };
    let read = match called(typed, 22) {
        Some((Callee::Base { sig, .. }, false, 0)) => {
            matches!(sig, BaseSig::Read(ReadForm::ReadU8))
        }
        _ => false,
    };
    copy && kept
        && has_target(typed, 21, Found::Local(2))
        && read
        && has_target(typed, 22, Found::Local(0))
}

// Whether the `if` has two conditions and an `else`, whose blocks hold one statement, none and one.
fn has_branches(typed: &Typed) -> bool {
    let Some(s) = typed.stmt_at(place(23, 1)) else {
        return false;
    };
    match typed.stmt(s) {
        Stmt::If { arms, otherwise } => match (arms.as_slice(), otherwise) {
            ([first, second], Some(last)) => {
                let conditions = is(typed, first.cond, Found::Operator(Op::Same))
                    && matches!(typed.expr(second.cond), Expr::Base { .. });
                let blocks = first.body.items.as_slice() == [StmtId(7)].as_slice()
                    && second.body.items.as_slice().is_empty();
                conditions && blocks && last.items.as_slice() == [StmtId(8)].as_slice()
            }
            _ => false,
        },
        _ => false,
    }
}

// The clauses of the loop at this place, and whether a `break` leaves it.
fn has_loop(typed: &Typed, line: u32, clauses: &[Clause], has_break: bool) -> bool {
    let Some(s) = typed.stmt_at(place(line, 1)) else {
        return false;
    };
    let Stmt::While { head, .. } = typed.stmt(s) else {
        return false;
    };
    let found = head.clauses.as_slice();
    for n in 0..clauses.len() {
        match found.get(n) {
            Some((clause, _)) => {
                if *clause != clauses[n] {
                    return false;
                }
            }
            None => return false,
        }
    }
    found.len() == clauses.len() && head.has_break == has_break
}

// Whether each jump names its loop: the label's, and the one that is nearest.
fn has_loops(typed: &Typed) -> bool {
    let outer = typed.stmt_at(place(29, 1));
    let (Some(on), Some(off)) = (typed.stmt_at(place(34, 1)), typed.stmt_at(place(36, 1))) else {
        return false;
    };
    let goes_on = match typed.stmt(on) {
        Stmt::Continue(of) => outer == Some(*of),
        _ => false,
    };
    let leaves = match typed.stmt(off) {
        Stmt::Break(of) => outer == Some(*of),
        _ => false,
    };
    let heads = has_loop(typed, 29, &[Clause::Pre, Clause::Inv], true)
        && has_loop(typed, 33, &[], false);
    goes_on && leaves && heads
}

// Whether the assertion names its axiom with one letter, and the last two statements their statuses.
fn has_ends(typed: &Typed) -> bool {
    let (Some(claim), Some(pause), Some(end)) = (
        typed.stmt_at(place(38, 1)),
        typed.stmt_at(place(39, 1)),
        typed.stmt_at(place(40, 1)),
    ) else {
        return false;
    };
    let claims = match typed.stmt(claim) {
        Stmt::Assert {
            goal,
            axiom: Some(axiom),
        } => is(typed, *goal, Found::Operator(Op::Less)) && axiom.given.as_slice().len() == 1,
        _ => false,
    };
    let yields = matches!(typed.stmt(pause), Stmt::Yield(StatusId(10)));
    let returns = match typed.stmt(end) {
        Stmt::Return(Some(value)) => is(typed, *value, Found::Local(2)),
        _ => false,
    };
    claims && yields && returns
}

fn each_statement_is_told(alloc: Global) -> Result<bool, PhaseFault> {
    let typed = typed(alloc, STATED)?;
    let sequence = has_assignments(&typed) && has_calls(&typed) && has_ends(&typed);
    Ok(sequence && has_branches(&typed) && has_loops(&typed))
}

#[test]
fn each_statement_gets_its_node(rt: HostRuntime) {
    assert!(rt; each_statement_is_told(rt.alloc()) == Ok(true));
}

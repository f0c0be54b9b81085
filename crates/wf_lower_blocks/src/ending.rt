// A whole body as statements of C, and its end.

ghost use Rattle.std.specs.Prelude.{length, true, IsTrue, IfOk};
ghost use Rattle.wf_ast.specs.TypedInvariant.{block_below};
ghost use Rattle.wf_ast.specs.TypedTrees.{block_of as block_in};
ghost use Rattle.wf_exprs.specs.Grown.{Grows, HasCode};
ghost use Rattle.wf_lower_stmts.specs.BodyNodes.{form_in, points_by};
ghost use Rattle.wf_lower_stmts.specs.Lower.{ending as ending_code, ending_of as ending_of_code, has_result, lower as lower_code, tail_of, top};

use crate::blocks::lower_block;
use c_text::{CStmtId, Unit};
use wf_ast::Block;
use wf_exprs::nodes::number;
use wf_lower_stmts::Body;
use wf_lower_stmts::code::finish;
use wf_lower_stmts::keeping::give_at_end;
use wf_lower_stmts::places::{Picked, put_places};
use wf_text::NoMemory;

/// The end of a body. That of a coroutine stands after its `switch`, and answers ok; a method with a result never comes to its
/// end, and has a `return` there only where it has no other.
pub fn ending(b: &Body, u: &mut Unit) -> Result<CStmtId, NoMemory>
    ensures grows { Grows u.old u.new }
    ensures made { IfOk result (λ code. HasCode u.new code.0 (ending_code (form_in b.now))) }
{
    if b.is_coroutine() {
        let ok = number(u, 0)?;
        give_at_end(b, u, Some(ok))
    } else {
        ending_of(b, u)
    }
}

// The end of a body that is no coroutine's.
fn ending_of(b: &Body, u: &mut Unit) -> Result<CStmtId, NoMemory>
    ensures grows { Grows u.old u.new }
    ensures made { IfOk result (λ code. HasCode u.new code.0 (ending_of_code (form_in b.now) (has_result (form_in b.now).method.gives))) }
{
    match b.method().gives {
        Some(_) => after_returns(b, u),
        None => {
            let end = finish(u)?;
            put_places(b, Picked::All, u, end)
        }
    }
}

// A method with a result never comes to its end. Where it has no `return` at all, one stands there.
fn after_returns(b: &Body, u: &mut Unit) -> Result<CStmtId, NoMemory>
    ensures grows { Grows u.old u.new }
    ensures made { IfOk result (λ code. HasCode u.new code.0 (ending_of_code (form_in b.now) true)) }
{
    if b.returns() {
        finish(u)
    } else {
        let nothing = number(u, 0)?;
        give_at_end(b, u, Some(nothing))
    }
}

// The code at the end of a body's statements.
fn tail(b: &Body, u: &mut Unit) -> Result<CStmtId, NoMemory>
    ensures grows { Grows u.old u.new }
    ensures made { IfOk result (λ code. HasCode u.new code.0 (tail_of (form_in b.now) top)) }
{
    if b.is_coroutine() {
        finish(u)
    } else {
        ending(b, u)
    }
}

/// The statements of a method's body.
pub fn lower_body(b: &Body, u: &mut Unit, body: &Block) -> Result<CStmtId, NoMemory>
    requires known { IsTrue (block_below (length b.now.nodes.stmts) body.now) }
    ensures grows { Grows u.old u.new }
    ensures made { IfOk result (λ code. HasCode u.new code.0 (lower_code (form_in b.now) (points_by b.now.numbers) (block_in b.now.nodes body.now) (tail_of (form_in b.now) top))) }
{
    let tail = tail(b, u)?;
    lower_block(b, u, body, tail)
}

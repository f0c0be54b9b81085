// Which methods are called by a method of their package, found in one walk over all bodies.

ghost use Rattle.std.specs.Prelude.{◌≡◌, ◌<◌, ◌&&◌, ℕ, length, nat_lt, IsTrue, IfOk};
ghost use Rattle.std.specs.List.{list_all};
ghost use Rattle.wf_ast.specs.TypedInvariant.{IsTyped, block_below, callee_exists, is_expr, optional_block_below, stmt_below};
ghost use Rattle.wf_ast.specs.TypedPackage.{package_of};
ghost use Rattle.wf_ast.specs.TypedTrees.{block_of};
ghost use Rattle.wf_lower_stmts.specs.BodyNodes.{stands, stands_among, stands_at, stands_in_arms, stands_in_else, stands_in_if as among_if};
ghost use Rattle.wf_lower.specs.Called.{AreCalled, calls, is_callee, node_calls};
ghost use Rattle.wf_lower.specs.Flags.{Sets};

use crate::flags::{no_flags, set};
use std::alloc::Global;
use wf_ast::{Arm, Block, Callee, Stmt, StmtId, Typed};
use wf_text::{MethodId, NoMemory};

/// A flag for each method, by its number: whether a method of the package calls it.
pub(crate) fn called_methods(alloc: Global, t: &Typed) -> Result<Vec<bool>, NoMemory>
    requires { IsTyped t.now }
    ensures { IfOk result (λ called. AreCalled (package_of t.now) called.items) }
{
    let mut called = no_flags(alloc, t.methods())?;
    for m in 0..t.methods() {
        mark_body(t, &mut called, t.body(MethodId(m)));
    }
    Ok(called)
}

/// Sets the flags of the methods that a body calls.
fn mark_body(t: &Typed, called: &mut Vec<bool>, body: &Block)
    requires typed { IsTyped t.now }
    requires known { IsTrue (block_below (length t.now.stmts) body.now) }
    requires sized { length called.old.items ≡ length t.now.methods }
    ensures marks { Sets (λ n. stands (calls n) (block_of t.now body.now)) called.old.items called.new.items }
    ensures sized { length called.new.items ≡ length called.old.items }
{
    mark_among(t, called, body.items.as_slice());
}

/// Sets those of the methods that these statements call.
fn mark_among(t: &Typed, called: &mut Vec<bool>, items: &[StmtId])
    requires typed { IsTyped t.now }
    requires known { IsTrue (list_all (λ s. nat_lt s.0 (length t.now.stmts)) items.now) }
    requires sized { length called.old.items ≡ length t.now.methods }
    ensures marks { Sets (λ n. stands_among (stands_at t.now (calls n)) items.now) called.old.items called.new.items }
    ensures sized { length called.new.items ≡ length called.old.items }
{
    for s in items {
        mark_at(t, called, *s);
    }
}

/// A statement's node, with what it says of what the statement calls.
fn node(t: &Typed, s: StmtId) -> &Stmt
    requires typed { IsTyped t.now }
    requires known { s.0 < length t.now.stmts }
    ensures calls { (n : ℕ) → stands_at t.now (calls n) s ≡ node_calls n (stands_at t.now (calls n)) result.now }
    ensures below { IsTrue (stmt_below t.now s.0 result.now) }
{
    t.stmt(s)
}

/// Sets those of the methods that a statement calls, with those inside it.
#[cycle(marking)]
fn mark_at(t: &Typed, called: &mut Vec<bool>, s: StmtId)
    requires typed { IsTyped t.now }
    requires known { s.0 < length t.now.stmts }
    requires sized { length called.old.items ≡ length t.now.methods }
    ensures marks { Sets (λ n. stands_at t.now (calls n) s) called.old.items called.new.items }
    ensures sized { length called.new.items ≡ length called.old.items }
{
    match node(t, s) {
        Stmt::If { arms, otherwise } => mark_if(t, called, s, arms.as_slice(), otherwise),
        Stmt::While { head: _, body } => mark_block(t, called, s, body),
        Stmt::Call { callee, .. } => mark_callee(t, called, *callee),
        Stmt::Break(_) => {}
        Stmt::Continue(_) => {}
        Stmt::Return(_) => {}
        Stmt::Yield(_) => {}
        Stmt::Assign { .. } => {}
        Stmt::Assert { .. } => {}
    }
}

/// Sets those of the methods that a block inside the statement `s` calls.
#[cycle(marking)]
fn mark_block(t: &Typed, called: &mut Vec<bool>, s: StmtId, block: &Block)
    requires typed { IsTyped t.now }
    requires known { s.0 < length t.now.stmts }
    requires below { IsTrue (block_below s.0 block.now) }
    requires sized { length called.old.items ≡ length t.now.methods }
    ensures marks { Sets (λ n. stands_among (stands_at t.now (calls n)) block.now.items) called.old.items called.new.items }
    ensures sized { length called.new.items ≡ length called.old.items }
{
    for inner in block.items.as_slice() {
        mark_at(t, called, *inner);
    }
}

/// Sets those of the methods that an `if` calls, which is the statement `s`. One without an arm stands for no statement.
#[cycle(marking)]
fn mark_if(t: &Typed, called: &mut Vec<bool>, s: StmtId, arms: &[Arm], otherwise: &Option<Block>)
    requires typed { IsTyped t.now }
    requires known { s.0 < length t.now.stmts }
    requires arms { IsTrue (list_all (λ a. is_expr t.now a.cond && block_below s.0 a.body) arms.now) }
    requires otherwise { IsTrue (optional_block_below s.0 otherwise.now) }
    requires sized { length called.old.items ≡ length t.now.methods }
    ensures marks { Sets (λ n. among_if (stands_at t.now (calls n)) arms.now otherwise.now) called.old.items called.new.items }
    ensures sized { length called.new.items ≡ length called.old.items }
{
    if arms.is_empty() {
        return;
    }
    mark_arms(t, called, s, arms);
    mark_else(t, called, s, otherwise);
}

#[cycle(marking)]
fn mark_arms(t: &Typed, called: &mut Vec<bool>, s: StmtId, arms: &[Arm])
    requires typed { IsTyped t.now }
    requires known { s.0 < length t.now.stmts }
    requires below { IsTrue (list_all (λ a. is_expr t.now a.cond && block_below s.0 a.body) arms.now) }
    requires sized { length called.old.items ≡ length t.now.methods }
    ensures marks { Sets (λ n. stands_in_arms (stands_at t.now (calls n)) arms.now) called.old.items called.new.items }
    ensures sized { length called.new.items ≡ length called.old.items }
{
    for arm in arms {
        mark_block(t, called, s, &arm.body);
    }
}

#[cycle(marking)]
fn mark_else(t: &Typed, called: &mut Vec<bool>, s: StmtId, otherwise: &Option<Block>)
    requires typed { IsTyped t.now }
    requires known { s.0 < length t.now.stmts }
    requires below { IsTrue (optional_block_below s.0 otherwise.now) }
    requires sized { length called.old.items ≡ length t.now.methods }
    ensures marks { Sets (λ n. stands_in_else (stands_at t.now (calls n)) otherwise.now) called.old.items called.new.items }
    ensures sized { length called.new.items ≡ length called.old.items }
{
    match otherwise {
        Some(block) => mark_block(t, called, s, block),
        None => {}
    }
}

/// Sets the flag of what is called, where this is a method.
fn mark_callee(t: &Typed, called: &mut Vec<bool>, callee: Callee)
    requires there { IsTrue (callee_exists t.now callee) }
    requires sized { length called.old.items ≡ length t.now.methods }
    ensures marks { Sets (λ n. is_callee n callee) called.old.items called.new.items }
    ensures sized { length called.new.items ≡ length called.old.items }
{
    match callee {
        Callee::Own(m) => set(called, m.0),
        Callee::Sub { field: _, method } => set(called, method.0),
        Callee::Base { .. } => {}
    }
}

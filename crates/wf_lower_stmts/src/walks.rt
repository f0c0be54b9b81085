// What stands in a block: jumps of a loop, and statements that begin something before they suspend.

ghost use Rattle.std.specs.Prelude.{None, ◌≡◌, ◌<◌, ◌&&◌, true, length, nat_lt, IsTrue};
ghost use Rattle.std.specs.List.{list_all};
ghost use Rattle.wf_ast.specs.TypedInvariant.{IsTyped, block_below, is_expr, is_tree_of, optional_block_below, stmt_below};
ghost use Rattle.wf_ast.specs.TypedTree.{break_from, continue_in, give_back};
ghost use Rattle.wf_ast.specs.TypedTrees.{block_of, tree_of, type_of_node};
ghost use Rattle.wf_ast.specs.WellTyped.{breaks as breaks_in};
ghost use Rattle.wf_ast.specs.NodeKinds.{is_number_at, node_number};
ghost use Rattle.wf_lower_stmts.specs.BodyNodes.{base_counts, base_holds, base_sought, call_sought, is_sought, stands, stands_among, stands_at, stands_in_arms, stands_in_else, stands_in_if as among_if, stands_of, started_in};
ghost use Rattle.wf_lower_stmts.specs.Forms.{stays as stays_number};
ghost use Rattle.wf_lower_stmts.specs.Lower.{continues as continues_in, returns as returns_in};

use wf_ast::{Arm, Block, Callee, Expr, ExprId, Stmt, StmtId, Ty, Typed};
use wf_base::{BaseSig, ReadForm};

/// Which numbers the started statements of a method keep in its struct while it is suspended.
#[derive(Clone, Copy)]
pub struct StartedNumbers {
    /// What one has: a read what it has read so far, a skip how many bytes are left to take, a write its byte.
    pub held: bool,
    /// How many bytes a read has read so far.
    pub counted: bool,
}

/// What is looked for.
#[derive(Clone, Copy)]
pub(crate) enum Sought {
    /// A `break` of this loop.
    Break(StmtId),
    /// A `continue` of this loop.
    Continue(StmtId),
    /// A base call that has something to keep where it suspends.
    Held,
    /// A base call that has counted bytes then.
    Counted,
    /// A `return`.
    Return,
}

/// Whether a `break` of the loop stands in the block.
pub fn breaks(t: &Typed, w: StmtId, body: &Block) -> bool
    requires typed { IsTyped t.now }
    requires known { IsTrue (block_below (length t.now.stmts) body.now) }
    ensures { result ≡ breaks_in w.0 (block_of t.now body.now) }
{
    stands_in_body(t, Sought::Break(w), body)
}

/// Whether a `continue` of the loop stands in the block.
pub fn continues(t: &Typed, w: StmtId, body: &Block) -> bool
    requires typed { IsTyped t.now }
    requires known { IsTrue (block_below (length t.now.stmts) body.now) }
    ensures { result ≡ continues_in w.0 (block_of t.now body.now) }
{
    stands_in_body(t, Sought::Continue(w), body)
}

/// Which numbers the statements of a method's body keep where they suspend.
pub fn find_started(t: &Typed, body: &Block) -> StartedNumbers
    requires typed { IsTyped t.now }
    requires known { IsTrue (block_below (length t.now.stmts) body.now) }
    ensures { result ≡ started_in (block_of t.now body.now) }
{
    StartedNumbers {
        held: stands_in_body(t, Sought::Held, body),
        counted: stands_in_body(t, Sought::Counted, body),
    }
}

/// Whether a `return` stands in the block.
pub(crate) fn returns(t: &Typed, body: &Block) -> bool
    requires typed { IsTyped t.now }
    requires known { IsTrue (block_below (length t.now.stmts) body.now) }
    ensures { result ≡ returns_in (block_of t.now body.now) }
{
    stands_in_body(t, Sought::Return, body)
}

// Whether what is looked for stands in a whole body.
fn stands_in_body(t: &Typed, sought: Sought, body: &Block) -> bool
    requires typed { IsTyped t.now }
    requires known { IsTrue (block_below (length t.now.stmts) body.now) }
    ensures { result ≡ stands (is_sought sought) (block_of t.now body.now) }
{
    found_among(t, sought, body.items.as_slice())
}

// Whether it stands in one of these statements.
fn found_among(t: &Typed, sought: Sought, items: &[StmtId]) -> bool
    requires typed { IsTyped t.now }
    requires known { IsTrue (list_all (λ s. nat_lt s.0 (length t.now.stmts)) items.now) }
    ensures { result ≡ stands_among (stands_at t.now (is_sought sought)) items.now }
{
    for s in items {
        if found_at(t, sought, *s) {
            return true;
        }
    }
    false
}

// A statement's node, with what it says of what stands in it.
fn node(t: &Typed, sought: Sought, s: StmtId) -> &Stmt
    requires typed { IsTyped t.now }
    requires known { s.0 < length t.now.stmts }
    ensures stands { stands_at t.now (is_sought sought) s ≡ stands_of t.now (stands_at t.now (is_sought sought)) sought result.now }
    ensures below { IsTrue (stmt_below t.now s.0 result.now) }
{
    t.stmt(s)
}

// Whether a statement is what is looked for, or has it in one of its blocks.
#[cycle(standing)]
fn found_at(t: &Typed, sought: Sought, s: StmtId) -> bool
    requires typed { IsTyped t.now }
    requires known { s.0 < length t.now.stmts }
    ensures { result ≡ stands_at t.now (is_sought sought) s }
{
    match node(t, sought, s) {
        Stmt::If { arms, otherwise } => found_in_if(t, sought, s, arms.as_slice(), otherwise),
        Stmt::While { head: _, body } => found_in(t, sought, s, body),
        Stmt::Break(w) => is_break(sought, *w),
        Stmt::Continue(w) => is_continue(sought, *w),
        Stmt::Call { callee, args, .. } => is_sought_call(t, sought, *callee, args.as_slice()),
        Stmt::Return(_) => is_return(sought),
        Stmt::Assign { .. } | Stmt::Yield(_) | Stmt::Assert { .. } => false,
    }
}

// Whether it stands in a block inside the statement `s`.
#[cycle(standing)]
fn found_in(t: &Typed, sought: Sought, s: StmtId, block: &Block) -> bool
    requires typed { IsTyped t.now }
    requires known { s.0 < length t.now.stmts }
    requires below { IsTrue (block_below s.0 block.now) }
    ensures { result ≡ stands_among (stands_at t.now (is_sought sought)) block.now.items }
{
    for inner in block.items.as_slice() {
        if found_at(t, sought, *inner) {
            return true;
        }
    }
    false
}

// Whether it stands in an `if`, which is the statement `s`. One without an arm stands for no statement.
#[cycle(standing)]
fn found_in_if(
    t: &Typed,
    sought: Sought,
    s: StmtId,
    arms: &[Arm],
    otherwise: &Option<Block>,
) -> bool
    requires typed { IsTyped t.now }
    requires known { s.0 < length t.now.stmts }
    requires arms { IsTrue (list_all (λ a. is_expr t.now a.cond && block_below s.0 a.body) arms.now) }
    requires otherwise { IsTrue (optional_block_below s.0 otherwise.now) }
    ensures { result ≡ among_if (stands_at t.now (is_sought sought)) arms.now otherwise.now }
{
    if arms.is_empty() {
        return false;
    }
    found_in_arms(t, sought, s, arms) || found_in_else(t, sought, s, otherwise)
}

#[cycle(standing)]
fn found_in_arms(t: &Typed, sought: Sought, s: StmtId, arms: &[Arm]) -> bool
    requires typed { IsTyped t.now }
    requires known { s.0 < length t.now.stmts }
    requires below { IsTrue (list_all (λ a. is_expr t.now a.cond && block_below s.0 a.body) arms.now) }
    ensures { result ≡ stands_in_arms (stands_at t.now (is_sought sought)) arms.now }
{
    for arm in arms {
        if found_in(t, sought, s, &arm.body) {
            return true;
        }
    }
    false
}

#[cycle(standing)]
fn found_in_else(t: &Typed, sought: Sought, s: StmtId, otherwise: &Option<Block>) -> bool
    requires typed { IsTyped t.now }
    requires known { s.0 < length t.now.stmts }
    requires below { IsTrue (optional_block_below s.0 otherwise.now) }
    ensures { result ≡ stands_in_else (stands_at t.now (is_sought sought)) otherwise.now }
{
    match otherwise {
        Some(block) => found_in(t, sought, s, block),
        None => false,
    }
}

fn is_break(sought: Sought, w: StmtId) -> bool
    ensures { result ≡ is_sought sought (break_from w.0) }
{
    match sought {
        Sought::Break(v) => v.0 == w.0,
        Sought::Continue(_) => false,
        Sought::Held | Sought::Counted | Sought::Return => false,
    }
}

fn is_continue(sought: Sought, w: StmtId) -> bool
    ensures { result ≡ is_sought sought (continue_in w.0) }
{
    match sought {
        Sought::Continue(v) => v.0 == w.0,
        Sought::Break(_) => false,
        Sought::Held | Sought::Counted | Sought::Return => false,
    }
}

fn is_return(sought: Sought) -> bool
    ensures { result ≡ is_sought sought (give_back None) }
{
    match sought {
        Sought::Return => true,
        Sought::Break(_) | Sought::Continue(_) => false,
        Sought::Held | Sought::Counted => false,
    }
}

// Whether a call is what is looked for.
fn is_sought_call(t: &Typed, sought: Sought, callee: Callee, args: &[ExprId]) -> bool
    requires args { IsTrue (list_all (is_expr t.now) args.now) }
    ensures { result ≡ call_sought t.now sought callee args.now }
{
    match callee {
        Callee::Base { on: _, sig } => is_sought_base(t, sought, sig, args),
        Callee::Own(_) | Callee::Sub { .. } => false,
    }
}

fn is_sought_base(t: &Typed, sought: Sought, sig: BaseSig, args: &[ExprId]) -> bool
    requires args { IsTrue (list_all (is_expr t.now) args.now) }
    ensures { result ≡ base_sought t.now sought sig args.now }
{
    match sought {
        Sought::Held => holds(t, sig, args),
        Sought::Counted => counts(sig, args.len()),
        Sought::Break(_) | Sought::Continue(_) | Sought::Return => false,
    }
}

// Whether a base call has something to keep where it suspends.
fn holds(t: &Typed, sig: BaseSig, args: &[ExprId]) -> bool
    requires args { IsTrue (list_all (is_expr t.now) args.now) }
    ensures { result ≡ base_holds t.now sig args.now }
{
    match sig {
        BaseSig::Read(ReadForm::ReadU8) => false,
        BaseSig::Read(_) => args.is_empty(),
        BaseSig::Skip => args.len() == 1,
        BaseSig::Write => args.len() == 1 && !stays(t, args[0]),
        _ => false,
    }
}

// Whether it has counted bytes then.
fn counts(sig: BaseSig, args: usize) -> bool
    ensures { result ≡ base_counts sig args }
{
    match sig {
        BaseSig::Read(ReadForm::ReadU8) => false,
        BaseSig::Read(_) => args == 0,
        _ => false,
    }
}

/// The type of an expression. Its tree is of the kind of that type.
pub(crate) fn type_at(t: &Typed, e: ExprId) -> Ty
    requires node { IsTrue (is_expr t.now e) }
    ensures is { result ≡ type_of_node t.now e.0 }
    ensures kind { is_tree_of result (tree_of t.now e) ≡ true }
{
    let _expr = t.expr(e);
    t.type_of(e)
}

/// Whether a resumed call has a number again: a constant, or a local, which it restores. What is no number stands for a local.
pub fn stays(t: &Typed, e: ExprId) -> bool
    requires node { IsTrue (is_expr t.now e) }
    ensures { result ≡ stays_number (node_number t.now e) }
{
    match type_at(t, e) {
        Ty::Num { .. } => number_stays(t, e),
        Ty::Flag | Ty::Status | Ty::Reader | Ty::Writer => true,
        Ty::Slice(_) | Ty::Array { .. } | Ty::Part(_) => true,
    }
}

fn number_stays(t: &Typed, e: ExprId) -> bool
    requires number { IsTrue (is_number_at t.now e) }
    ensures { result ≡ stays_number (node_number t.now e) }
{
    let expr = t.expr(e);
    match t.constant(e) {
        Some(_) => true,
        None => match expr {
            Expr::Convert { of, .. } => number_stays(t, *of),
            Expr::Local(_) => true,
            Expr::Number(_) | Expr::Const(_) | Expr::Status(_) => false,
            Expr::Truth(_) | Expr::Field(_) | Expr::Arg(_) => false,
            Expr::Index { .. } | Expr::Cut { .. } => false,
            Expr::Chain { .. } => false,
            Expr::Not(_) | Expr::Base { .. } => false,
        },
    }
}

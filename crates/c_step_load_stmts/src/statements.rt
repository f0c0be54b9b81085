// The statements of a function's body, one instruction each (ISO/IEC 9899:1999, 6.8). Blocks are left to be put down later,
// so that nothing calls itself, whatever the text nests or repeats.

ghost use Rattle.std.specs.Prelude.{◌≡◌, ◌<◌, ◌+◌, ◌*◌, ◌++◌, ◌∷◌, [], length, OnOk, IfOk, IfSome};
ghost use Rattle.c_text.specs.declared.kinds.Otherwise.{Otherwise};
ghost use Rattle.c_text.specs.CTree.{nested, empty, assign, call, jump, branch, repeat, select, leave as leave_tree};
ghost use Rattle.c_text.specs.CNodes.{bytes_at, expr_of, code_of, value_in, args_in};
ghost use Rattle.c_text.specs.CFits.{HasName, HasCall};
ghost use Rattle.c_meaning.specs.CStep.{code_weight, by_default};
ghost use Rattle.c_step_exprs.specs.Resolving.{value_code};
ghost use Rattle.c_step_text.specs.declared.text.StmtInstr.TheVariants.{Switch, Stuck};
ghost use Rattle.c_step_text.specs.Layout.{Names as NamesOf, go, past, past_both, second, seek, number_or};
ghost use Rattle.c_step_text.specs.Emitted.{span_of, cases_of, return_exprs, return_instr};
ghost use Rattle.c_step_load_stmts.specs.declared.tasks.Task.TheVariants as task;
ghost use Rattle.c_step_load_stmts.specs.Bodies.{nodes_of, scope_of, Fits, Tells, with_exprs, with_arms, with_statement, with_code};
ghost use Rattle.c_step_load_stmts.specs.Tasks.{finished, HasTask, HasTasks, size_of, task_size};

use crate::bodies::Body;
use crate::tasks::{Task, Work, leave, leave_block, put};
use c_step_load_exprs::cell_type;
use c_step_places::{add_cases, next_number};
use c_step_text::{Span, StmtInstr, Text};
use c_text::{CCall, CExprId, CNameId, CStmt, CStmtId};
use wf_text::NoMemory;

/// Where statements stand.
#[derive(Clone, Copy)]
pub struct Spot {
    /// The number of the first one.
    pub number: usize,
    /// The number of what follows them.
    pub next: usize,
}

/// The numbers of a statement with a block.
#[derive(Clone, Copy)]
pub(crate) struct Block {
    /// The first number in the block.
    pub inside: usize,
    /// The number of the statements after it.
    pub past: usize,
    /// The number to go to for these.
    pub after: usize,
}

impl<'r, 'k, 'u> Body<'r, 'k, 'u> {
    /// Puts down a statement, and leaves what is in it and after it.
    pub(crate) fn lay(&self, work: &mut Work, at: Spot, stmt: CStmtId) -> Result<(), NoMemory>
        requires fits { Fits self.now }
        requires left { HasTasks (nodes_of self.now) work.old.left.items }
        requires stmt { stmt.0 < length (nodes_of self.now).stmts }
        ensures has { OnOk result (HasTasks (nodes_of self.now) work.new.left.items) }
        ensures falls { OnOk result (size_of (nodes_of self.now) work.new.left.items < size_of (nodes_of self.now) work.old.left.items + (2 * code_weight (code_of (nodes_of self.now) stmt.0) + 1)) }
        ensures lays { (names : NamesOf) → Tells self.now names → OnOk result (finished (nodes_of self.now) names work.new.text work.new.left.items ≡ finished (nodes_of self.now) names (with_code names work.old.text at.number at.next (code_of (nodes_of self.now) stmt.0)) work.old.left.items) }
    {
        match self.stmt(stmt) {
            CStmt::End => Ok(()),
            CStmt::Block { inner, rest } => self.nested(work, at, *inner, *rest),
            CStmt::Empty { rest } => self.passed(work, at, *rest),
            CStmt::Assign {
                target,
                value,
                rest,
            } => self.assign(work, at, (*target, *value), *rest),
            CStmt::Call { target, call, rest } => self.call(work, at, *target, call, *rest),
            CStmt::Goto { label, rest } => self.jump(work, at, *label, *rest),
            CStmt::If {
                test,
                body,
                other,
                rest,
                ..
            } => self.branch(work, at, *test, (*body, *other), *rest),
            CStmt::While { test, body, rest } => self.repeat(work, at, *test, *body, *rest),
            CStmt::Switch { on, body, rest } => self.select(work, at, *on, *body, *rest),
            CStmt::Return { value, rest } => self.give(work, at, *value, *rest),
            CStmt::Case { rest, .. } => self.passed(work, at, *rest),
            CStmt::Default { rest } => self.passed(work, at, *rest),
            CStmt::Label { rest, .. } => self.passed(work, at, *rest),
        }
    }

    /// The number to go to after a statement with no block in it.
    fn follows(&self, at: Spot, rest: CStmtId) -> Result<usize, NoMemory>
        requires rest { rest.0 < length (nodes_of self.now).stmts }
        ensures { IfOk result (λ n. n ≡ go (at.number + 1) at.next (code_of (nodes_of self.now) rest.0)) }
    {
        let number = next_number(at.number)?;
        Ok(self.go(number, at.next, rest))
    }

    /// Puts down the instruction of a statement with no block in it, and leaves what follows.
    fn lay_one(
        &self,
        work: &mut Work,
        at: Spot,
        it: StmtInstr,
        rest: CStmtId,
    ) -> Result<(), NoMemory>
        requires left { HasTasks (nodes_of self.now) work.old.left.items }
        requires rest { rest.0 < length (nodes_of self.now).stmts }
        ensures has { OnOk result (HasTasks (nodes_of self.now) work.new.left.items) }
        ensures size { OnOk result (size_of (nodes_of self.now) work.new.left.items ≡ size_of (nodes_of self.now) work.old.left.items + (2 * code_weight (code_of (nodes_of self.now) rest.0) + 1)) }
        ensures lays { (names : NamesOf) → OnOk result (finished (nodes_of self.now) names work.new.text work.new.left.items ≡ finished (nodes_of self.now) names (with_code names (with_statement work.old.text it) (at.number + 1) at.next (code_of (nodes_of self.now) rest.0)) work.old.left.items) }
    {
        let number = next_number(at.number)?;
        put(&mut work.text, it)?;
        leave(
            &mut work.left,
            Task::Code {
                stmt: rest,
                number,
                next: at.next,
            },
        )
    }

    /// A statement that does nothing, or a label.
    fn passed(&self, work: &mut Work, at: Spot, rest: CStmtId) -> Result<(), NoMemory>
        requires fits { Fits self.now }
        requires left { HasTasks (nodes_of self.now) work.old.left.items }
        requires rest { rest.0 < length (nodes_of self.now).stmts }
        ensures has { OnOk result (HasTasks (nodes_of self.now) work.new.left.items) }
        ensures falls { OnOk result (size_of (nodes_of self.now) work.new.left.items < size_of (nodes_of self.now) work.old.left.items + (2 * code_weight (empty (code_of (nodes_of self.now) rest.0)) + 1)) }
        ensures lays { (names : NamesOf) → Tells self.now names → OnOk result (finished (nodes_of self.now) names work.new.text work.new.left.items ≡ finished (nodes_of self.now) names (with_code names work.old.text at.number at.next (empty (code_of (nodes_of self.now) rest.0))) work.old.left.items) }
    {
        let next = self.follows(at, rest)?;
        self.lay_one(work, at, StmtInstr::Goto(next), rest)
    }

    /// `target = value;`
    fn assign(
        &self,
        work: &mut Work,
        at: Spot,
        parts: (CExprId, CExprId),
        rest: CStmtId,
    ) -> Result<(), NoMemory>
        requires fits { Fits self.now }
        requires left { HasTasks (nodes_of self.now) work.old.left.items }
        requires target { parts.0.0 < length (nodes_of self.now).exprs }
        requires value { parts.1.0 < length (nodes_of self.now).exprs }
        requires rest { rest.0 < length (nodes_of self.now).stmts }
        ensures has { OnOk result (HasTasks (nodes_of self.now) work.new.left.items) }
        ensures falls { OnOk result (size_of (nodes_of self.now) work.new.left.items < size_of (nodes_of self.now) work.old.left.items + (2 * code_weight (assign (expr_of (nodes_of self.now) parts.0.0) (expr_of (nodes_of self.now) parts.1.0) (code_of (nodes_of self.now) rest.0)) + 1)) }
        ensures lays { (names : NamesOf) → Tells self.now names → OnOk result (finished (nodes_of self.now) names work.new.text work.new.left.items ≡ finished (nodes_of self.now) names (with_code names work.old.text at.number at.next (assign (expr_of (nodes_of self.now) parts.0.0) (expr_of (nodes_of self.now) parts.1.0) (code_of (nodes_of self.now) rest.0))) work.old.left.items) }
    {
        let next = self.follows(at, rest)?;
        let target = self.put_place(&mut work.text, parts.0)?;
        let value = self.put_value(&mut work.text, parts.1)?;
        let it = StmtInstr::Assign {
            target,
            value,
            next,
        };
        self.lay_one(work, at, it, rest)
    }

    /// A call.
    fn call(
        &self,
        work: &mut Work,
        at: Spot,
        target: Option<CExprId>,
        it: &CCall,
        rest: CStmtId,
    ) -> Result<(), NoMemory>
        requires fits { Fits self.now }
        requires left { HasTasks (nodes_of self.now) work.old.left.items }
        requires target { IfSome target (λ e. e.0 < length (nodes_of self.now).exprs) }
        requires call { HasCall (nodes_of self.now) (length (nodes_of self.now).exprs) it.now }
        requires rest { rest.0 < length (nodes_of self.now).stmts }
        ensures has { OnOk result (HasTasks (nodes_of self.now) work.new.left.items) }
        ensures falls { OnOk result (size_of (nodes_of self.now) work.new.left.items < size_of (nodes_of self.now) work.old.left.items + (2 * code_weight (call (value_in (expr_of (nodes_of self.now)) target) (bytes_at (nodes_of self.now).names it.now.function.0) (args_in (nodes_of self.now).names (expr_of (nodes_of self.now)) it.now.args) (code_of (nodes_of self.now) rest.0)) + 1)) }
        ensures lays { (names : NamesOf) → Tells self.now names → OnOk result (finished (nodes_of self.now) names work.new.text work.new.left.items ≡ finished (nodes_of self.now) names (with_code names work.old.text at.number at.next (call (value_in (expr_of (nodes_of self.now)) target) (bytes_at (nodes_of self.now).names it.now.function.0) (args_in (nodes_of self.now).names (expr_of (nodes_of self.now)) it.now.args) (code_of (nodes_of self.now) rest.0))) work.old.left.items) }
    {
        let next = self.follows(at, rest)?;
        let it = self.call_instr(&mut work.text, target, it, next)?;
        self.lay_one(work, at, it, rest)
    }

    /// `goto label;`
    fn jump(&self, work: &mut Work, at: Spot, label: CNameId, rest: CStmtId) -> Result<(), NoMemory>
        requires fits { Fits self.now }
        requires left { HasTasks (nodes_of self.now) work.old.left.items }
        requires label { HasName (nodes_of self.now) label }
        requires rest { rest.0 < length (nodes_of self.now).stmts }
        ensures has { OnOk result (HasTasks (nodes_of self.now) work.new.left.items) }
        ensures falls { OnOk result (size_of (nodes_of self.now) work.new.left.items < size_of (nodes_of self.now) work.old.left.items + (2 * code_weight (jump (bytes_at (nodes_of self.now).names label.0) (code_of (nodes_of self.now) rest.0)) + 1)) }
        ensures lays { (names : NamesOf) → Tells self.now names → OnOk result (finished (nodes_of self.now) names work.new.text work.new.left.items ≡ finished (nodes_of self.now) names (with_code names work.old.text at.number at.next (jump (bytes_at (nodes_of self.now).names label.0) (code_of (nodes_of self.now) rest.0))) work.old.left.items) }
    {
        let it = match self.labels.get(self.names.scope.spelt(label)) {
            Some(target) => StmtInstr::Goto(target),
            None => StmtInstr::Stuck,
        };
        self.lay_one(work, at, it, rest)
    }

    /// `return;` and `return value;`
    fn give(
        &self,
        work: &mut Work,
        at: Spot,
        value: Option<CExprId>,
        rest: CStmtId,
    ) -> Result<(), NoMemory>
        requires fits { Fits self.now }
        requires left { HasTasks (nodes_of self.now) work.old.left.items }
        requires value { IfSome value (λ e. e.0 < length (nodes_of self.now).exprs) }
        requires rest { rest.0 < length (nodes_of self.now).stmts }
        ensures has { OnOk result (HasTasks (nodes_of self.now) work.new.left.items) }
        ensures falls { OnOk result (size_of (nodes_of self.now) work.new.left.items < size_of (nodes_of self.now) work.old.left.items + (2 * code_weight (leave_tree (value_in (expr_of (nodes_of self.now)) value) (code_of (nodes_of self.now) rest.0)) + 1)) }
        ensures lays { (names : NamesOf) → Tells self.now names → OnOk result (finished (nodes_of self.now) names work.new.text work.new.left.items ≡ finished (nodes_of self.now) names (with_code names work.old.text at.number at.next (leave_tree (value_in (expr_of (nodes_of self.now)) value) (code_of (nodes_of self.now) rest.0))) work.old.left.items) }
    {
        let it = self.give_instr(&mut work.text, value)?;
        self.lay_one(work, at, it, rest)
    }

    /// Puts down the value of a `return`; its instruction.
    fn give_instr(&self, text: &mut Text, value: Option<CExprId>) -> Result<StmtInstr, NoMemory>
        requires fits { Fits self.now }
        requires value { IfSome value (λ e. e.0 < length (nodes_of self.now).exprs) }
        ensures text { (names : NamesOf) → Tells self.now names → OnOk result (text.new ≡ with_exprs text.old (return_exprs names names.result_type (value_in (expr_of (nodes_of self.now)) value))) }
        ensures instr { (names : NamesOf) → Tells self.now names → IfOk result (λ it. it ≡ return_instr names (length text.old.exprs) names.result_type (value_in (expr_of (nodes_of self.now)) value)) }
    {
        match value {
            None => Ok(StmtInstr::Finish),
            Some(e) => match self.result {
                None => Ok(StmtInstr::Stuck),
                Some(ty) => {
                    let value = self.put_value(text, e)?;
                    Ok(StmtInstr::Return {
                        value,
                        ty: cell_type(ty),
                    })
                }
            },
        }
    }

    /// The numbers of a statement with a block.
    fn block(&self, at: Spot, body: CStmtId, rest: CStmtId) -> Result<Block, NoMemory>
        requires fits { Fits self.now }
        requires body { body.0 < length (nodes_of self.now).stmts }
        requires rest { rest.0 < length (nodes_of self.now).stmts }
        ensures { IfOk result (λ b. b ≡ record { inside = at.number + 1; past = past at.number (code_of (nodes_of self.now) body.0); after = go (past at.number (code_of (nodes_of self.now) body.0)) at.next (code_of (nodes_of self.now) rest.0) }) }
    {
        let inside = next_number(at.number)?;
        let past = self.past(at.number, body)?;
        Ok(Block {
            inside,
            past,
            after: self.go(past, at.next, rest),
        })
    }

    /// The same of an `if`, with that of what stands in its `else`.
    fn blocks(
        &self,
        at: Spot,
        two: (CStmtId, CStmtId),
        rest: CStmtId,
    ) -> Result<(Block, usize), NoMemory>
        requires fits { Fits self.now }
        requires body { two.0.0 < length (nodes_of self.now).stmts }
        requires other { two.1.0 < length (nodes_of self.now).stmts }
        requires rest { rest.0 < length (nodes_of self.now).stmts }
        ensures block { IfOk result (λ b. b.0 ≡ record { inside = at.number + 1; past = past_both at.number (code_of (nodes_of self.now) two.0.0) (code_of (nodes_of self.now) two.1.0); after = go (past_both at.number (code_of (nodes_of self.now) two.0.0) (code_of (nodes_of self.now) two.1.0)) at.next (code_of (nodes_of self.now) rest.0) }) }
        ensures second { IfOk result (λ b. b.1 ≡ second at.number (code_of (nodes_of self.now) two.0.0)) }
    {
        let inside = next_number(at.number)?;
        let past = self.past_both(at.number, two.0, two.1)?;
        let second = self.second(at.number, two.0)?;
        let after = self.go(past, at.next, rest);
        Ok((
            Block {
                inside,
                past,
                after,
            },
            second,
        ))
    }

    /// `{ inner }`
    fn nested(
        &self,
        work: &mut Work,
        at: Spot,
        inner: CStmtId,
        rest: CStmtId,
    ) -> Result<(), NoMemory>
        requires fits { Fits self.now }
        requires left { HasTasks (nodes_of self.now) work.old.left.items }
        requires inner { inner.0 < length (nodes_of self.now).stmts }
        requires rest { rest.0 < length (nodes_of self.now).stmts }
        ensures has { OnOk result (HasTasks (nodes_of self.now) work.new.left.items) }
        ensures falls { OnOk result (size_of (nodes_of self.now) work.new.left.items < size_of (nodes_of self.now) work.old.left.items + (2 * code_weight (nested (code_of (nodes_of self.now) inner.0) (code_of (nodes_of self.now) rest.0)) + 1)) }
        ensures lays { (names : NamesOf) → Tells self.now names → OnOk result (finished (nodes_of self.now) names work.new.text work.new.left.items ≡ finished (nodes_of self.now) names (with_code names work.old.text at.number at.next (nested (code_of (nodes_of self.now) inner.0) (code_of (nodes_of self.now) rest.0))) work.old.left.items) }
    {
        let block = self.block(at, inner, rest)?;
        let to = self.go(block.inside, block.after, inner);
        put(&mut work.text, StmtInstr::Goto(to))?;
        self.leave_inside(work, at, (inner, rest), block)
    }

    /// Leaves a block, after which no instruction is needed, and what follows.
    fn leave_inside(
        &self,
        work: &mut Work,
        at: Spot,
        parts: (CStmtId, CStmtId),
        block: Block,
    ) -> Result<(), NoMemory>
        ensures text { OnOk result (work.new.text ≡ work.old.text) }
        ensures left { OnOk result (work.new.left.items ≡ work.old.left.items ++ task.Code parts.1 block.past at.next ∷ task.Instr Stuck ∷ task.Code parts.0 block.inside block.after ∷ []) }
    {
        let inside = Task::Code {
            stmt: parts.0,
            number: block.inside,
            next: block.after,
        };
        let behind = Task::Code {
            stmt: parts.1,
            number: block.past,
            next: at.next,
        };
        leave_block(&mut work.left, inside, StmtInstr::Stuck, behind)
    }

    /// `if (test) { body }` and what stands in its `else`.
    fn branch(
        &self,
        work: &mut Work,
        at: Spot,
        test: CExprId,
        two: (CStmtId, CStmtId),
        rest: CStmtId,
    ) -> Result<(), NoMemory>
        requires fits { Fits self.now }
        requires left { HasTasks (nodes_of self.now) work.old.left.items }
        requires test { test.0 < length (nodes_of self.now).exprs }
        requires body { two.0.0 < length (nodes_of self.now).stmts }
        requires other { two.1.0 < length (nodes_of self.now).stmts }
        requires rest { rest.0 < length (nodes_of self.now).stmts }
        ensures has { OnOk result (HasTasks (nodes_of self.now) work.new.left.items) }
        ensures falls { (kind : Otherwise) → OnOk result (size_of (nodes_of self.now) work.new.left.items < size_of (nodes_of self.now) work.old.left.items + (2 * code_weight (branch (expr_of (nodes_of self.now) test.0) (code_of (nodes_of self.now) two.0.0) kind (code_of (nodes_of self.now) two.1.0) (code_of (nodes_of self.now) rest.0)) + 1)) }
        ensures lays { (kind : Otherwise) (names : NamesOf) → Tells self.now names → OnOk result (finished (nodes_of self.now) names work.new.text work.new.left.items ≡ finished (nodes_of self.now) names (with_code names work.old.text at.number at.next (branch (expr_of (nodes_of self.now) test.0) (code_of (nodes_of self.now) two.0.0) kind (code_of (nodes_of self.now) two.1.0) (code_of (nodes_of self.now) rest.0))) work.old.left.items) }
    {
        let (block, second) = self.blocks(at, two, rest)?;
        let test = self.put_value(&mut work.text, test)?;
        let it = StmtInstr::Test {
            test,
            met: self.go(block.inside, block.after, two.0),
            unmet: self.go(second, block.after, two.1),
        };
        put(&mut work.text, it)?;
        self.leave_both(work, at, (two.0, two.1, rest), block, second)
    }

    /// Leaves both blocks of an `if`, and what follows.
    fn leave_both(
        &self,
        work: &mut Work,
        at: Spot,
        parts: (CStmtId, CStmtId, CStmtId),
        block: Block,
        second: usize,
    ) -> Result<(), NoMemory>
        ensures text { OnOk result (work.new.text ≡ work.old.text) }
        ensures left { OnOk result (work.new.left.items ≡ work.old.left.items ++ task.Code parts.2 block.past at.next ∷ task.Instr Stuck ∷ task.Code parts.1 second block.after ∷ task.Code parts.0 block.inside block.after ∷ []) }
    {
        let other = Block {
            inside: second,
            past: block.past,
            after: block.after,
        };
        self.leave_inside(work, at, (parts.1, parts.2), other)?;
        leave(
            &mut work.left,
            Task::Code {
                stmt: parts.0,
                number: block.inside,
                next: block.after,
            },
        )
    }

    /// `while (test) { body }`
    fn repeat(
        &self,
        work: &mut Work,
        at: Spot,
        test: CExprId,
        body: CStmtId,
        rest: CStmtId,
    ) -> Result<(), NoMemory>
        requires fits { Fits self.now }
        requires left { HasTasks (nodes_of self.now) work.old.left.items }
        requires test { test.0 < length (nodes_of self.now).exprs }
        requires body { body.0 < length (nodes_of self.now).stmts }
        requires rest { rest.0 < length (nodes_of self.now).stmts }
        ensures has { OnOk result (HasTasks (nodes_of self.now) work.new.left.items) }
        ensures falls { OnOk result (size_of (nodes_of self.now) work.new.left.items < size_of (nodes_of self.now) work.old.left.items + (2 * code_weight (repeat (expr_of (nodes_of self.now) test.0) (code_of (nodes_of self.now) body.0) (code_of (nodes_of self.now) rest.0)) + 1)) }
        ensures lays { (names : NamesOf) → Tells self.now names → OnOk result (finished (nodes_of self.now) names work.new.text work.new.left.items ≡ finished (nodes_of self.now) names (with_code names work.old.text at.number at.next (repeat (expr_of (nodes_of self.now) test.0) (code_of (nodes_of self.now) body.0) (code_of (nodes_of self.now) rest.0))) work.old.left.items) }
    {
        let block = self.block(at, body, rest)?;
        let end = self.second(at.number, body)?;
        let test = self.put_value(&mut work.text, test)?;
        let met = self.go(block.inside, end, body);
        let it = StmtInstr::Test {
            test,
            met,
            unmet: block.after,
        };
        put(&mut work.text, it)?;
        let back = StmtInstr::Back {
            test,
            met,
            unmet: block.after,
        };
        self.leave_loop(work, at, (body, rest), (block, end), back)
    }

    /// Leaves the block of a `while`, what stands after it, and what follows.
    fn leave_loop(
        &self,
        work: &mut Work,
        at: Spot,
        parts: (CStmtId, CStmtId),
        numbers: (Block, usize),
        back: StmtInstr,
    ) -> Result<(), NoMemory>
        ensures text { OnOk result (work.new.text ≡ work.old.text) }
        ensures left { OnOk result (work.new.left.items ≡ work.old.left.items ++ task.Code parts.1 numbers.0.past at.next ∷ task.Instr back ∷ task.Code parts.0 numbers.0.inside numbers.1 ∷ []) }
    {
        let inside = Task::Code {
            stmt: parts.0,
            number: numbers.0.inside,
            next: numbers.1,
        };
        let behind = Task::Code {
            stmt: parts.1,
            number: numbers.0.past,
            next: at.next,
        };
        leave_block(&mut work.left, inside, back, behind)
    }

    /// `switch (on) { body }`
    fn select(
        &self,
        work: &mut Work,
        at: Spot,
        on: CExprId,
        body: CStmtId,
        rest: CStmtId,
    ) -> Result<(), NoMemory>
        requires fits { Fits self.now }
        requires left { HasTasks (nodes_of self.now) work.old.left.items }
        requires on { on.0 < length (nodes_of self.now).exprs }
        requires body { body.0 < length (nodes_of self.now).stmts }
        requires rest { rest.0 < length (nodes_of self.now).stmts }
        ensures has { OnOk result (HasTasks (nodes_of self.now) work.new.left.items) }
        ensures falls { OnOk result (size_of (nodes_of self.now) work.new.left.items < size_of (nodes_of self.now) work.old.left.items + (2 * code_weight (select (expr_of (nodes_of self.now) on.0) (code_of (nodes_of self.now) body.0) (code_of (nodes_of self.now) rest.0)) + 1)) }
        ensures lays { (names : NamesOf) → Tells self.now names → OnOk result (finished (nodes_of self.now) names work.new.text work.new.left.items ≡ finished (nodes_of self.now) names (with_code names work.old.text at.number at.next (select (expr_of (nodes_of self.now) on.0) (code_of (nodes_of self.now) body.0) (code_of (nodes_of self.now) rest.0))) work.old.left.items) }
    {
        let block = self.block(at, body, rest)?;
        let it = self.switch_instr(&mut work.text, on, body, block)?;
        put(&mut work.text, it)?;
        self.leave_inside(work, at, (body, rest), block)
    }

    /// Puts down the number and the cases of a `switch`; its instruction.
    fn switch_instr(
        &self,
        text: &mut Text,
        on: CExprId,
        body: CStmtId,
        block: Block,
    ) -> Result<StmtInstr, NoMemory>
        requires fits { Fits self.now }
        requires on { on.0 < length (nodes_of self.now).exprs }
        requires body { body.0 < length (nodes_of self.now).stmts }
        ensures text { OnOk result (text.new ≡ with_arms (with_exprs text.old (value_code (scope_of self.now) (expr_of (nodes_of self.now) on.0))) (cases_of block.inside (code_of (nodes_of self.now) body.0))) }
        ensures instr { IfOk result (λ it. it ≡ Switch (span_of (length text.old.exprs) (value_code (scope_of self.now) (expr_of (nodes_of self.now) on.0))) (span_of (length text.old.arms) (cases_of block.inside (code_of (nodes_of self.now) body.0))) (number_or (seek by_default block.inside (code_of (nodes_of self.now) body.0)) block.after)) }
    {
        let on = self.put_value(text, on)?;
        let from = text.arms.len();
        let default = add_cases(
            self.alloc,
            &self.weighed,
            body,
            block.inside,
            &mut text.arms,
        )?;
        let arms = Span {
            from,
            to: text.arms.len(),
        };
        let other = match default {
            Some(number) => number,
            None => block.after,
        };
        Ok(StmtInstr::Switch { on, arms, other })
    }

    /// Puts down a body that begins at a number, whose end has a number too.
    pub fn lay_all(&self, work: &mut Work, at: Spot, body: CStmtId) -> Result<(), NoMemory>
        requires fits { Fits self.now }
        requires left { work.old.left.items ≡ [] }
        requires body { body.0 < length (nodes_of self.now).stmts }
        ensures left { OnOk result (work.new.left.items ≡ []) }
        ensures text { (names : NamesOf) → Tells self.now names → OnOk result (work.new.text ≡ with_code names work.old.text at.number at.next (code_of (nodes_of self.now) body.0)) }
    {
        let first = Task::Code {
            stmt: body,
            number: at.number,
            next: at.next,
        };
        leave(&mut work.left, first)?;
        while let Some(task) = work.left.pop() {
            self.work_on(work, task)?;
        }
        Ok(())
    }

    /// Puts down what comes next.
    fn work_on(&self, work: &mut Work, it: Task) -> Result<(), NoMemory>
        requires fits { Fits self.now }
        requires left { HasTasks (nodes_of self.now) work.old.left.items }
        requires it { HasTask (nodes_of self.now) it }
        ensures has { OnOk result (HasTasks (nodes_of self.now) work.new.left.items) }
        ensures falls { OnOk result (size_of (nodes_of self.now) work.new.left.items < size_of (nodes_of self.now) work.old.left.items + task_size (nodes_of self.now) it) }
        ensures lays { (names : NamesOf) → Tells self.now names → OnOk result (finished (nodes_of self.now) names work.new.text work.new.left.items ≡ finished (nodes_of self.now) names work.old.text (work.old.left.items ++ it ∷ [])) }
    {
        match it {
            Task::Code { stmt, number, next } => self.lay(work, Spot { number, next }, stmt),
            Task::Instr(instr) => put(&mut work.text, instr),
        }
    }
}

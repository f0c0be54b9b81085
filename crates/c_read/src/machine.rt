// The machine of the grammar at work on the tokens of a text.

ghost use Rattle.std.specs.Prelude.{◌≡◌, ◌++◌, OnOk, IfOk};
ghost use Rattle.c_read_grammar.specs.Feeding.{start};
ghost use Rattle.c_read_grammar.specs.Texts.{IsToken};
ghost use Rattle.c_read_grammar.specs.Values.{kept};
ghost use Rattle.c_read_tokens.specs.Kinds.{token_of};
ghost use Rattle.c_read_nodes.specs.Makers.{made, IsFit};
ghost use Rattle.c_read.specs.Machines.{AnswersMeeting, AnswersToken, AnswersEnd, state_of};

use c_read_grammar::{ItemSym, Sym, Want};
use c_read_nodes::{Maker, SemanticValue};
use c_read_table::{Move, Wants, may_end, move_of};
use c_read_tokens::Kind;
use c_text::Unit;
use stacks::Stack;
use std::alloc::Global;
use wf_text::NoMemory;

/// What is made so far, and what is still wanted.
#[derive(Drop)]
pub(crate) struct Machine {
    pub maker: Maker,
    pub wants: Stack<Want>,
}

/// What a token does to the top of what is wanted.
#[derive(Clone, Copy, PartialEq, Eq)]
pub(crate) enum Meeting {
    /// It is read.
    Read,
    /// The top may be absent: the token is for what stands below.
    Passed,
    /// No text goes on so.
    Refused,
}

impl Machine {
    /// A machine before a text's first token.
    #[tactic(auto, using(crate::proofs::Starting::nothing_made))]
    pub(crate) fn new(alloc: Global) -> Result<Machine, NoMemory>
        ensures start { IfOk result (λ m. state_of m ≡ start) }
        ensures fit { IfOk result (λ m. IsFit m.maker) }
    {
        let mut values = Stack::new(alloc);
        values.push(SemanticValue::Unit)?;
        let mut wants = Stack::new(alloc);
        wants.push(Want::Read(Sym::Item(ItemSym::Unit)))?;
        Ok(Machine {
            maker: Maker {
                alloc,
                unit: Unit::new(alloc),
                values,
            },
            wants,
        })
    }

    /// A token that is read, after which `wants` are wanted first.
    fn take(&mut self, wants: &Wants, kind: Kind, text: &[u8]) -> Result<(), NoMemory>
        requires fit { IsFit self.old.maker }
        requires token { IsToken (token_of kind text.now) }
        ensures state { OnOk result (state_of self.new ≡ record { wanted = wants.now ++ self.old.wants; vals = kept (token_of kind text.now) (made self.old.maker) }) }
        ensures fit { OnOk result (IsFit self.new.maker) }
    {
        wants.push_on(&mut self.wants)?;
        self.maker.keep(kind, text)
    }

    /// A token where `symbol` stood on top of what is wanted: whether it is read, passed or refused.
    fn meet(&mut self, symbol: Sym, kind: Kind, text: &[u8]) -> Result<Meeting, NoMemory>
        requires fit { IsFit self.old.maker }
        requires token { IsToken (token_of kind text.now) }
        ensures answers { IfOk result (AnswersMeeting symbol (token_of kind text.now) self.old self.new) }
        ensures fit { OnOk result (IsFit self.new.maker) }
    {
        match move_of(symbol, kind) {
            Move::Take(wants) => {
                self.take(&wants, kind, text)?;
                Ok(Meeting::Read)
            }
            Move::Pass => Ok(Meeting::Passed),
            Move::Stop => Ok(Meeting::Refused),
        }
    }

    /// One token: whether it is read. Where it isn't, no text goes on so.
    pub(crate) fn step(&mut self, kind: Kind, text: &[u8]) -> Result<bool, NoMemory>
        requires fit { IsFit self.old.maker }
        requires token { IsToken (token_of kind text.now) }
        ensures answers { IfOk result (AnswersToken (token_of kind text.now) self.old self.new) }
        ensures fit { OnOk result (IsFit self.new.maker) }
    {
        while let Some(want) = self.wants.pop() {
            match want {
                Want::Perform(action) => self.maker.perform(action)?,
                Want::Read(symbol) => match self.meet(symbol, kind, text)? {
                    Meeting::Read => return Ok(true),
                    Meeting::Passed => {}
                    Meeting::Refused => return Ok(false),
                },
            }
        }
        Ok(false)
    }

    /// The end of the text: whether it may end so.
    pub(crate) fn finish(&mut self) -> Result<bool, NoMemory>
        requires fit { IsFit self.old.maker }
        ensures answers { IfOk result (AnswersEnd self.old self.new) }
        ensures fit { OnOk result (IsFit self.new.maker) }
    {
        while let Some(want) = self.wants.pop() {
            match want {
                Want::Perform(action) => self.maker.perform(action)?,
                Want::Read(symbol) => {
                    if !may_end(symbol) {
                        return Ok(false);
                    }
                }
            }
        }
        Ok(true)
    }
}

// Reading a text.

ghost use Rattle.std.specs.Prelude.{◌≡◌, ◌≤◌, ◌<◌, ◌++◌, ◌&&◌, [], true, false, nat_eq, length, IfOk, OnOk};
ghost use Rattle.c_text.specs.CNodes.{unit_tree};
ghost use Rattle.c_text.specs.CSpelling.{includes};
ghost use Rattle.c_read_grammar.specs.Feeding.{start};
ghost use Rattle.c_read_grammar.specs.Texts.{IsToken, is_opening, open_after};
ghost use Rattle.c_read_tokens.specs.Kinds.{token_of, bare};
ghost use Rattle.c_read.specs.Machines.{state_of};
ghost use Rattle.c_read_nodes.specs.Makers.{IsFit};
ghost use Rattle.c_read.specs.Reading.{HasEnding, EndsThere, StepsThere, StepsOn, AnswersRead};

use crate::faults::ReadFault;
use crate::machine::Machine;
use c_read_tokens::{Kind, behind_lines, first_piece, gap_len};
use c_text::{CMark, Unit};
use std::alloc::Global;
use wf_text::NoMemory;

/// How many brackets may be open.
const MOST_BRACKETS: usize = 512;

/// How a text ends.
#[derive(Clone, Copy, PartialEq, Eq)]
pub(crate) enum Ending {
    /// It is read to its end.
    Whole,
    /// A bracket here is one too many.
    TooDeep { at: usize },
    /// What stands here can't.
    NotC { at: usize },
}

/// Whether a text ends here, or how it goes on: what stands after the token, and how many brackets are open there.
#[derive(Clone, Copy)]
pub(crate) enum Step<'a> {
    /// It ends.
    Ends(Ending),
    /// A token is read.
    GoesOn { rest: &'a [u8], depth: usize },
}

/// Whether a token opens a bracket.
fn is_opening(kind: Kind) -> bool
    ensures { result ≡ is_opening (bare kind) }
{
    match kind {
        Kind::Mark(CMark::OpenParen) => true,
        Kind::Mark(CMark::OpenBracket) => true,
        Kind::Mark(CMark::OpenBrace) => true,
        _ => false,
    }
}

/// Whether a token opens a bracket where 512 are open.
fn is_too_deep(depth: usize, kind: Kind) -> bool
    ensures { result ≡ (is_opening (bare kind) && nat_eq depth 512) }
{
    is_opening(kind) && depth == MOST_BRACKETS
}

/// How many brackets are open after a token, where `depth` are open before it.
fn open_after(depth: usize, kind: Kind) -> usize
    requires { depth ≤ 512 }
    ensures { result ≡ open_after depth (bare kind) }
{
    match kind {
        Kind::Mark(CMark::OpenParen) => depth + 1,
        Kind::Mark(CMark::OpenBracket) => depth + 1,
        Kind::Mark(CMark::OpenBrace) => depth + 1,
        Kind::Mark(CMark::CloseParen) => depth.saturating_sub(1),
        Kind::Mark(CMark::CloseBracket) => depth.saturating_sub(1),
        Kind::Mark(CMark::CloseBrace) => depth.saturating_sub(1),
        _ => depth,
    }
}

/// Whether there are no bytes.
fn is_empty(bytes: &[u8]) -> bool
    ensures none { result ≡ true → bytes.now ≡ [] }
    ensures some { result ≡ false → 0 < length bytes.now }
{
    bytes.len() == 0
}

impl Machine {
    /// The end of the bytes, of which there are `at`.
    fn end(&mut self, at: usize) -> Result<Ending, NoMemory>
        requires fit { IsFit self.old.maker }
        ensures ending { IfOk result (EndsThere at self.old self.new) }
        ensures fit { OnOk result (IsFit self.new.maker) }
    {
        let whole = self.finish()?;
        if whole {
            Ok(Ending::Whole)
        } else {
            Ok(Ending::NotC { at })
        }
    }

    /// The token that stands at this place.
    fn piece<'a>(
        &mut self,
        at: usize,
        depth: usize,
        kind: Kind,
        text: &[u8],
        rest: &'a [u8],
    ) -> Result<Step<'a>, NoMemory>
        requires fit { IsFit self.old.maker }
        requires token { IsToken (token_of kind text.now) }
        requires few { depth ≤ 512 }
        ensures step { IfOk result (StepsThere at depth (token_of kind text.now) rest.now self.old self.new) }
        ensures fit { OnOk result (IsFit self.new.maker) }
    {
        if is_too_deep(depth, kind) {
            return Ok(Step::Ends(Ending::TooDeep { at }));
        }
        let taken = self.step(kind, text)?;
        if !taken {
            return Ok(Step::Ends(Ending::NotC { at }));
        }
        Ok(Step::GoesOn {
            rest,
            depth: open_after(depth, kind),
        })
    }

    /// The next token of a text of `whole` bytes, of which `rest` are left.
    fn next<'a>(&mut self, whole: usize, rest: &'a [u8], depth: usize) -> Result<Step<'a>, NoMemory>
        requires fit { IsFit self.old.maker }
        requires few { depth ≤ 512 }
        requires within { length rest.now ≤ whole }
        ensures step { IfOk result (StepsOn whole rest.now depth self.old self.new) }
        ensures fit { OnOk result (IsFit self.new.maker) }
    {
        let (_, behind) = rest.split_at(gap_len(rest));
        let at = whole - behind.len();
        if is_empty(behind) {
            let ending = self.end(at)?;
            return Ok(Step::Ends(ending));
        }
        match first_piece(behind) {
            Some(piece) => self.piece(at, depth, piece.kind, piece.text, piece.rest),
            None => Ok(Step::Ends(Ending::NotC { at })),
        }
    }

    /// Reads what stands after the three lines of a text of `whole` bytes.
    fn read_body(&mut self, whole: usize, body: &[u8]) -> Result<Ending, NoMemory>
        requires fit { IsFit self.old.maker }
        requires start { state_of self.old ≡ start }
        requires whole { whole ≡ length (includes ++ body.now) }
        ensures { IfOk result (HasEnding (includes ++ body.now) (unit_tree self.new.maker.unit)) }
    {
        let mut depth: usize = 0;
        let mut rest = body;
        loop {
            match self.next(whole, rest, depth)? {
                Step::Ends(ending) => return Ok(ending),
                Step::GoesOn {
                    rest: behind,
                    depth: now,
                } => {
                    rest = behind;
                    depth = now;
                }
            }
        }
    }
}

/// Reads the bytes of a text: exactly the unit of its tree. `TooDeep` exactly where a bracket opens where 512 are
/// open and what stands before it begins a text; `NotC` exactly where the bytes are no text otherwise, at the
/// first token that can't go on; at the end, `at` is the number of bytes. `Memory` where memory was refused.
pub fn read(alloc: Global, bytes: &[u8]) -> Result<Unit, ReadFault>
    ensures { AnswersRead bytes.now result }
{
    let body = behind_lines(bytes).map_err(|at| ReadFault::NotC { at: at as u64 })?;
    let mut machine = Machine::new(alloc)?;
    match machine.read_body(bytes.len(), body)? {
        Ending::Whole => Ok(machine.maker.unit),
        Ending::TooDeep { at } => Err(ReadFault::TooDeep { at: at as u64 }),
        Ending::NotC { at } => Err(ReadFault::NotC { at: at as u64 }),
    }
}

// The tokens of a file, as the grammar reads them: each is made when it is asked for, and none is stored.

ghost use Rattle.std.specs.Prelude.{◌≡◌, ◌+◌, ◌<◌, ◌≤◌, ◌^◌, length, OnOk, IfOk, IfSome};
ghost use Rattle.wf_tokens.specs.Places.{behind_bytes};
ghost use Rattle.wf_tokens.specs.Spelling.{start, left};
ghost use Rattle.wf_parse.specs.Lexing.{ChangesTexts, AnswersNext, ReadsRest};

use crate::recent::Recent;
use crate::token_kinds::kind_of;
use std::alloc::{AllocError, Global};
use std::marker::Model;
use wf_ast::PackageNodes;
use wf_parse_grammar::Token;
use wf_text::{NoMemory, PhaseFault, Place};
use wf_tokens::Lexer;

/// The tokens of a file that are left. Names and texts join the texts of the package.
#[derive(Drop)]
pub(crate) struct Tokens<'a> {
    lexer: Lexer<'a>,
    recent: Recent,
}

impl<'a> Model for Tokens<'a> {
    ghost use Rattle.wf_tokens.specs.Spelling.{State};

    ghost Value = { State };

    ghost view = { λ t. t.lexer };
}

impl<'a> Tokens<'a> {
    /// All tokens of the file with this number.
    pub(crate) fn new(alloc: Global, file: u16, bytes: &'a [u8]) -> Result<Tokens<'a>, AllocError>
        requires { length bytes.now ≤ 1048576 }
        ensures { IfOk result (λ tokens. tokens ≡ start file bytes.now) }
    {
        Ok(Tokens {
            lexer: Lexer::new(file, bytes),
            recent: Recent::new(alloc)?,
        })
    }

    /// The place after the file's last byte.
    pub(crate) fn end(&self) -> Place
        ensures { result ≡ behind_bytes self.now.at self.now.rest }
    {
        self.lexer.end()
    }

    /// The next token. None after the last one. S1 to S4 at bytes that are no token.
    pub(crate) fn next(&mut self, parsed: &mut PackageNodes) -> Result<Option<Token>, PhaseFault>
        requires room { length parsed.old.texts < 2 ^ 32 }
        ensures answers { AnswersNext self.old parsed.old.texts result self.new parsed.new.texts }
        ensures falls { IfOk result (λ next. IfSome next (λ _. left self.new < left self.old)) }
        ensures room { IfOk result (λ next. IfSome next (λ _. length parsed.new.texts ≤ length parsed.old.texts + 1)) }
        ensures same { OnOk result (ChangesTexts parsed.old parsed.new) }
    {
        match self.lexer.next() {
            Some(next) => {
                let token = next?;
                let kind = kind_of(&mut self.recent, parsed, token)?;
                Ok(Some(Token { kind, at: token.at }))
            }
            None => Ok(None),
        }
    }

    /// Passes over the tokens that are left, up to the file's end or to bytes that are no token. Their texts join the
    /// package too, so want of memory for them is told.
    pub(crate) fn pass_over(&mut self, parsed: &mut PackageNodes) -> Result<(), NoMemory>
        requires room { length parsed.old.texts + left self.old < 2 ^ 32 }
        ensures { OnOk result (ReadsRest self.old parsed.old.texts parsed.new.texts) }
    {
        loop {
            match self.next(parsed) {
                Ok(Some(_)) => {}
                Ok(None) => return Ok(()),
                Err(PhaseFault::Refused(_)) => return Ok(()),
                Err(PhaseFault::Memory) => return Err(NoMemory),
            }
        }
    }
}

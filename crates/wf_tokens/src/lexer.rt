// The lexer: the tokens of a file, one after the other.

use crate::gaps::{ends_line, gap_len};
use crate::kinds::TokenKind;
use crate::pieces::{Piece, first_piece};
use crate::places::{along, behind_bytes};
use crate::semicolons::ends_statement;
use crate::symbols::Symbol;
use crate::token::Token;
use std::marker::Model;
use wf_text::{Place, Refusal};

/// Reads a file's bytes as tokens. It borrows the file and takes no memory.
#[derive(Drop)]
pub struct Lexer<'a> {
    /// The bytes that are left.
    rest: &'a [u8],
    /// The place of the first of them.
    at: Place,
    /// Whether a line end adds a semicolon here.
    due: bool,
    /// Whether a refusal ended the reading.
    over: bool,
}

impl<'a> Model for Lexer<'a> {
    ghost use Rattle.std.specs.Prelude.{◌≤◌, ◌+◌, length};
    ghost use Rattle.wf_tokens.specs.Spelling.{State};

    ghost Value = { State };

    ghost view = { λ l. record { rest = l.rest.now; at = l.at; due = l.due; over = l.over } };

    ghost invariant = { λ l. (l.at.line + length l.rest.now ≤ 1048577) × (l.at.col + length l.rest.now ≤ 1048577) };
}

impl<'a> Lexer<'a> {
    ghost use Rattle.std.specs.Prelude.{◌≡◌, ◌≤◌, ◌<◌, ◌+◌, length, true, IfSome, IfNone, IfOk, IfErr, OnOk};
    ghost use Rattle.wf_tokens.specs.Spelling.{start, left, item_of, Reads, IsStuck, IsOver, TakesPiece, ends_statement};
    ghost use Rattle.wf_tokens.specs.Places.{behind_bytes};
    ghost use Rattle.wf_tokens.specs.Pieces.{IsFrontPiece};

    /// A lexer before the first byte of the file with this number.
    pub fn new(file: u16, bytes: &'a [u8]) -> Lexer<'a>
        requires { length bytes.now ≤ 1048576 }
        ensures { result ≡ start file bytes.now }
    {
        Lexer {
            rest: bytes,
            at: Place {
                file,
                line: 1,
                col: 1,
            },
            due: false,
            over: false,
        }
    }

    /// The place after the file's last byte.
    pub fn end(&self) -> Place
        ensures { result ≡ behind_bytes self.now.at self.now.rest }
    {
        behind_bytes(self.at, self.rest)
    }

    /// The next token. None after the last one, and for good after a refusal: S1 at a byte that begins no
    /// token, S2 at a text that isn't closed on its line, S3 at a misspelt number and S4 at one of 2^64 or more.
    pub fn next(&mut self) -> Option<Result<Token<'a>, Refusal>>
        ensures token { IfSome result (λ next. IfOk next (λ token. Reads self.old (item_of token) self.new)) }
        ensures refused { IfSome result (λ next. IfErr next (λ refusal. IsStuck self.old refusal × (self.new ≡ record self.old { over = true }))) }
        ensures falls { IfSome result (λ next. OnOk next (left self.new < left self.old)) }
        ensures none { IfNone result (IsOver self.old × (self.new ≡ self.old)) }
    {
        if self.over {
            return None;
        }
        let (gap, behind) = self.rest.split_at(gap_len(self.due, self.rest));
        if self.due && ends_line(behind) {
            let at = self.at;
            *self = Lexer {
                rest: behind,
                at: behind_bytes(at, gap),
                due: false,
                over: false,
            };
            return Some(Ok(Token {
                kind: TokenKind::Symbol(Symbol::Semicolon),
                bytes: &[],
                at,
            }));
        }
        if behind.is_empty() {
            return None;
        }
        let at = behind_bytes(self.at, gap);
        match first_piece(behind) {
            Ok(piece) => Some(Ok(self.take_piece(piece, behind, at))),
            Err(rule) => {
                self.over = true;
                Some(Err(Refusal { rule, at }))
            }
        }
    }

    /// Takes the piece that `behind` begins with, which stands at `at`.
    fn take_piece(&mut self, piece: Piece, behind: &'a [u8], at: Place) -> Token<'a>
        requires piece { IsFrontPiece piece.kind piece.len behind.now }
        requires line { at.line + length behind.now ≤ 1048577 }
        requires col { at.col + length behind.now ≤ 1048577 }
        ensures { TakesPiece behind.now at piece.kind piece.len (item_of result) self.new }
    {
        let (bytes, rest) = behind.split_at(piece.len);
        *self = Lexer {
            rest,
            at: along(at, piece.len),
            due: ends_statement(piece.kind),
            over: false,
        };
        Token {
            kind: piece.kind,
            bytes,
            at,
        }
    }
}

// The words of the language: names that mean something of their own and can name nothing else.

ghost use Rattle.std.specs.Prelude.{◌≡◌, ◌≢◌, nat_eq, IfSome, IfNone, find};
ghost use Rattle.std.specs.Cmp.Lexicographic.{pointwise};
ghost use Rattle.wf_tokens.specs.Runs.{first_byte};
ghost use Rattle.wf_tokens.specs.Words.{likely_word, word_text, words_from};

use crate::runs::{byte_at, first_byte};

/// A word of the language.
#[derive(Clone, Copy)]
pub enum Word {
    And,
    Args,
    Array,
    As,
    Assert,
    Base,
    Break,
    Const,
    Continue,
    Else,
    Endwhile,
    False,
    Func,
    If,
    Inv,
    Not,
    Nothing,
    Ok,
    Or,
    Post,
    Pre,
    Pri,
    Pub,
    Return,
    Slice,
    Status,
    Struct,
    This,
    True,
    Var,
    Via,
    While,
    Yield,
}

/// The word as it is written, in ASCII.
pub(crate) fn text_of_word(word: Word) -> &'static str
    ensures { result.now ≡ word_text word }
{
    match word {
        Word::And => "and",
        Word::Args => "args",
        Word::Array => "array",
        Word::As => "as",
        Word::Assert => "assert",
        Word::Base => "base",
        Word::Break => "break",
        Word::Const => "const",
        Word::Continue => "continue",
        Word::Else => "else",
        Word::Endwhile => "endwhile",
        Word::False => "false",
        Word::Func => "func",
        Word::If => "if",
        Word::Inv => "inv",
        Word::Not => "not",
        Word::Nothing => "nothing",
        Word::Ok => "ok",
        Word::Or => "or",
        Word::Post => "post",
        Word::Pre => "pre",
        Word::Pri => "pri",
        Word::Pub => "pub",
        Word::Return => "return",
        Word::Slice => "slice",
        Word::Status => "status",
        Word::Struct => "struct",
        Word::This => "this",
        Word::True => "true",
        Word::Var => "var",
        Word::Via => "via",
        Word::While => "while",
        Word::Yield => "yield",
    }
}

/// The only word that a text can be which begins with these bytes and has so many.
fn likely_word(first: u8, second: u8, third: u8, len: usize) -> Option<Word>
    ensures { result ≡ likely_word first second third len }
{
    match first {
        b'a' => match len {
            2 => Some(Word::As),
            3 => Some(Word::And),
            4 => Some(Word::Args),
            5 => Some(Word::Array),
            _ => Some(Word::Assert),
        },
        b'b' => match len {
            4 => Some(Word::Base),
            _ => Some(Word::Break),
        },
        b'c' => match len {
            5 => Some(Word::Const),
            _ => Some(Word::Continue),
        },
        b'e' => match len {
            4 => Some(Word::Else),
            _ => Some(Word::Endwhile),
        },
        b'f' => match len {
            5 => Some(Word::False),
            _ => Some(Word::Func),
        },
        b'i' => match len {
            2 => Some(Word::If),
            _ => Some(Word::Inv),
        },
        b'n' => match len {
            3 => Some(Word::Not),
            _ => Some(Word::Nothing),
        },
        b'o' => match second {
            b'k' => Some(Word::Ok),
            _ => Some(Word::Or),
        },
        b'p' => match third {
            b'e' => Some(Word::Pre),
            b'i' => Some(Word::Pri),
            b's' => Some(Word::Post),
            _ => Some(Word::Pub),
        },
        b'r' => Some(Word::Return),
        b's' => match third {
            b'a' => Some(Word::Status),
            b'i' => Some(Word::Slice),
            _ => Some(Word::Struct),
        },
        b't' => match third {
            b'i' => Some(Word::This),
            _ => Some(Word::True),
        },
        b'v' => match third {
            b'r' => Some(Word::Var),
            _ => Some(Word::Via),
        },
        b'w' => Some(Word::While),
        b'y' => Some(Word::Yield),
        _ => None,
    }
}

/// Whether the word is written so. Mostly a name has another length than the word, and then no more of it is looked at.
fn is_written(word: Word, text: &[u8]) -> bool
    ensures { result ≡ pointwise nat_eq (word_text word) text.now }
{
    let written = text_of_word(word).as_bytes();
    if written.len() != text.len() {
        return false;
    }
    written == text
}

/// The word that is written so: the only one that it can be, where that is written so.
fn find_word(text: &[u8]) -> Option<Word>
    ensures { result ≡ find (λ word. pointwise nat_eq (word_text word) text.now) (words_from (first_byte text.now)) }
{
    let word = likely_word(
        first_byte(text),
        byte_at(text, 1),
        byte_at(text, 2),
        text.len(),
    )?;
    if is_written(word, text) {
        Some(word)
    } else {
        None
    }
}

/// The word that is written so, if one is.
pub(crate) fn word_of(text: &[u8]) -> Option<Word>
    ensures found { IfSome result (λ word. text.now ≡ word_text word) }
    ensures none { IfNone result ((word : Word) → text.now ≢ word_text word) }
{
    find_word(text)
}

// The lines of a script and the words of a line, one after the other. They borrow the script and take no memory.

ghost use Rattle.std.specs.Prelude.{◌≡◌, ◌≤◌, false, length, not};
ghost use Rattle.std.specs.List.{position, position_or_len};
ghost use Rattle.wf_script_rules.specs.Text.{is_feed, is_return, is_blank, begins, words_of, without_return};

use crate::rules::XRule;
use std::marker::Model;

fn is_feed(byte: u8) -> bool
    ensures { result ≡ is_feed byte }
{
    byte == b'\n'
}

fn is_return(byte: u8) -> bool
    ensures { result ≡ is_return byte }
{
    byte == b'\r'
}

fn is_blank(byte: u8) -> bool
    ensures { result ≡ is_blank byte }
{
    byte == b' ' || byte == b'\t'
}

/// The lines that are left of a script.
#[derive(Drop)]
pub struct Lines<'a> {
    rest: &'a [u8],
}

impl<'a> Model for Lines<'a> {
    ghost use Rattle.std.specs.Prelude.{List, ℕ};
    ghost use Rattle.wf_script_rules.specs.Text.{lines_of};

    ghost Value = { List (List ℕ) };

    ghost view = { λ lines. lines_of lines.rest.now };
}

/// The words that are left of a line.
#[derive(Drop)]
pub struct Words<'a> {
    rest: &'a [u8],
}

impl<'a> Model for Words<'a> {
    ghost use Rattle.std.specs.Prelude.{List, ℕ};
    ghost use Rattle.wf_script_rules.specs.Text.{words_of};

    ghost Value = { List (List ℕ) };

    ghost view = { λ words. words_of words.rest.now };
}

fn feed_at(text: &[u8]) -> Option<usize>
    ensures { result ≡ position is_feed text.now }
{
    text.iter().position(|byte| is_feed(*byte))
}

fn blank_at(text: &[u8]) -> Option<usize>
    ensures { result ≡ position is_blank text.now }
{
    text.iter().position(|byte| is_blank(*byte))
}

fn word_at(text: &[u8]) -> Option<usize>
    ensures { result ≡ position (λ byte. not (is_blank byte)) text.now }
{
    text.iter().position(|byte| !is_blank(*byte))
}

// The line without a carriage return at its end.
fn without_return(line: &[u8]) -> &[u8]
    ensures { result.now ≡ without_return line.now }
{
    match line.last() {
        Some(byte) if is_return(*byte) => {
            let (front, _) = line.split_at(line.len() - 1);
            front
        }
        _ => line,
    }
}

impl<'a> Lines<'a> {
    ghost use Rattle.std.specs.Prelude.{◌≡◌, [], ◌∷◌, MatchOption};
    ghost use Rattle.wf_script_rules.specs.Text.{lines_of};

    /// All lines of a script.
    pub fn new(bytes: &'a [u8]) -> Lines<'a>
        ensures { result ≡ lines_of bytes.now }
    {
        Lines { rest: bytes }
    }

    /// The next line, without its line feed; None where no line is left.
    pub fn next(&mut self) -> Option<&'a [u8]>
        ensures { MatchOption result (self.old ≡ []) (λ line. self.old ≡ line.now ∷ self.new) }
    {
        let rest = self.rest;
        if rest.is_empty() {
            return None;
        }
        match feed_at(rest) {
            Some(k) => {
                let (line, _) = rest.split_at(k);
                let (_, others) = rest.split_at(k + 1);
                self.rest = others;
                Some(without_return(line))
            }
            None => {
                self.rest = &[];
                Some(rest)
            }
        }
    }
}

impl<'a> Words<'a> {
    ghost use Rattle.std.specs.Prelude.{◌≡◌, [], ◌∷◌, MatchOption};
    ghost use Rattle.wf_script_rules.specs.Text.{words_of};
    ghost use Rattle.wf_script_rules.specs.Values.{next_word, at_end};
    ghost use Rattle.wf_script_rules.specs.Lines.{is_skipped};
    ghost use Rattle.wf_script_rules.specs.Answers.{GivesBefore};

    /// All words of a line.
    pub fn new(line: &'a [u8]) -> Words<'a>
        ensures { result ≡ words_of line.now }
    {
        Words { rest: line }
    }

    /// The next word. X3 where it is missing.
    pub fn next(&mut self) -> Result<&'a [u8], XRule>
        ensures { GivesBefore (λ word. word.now) result self.new (next_word self.old) }
    {
        let text = without_blanks(self.rest);
        if text.is_empty() {
            self.rest = text;
            return Err(XRule::X3);
        }
        let (word, others) = text.split_at(word_len(text));
        self.rest = others;
        Ok(word)
    }

    /// The next word; None where no word is left.
    pub fn take(&mut self) -> Option<&'a [u8]>
        ensures { MatchOption result (self.old ≡ []) (λ word. self.old ≡ word.now ∷ self.new) }
    {
        match self.next() {
            Ok(word) => Some(word),
            Err(_) => None,
        }
    }

    /// X3 where a word is left.
    pub fn at_end(&self) -> Result<(), XRule>
        ensures { result ≡ at_end self.now }
    {
        if without_blanks(self.rest).is_empty() {
            Ok(())
        } else {
            Err(XRule::X3)
        }
    }

    /// Whether a line with these words is skipped: it has none, or `#` begins the first.
    pub fn are_skipped(&self) -> bool
        ensures { result ≡ is_skipped self.now }
    {
        match without_blanks(self.rest).first() {
            Some(byte) => *byte == b'#',
            None => true,
        }
    }
}

// The text from its first word on.
fn without_blanks(text: &[u8]) -> &[u8]
    ensures words { words_of result.now ≡ words_of text.now }
    ensures front { begins is_blank result.now ≡ false }
{
    match word_at(text) {
        Some(k) => {
            let (_, rest) = text.split_at(k);
            rest
        }
        None => &[],
    }
}

// The length of the word with which a text begins.
fn word_len(text: &[u8]) -> usize
    ensures place { result ≡ position_or_len is_blank text.now }
    ensures within { result ≤ length text.now }
{
    match blank_at(text) {
        Some(k) => k,
        None => text.len(),
    }
}

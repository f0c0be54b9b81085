// What a token does to the top of the machine's stack.

ghost use Rattle.std.specs.Prelude.{◌≡◌, ◌++◌, []};
ghost use Rattle.c_read_grammar.specs.Machine as machine;
ghost use Rattle.c_read_table.specs.Moves.{seen};

use crate::wants::{After, Wants};
use c_read_grammar::Want;

/// What a token does to the top of the stack.
#[derive(Drop)]
pub enum Move {
    /// It is read, and in place of the top these are wanted.
    Take(Wants),
    /// The top may be absent: the token is for what stands below.
    Pass,
    /// No text goes on so.
    Stop,
}

impl Move {
    /// The token is read, and `wants` are wanted then.
    pub(crate) fn take(wants: &'static [Want]) -> Move
        ensures { seen result ≡ machine.Take wants.now }
    {
        Move::Take(Wants::of(wants, After::of(&[], &[])))
    }

    /// The token is read, and `wants` are wanted then, with `after` after them.
    pub(crate) fn then(wants: &'static [Want], after: After) -> Move
        ensures { seen result ≡ machine.Take (wants.now ++ after) }
    {
        Move::Take(Wants::of(wants, after))
    }

    /// The token is read, and nothing is wanted in place of the top.
    pub(crate) fn done() -> Move
        ensures { seen result ≡ machine.Take [] }
    {
        Move::Take(Wants::of(&[], After::of(&[], &[])))
    }
}

// The commands of a script.

use std::marker::Model;
use wf_bufs::BoundedCall;
use wf_script_rules::Thing;

/// What a line that isn't skipped does. Receivers and buffers are named by number, from 0.
#[derive(Drop)]
pub enum Command {
    /// A receiver, a buffer or a byte array is declared.
    Declares(Thing),
    /// A receiver becomes ready, within so many turns.
    Init { receiver: u16, turns: u64 },
    /// One public call.
    Call(BoundedCall),
    /// Bytes are appended to a buffer, as many as fit.
    Put { buffer: u16, bytes: Vec<u8> },
    /// Nothing more will be written to a buffer.
    Close { buffer: u16 },
    /// A buffer's unread bytes move to the front.
    Compact { buffer: u16 },
    /// A buffer or a byte array is shown.
    Shows(Thing),
    /// Later calls and inits get so many turns.
    Turns(u64),
}

/// A command with the number of its line, from 1.
#[derive(Drop)]
pub struct NumberedCommand {
    pub line: u32,
    pub command: Command,
}

impl Model for NumberedCommand {
    ghost use Rattle.wf_script_rules.specs.Scripts.{Numbered};
    ghost use Rattle.wf_script.specs.Views.{command_of};

    ghost Value = { Numbered };

    ghost view = { λ it. record { line = it.line; command = command_of it.command } };
}

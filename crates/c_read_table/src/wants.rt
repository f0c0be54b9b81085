// Wanted things, which contracts see as a list. The lists of the table stand in the program; what a token tells stands
// beside them, so that nothing is allotted for a token.

ghost use Rattle.std.specs.Prelude.{◌≡◌, ◌++◌, List, ◌∷◌, OnOk};
ghost use Rattle.c_read_grammar.specs.declared.actions.Want.{Want};
ghost use Rattle.c_read_table.specs.Wanted.{led_by};

use c_read_grammar::Want;
use stacks::Stack;
use std::marker::Model;
use wf_text::NoMemory;

/// Puts a list of the table on the stack, its first thing topmost. Many are empty, and cost nothing.
fn push_list(list: &[Want], stack: &mut Stack<Want>) -> Result<(), NoMemory>
    ensures { OnOk result (stack.new ≡ list.now ++ stack.old) }
{
    if list.is_empty() {
        return Ok(());
    }
    stack.push_all(list)
}

/// What is wanted after a list of the table: what tells what the token says, if anything, and two more lists.
#[derive(Drop)]
pub(crate) struct After {
    told: Option<Want>,
    then: &'static [Want],
    last: &'static [Want],
}

impl Model for After {
    ghost Value = { List Want };

    ghost view = { λ a. led_by a.told (a.then.now ++ a.last.now) };
}

impl After {
    /// Two lists of the table.
    pub(crate) fn of(then: &'static [Want], last: &'static [Want]) -> Self
        ensures { result ≡ then.now ++ last.now }
    {
        After {
            told: None,
            then,
            last,
        }
    }

    /// What tells what the token says, and then two lists of the table.
    pub(crate) fn led(told: Want, then: &'static [Want], last: &'static [Want]) -> Self
        ensures { result ≡ told ∷ (then.now ++ last.now) }
    {
        After {
            told: Some(told),
            then,
            last,
        }
    }

    /// Puts the wanted things on the stack, the first of them topmost.
    fn push_on(&self, stack: &mut Stack<Want>) -> Result<(), NoMemory>
        ensures { OnOk result (stack.new ≡ self.now ++ stack.old) }
    {
        push_list(self.last, stack)?;
        push_list(self.then, stack)?;
        match self.told {
            Some(want) => stack.push(want),
            None => Ok(()),
        }
    }
}

/// Wanted things, the first one at the front.
#[derive(Drop)]
pub struct Wants {
    lead: &'static [Want],
    first: &'static [Want],
    after: After,
}

impl Model for Wants {
    ghost Value = { List Want };

    ghost view = { λ w. w.lead.now ++ (w.first.now ++ w.after) };
}

impl Wants {
    /// A list of the table, and what is wanted after it.
    pub(crate) fn of(first: &'static [Want], after: After) -> Self
        ensures { result ≡ first.now ++ after }
    {
        Wants {
            lead: &[],
            first,
            after,
        }
    }

    /// The same, with a list of the table before it.
    pub(crate) fn led(lead: &'static [Want], first: &'static [Want], after: After) -> Self
        ensures { result ≡ lead.now ++ (first.now ++ after) }
    {
        Wants { lead, first, after }
    }

    /// Puts the wanted things on the stack, the first of them topmost. After `NoMemory` some of the last of them are on
    /// it.
    pub fn push_on(&self, stack: &mut Stack<Want>) -> Result<(), NoMemory>
        ensures { OnOk result (stack.new ≡ self.now ++ stack.old) }
    {
        self.after.push_on(stack)?;
        push_list(self.first, stack)?;
        push_list(self.lead, stack)
    }
}

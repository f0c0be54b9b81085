// Wanted things, which contracts see as a list. The lists of the table stand in the program; what a token tells stands
// beside them, so that nothing is allotted for a token.

ghost use Rattle.std.specs.Prelude.{◌≡◌, ◌++◌, List, ◌∷◌, IfOk, OnOk};
ghost use Rattle.wf_parse_grammar.specs.declared.symbols.Want.{Want};
ghost use Rattle.wf_parse_grammar.specs.declared.symbols.Want.TheVariants.{Read};
ghost use Rattle.wf_parse_grammar.specs.Wanted.{led_by, asked_by};

use crate::symbols::{Action, Sym, Want};
use stacks::Stack;
use std::marker::Model;
use wf_ast::Op;
use wf_ast::parsed::Name;
use wf_text::{NoMemory, Place};

/// The actions before a list of the table. Those of two or three have each a name, so that a list stays small: it is
/// handed on for every token.
#[derive(Clone, Copy)]
pub enum Lead {
    Empty,
    One(Action),
    /// A place, twice.
    Places(Place),
    /// The place of a name, and the name as a path.
    PlacedPath(Name),
    /// The path that began with `this`, and a place.
    ThisPath(Place),
    /// A chain that begins with this operator, and the operator's place.
    Chain { op: Op, at: Place },
    /// A path as a target, and the sign of the assignment.
    Target { op: Option<Op>, at: Place },
    /// The same, where the path began with `this`.
    ThisTarget { op: Option<Op>, at: Place },
}

/// Wanted things, the first one at the front.
#[derive(Drop)]
pub struct Wants {
    lead: Lead,
    rest: &'static [Want],
    last: Option<Sym>,
    after: &'static [Want],
}

impl Model for Wants {
    ghost Value = { List Want };

    ghost view = { λ w. led_by w.lead (w.rest.now ++ asked_by w.last w.after.now) };
}

/// Puts a list of the table on the stack, its first thing topmost. Many are empty, and cost nothing.
#[inline]
fn push_list(list: &[Want], stack: &mut Stack<Want>) -> Result<(), NoMemory>
    ensures { OnOk result (stack.new ≡ list.now ++ stack.old) }
{
    if list.is_empty() {
        return Ok(());
    }
    stack.push_all(list)
}

/// Puts the symbol on the stack, if there is one.
fn push_last(last: Option<Sym>, stack: &mut Stack<Want>) -> Result<(), NoMemory>
    ensures { OnOk result (stack.new ≡ asked_by last stack.old) }
{
    match last {
        Some(symbol) => stack.push(Want::Read(symbol)),
        None => Ok(()),
    }
}

impl Wants {
    /// The wanted things of a list of the table, and then `after`.
    pub(crate) fn of(rest: &'static [Want], after: &'static [Want]) -> Self
        ensures { result ≡ rest.now ++ after.now }
    {
        Wants {
            lead: Lead::Empty,
            rest,
            last: None,
            after,
        }
    }

    /// Actions that tell what the token says, then `rest` and `after`.
    pub(crate) fn led(lead: Lead, rest: &'static [Want], after: &'static [Want]) -> Self
        ensures { result ≡ led_by lead (rest.now ++ after.now) }
    {
        Wants {
            lead,
            rest,
            last: None,
            after,
        }
    }

    /// The same, with a symbol between `rest` and `after`.
    pub(crate) fn around(
        lead: Lead,
        rest: &'static [Want],
        last: Sym,
        after: &'static [Want],
    ) -> Self
        ensures { result ≡ led_by lead (rest.now ++ Read last ∷ after.now) }
    {
        Wants {
            lead,
            rest,
            last: Some(last),
            after,
        }
    }

    /// Puts the wanted things on the stack, the first of them topmost, but for the actions before them: these are the
    /// answer. After `NoMemory` some of the last of them are on it.
    pub fn push_on(&self, stack: &mut Stack<Want>) -> Result<Lead, NoMemory>
        ensures { IfOk result (λ lead. led_by lead stack.new ≡ self.now ++ stack.old) }
    {
        push_list(self.after, stack)?;
        push_last(self.last, stack)?;
        push_list(self.rest, stack)?;
        Ok(self.lead)
    }
}

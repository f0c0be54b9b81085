// The first refusal so far, which passes and walks add to.

ghost use Rattle.std.specs.Prelude.{◌≡◌, None};
ghost use Rattle.wf_text.specs.Precedence.{sooner as sooner_of, told as told_by};

use crate::place::Place;
use crate::precedence::sooner;
use crate::rules::{Refusal, Rule};
use std::marker::Model;

/// The first refusal of what was found so far.
#[derive(Clone, Copy)]
pub struct Found {
    first: Option<Refusal>,
}

impl Model for Found {
    ghost use Rattle.std.specs.Prelude.{Option};
    ghost use Rattle.wf_text.specs.declared.rules.Refusal.{Refusal};

    ghost Value = { Option Refusal };

    ghost view = { λ found. found.first };

    ghost inverse = { λ first. record { first = first } };
}

impl Found {
    /// Nothing is found yet.
    pub fn nothing() -> Found
        ensures { result ≡ None }
    {
        Found { first: None }
    }

    /// What is found now joins what was found before.
    #[inline]
    pub fn refuse(&mut self, now: Option<Refusal>)
        ensures { self.new ≡ sooner_of self.old now }
    {
        if let Some(new) = now {
            self.first = sooner(self.first, Some(new));
        }
    }

    /// The refusal by a rule at a place joins what was found before, where there is such a place.
    #[inline]
    pub fn tell(&mut self, rule: Rule, at: Option<Place>)
        ensures { self.new ≡ sooner_of self.old (told_by rule at) }
    {
        if let Some(at) = at {
            self.refuse(Some(Refusal { rule, at }));
        }
    }

    /// The first refusal, if anything was found.
    pub fn first(&self) -> Option<Refusal>
        ensures { result ≡ self.now }
    {
        self.first
    }
}

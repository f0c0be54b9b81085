// What is still known of a number once it has changed.

ghost use Rattle.std.specs.Prelude.{◌≡◌, ℕ, ◌≤◌, ◌<◌, ◌^◌, length, true, option_map, IfSome};
ghost use Rattle.wf_ast.specs.declared.things.Thing.{Thing};
ghost use Rattle.wf_facts_exprs.specs.declared.facts.Fact.TheVariants as facts;
ghost use Rattle.wf_facts_exprs.specs.Heads.{claim_head, having_head};
ghost use Rattle.wf_facts_exprs.specs.Claims.{claim_in, claims_in, claim_mentions, is_fact, AreFacts, order_of};
ghost use Rattle.wf_facts.specs.FactLists.{changed, in_64_bits as number_in_64_bits, moved_number as number_moved, moves_with as order_moves_with, is_variable as form_is_variable, is_io_length as form_is_io_length, is_least as order_is_least, still_known as claim_still_known};
ghost use Rattle.wf_facts.specs.IndexedFacts.{AreOver, IsNamedInSets, mentioning};
ghost use Rattle.wf_facts_exprs.specs.Sets.{IsSetOf, members, unmarked};

use crate::changes::Change;
use crate::forms::{Form, side_form, side_number};
use crate::indexed::Indexed;
use wf_ast::{Thing, Typed};
use wf_facts_exprs::{Cmp, Fact, FactSet, Side};

impl Indexed {
    /// Takes the facts that mention a thing along with its change, and drops those of which nothing is known any more.
    /// The order of all stays.
    pub(crate) fn change(&mut self, t: &Typed, x: Thing, change: Change)
        requires few { IsNamedInSets x }
        requires over { AreOver t.now self.old }
        ensures over { AreOver t.now self.new }
        ensures few { length self.new.list ≤ 512 }
        ensures claims { claims_in t.now self.new.list ≡ changed x change (claims_in t.now self.old.list) }
    {
        let meant = self.meant(t, x);
        let dropped = renew(t, self.list.as_mut_slice(), &meant, change);
        self.drop_set(&dropped);
    }
}

// Takes along the facts of a set with what they mention, and answers those of which nothing is known any more.
fn renew(t: &Typed, list: &mut [Fact], meant: &FactSet, change: Change) -> FactSet
    requires few { length list.old ≤ 512 }
    requires facts { AreFacts t.now list.old }
    ensures facts { AreFacts t.now list.new }
    ensures same { (x : Thing) → mentioning t.now x list.new ≡ mentioning t.now x list.old }
    ensures heads { (h : ℕ) → having_head t.now h list.new ≡ having_head t.now h list.old }
    ensures claims { (x : Thing) → IsSetOf meant.now.words (mentioning t.now x list.old) → claims_in t.now (unmarked (members result.words (length list.old)) list.new) ≡ changed x change (claims_in t.now list.old) }
{
    let mut dropped = FactSet::new();
    for i in 0..list.len() {
        if !meant.has(i) {
            continue;
        }
        let Some(f) = still_known(t, list[i], change) else {
            dropped.insert(i);
            continue;
        };
        list[i] = f;
    }
    dropped
}

/// What is still known by a fact that mentions what has changed.
pub(crate) fn still_known(t: &Typed, f: Fact, change: Change) -> Option<Fact>
    requires { is_fact t.now f ≡ true }
    ensures claims { option_map (λ g. claim_in t.now g) result ≡ claim_still_known change (claim_in t.now f) }
    ensures facts { IfSome result (λ g. is_fact t.now g ≡ true) }
    ensures same { IfSome result (λ g. (x : Thing) → claim_mentions x (claim_in t.now g) ≡ claim_mentions x (claim_in t.now f)) }
    ensures head { IfSome result (λ g. claim_head (claim_in t.now g) ≡ claim_head (claim_in t.now f)) }
{
    match f {
        Fact::Compare { left, op, right } => comparison_known(t, left, op, right, change),
        Fact::Cond { .. } => None,
    }
}

fn comparison_known(t: &Typed, left: Side, op: Cmp, right: Side, change: Change) -> Option<Fact>
    requires { is_fact t.now (facts.Compare left op right) ≡ true }
    ensures claims { option_map (λ g. claim_in t.now g) result ≡ claim_still_known change (claim_in t.now (facts.Compare left op right)) }
    ensures facts { IfSome result (λ g. is_fact t.now g ≡ true) }
    ensures same { IfSome result (λ g. (x : Thing) → claim_mentions x (claim_in t.now g) ≡ claim_mentions x (claim_in t.now (facts.Compare left op right))) }
    ensures head { IfSome result (λ g. claim_head (claim_in t.now g) ≡ claim_head (claim_in t.now (facts.Compare left op right))) }
{
    let n = side_number(t, right)?;
    if !moves_with(change, side_form(t, left), op) {
        return None;
    }
    let number = moved_number(change, n)?;
    Some(Fact::Compare {
        left,
        op,
        right: Side::Num(number),
    })
}

fn moves_with(change: Change, form: Form, op: Cmp) -> bool
    ensures { result ≡ order_moves_with change form (order_of op) }
{
    match change {
        Change::Raised(_) | Change::Lowered(_) => is_variable(form),
        Change::Shortened(_) => is_io_length(form) && is_least(op),
    }
}

fn is_variable(form: Form) -> bool
    ensures { result ≡ form_is_variable form }
{
    matches!(form, Form::Variable)
}

fn is_io_length(form: Form) -> bool
    ensures { result ≡ form_is_io_length form }
{
    matches!(form, Form::IoLength)
}

fn is_least(op: Cmp) -> bool
    ensures { result ≡ order_is_least (order_of op) }
{
    matches!(op, Cmp::Ge | Cmp::Gt)
}

fn moved_number(change: Change, n: u128) -> Option<u64>
    requires { n < 2 ^ 65 }
    ensures { result ≡ number_moved change n }
{
    match change {
        Change::Raised(k) => in_64_bits(n + k as u128),
        Change::Lowered(k) | Change::Shortened(Some(k)) => {
            if k as u128 <= n {
                in_64_bits(n - k as u128)
            } else {
                None
            }
        }
        Change::Shortened(None) => None,
    }
}

fn in_64_bits(n: u128) -> Option<u64>
    ensures { result ≡ number_in_64_bits n }
{
    if n < 18446744073709551616 {
        Some(n as u64)
    } else {
        None
    }
}

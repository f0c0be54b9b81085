// What the phase of bounds answers of packages with ample memory: what is known before a statement, and the points.

use crate::typed_tests::{place, typed};
use std::alloc::Global;
use wf_ast::{LocalId, Thing};
use wf_bounds::{Accepted, check, facts_at};
use wf_facts::Facts;
use wf_facts_exprs::{Cmp, Fact};
use wf_text::PhaseFault;

// The decimal parser. In its line 19, `c -= 0x30`, three things are known of `c`: `c <> 0`, `c >= 48` and `c <= 57`.
const PARSER: &str =
    "pub status \"#not a digit\"\npub status \"#too large\"\npub struct parser?(\nval : base.u32,\n)\npub func parser.value() base.u32 {\nreturn this.val\n}\npub func parser.parse?(src: base.io_reader) {\nvar c : base.u8\nwhile true {\nc = args.src.read_u8?()\nif c == 0 {\nreturn ok\n}\nif (c < 0x30) or (0x39 < c) {\nreturn \"#not a digit\"\n}\nc -= 0x30\nif this.val < 429_496729 {\nthis.val = (10 * this.val) + (c as base.u32)\ncontinue\n} else if (this.val > 429_496729) or (c > 5) {\nreturn \"#too large\"\n}\nthis.val = (10 * this.val) + (c as base.u32)\n} endwhile\n}\n";

// A statement after one that never goes on.
const LEFT: &str =
    "pub struct s(\nn : base.u8,\n)\npub func s.f!() {\nreturn nothing\nthis.n = 1\n}\n";

fn accepted(alloc: Global, text: &str) -> Result<Accepted, PhaseFault> {
    let typed = typed(alloc, text)?;
    check(alloc, typed)
}

// How the fact with this number compares.
fn comparison(facts: &Facts, i: usize) -> Option<Cmp> {
    match facts.get(i) {
        Some(Fact::Compare { op, .. }) => Some(op),
        _ => None,
    }
}

// Whether these are the three facts of the parser's digit.
fn are_of_the_digit(facts: &Facts) -> bool {
    let first = matches!(comparison(facts, 0), Some(Cmp::Ne));
    let second = matches!(comparison(facts, 1), Some(Cmp::Ge));
    let third = matches!(comparison(facts, 2), Some(Cmp::Le));
    facts.len() == 3 && first && second && third
}

// Whether that is what is known before the parser's line 19, all of it of `c` and nothing of `this`.
fn the_digit_is_known(alloc: Global) -> Result<bool, PhaseFault> {
    let parser = accepted(alloc, PARSER)?;
    let Some(s) = parser.typed().stmt_at(place(19, 1)) else {
        return Ok(false);
    };
    match facts_at(alloc, &parser, s)? {
        Some(facts) => {
            let of_c = facts.about(parser.typed(), Thing::Local(LocalId(0)));
            let of_this = facts.about(parser.typed(), Thing::This);
            Ok(
                are_of_the_digit(&facts)
                    && of_c == Some([7, 0, 0, 0, 0, 0, 0, 0])
                    && of_this == Some([0; 8]),
            )
        }
        None => Ok(false),
    }
}

// Whether the parser's one point, its read, has the number 1, and no other statement has one.
fn the_read_is_a_point(alloc: Global) -> Result<bool, PhaseFault> {
    let parser = accepted(alloc, PARSER)?;
    let read = parser.typed().stmt_at(place(12, 1));
    let test = parser.typed().stmt_at(place(13, 1));
    match (read, test) {
        (Some(read), Some(test)) => Ok(
            parser.points().number_of(read) == Some(1) && parser.points().number_of(test).is_none(),
        ),
        _ => Ok(false),
    }
}

// Whether nothing is told of a statement that isn't reached.
fn the_last_isnt_reached(alloc: Global) -> Result<bool, PhaseFault> {
    let left = accepted(alloc, LEFT)?;
    let Some(s) = left.typed().stmt_at(place(6, 1)) else {
        return Ok(false);
    };
    Ok(facts_at(alloc, &left, s)?.is_none())
}

#[test]
fn what_is_known_before_statements(rt: HostRuntime) {
    assert!(rt; the_digit_is_known(rt.alloc()) == Ok(true));
    assert!(rt; the_read_is_a_point(rt.alloc()) == Ok(true));
    assert!(rt; the_last_isnt_reached(rt.alloc()) == Ok(true));
}

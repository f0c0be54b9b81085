// Numbers, bytes, statuses and rules as texts, and which of two refusals is first: each public function once, with what
// a reader would write down by hand.

use wf_text::status_text::category;
use wf_text::{Category, Place, Refusal, Rule, hex_text, number_text, rule_name, sooner};

fn writes_number(n: u64, wanted: &[u8]) -> bool {
    let mut into = [b'.'; 20];
    let count = number_text(n, &mut into);
    count == wanted.len()
        && into.starts_with(wanted)
        && into[wanted.len()..].iter().all(|b| *b == b'.')
}

fn writes_hex(bytes: &[u8], wanted: &[u8; 8]) -> bool {
    let mut into = [b'.'; 8];
    if bytes.len() > 4 {
        return false;
    }
    let count = hex_text(bytes, &mut into);
    count == 2 * bytes.len() && into == *wanted
}

// Whether numbers and bytes are written as these rows say.
fn are_written(numbers: &[(u64, &[u8])], bytes: &[(&[u8], [u8; 8])]) -> bool {
    for (n, wanted) in numbers {
        if !writes_number(*n, *wanted) {
            return false;
        }
    }
    for (piece, wanted) in bytes {
        if !writes_hex(*piece, wanted) {
            return false;
        }
    }
    true
}

fn are_of_kinds(texts: &[(&[u8], Category)]) -> bool {
    for (text, kind) in texts {
        if category(*text) != *kind {
            return false;
        }
    }
    true
}

fn are_named(rules: &[(Rule, &str)]) -> bool {
    for (rule, name) in rules {
        if rule_name(*rule) != *name {
            return false;
        }
    }
    true
}

fn refusal(rule: Rule, line: u32, col: u32) -> Refusal {
    Refusal {
        rule,
        at: Place { file: 0, line, col },
    }
}

// Whether of each two the wanted one decides, whichever of them comes first.
fn the_least_place_decides(rows: &[(Refusal, Refusal, Refusal)]) -> bool {
    for (one, other, wanted) in rows {
        if sooner(Some(*one), Some(*other)) != Some(*wanted)
            || sooner(Some(*other), Some(*one)) != Some(*wanted)
        {
            return false;
        }
    }
    true
}

#[test]
fn texts(rt: HostRuntime) {
    assert!(rt;
        are_written(
            &[
                (0, b"0"),
                (429496729, b"429496729"),
                (18446744073709551615, b"18446744073709551615"),
            ],
            &[
                (b"", *b"........"),
                (b"\x00\xfe", *b"00fe...."),
                (b"\x01\x02\xA0\xFF", *b"0102a0ff"),
            ]
        )
    );
    assert!(rt;
        are_of_kinds(&[
            (b"", Category::Fine),
            (b"@base: end of data", Category::Note),
            (b"$base: short read", Category::Suspension),
            (b"#demo: too large", Category::Fault),
            (b"ok", Category::Fine),
        ])
    );
}

#[test]
fn rules(rt: HostRuntime) {
    assert!(rt;
        are_named(&[
            (Rule::S1, "S1"),
            (Rule::N8, "N8"),
            (Rule::T1, "T1"),
            (Rule::E5, "E5"),
            (Rule::B12, "B12"),
            (Rule::L9, "L9"),
        ])
    );
    let later = refusal(Rule::N1, 2, 1);
    let first = refusal(Rule::L7, 1, 9);
    let beside = refusal(Rule::N2, 1, 9);
    assert!(rt; the_least_place_decides(&[(later, first, first), (first, beside, beside)]));
    assert!(rt;
        sooner(None, Some(later)) == Some(later) && sooner(Some(later), None) == Some(later)
    );
}

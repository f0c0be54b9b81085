// Texts that are read or refused for one thing each, texts of many brackets, and long texts.

use crate::reading::{Answer, becomes, is_printed_as, outcome_of, text};
use std::alloc::Global;

/// A text after the three lines, and what becomes of it.
type Row = (&'static [u8], Answer);

/// Whether each row becomes what it says.
fn all_become(alloc: Global, rows: &[Row]) -> bool {
    for (part, expected) in rows {
        if !becomes(alloc, &[*part], *expected) {
            return false;
        }
    }
    true
}

// What has parentheses of its own needs no others, and takes none.
const SHORT: &[Row] = &[
    (
        b"static uint32_t f(uint16_t a) { return (((uint32_t)a) * ((uint32_t)a)); }",
        Answer::Read,
    ),
    (
        b"static uint32_t f(uint16_t a) { return a * a; }",
        Answer::NotC(101),
    ),
    (
        b"typedef struct { uint8_t a; } s; typedef struct { s inner; } t;",
        Answer::Read,
    ),
    (b"void f(void) { x = (p + 1)[0]; }", Answer::Read),
    (b"void f(void) { x = (*(p + 1)); }", Answer::Read),
    (b"void f(void) { x = (&s)->f; }", Answer::Read),
    (b"void f(void) { x = (a)->x; }", Answer::NotC(81)),
    (b"void f(void) { x = ((p + 1))[0]; }", Answer::NotC(87)),
];

/// A front, a piece, how often it stands, a back, and what becomes of the whole.
type Repeated = (&'static [u8], &'static [u8], usize, &'static [u8], Answer);

/// Whether so many of one piece, between `front` and `back`, become that.
fn many_become(alloc: Global, row: &Repeated) -> bool {
    let (front, piece, count, back, expected) = row;
    let Ok(mut bytes) = text(alloc, &[*front]) else {
        return false;
    };
    for _ in 0..*count {
        let Ok(()) = bytes.extend_from_slice(*piece) else {
            return false;
        };
    }
    let Ok(()) = bytes.extend_from_slice(*back) else {
        return false;
    };
    outcome_of(alloc, bytes.as_slice()) == *expected
}

/// Whether each row becomes what it says.
fn all_repeated_become(alloc: Global, rows: &[Repeated]) -> bool {
    for row in rows {
        if !many_become(alloc, row) {
            return false;
        }
    }
    true
}

/// Whether a function of `opening` braces that open, and as many that close as told, becomes that.
fn braces_become(alloc: Global, opening: usize, closing: usize, expected: Answer) -> bool {
    let Ok(mut bytes) = text(alloc, &[b"void f(void) "]) else {
        return false;
    };
    for _ in 0..opening {
        let Ok(()) = bytes.push(b'{') else {
            return false;
        };
    }
    for _ in 0..closing {
        let Ok(()) = bytes.push(b'}') else {
            return false;
        };
    }
    outcome_of(alloc, bytes.as_slice()) == expected
}

/// Whether each row of braces becomes what it says.
fn all_braces_become(alloc: Global, rows: &[(usize, usize, Answer)]) -> bool {
    for (opening, closing, expected) in rows {
        if !braces_become(alloc, *opening, *closing, *expected) {
            return false;
        }
    }
    true
}

const BRACES: &[(usize, usize, Answer)] = &[
    (513, 0, Answer::TooDeep(585)),
    (513, 513, Answer::TooDeep(585)),
    (512, 512, Answer::Read),
    (512, 513, Answer::NotC(1097)),
    (512, 511, Answer::NotC(1096)),
];

// Each kind of bracket counts, whether or not it could go on there; one that is closed doesn't count, nor one in a
// string.
const BRACKETS: &[Repeated] = &[
    (b"void f(void) ", b"{", 512, b"(", Answer::TooDeep(585)),
    (b"void f(void) ", b"{", 512, b"[", Answer::TooDeep(585)),
    (b"void f(void) ", b"{", 512, b" x[", Answer::TooDeep(587)),
    (b"void f(void) ", b"{", 512, b"x x[", Answer::NotC(587)),
    (b"void f(void) ", b"{", 512, b"} x = (a", Answer::NotC(593)),
    (b"void f(void) {x=", b"(", 512, b"", Answer::TooDeep(587)),
    (b"void f(void) {x=a", b"[a", 512, b"", Answer::TooDeep(1099)),
    (b"void f(void) {", b"{}", 600, b"}", Answer::Read),
    (
        b"static const char a[] = \"",
        b"(",
        600,
        b"\";",
        Answer::Read,
    ),
];

// Long texts of each form that has no bound of its own.
const LONG: &[Repeated] = &[
    (b"", b"void f(void) {} ", 3000, b"", Answer::Read),
    (b"void f(void) {", b"x = (y + 1);", 3000, b"}", Answer::Read),
    (
        b"void f(void) { x = (a",
        b" + a",
        3000,
        b"); }",
        Answer::Read,
    ),
    (b"void f(void) { f(a", b", a", 3000, b"); }", Answer::Read),
    (b"void f(void) { x = a", b"->b", 3000, b"; }", Answer::Read),
    (
        b"void f(void) { if (a) {}",
        b" else if (a) {}",
        3000,
        b" }",
        Answer::Read,
    ),
    (b"void f(void) {", b"a: ", 3000, b"; }", Answer::Read),
    (b"void f(s* a", b", s* a", 3000, b") {}", Answer::Read),
    (b"void f(void) {", b"s* a;", 3000, b"}", Answer::Read),
    (b"typedef struct {", b"s a[2];", 3000, b"} t;", Answer::Read),
    (b"void f(void) {", b" ", 20000, b"+", Answer::NotC(20074)),
];

/// A front, a piece, how often it stands, and a back: laid out as a text is printed.
type Chain = (&'static [u8], &'static [u8], usize, &'static [u8]);

// Chains that no bracket bounds.
const CHAINS: &[Chain] = &[
    (b"\nvoid f(void) {\n  x = a", b"->b", 60000, b";\n}\n"),
    (b"\nvoid f(void) {\n  x = a", b"[0]", 60000, b";\n}\n"),
    (b"\nvoid f(void) {\n  x = (a", b" + a", 60000, b");\n}\n"),
    (
        b"\nvoid f(void) {\n  if (a) {\n  }",
        b" else if (a) {\n  }",
        60000,
        b"\n}\n",
    ),
];

/// Whether so many of one piece, between `front` and `back`, are read, and printed byte for byte.
fn chain_comes_back(alloc: Global, row: &Chain) -> bool {
    let (front, piece, count, back) = row;
    let Ok(mut bytes) = text(alloc, &[*front]) else {
        return false;
    };
    for _ in 0..*count {
        let Ok(()) = bytes.extend_from_slice(*piece) else {
            return false;
        };
    }
    let Ok(()) = bytes.extend_from_slice(*back) else {
        return false;
    };
    is_printed_as(alloc, bytes.as_slice(), bytes.as_slice())
}

/// Whether each chain is printed as it is read.
fn all_chains_come_back(alloc: Global, rows: &[Chain]) -> bool {
    for row in rows {
        if !chain_comes_back(alloc, row) {
            return false;
        }
    }
    true
}

#[test]
fn long_chains(rt: HostRuntime) {
    assert!(rt; all_chains_come_back(rt.alloc(), CHAINS));
}

#[test]
fn short_and_long_texts(rt: HostRuntime) {
    assert!(rt; all_become(rt.alloc(), SHORT) && all_braces_become(rt.alloc(), BRACES));
    assert!(rt; all_repeated_become(rt.alloc(), BRACKETS) && all_repeated_become(rt.alloc(), LONG));
}

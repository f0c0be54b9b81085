// Statements and expressions.

use crate::forming::{Answer, BUFFER, INITIALIZE, METHOD, STRUCT, becomes};
use std::alloc::Global;

const HELPERS: &[u8] =
    b"static uint8_t h(uint8_t x) { return x; } static inline uint8_t i(uint8_t x, uint32_t y) { return (x + y); } static void j(void) { } static const char t[] = \"t\";";

/// Whether each of these, in the braces of the item that begins so, becomes that.
fn all_become(alloc: Global, front: &[u8], bodies: &[&[u8]], expected: Answer) -> bool {
    let mut fine = true;
    for body in bodies {
        let parts: [&[u8]; 8] = [
            BUFFER, STRUCT, INITIALIZE, METHOD, HELPERS, front, body, b" }",
        ];
        if !becomes(alloc, &parts, expected) {
            fine = false;
        }
    }
    fine
}

const FRONT: &[u8] =
    b"static void g(wuffs_base__io_buffer* b, uint8_t* p, uint8_t a, const char* s, wuffs_e__e* q) { ";

const FORMED: &[&[u8]] = &[
    b"b->wi = (a + 1); p[0] = a; p = b->ptr; a = s[0]; s = t;",
    b"p = (p + a); a = (p == 0); a = (p < p); a = (!p); p = (&p[1]); p = ((uint8_t*)0); p = (a ? p : 0);",
    b"if (p) { } else if (a) { } else { a = 1; }",
    b"while (a) { a = (a - 1); } x: ; goto x;",
    b"switch (a) { { case 1: ; } default: switch (a) { case 1: ; default: ; } }",
    b"memmove(p, s, a); memset(b, 0, sizeof(*b));",
    b"h(a); a = h(a); a = (i(a, 1)); j(); return;",
];

const BROKEN: &[&[u8]] = &[
    b"a = none;",
    b"b->none = 1;",
    b"a->x = 1;",
    b"b->ptr = 0;",
    b"s[0] = 1;",
    b"t = s;",
    b"p = 1;",
    b"p = s;",
    b"p = (a + p);",
    b"p = (p - p);",
    b"a = (p < 0);",
    b"a = (p == s);",
    b"a = (p == 0u);",
    b"a = (~p);",
    b"p = (&b->ptr);",
    b"p = (&1);",
    b"p = ((uint8_t*)b);",
    b"a = ((uint64_t)p);",
    b"p = (a ? p : s);",
    b"a = b[0];",
    b"if (a) { } else if (none) { }",
    b"if (a) { } else { none = 1; }",
    b"switch (p) { }",
    b"case 1: ;",
    b"default: ;",
    b"switch (a) { case 1: ; { case 1: ; } }",
    b"switch (a) { case 1u: ; }",
    b"switch (a) { default: ; default: ; }",
    b"goto nowhere;",
    b"x: ; x: ;",
    b"return 1;",
    b"h();",
    b"h(p);",
    b"a = j();",
    b"p = h(a);",
    b"a = (h(a));",
    b"a = (i(a));",
    b"g(b, p, a, s, q);",
    b"h(sizeof(*b));",
    b"memmove(s, p, 1);",
    b"a = memmove(p, p, 1);",
    b"memset(b, 1, sizeof(*b));",
    b"memset(b, 0, sizeof(*q));",
    b"memset(p, 0, sizeof(*p));",
];

#[test]
fn statements_of_a_static_function(rt: HostRuntime) {
    let alloc = rt.alloc();
    assert!(rt; all_become(alloc, FRONT, FORMED, Answer::Formed));
    assert!(rt; all_become(alloc, FRONT, BROKEN, Answer::Item(8)));
}

#[test]
fn loops_of_other_functions(rt: HostRuntime) {
    let alloc = rt.alloc();
    assert!(rt;
        all_become(
            alloc,
            b"void g(void) { ",
            &[b"goto x; { x: ; }", b"if (1) { goto x; } x: ;"],
            Answer::Formed
        )
    );
    assert!(rt;
        all_become(
            alloc,
            b"void g(void) { ",
            &[
                b"while (1) { }",
                b"x: ; goto x;",
                b"{ x: ; } if (1) { goto x; }"
            ],
            Answer::Item(8)
        )
    );
    assert!(rt;
        all_become(
            alloc,
            b"static inline void g(void) { ",
            &[b"while (1) { }"],
            Answer::Item(8)
        )
    );
}

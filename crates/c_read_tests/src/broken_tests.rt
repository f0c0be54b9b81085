// Broken texts with the place where they break. Each row is cut at that place: the first token of its right part can't
// stand after its left part. Written by hand from the grammar, a construct after another.

use crate::reading::{Answer, becomes, outcome_of, text};
use std::alloc::Global;

/// A text's part before the token that can't go on, and the part that begins with it.
type Cut = (&'static [u8], &'static [u8]);

/// Whether the text breaks before `right`.
fn breaks(alloc: Global, before: &[u8], left: &[u8], right: &[u8], after: &[u8]) -> bool {
    match text(alloc, &[before, left]) {
        Ok(front) => becomes(
            alloc,
            &[before, left, right, after],
            Answer::NotC(front.len() as u64),
        ),
        Err(_) => false,
    }
}

/// Whether each row breaks at its cut, with `before` before it and `after` after it.
fn all_break(alloc: Global, before: &[u8], rows: &[Cut], after: &[u8]) -> bool {
    let mut fine = true;
    for (left, right) in rows {
        if !breaks(alloc, before, left, right, after) {
            fine = false;
        }
    }
    fine
}

/// Whether each row breaks at its cut, as items.
fn items_break(alloc: Global, rows: &[Cut]) -> bool {
    all_break(alloc, b"", rows, b"")
}

/// Whether each row breaks at its cut, as what stands in a function's braces.
fn bodies_break(alloc: Global, rows: &[Cut]) -> bool {
    all_break(alloc, b"void f(void) { ", rows, b" }")
}

// Functions, string objects, and what is no item.
const BROKEN_ITEMS: &[Cut] = &[
    (b"", b";"),
    (b"", b"int f(void) {}"),
    (b"void ", b"(void) {}"),
    (b"void f", b";"),
    (b"void f(", b") {}"),
    (b"void f(void", b", uint8_t a) {}"),
    (b"void f(void ", b"a) {}"),
    (b"void f(uint8_t", b") {}"),
    (b"void f(uint8_t a ", b"b) {}"),
    (b"void f(uint8_t a,", b") {}"),
    (b"void f(uint8_t a, ", b"void) {}"),
    (b"void f(uint8_t a", b"[]) {}"),
    (b"void f(s ", b"a) {}"),
    (b"void f(s*", b"* a) {}"),
    (b"void f(uint8_t*", b"* a) {}"),
    (b"void f(size_t", b"* a) {}"),
    (b"void f(_Bool", b"* a) {}"),
    (b"void f(const ", b"uint8_t* a) {}"),
    (b"void f(const char ", b"a) {}"),
    (b"void f(const char*", b"* a) {}"),
    (b"void f(", b"struct s* a) {}"),
    (b"void f(", b"char a) {}"),
    (b"void f(", b"unsigned a) {}"),
    (b"void f(void) ", b";"),
    (b"void f(void ", b"{}"),
    (b"void f", b"{}"),
    (b"void", b"* f(void) {}"),
    (b"void ", b"if(void) {}"),
    (b"void f(void) {} ", b"}"),
    (b"", b"inline void f(void) {}"),
    (b"", b"extern void f(void) {}"),
    (b"static ", b"static void f(void) {}"),
    (b"static inline ", b"static void f(void) {}"),
    (b"static inline const ", b"uint8_t* f(void) {}"),
    (b"static inline const char ", b"a[] = \"x\";"),
    (b"static ", b"struct s* f(void) {}"),
    (b"static ", b"char a[] = \"x\";"),
    (b"static const ", b"uint8_t a;"),
    (b"static const char ", b"[] = \"x\";"),
    (b"static const char a ", b"= \"x\";"),
    (b"static const char a[", b"1] = \"x\";"),
    (b"static const char a[] ", b"\"x\";"),
    (b"static const char a[] = ", b"x;"),
    (b"static const char a[] = ", b"'x';"),
    (b"static const char a[] = ", b"{ 0 };"),
    (b"static const char a[] = ", b"\"a??b\";"),
    (b"static const char a[] = ", b"\"??\";"),
    (b"static const char a[] = ", b"\"a???\";"),
    (b"static const char a[] = ", b"\"a\\n\";"),
    (b"static const char a[] = \"x\" ", b"\"y\";"),
    (b"static const char a[] = ", b"\"x"),
    (b"static const char a[] = ", b"\"x;"),
    (b"a", b"[] = \"x\";"),
    (b"", b"\"x\";"),
    (b"", b"1"),
    (b"", b"#include <stdio.h>"),
    (b"", b"// c"),
    (b"", b"/* c */ void f(void) {}"),
];

// Structs.
const BROKEN_STRUCTS: &[Cut] = &[
    (b"typedef ", b"uint8_t a;"),
    (b"typedef ", b"union { uint8_t b; } a;"),
    (b"typedef ", b"enum { b } a;"),
    (b"typedef", b";"),
    (b"typedef struct ", b"a { uint8_t b; } a;"),
    (b"typedef struct ", b";"),
    (b"typedef struct {", b"} a;"),
    (b"typedef struct { uint8_t", b"; } a;"),
    (b"typedef struct { ", b"void b; } a;"),
    (b"typedef struct { ", b"struct c b; } a;"),
    (b"typedef struct { uint8_t b[", b"n]; } a;"),
    (b"typedef struct { uint8_t b[", b"]; } a;"),
    (b"typedef struct { uint8_t b[4", b"; } a;"),
    (b"typedef struct { uint8_t b[4]", b"[4]; } a;"),
    (b"typedef struct { uint8_t b ", b": 1; } a;"),
    (b"typedef struct { uint8_t b", b", c; } a;"),
    (b"typedef struct { uint8_t b ", b"= 1; } a;"),
    (b"typedef struct { uint8_t b; }", b";"),
    (b"typedef struct { s ", b"[4]; } a;"),
    (b"typedef struct { s*", b"* b; } a;"),
    (b"typedef struct { s", b"; } a;"),
    (b"typedef struct { uint8_t b ", b"} a;"),
    (b"typedef struct { uint8_t b; } a", b", c;"),
    (b"typedef struct { uint8_t b; } ", b"* a;"),
    (b"typedef struct { const char ", b"b; } a;"),
    (b"typedef struct { size_t", b"* b; } a;"),
];

// Expressions, in assignments of a function.
const BROKEN_ASSIGNMENTS: &[Cut] = &[
    (b"a ", b"+ a;"),
    (b"x = a ", b"* a;"),
    (b"x = (a + b ", b"- c);"),
    (b"x = (a + b ", b"- c + d);"),
    (b"x = (a * b ", b"+ c);"),
    (b"x = (a - b ", b"- c);"),
    (b"x = (a < b ", b"< c);"),
    (b"x = (a == b ", b"== c);"),
    (b"x = (a && b ", b"|| c);"),
    (b"x = (a & b ", b"&& c);"),
    (b"x = (a << b ", b"<< c);"),
    (b"x = (a", b");"),
    (b"x = ((a", b"));"),
    (b"x = ((a", b")b);"),
    (b"x = (a", b")->b;"),
    (b"x = ((p + 1)", b")[0];"),
    (b"x = (1", b");"),
    (b"x = (1", b")->a;"),
    (b"x = (f(a)", b";"),
    (b"x = (f(a) ", b"+ 1);"),
    (b"x = (f(a)", b"->b + 1);"),
    (b"x = (a->b", b");"),
    (b"x = (a[0]", b");"),
    (b"x = (*p", b";"),
    (b"x = (*", b"1);"),
    (b"x = (*", b"&p);"),
    (b"x = (*p ", b"+ 1);"),
    (b"x = (&a ", b"+ 1);"),
    (b"x = 1 ", b"+ 2;"),
    (b"x = ", b"-1;"),
    (b"x = ", b"+1;"),
    (b"x = ", b"*p;"),
    (b"x = ", b"&a;"),
    (b"x = ", b"!a;"),
    (b"x = (a-", b"-b);"),
    (b"x = (", b"--a);"),
    (b"x = a", b"++;"),
    (b"x ", b"+= 1;"),
    (b"x = ", b"01;"),
    (b"x = ", b"00;"),
    (b"x = ", b"2147483648;"),
    (b"x = ", b"4294967296u;"),
    (b"x = ", b"18446744073709551616ull;"),
    (b"x = ", b"1ul;"),
    (b"x = ", b"1U;"),
    (b"x = ", b"1ULL;"),
    (b"x = ", b"1L;"),
    (b"x = ", b"1uu;"),
    (b"x = ", b"1_;"),
    (b"x = ", b"9x;"),
    (b"x = ", b"1e5;"),
    (b"x = 1", b".0;"),
    (b"x = ", b"0x1;"),
    (b"x = ", b"0b1;"),
    (b"x = (a ", b";"),
    (b"x = (", b"/ a);"),
    (b"x = (", b"% a);"),
    (b"x = (", b"== a);"),
    (b"x = ((uint8_t ", b"a));"),
    (b"x = ((uint8_t)", b");"),
    (b"x = ((uint8_t)a ", b"+ 1);"),
    (b"x = ((uint8_t*", b"*)a);"),
    (b"x = ((", b"struct s*)a);"),
    (b"x = ((", b"void)a);"),
    (b"x = ((", b"int)a);"),
    (b"x = ((const ", b"uint8_t*)a);"),
    (b"x = (", b"uint8_t)a;"),
    (b"x = ((s* ", b"+ a));"),
    (b"x = ((s*)", b");"),
    (b"x = ((a * b)", b");"),
    (b"x = (a ? b ", b"; c);"),
    (b"x = (a ? b : c", b";"),
    (b"x = (a ? ", b": c);"),
    (b"x = (a ?", b"? b : c);"),
    (b"x = a ", b"? b : c;"),
    (b"x = (a", b", b);"),
    (b"x = (!", b");"),
    (b"x = (~a ", b"b);"),
    (b"x = 1", b"->y;"),
    (b"x = 1", b"[0];"),
    (b"x = a->", b"1;"),
    (b"x = a", b".b;"),
    (b"x = a", b"- > b;"),
    (b"x = a[1", b";"),
    (b"x = a[", b"];"),
    (b"x = a[b ", b"+ 1];"),
    (b"x = a[(b + 1)", b";"),
    (b"x = ", b"sizeof(*a);"),
    (b"x = (", b"sizeof(*a) + 1);"),
    (b"x = f(sizeof", b");"),
    (b"x = f(sizeof ", b"a);"),
    (b"x = f(sizeof(", b"a));"),
    (b"x = f(sizeof(", b"uint8_t));"),
    (b"x = f(sizeof(*a", b"->b));"),
    (b"x = f(", b";"),
    (b"x = f(a", b";"),
    (b"x = f(a,", b");"),
    (b"x = f(", b", a);"),
    (b"x = f(a ", b"b);"),
    (b"x = f(a ", b"+ b);"),
    (b"x = f(a", b"=b);"),
    (b"x = f(a)", b"(b);"),
    (b"x = f(a)", b"->b;"),
    (b"x = (f", b")(a);"),
    (b"x = a->f", b"(b);"),
    (b"x = ", b"\"s\";"),
    (b"x = ", b";"),
];

// Locals and statements of a function.
const BROKEN_STATEMENTS: &[Cut] = &[
    (b"", b"1 = x;"),
    (b"", b"*p = 1;"),
    (b"", b"&a;"),
    (b"(a + b) ", b"= c;"),
    (b"(a ", b"= c);"),
    (b"(*p) ", b"+= 1;"),
    (b"(*p)", b";"),
    (b"(&a) ", b"= b;"),
    (b"((s*)a) ", b"= b;"),
    (b"(f(a))", b";"),
    (b"(a ? b : c) ", b"= d;"),
    (b"x ", b"== y;"),
    (b"x", b";"),
    (b"x", b", y = 1;"),
    (b"x->a", b";"),
    (b"x->a", b"();"),
    (b"x[0]", b"(1);"),
    (b"x = y", b", z;"),
    (b"x = y ", b"= z;"),
    (b"f(", b";"),
    (b"f(a) ", b"+ 1;"),
    (b"f(a)", b"->b = 1;"),
    (b"f ", b"a;"),
    (b"", b"else {}"),
    (b"if ", b"a {}"),
    (b"if (", b") {}"),
    (b"if (a ", b"{}"),
    (b"if (a) ", b"x = 1;"),
    (b"if (a) ", b";"),
    (b"if (a) {} else ", b"x = 1;"),
    (b"if (a) {} else ", b";"),
    (b"if (a) {} else ", b"while (a) {}"),
    (b"if (a) {} else {} ", b"else {}"),
    (b"if (a) {} else if ", b"{}"),
    (b"if (a) {} ; ", b"else {}"),
    (b"if (a ", b"= b) {}"),
    (b"while ", b"a {}"),
    (b"while (a) ", b";"),
    (b"while (a) {} ", b"else {}"),
    (b"", b"do {}"),
    (b"", b"for (;;) {}"),
    (b"switch (a) ", b"case 1: ;"),
    (b"switch (a) { case ", b"b: ; }"),
    (b"switch (a) { case ", b": ; }"),
    (b"switch (a) { case 1 ", b"; }"),
    (b"switch (a) { case ", b"(1): ; }"),
    (b"switch (a) { default", b"; }"),
    (b"switch (a) { case 1: ", b"}"),
    (b"switch (a) { case 1: default: ", b"}"),
    (b"a: ", b"}"),
    (b"a: b: ", b"}"),
    (b"a: ", b"uint8_t b;"),
    (b"a:", b":"),
    (b"goto ", b"1;"),
    (b"goto a ", b"b;"),
    (b"goto", b";"),
    (b"goto ", b"if;"),
    (b"return a ", b"b;"),
    (b"return (a", b";"),
    (b"return ", b"return;"),
    (b"return ", b"void;"),
    (b"", b"break;"),
    (b"", b"continue;"),
    (b"case ", b": ;"),
    (b"", b"struct s a;"),
    (b"", b"typedef a;"),
    (b"", b"static a;"),
    (b"", b"void a;"),
    (b"", b"int a;"),
    (b"const ", b"a;"),
    (b"uint8_t", b";"),
    (b"uint8_t a", b", b;"),
    (b"uint8_t a", b"[4];"),
    (b"uint8_t a ", b"+ 1;"),
    (b"uint8_t a = ", b";"),
    (b"uint8_t a = 1 ", b"b;"),
    (b"uint8_t a = b", b"();"),
    (b"uint8_t a = b ", b"+ 1;"),
    (b"uint8_t a = ", b"{ 0 };"),
    (b"uint8_t a ", b"b;"),
    (b"uint8_t a; x = 1; ", b"uint8_t b;"),
    (b"uint8_t a; ; ", b"_Bool b;"),
    (b"uint8_t a; s* b; f(); s ", b"* c;"),
    (b"{ ", b"uint8_t a; }"),
    (b"{ s ", b"* a; }"),
    (b"x: s ", b"* a;"),
    (b"s ", b"a;"),
    (b"s*", b";"),
    (b"s*", b"* a;"),
    (b"s* a", b", b;"),
    (b"s* ", b"1;"),
    (b"", b"[0];"),
    (b"", b"]"),
    (b"", b")"),
    (b"", b","),
    (b"", b":"),
    (b"", b"?"),
    (b"", b"->a;"),
    (b"", b"~a;"),
    (b"", b"~a = 1;"),
    (b"x = 1;; } ", b";"),
];

// Bytes that begin no token, in a function.
const STRANGE_BYTES: &[Cut] = &[
    (b"x = ", b"#;"),
    (b"x = ", b"$a;"),
    (b"x = ", b"@a;"),
    (b"x = a", b"'b';"),
    (b"x = a", b"`;"),
    (b"x = a", b"\\n;"),
    (b"x ", b"\t= 1;"),
    (b"x ", b"\r\n= 1;"),
    (b"x ", b"\x0c= 1;"),
    (b"x ", b"\0= 1;"),
    (b"x = ", b"\xc3\xa9;"),
    (b"x\n =\n\n ", b"\x7f;"),
    (b"x = 1; ", b"// c"),
    (b"x = 1; ", b"/* c */"),
];

// Texts that end too early.
const TOO_SHORT: &[&[u8]] = &[
    b"void f(void) {",
    b"static const char a[] = \"x\"",
    b"typedef struct { uint8_t b;",
    b"void f(void) { x =",
    b"void f(void) { f(a",
    b"void f(void) { f(a) ",
    b"void f(void) { return",
    b"void f(void) { { ",
    b"void f(void) { x = (a",
    b"void f(void) { x = (a + b",
    b"void f(void) { x = f(a",
    b"void f(void) { x = f(a,",
    b"void f(void) { if (a) {} else",
    b"void f(void) { if (a) {} else if (a)",
    b"void f(void) { switch (a) { case 1:",
    b"void f(void) { { ;",
    b"void f(void) { a:",
    b"void f(void) { goto",
    b"void f(void) { uint8_t",
    b"void f(void) { uint8_t a =",
    b"void",
    b"void f",
    b"void f(",
    b"void f(uint8_t",
    b"static",
    b"static inline",
    b"static const char",
    b"static const char a[] =",
    b"typedef",
    b"typedef struct {",
    b"typedef struct { uint8_t b[4",
    b"a",
    b"a*  \n",
];

/// Whether each row breaks at its end.
fn all_end_too_early(alloc: Global, rows: &[&[u8]]) -> bool {
    let mut fine = true;
    for row in rows {
        if !breaks(alloc, b"", row, b"", b"") {
            fine = false;
        }
    }
    fine
}

// Whole texts whose three lines aren't as they have to be, each with the place of the first such line.
const BROKEN_LINES: &[(&[u8], u64)] = &[
    (b"", 0),
    (b"x", 0),
    (
        b"\n#include <stddef.h>\n#include <stdint.h>\n#include <string.h>\n",
        0,
    ),
    (
        b" #include <stddef.h>\n#include <stdint.h>\n#include <string.h>\n",
        0,
    ),
    (b"#include <stddef.h>", 0),
    (
        b"#include <stddef.h> \n#include <stdint.h>\n#include <string.h>\n",
        0,
    ),
    (
        b"#include <stddef.h>\r\n#include <stdint.h>\r\n#include <string.h>\r\n",
        0,
    ),
    (
        b"#include  <stddef.h>\n#include <stdint.h>\n#include <string.h>\n",
        0,
    ),
    (
        b"#include <stdint.h>\n#include <stddef.h>\n#include <string.h>\n",
        0,
    ),
    (b"void f(void) {}", 0),
    (b"#include <stddef.h>\n", 20),
    (
        b"#include <stddef.h>\n\n#include <stdint.h>\n#include <string.h>\n",
        20,
    ),
    (
        b"#include <stddef.h>\n#include <string.h>\n#include <stdint.h>\n",
        20,
    ),
    (
        b"#include <stddef.h>\n#include <stddef.h>\n#include <stdint.h>\n#include <string.h>\n",
        20,
    ),
    (b"#include <stddef.h>\nvoid f(void) {}", 20),
    (b"#include <stddef.h>\n#include <stdint.h>\n", 40),
    (
        b"#include <stddef.h>\n#include <stdint.h>\n#include <string.h>",
        40,
    ),
    (
        b"#include <stddef.h>\n#include <stdint.h>\n#include <stdint.h>\n",
        40,
    ),
    (
        b"#include <stddef.h>\n#include <stdint.h>\n#include <stdbool.h>\n",
        40,
    ),
    (
        b"#include <stddef.h>\n#include <stdint.h>\n#include <string.h>\n#include <stdbool.h>\n",
        60,
    ),
    (
        b"#include <stddef.h>\n#include <stdint.h>\n#include <string.h>\n#include <stddef.h>\n#include <stdint.h>\n#include <string.h>\n",
        60,
    ),
];

/// Whether each text breaks at its place.
fn lines_break(alloc: Global, rows: &[(&[u8], u64)]) -> bool {
    let mut fine = true;
    for (bytes, at) in rows {
        if outcome_of(alloc, bytes) != Answer::NotC(*at) {
            fine = false;
        }
    }
    fine
}

#[test]
fn broken_texts(rt: HostRuntime) {
    assert!(rt; items_break(rt.alloc(), BROKEN_ITEMS) && items_break(rt.alloc(), BROKEN_STRUCTS));
    assert!(rt;
        bodies_break(rt.alloc(), BROKEN_ASSIGNMENTS) && bodies_break(rt.alloc(), BROKEN_STATEMENTS)
    );
    assert!(rt;
        bodies_break(rt.alloc(), STRANGE_BYTES) && all_end_too_early(rt.alloc(), TOO_SHORT)
    );
    assert!(rt; lines_break(rt.alloc(), BROKEN_LINES));
}

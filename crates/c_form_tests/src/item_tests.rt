// Items, their names, and the functions that the package asks for.

use crate::forming::{Answer, BUFFER, INITIALIZE, METHOD, STRUCT, becomes};
use std::alloc::Global;

/// A text's items before the one that breaks the form, and that one.
type Row = (&'static [u8], Answer);

/// Whether each row becomes its answer, after the items of the package.
fn all_become(alloc: Global, rows: &[Row]) -> bool {
    let mut fine = true;
    for (item, expected) in rows {
        if !becomes(
            alloc,
            &[BUFFER, STRUCT, INITIALIZE, METHOD, item],
            *expected,
        ) {
            fine = false;
        }
    }
    fine
}

const ITEMS: &[Row] = &[
    (b"", Answer::Formed),
    (b"static void memset(void) { }", Answer::Item(4)),
    (
        b"static void f(void) { } static void f(void) { }",
        Answer::Item(5),
    ),
    (
        b"static void f(void) { uint8_t late; } static void late(void) { }",
        Answer::Item(4),
    ),
    (b"static void f(uint8_t a, uint8_t a) { }", Answer::Item(4)),
    (b"static void f(void) { uint8_t y = y; }", Answer::Item(4)),
    (
        b"static void f(void) { uint8_t y = 1; uint8_t z = y; }",
        Answer::Formed,
    ),
    (
        b"static void f(later* p) { } typedef struct { uint8_t x; } later;",
        Answer::Item(4),
    ),
    (b"static uint8_t* f(void) { }", Answer::Item(4)),
    (
        b"typedef struct { uint8_t x; uint8_t x; } t;",
        Answer::Item(4),
    ),
    (b"typedef struct { uint8_t* x; } t;", Answer::Item(4)),
    (
        b"typedef struct { const char* x; wuffs_e__e y; uint8_t z[4]; } t;",
        Answer::Formed,
    ),
    (b"typedef struct { t x; } t;", Answer::Item(4)),
    (b"typedef struct { uint8_t x[0]; } t;", Answer::Item(4)),
    (b"typedef struct { uint8_t x[4u]; } t;", Answer::Item(4)),
    (b"typedef struct { wuffs_e__e x[2]; } t;", Answer::Item(4)),
];

#[test]
fn each_item_by_itself(rt: HostRuntime) {
    assert!(rt; all_become(rt.alloc(), ITEMS));
}

#[test]
fn what_the_package_asks(rt: HostRuntime) {
    let alloc = rt.alloc();
    assert!(rt; becomes(alloc, &[], Answer::Item(0)));
    assert!(rt; becomes(alloc, &[STRUCT], Answer::Item(0)));
    assert!(rt; becomes(alloc, &[BUFFER, STRUCT, INITIALIZE], Answer::Item(3)));
    assert!(rt;
        becomes(
            alloc,
            &[BUFFER, STRUCT, INITIALIZE, b"static ", METHOD],
            Answer::Item(3)
        )
    );
    assert!(rt;
        becomes(
            alloc,
            &[BUFFER, b"static const char wuffs_e__e[] = \"e\";"],
            Answer::Item(1)
        )
    );
}

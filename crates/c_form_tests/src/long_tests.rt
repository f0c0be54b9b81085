// Chains that no bracket bounds: 2,000 links of each kind.

use crate::forming::{Answer, BUFFER, INITIALIZE, METHOD, STRUCT, outcome_of, repeat, text};
use std::alloc::Global;
use wf_text::NoMemory;

const LINKS: usize = 2000;

/// The text of a package with an item that has a part so many times.
fn chain(alloc: Global, front: &[u8], part: &[u8], back: &[u8]) -> Result<Vec<u8>, NoMemory> {
    let mut bytes = text(alloc, &[BUFFER, STRUCT, INITIALIZE, METHOD, front])?;
    repeat(&mut bytes, part, LINKS)?;
    repeat(&mut bytes, back, 1)?;
    Ok(bytes)
}

/// Whether that text becomes this.
fn chain_becomes(alloc: Global, front: &[u8], part: &[u8], back: &[u8], expected: Answer) -> bool {
    match chain(alloc, front, part, back) {
        Ok(bytes) => outcome_of(alloc, bytes.as_slice()) == expected,
        Err(_) => false,
    }
}

#[test]
fn long_chains(rt: HostRuntime) {
    let alloc = rt.alloc();
    assert!(rt;
        chain_becomes(
            alloc,
            b"static void g(wuffs_base__io_buffer* b) { b",
            b"->wi",
            b" = 1; }",
            Answer::Item(4)
        )
    );
    assert!(rt;
        chain_becomes(
            alloc,
            b"static void g(uint8_t* p) { p",
            b"[0]",
            b" = 1; }",
            Answer::Item(4)
        )
    );
    assert!(rt;
        chain_becomes(
            alloc,
            b"static uint32_t g(uint32_t a) { return (a",
            b" + a",
            b"); }",
            Answer::Formed
        )
    );
    assert!(rt;
        chain_becomes(
            alloc,
            b"static void g(uint8_t a) { if (a) { }",
            b" else if (a) { }",
            b" }",
            Answer::Formed
        )
    );
    assert!(rt;
        chain_becomes(
            alloc,
            b"static void g(uint8_t a) { ",
            b"a = 1; ",
            b"}",
            Answer::Formed
        )
    );
}

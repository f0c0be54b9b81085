// A small unit is printed whole, and into a sink that fails; the tests of reading print each alternative.

use c_text::{CItem, Unit, print, print_len};
use std::alloc::Global;
use wf_outside::{MemSink, PureSink};
use wf_text::NoMemory;

/// A unit with one string object.
fn small(alloc: Global) -> Result<Unit, NoMemory> {
    let mut u = Unit::new(alloc);
    let name = u.add_name(b"greeting")?;
    let text = u.add_string(b"hello?")?;
    let _item = u.add_item(CItem::Text { name, text })?;
    Ok(u)
}

/// Whether the unit is printed so, and its length told so.
fn is_printed(alloc: Global, expected: &[u8]) -> bool {
    let Ok(u) = small(alloc) else {
        return false;
    };
    let Ok(mut sink) = PureSink::with_room(alloc, 1000) else {
        return false;
    };
    match print(&u, &mut sink) {
        Ok(()) => sink.written() == expected && print_len(&u) == expected.len() as u64,
        Err(_) => false,
    }
}

/// Whether a sink that takes 10 bytes and fails has the front of the text, and the fault tells its length.
fn tells_the_front(alloc: Global) -> bool {
    let Ok(u) = small(alloc) else {
        return false;
    };
    let mut failing = Vec::new(alloc);
    if failing.push((0, 10)).is_err() {
        return false;
    }
    let Ok(mut sink) = MemSink::new(alloc, failing, 1000) else {
        return false;
    };
    match print(&u, &mut sink) {
        Ok(()) => false,
        Err(fault) => fault.gone == 10 && sink.written() == b"#include <".as_slice(),
    }
}

#[test]
fn a_unit_is_printed(rt: HostRuntime) {
    assert!(rt;
        is_printed(
            rt.alloc(),
            b"#include <stddef.h>\n#include <stdint.h>\n#include <string.h>\n\nstatic const char greeting[] = \"hello?\";\n"
        )
    );
    assert!(rt; tells_the_front(rt.alloc()));
}

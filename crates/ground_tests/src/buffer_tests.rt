// Each call of a buffer, where there are bytes and room, and at its edges.

use std::alloc::Global;
use wf_bufs::Buf;
use wf_text::NoMemory;

// A buffer of the four bytes `ABCD`, with these counts: `ri`, `wi` and `pos`.
fn four(alloc: Global, counts: (u64, u64, u64)) -> Result<Buf, NoMemory> {
    let mut buf = Buf::new(alloc, 4)?;
    let _four = buf.put(b"ABCD");
    let _placed = buf.place(counts.0, counts.1, counts.2, false);
    Ok(buf)
}

// Whether a buffer has these counts and cells.
fn is(buf: &Buf, counts: (u64, u64, u64), cells: &[u8]) -> bool {
    buf.ri() == counts.0 && buf.wi() == counts.1 && buf.pos() == counts.2 && buf.bytes() == cells
}

// Whether it has this number of unread bytes, this room, and these positions of its reader and its writer.
fn measures(buf: &Buf, unread: u64, room: u64, reader: u64, writer: u64) -> bool {
    buf.reader_length() == unread
        && buf.writer_length() == room
        && buf.reader_position() == reader
        && buf.writer_position() == writer
}

// Three bytes of four are written, all but the last are read, and the buffer is filled and compacted.
fn bytes_go_through(alloc: Global) -> Result<bool, NoMemory> {
    let mut buf = Buf::new(alloc, 4)?;
    let new = is(&buf, (0, 0, 0), &[0, 0, 0, 0]) && !buf.is_closed() && measures(&buf, 0, 4, 0, 0);
    let put = buf.put(b"ABC") == 3 && measures(&buf, 3, 1, 0, 3);
    let read = buf.take_u8() == Some(65) && buf.peek(1) == Some(67) && buf.peek(2).is_none();
    let full = buf.skip(1) == 1 && buf.give_u8(68) && is(&buf, (2, 4, 0), b"ABCD");
    buf.compact();
    Ok(new && put && read && full && is(&buf, (0, 2, 2), b"CDCD") && measures(&buf, 2, 2, 2, 4))
}

fn a_full_buffer_takes_no_more(alloc: Global) -> Result<bool, NoMemory> {
    let mut buf = Buf::new(alloc, 1)?;
    let full = buf.put(b"AB") == 1 && buf.put(b"C") == 0 && !buf.give_u8(67);
    let kept = is(&buf, (0, 1, 0), b"A");
    let read = buf.skip(9) == 1 && buf.take_u8().is_none() && !buf.give_u8(67);
    Ok(full && kept && read && is(&buf, (1, 1, 0), b"A") && measures(&buf, 0, 0, 1, 1))
}

fn a_buffer_without_cells_holds_nothing(alloc: Global) -> Result<bool, NoMemory> {
    let mut buf = Buf::new(alloc, 0)?;
    let none = buf.put(b"A") == 0 && !buf.give_u8(65) && !buf.set_cell(0, 65);
    let nothing = buf.peek(0).is_none() && buf.take_u8().is_none() && buf.skip(1) == 0;
    buf.compact();
    let placed = !buf.place(0, 1, 0, false) && buf.place(0, 0, 7, true);
    Ok(none && nothing && placed && buf.is_closed() && measures(&buf, 0, 0, 7, 7))
}

fn a_closed_buffer_is_only_read(alloc: Global) -> Result<bool, NoMemory> {
    let mut buf = Buf::new(alloc, 4)?;
    let put = buf.put(b"AB") == 2;
    buf.close();
    buf.close();
    let closed = buf.put(b"C") == 0
        && buf.is_closed()
        && !buf.give_u8(66)
        && measures(&buf, 2, 0, 0, 2);
    let read = buf.take_u8() == Some(65) && buf.peek(0) == Some(66);
    buf.compact();
    let left = buf.is_closed() && is(&buf, (0, 1, 1), b"BB\0\0") && measures(&buf, 1, 0, 1, 2);
    Ok(put && closed && read && left)
}

// The last byte is taken, and then none; with one more there is one again.
fn bytes_are_taken_up_to_the_last(alloc: Global) -> Result<bool, NoMemory> {
    let mut buf = four(alloc, (1, 2, 0))?;
    let last = buf.take_u8() == Some(66) && buf.take_u8().is_none() && is(&buf, (2, 2, 0), b"ABCD");
    let more = buf.give_u8(255) && buf.take_u8() == Some(255) && is(&buf, (3, 3, 0), b"AB\xffD");
    Ok(last && more)
}

// What stands after `wi` isn't unread, nor what stands before `ri`.
fn peeks(alloc: Global, rows: &[(u64, Option<u8>)]) -> Result<bool, NoMemory> {
    let buf = four(alloc, (1, 3, 0))?;
    for (at, byte) in rows {
        if buf.peek(*at) != *byte {
            return Ok(false);
        }
    }
    Ok(is(&buf, (1, 3, 0), b"ABCD"))
}

// Of three bytes so many are skipped, where so many are asked for.
fn skips(alloc: Global, rows: &[(u64, u64)]) -> Result<bool, NoMemory> {
    for (asked, count) in rows {
        let mut buf = four(alloc, (1, 4, 0))?;
        if buf.skip(*asked) != *count
            || buf.ri() != count.saturating_add(1)
            || buf.bytes() != b"ABCD".as_slice()
        {
            return Ok(false);
        }
    }
    Ok(true)
}

// After the byte `A` in a buffer of four so many bytes of a piece are put, which leaves these cells.
fn puts(alloc: Global, rows: &[(&[u8], usize, &[u8])]) -> Result<bool, NoMemory> {
    for (piece, count, cells) in rows {
        let mut buf = four(alloc, (0, 1, 0))?;
        let written = buf.put(*piece);
        if written != *count
            || buf.reader_length() != (*count as u64).saturating_add(1)
            || buf.bytes() != *cells
        {
            return Ok(false);
        }
    }
    Ok(true)
}

// A buffer of four bytes with these counts is compacted, and has those counts and cells then.
fn compacts(
    alloc: Global,
    rows: &[((u64, u64, u64), (u64, u64, u64), &[u8])],
) -> Result<bool, NoMemory> {
    for (before, after, cells) in rows {
        let mut buf = four(alloc, *before)?;
        buf.compact();
        if !is(&buf, *after, *cells) {
            return Ok(false);
        }
    }
    Ok(true)
}

// The positions of a reader and a writer end at the largest number.
fn have_positions(alloc: Global, rows: &[((u64, u64, u64), u64, u64)]) -> Result<bool, NoMemory> {
    for (counts, reader, writer) in rows {
        let buf = four(alloc, *counts)?;
        if buf.reader_position() != *reader || buf.writer_position() != *writer {
            return Ok(false);
        }
    }
    Ok(true)
}

// The counts go up to the capacity, in their order; and a closed buffer is open again.
fn counts_are_set_in_order(alloc: Global) -> Result<bool, NoMemory> {
    let mut buf = four(alloc, (0, 0, 0))?;
    let at_the_end = buf.place(4, 4, 0, true) && is(&buf, (4, 4, 0), b"ABCD") && buf.is_closed();
    let refused = !buf.place(4, 5, 0, false)
        && !buf.place(u64::MAX, u64::MAX, 0, false)
        && !buf.place(1, 0, 0, false);
    let kept = is(&buf, (4, 4, 0), b"ABCD") && buf.is_closed();
    let open = buf.place(0, 4, 1, false) && measures(&buf, 4, 0, 1, 5) && !buf.is_closed();
    Ok(at_the_end && refused && kept && open && buf.bytes() == b"ABCD".as_slice())
}

// Any cell is set, after `wi` and in a closed buffer too, and the counts stay.
fn one_cell_is_set(alloc: Global) -> Result<bool, NoMemory> {
    let mut buf = four(alloc, (1, 2, 3))?;
    let set = buf.set_cell(0, 97) && buf.set_cell(3, 255) && is(&buf, (1, 2, 3), b"aBC\xff");
    let refused = !buf.set_cell(4, 1) && !buf.set_cell(u64::MAX, 1);
    buf.close();
    Ok(set && refused && buf.set_cell(2, 0) && is(&buf, (1, 2, 3), b"aB\0\xff"))
}

// A copy stands as the buffer does, and goes its own way.
fn a_copy_is_another_buffer(alloc: Global) -> Result<bool, NoMemory> {
    let mut buf = four(alloc, (1, 3, 7))?;
    buf.close();
    let copy = buf.copy(alloc)?;
    buf.compact();
    Ok(is(&copy, (1, 3, 7), b"ABCD") && copy.is_closed() && is(&buf, (0, 2, 8), b"BCCD"))
}

fn lives_hold(alloc: Global) -> Result<bool, NoMemory> {
    Ok(
        bytes_go_through(alloc)?
            && a_full_buffer_takes_no_more(alloc)?
            && a_buffer_without_cells_holds_nothing(alloc)?
            && a_closed_buffer_is_only_read(alloc)?
            && bytes_are_taken_up_to_the_last(alloc)?
            && counts_are_set_in_order(alloc)?
            && one_cell_is_set(alloc)?
            && a_copy_is_another_buffer(alloc)?,
    )
}

const MOST: u64 = u64::MAX;

const PUT: &[(&[u8], usize, &[u8])] = &[
    (b"", 0, b"ABCD"),
    (b"x", 1, b"AxCD"),
    (b"xyz", 3, b"Axyz"),
    (b"xyzw", 3, b"Axyz"),
];

const COMPACTED: &[((u64, u64, u64), (u64, u64, u64), &[u8])] = &[
    ((2, 3, 0), (0, 1, 2), b"CBCD"),
    ((1, 4, 5), (0, 3, 6), b"BCDD"),
    ((0, 3, 5), (0, 3, 5), b"ABCD"),
    ((4, 4, 0), (0, 0, 4), b"ABCD"),
    ((0, 0, 9), (0, 0, 9), b"ABCD"),
    ((1, 2, MOST - 2), (0, 1, MOST - 1), b"BBCD"),
    ((2, 2, MOST - 2), (0, 0, MOST), b"ABCD"),
    ((3, 4, MOST - 2), (0, 1, MOST), b"DBCD"),
];

const POSITIONS: &[((u64, u64, u64), u64, u64)] = &[
    ((1, 2, MOST - 3), MOST - 2, MOST - 1),
    ((3, 4, MOST - 3), MOST, MOST),
    ((0, 1, MOST), MOST, MOST),
];

fn edges_hold(alloc: Global) -> Result<bool, NoMemory> {
    Ok(
        peeks(
            alloc,
            &[(0, Some(66)), (1, Some(67)), (2, None), (MOST, None)],
        )? && skips(alloc, &[(0, 0), (2, 2), (3, 3), (4, 3), (MOST, 3)])?
            && puts(alloc, PUT)?
            && compacts(alloc, COMPACTED)?
            && have_positions(alloc, POSITIONS)?,
    )
}

#[test]
fn buffers(rt: HostRuntime) {
    assert!(rt; lives_hold(rt.alloc()) == Ok(true));
    assert!(rt; edges_hold(rt.alloc()) == Ok(true));
}

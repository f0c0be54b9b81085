// A buffer: bytes that one side writes and the other reads. It keeps `ri <= wi <= capacity`.

ghost use Rattle.std.specs.Prelude.{◌≡◌, ◌+◌, ◌-◌, ◌<◌, ◌≤◌, nat_lt, nat_le, ◌&&◌, min, [], ◌∷◌, length, Option, IfOk, MatchBool};
ghost use Rattle.wf_base.specs.BaseOps.{Buffer, capacity, empty_buffer, unread_at, skipped, reader_length, reader_position, writer_length, has_room, writer_position, overwritten, appended, put, put_count, close, compact, with_cell, placed};

use std::alloc::Global;
use std::marker::Model;
use wf_text::NoMemory;

/// An io buffer of a fixed number of bytes, its cells. The bytes before `ri` were read, those from `ri` to
/// `wi` are unread, and the cells from `wi` on are free. `pos` is the place of the first cell in the stream.
#[derive(Drop)]
pub struct Buf {
    cells: Vec<u8>,
    ri: u64,
    wi: u64,
    pos: u64,
    closed: bool,
}

impl Model for Buf {
    ghost use Rattle.std.specs.Prelude.{◌≤◌, length};
    ghost use Rattle.wf_base.specs.BaseOps.{Buffer};

    ghost Value = { Buffer };

    ghost view = { λ buf. record { cells = buf.cells.items; ri = buf.ri; wi = buf.wi; pos = buf.pos; closed = buf.closed } };

    ghost invariant = { λ buf. (buf.ri ≤ buf.wi) × (buf.wi ≤ length buf.cells.items) };
}

impl Buf {
    /// A buffer of `cap` bytes, each 0, of which nothing is written.
    pub fn new(alloc: Global, cap: u32) -> Result<Buf, NoMemory>
        ensures { IfOk result (λ buf. buf ≡ empty_buffer cap) }
    {
        let cells = vec![in alloc; 0; cap as usize]?;
        Ok(Buf {
            cells,
            ri: 0,
            wi: 0,
            pos: 0,
            closed: false,
        })
    }

    /// A buffer in the same state.
    pub fn copy(&self, alloc: Global) -> Result<Buf, NoMemory>
        ensures { IfOk result (λ buf. buf ≡ self.now) }
    {
        let cells = Vec::from_slice(alloc, self.cells.as_slice())?;
        Ok(Buf {
            cells,
            ri: self.ri,
            wi: self.wi,
            pos: self.pos,
            closed: self.closed,
        })
    }

    /// The number of the cell that is read next.
    pub fn ri(&self) -> u64
        ensures { result ≡ self.now.ri }
    {
        self.ri
    }

    /// The number of the cell that is written next.
    pub fn wi(&self) -> u64
        ensures { result ≡ self.now.wi }
    {
        self.wi
    }

    /// The place of the first cell in the stream.
    pub fn pos(&self) -> u64
        ensures { result ≡ self.now.pos }
    {
        self.pos
    }

    /// Whether nothing more will be written.
    pub fn is_closed(&self) -> bool
        ensures { result ≡ self.now.closed }
    {
        self.closed
    }

    /// All cells, as many as the capacity.
    pub fn bytes(&self) -> &[u8]
        ensures cells { result.now ≡ self.now.cells }
        ensures read { self.now.ri ≤ self.now.wi }
        ensures written { self.now.wi ≤ capacity self.now }
    {
        self.cells.as_slice()
    }

    /// How many bytes are unread.
    pub fn reader_length(&self) -> u64
        ensures { result ≡ reader_length self.now }
    {
        self.wi - self.ri
    }

    /// The place in the stream of the byte that is read next, at most 2^64 - 1.
    pub fn reader_position(&self) -> u64
        ensures { result ≡ reader_position self.now }
    {
        self.pos.saturating_add(self.ri)
    }

    /// How many bytes can be written: none where the buffer is closed.
    pub fn writer_length(&self) -> u64
        ensures { result ≡ writer_length self.now }
    {
        if self.closed {
            0
        } else {
            self.cells.len() as u64 - self.wi
        }
    }

    /// The place in the stream of the byte that is written next, at most 2^64 - 1.
    pub fn writer_position(&self) -> u64
        ensures { result ≡ writer_position self.now }
    {
        self.pos.saturating_add(self.wi)
    }

    /// Takes the next unread byte; None, and nothing is taken, exactly where there is none.
    pub fn take_u8(&mut self) -> Option<u8>
        ensures byte { result ≡ unread_at 0 self.old }
        ensures after { self.new ≡ skipped 1 self.old }
    {
        if self.ri == self.wi {
            return None;
        }
        let byte = self.cells[self.ri as usize];
        self.ri += 1;
        Some(byte)
    }

    /// The unread byte with number `k`, from 0; None exactly where there are not so many.
    pub fn peek(&self, k: u64) -> Option<u8>
        ensures { result ≡ unread_at k self.now }
    {
        if k < self.wi - self.ri {
            Some(self.cells[(self.ri + k) as usize])
        } else {
            None
        }
    }

    /// Takes `n` bytes, or all unread ones where they are fewer, and answers how many.
    pub fn skip(&mut self, n: u64) -> u64
        ensures count { result ≡ min n (reader_length self.old) }
        ensures after { self.new ≡ skipped n self.old }
    {
        let count = n.min(self.wi - self.ri);
        self.ri += count;
        count
    }

    /// Appends a byte; false, and the buffer stays, exactly where it is full or closed.
    pub fn give_u8(&mut self, b: u8) -> bool
        ensures room { result ≡ has_room self.old }
        ensures after { MatchBool result (self.new ≡ appended (b ∷ []) self.old) (self.new ≡ self.old) }
    {
        if self.writer_length() == 0 {
            return false;
        }
        overwrite(self.cells.as_mut_slice(), self.wi as usize, &[b]);
        self.wi += 1;
        true
    }

    /// Appends the first of the bytes, as many as fit, and answers how many: none where the buffer is closed.
    pub fn put(&mut self, bytes: &[u8]) -> usize
        ensures count { result ≡ put_count bytes.now self.old }
        ensures after { self.new ≡ put bytes.now self.old }
    {
        let count = bytes.len().min(self.writer_length() as usize);
        let (fitting, _) = bytes.split_at(count);
        overwrite(self.cells.as_mut_slice(), self.wi as usize, fitting);
        self.wi += count as u64;
        count
    }

    /// Nothing more will be written.
    pub fn close(&mut self)
        ensures { self.new ≡ close self.old }
    {
        self.closed = true;
    }

    /// The bytes not read yet go to the front; every other cell stays as it is.
    pub fn compact(&mut self)
        ensures { self.new ≡ compact self.old }
    {
        self.cells
            .copy_within(self.ri as usize..self.wi as usize, 0);
        self.pos = self.pos.saturating_add(self.ri);
        self.wi -= self.ri;
        self.ri = 0;
    }

    /// Sets cell `k`; false, and the buffer stays, exactly where `k` isn't below the capacity.
    pub fn set_cell(&mut self, k: u64, b: u8) -> bool
        ensures within { result ≡ nat_lt k (capacity self.old) }
        ensures after { MatchBool result (self.new ≡ with_cell k b self.old) (self.new ≡ self.old) }
    {
        if k >= self.cells.len() as u64 {
            return false;
        }
        self.cells[k as usize] = b;
        true
    }

    /// Trades the cells for others, in constant time. Nothing counts as written then.
    pub fn swap_cells(&mut self, cells: &mut Vec<u8>)
        ensures now { self.new ≡ record self.old { cells = cells.old.items; ri = 0; wi = 0 } }
        ensures was { cells.new.items ≡ self.old.cells }
    {
        std::mem::swap(&mut self.cells, cells);
        self.ri = 0;
        self.wi = 0;
    }

    /// Sets all but the cells; false, and the buffer stays, exactly where `ri <= wi <= capacity` fails.
    pub fn place(&mut self, ri: u64, wi: u64, pos: u64, closed: bool) -> bool
        ensures lawful { result ≡ (nat_le ri wi && nat_le wi (capacity self.old)) }
        ensures after { MatchBool result (self.new ≡ placed ri wi pos closed self.old) (self.new ≡ self.old) }
    {
        if ri > wi || wi > self.cells.len() as u64 {
            return false;
        }
        self.ri = ri;
        self.wi = wi;
        self.pos = pos;
        self.closed = closed;
        true
    }
}

// Writes bytes over the cells from `at` on.
fn overwrite(cells: &mut [u8], at: usize, bytes: &[u8])
    requires { at + length bytes.now ≤ length cells.old }
    ensures { cells.new ≡ overwritten at bytes.now cells.old }
{
    let (_, rest) = cells.split_at_mut(at);
    let (front, _) = rest.split_at_mut(bytes.len());
    front.copy_from_slice(bytes);
}

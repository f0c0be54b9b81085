// The buffers and byte arrays of a host.

ghost use Rattle.std.specs.Prelude.{◌≡◌, ℕ, ◌<◌, List, [], ◌∷◌, ◌++◌, length, Some, slice_get, slice_set, IfOk, OnErr, OnOk, MatchBool, nat_lt};
ghost use Rattle.std.specs.Borrow.{sem};
ghost use Rattle.wf_bufs.specs.Lending.{LendsBuffer, LendsArray};

use crate::buffers::Buf;
use std::alloc::Global;
use std::marker::Model;
use wf_text::NoMemory;

/// Buffers, by number from 0.
#[derive(Drop)]
pub struct BufList {
    items: Vec<Buf>,
}

impl Model for BufList {
    ghost use Rattle.std.specs.Prelude.{List};
    ghost use Rattle.wf_base.specs.BaseOps.{Buffer};

    ghost Value = { List Buffer };

    ghost view = { λ list. list.items.items };
}

/// Bytes that a host passes as a slice. Their number is fixed.
#[derive(Drop)]
pub struct ByteArray {
    cells: Vec<u8>,
}

impl Model for ByteArray {
    ghost use Rattle.std.specs.Prelude.{List, ℕ};

    ghost Value = { List ℕ };

    ghost view = { λ array. array.cells.items };
}

/// Byte arrays, by number from 0.
#[derive(Drop)]
pub struct ByteArrays {
    items: Vec<ByteArray>,
}

impl Model for ByteArrays {
    ghost use Rattle.std.specs.Prelude.{List, ℕ};

    ghost Value = { List (List ℕ) };

    ghost view = { λ list. list.items.items };
}

/// What the calls of a host read and write.
#[derive(Drop)]
pub struct Bufs {
    pub bufs: BufList,
    pub arrays: ByteArrays,
}

impl BufList {
    /// No buffers.
    pub fn new(alloc: Global) -> BufList
        ensures { result ≡ [] }
    {
        BufList {
            items: Vec::new(alloc),
        }
    }

    /// Adds a buffer after the others. Where memory is refused the list stays, and the buffer is dropped.
    pub fn push(&mut self, buf: Buf) -> Result<(), NoMemory>
        ensures added { OnOk result (self.new ≡ self.old ++ buf ∷ []) }
        ensures stays { OnErr result (self.new ≡ self.old) }
    {
        self.items.push(buf)?;
        Ok(())
    }

    /// How many buffers there are.
    pub fn len(&self) -> usize
        ensures { result ≡ length self.now }
    {
        self.items.len()
    }

    /// Buffer `k`.
    pub fn at(&self, k: usize) -> &Buf
        requires { k < length self.now }
        ensures { slice_get self.now k ≡ Some result.now }
    {
        &self.items[k]
    }

    /// Buffer `k`, to be changed.
    pub fn at_mut(&mut self, k: usize) -> &mut Buf
        requires { k < length self.old }
        ensures* writes_back { sem 𝓛 (LendsBuffer self.entry k result) }
        ensures value { slice_get self.old k ≡ Some result.now }
    {
        &mut self.items[k]
    }

    /// Buffers in the same states.
    pub(crate) fn copy(&self, alloc: Global) -> Result<BufList, NoMemory>
        ensures { IfOk result (λ list. list ≡ self.now) }
    {
        let mut list = BufList::new(alloc);
        for buf in &self.items {
            list.push(buf.copy(alloc)?)?;
        }
        Ok(list)
    }
}

impl ByteArray {
    /// A byte array with these bytes.
    pub fn new(alloc: Global, bytes: &[u8]) -> Result<ByteArray, NoMemory>
        ensures { IfOk result (λ array. array ≡ bytes.now) }
    {
        let cells = Vec::from_slice(alloc, bytes)?;
        Ok(ByteArray { cells })
    }

    /// The bytes.
    pub fn bytes(&self) -> &[u8]
        ensures { result.now ≡ self.now }
    {
        self.cells.as_slice()
    }

    /// Sets byte `k`; false, and the bytes stay, exactly where `k` isn't below their number.
    pub fn set_byte(&mut self, k: u64, b: u8) -> bool
        ensures within { result ≡ nat_lt k (length self.old) }
        ensures after { MatchBool result (self.new ≡ slice_set self.old k b) (self.new ≡ self.old) }
    {
        if k >= self.cells.len() as u64 {
            return false;
        }
        self.cells[k as usize] = b;
        true
    }

    /// Trades the bytes for others, in constant time.
    pub fn swap_bytes(&mut self, bytes: &mut Vec<u8>)
        ensures now { self.new ≡ bytes.old.items }
        ensures was { bytes.new.items ≡ self.old }
    {
        std::mem::swap(&mut self.cells, bytes);
    }
}

impl ByteArrays {
    /// No byte arrays.
    pub fn new(alloc: Global) -> ByteArrays
        ensures { result ≡ [] }
    {
        ByteArrays {
            items: Vec::new(alloc),
        }
    }

    /// Adds a byte array after the others. Where memory is refused the list stays, and the array is dropped.
    pub fn push(&mut self, array: ByteArray) -> Result<(), NoMemory>
        ensures added { OnOk result (self.new ≡ self.old ++ array ∷ []) }
        ensures stays { OnErr result (self.new ≡ self.old) }
    {
        self.items.push(array)?;
        Ok(())
    }

    /// How many byte arrays there are.
    pub fn len(&self) -> usize
        ensures { result ≡ length self.now }
    {
        self.items.len()
    }

    /// Byte array `k`.
    pub fn at(&self, k: usize) -> &ByteArray
        requires { k < length self.now }
        ensures { slice_get self.now k ≡ Some result.now }
    {
        &self.items[k]
    }

    /// Byte array `k`, to be changed.
    pub fn at_mut(&mut self, k: usize) -> &mut ByteArray
        requires { k < length self.old }
        ensures* writes_back { sem 𝓛 (LendsArray self.entry k result) }
        ensures value { slice_get self.old k ≡ Some result.now }
    {
        &mut self.items[k]
    }

    /// Byte arrays with the same bytes.
    pub fn copy(&self, alloc: Global) -> Result<ByteArrays, NoMemory>
        ensures { IfOk result (λ list. list ≡ self.now) }
    {
        let mut list = ByteArrays::new(alloc);
        for array in &self.items {
            list.push(ByteArray::new(alloc, array.bytes())?)?;
        }
        Ok(list)
    }
}

impl Bufs {
    /// Buffers and byte arrays in the same states.
    pub fn copy(&self, alloc: Global) -> Result<Bufs, NoMemory>
        ensures { IfOk result (λ host. host ≡ self.now) }
    {
        let bufs = self.bufs.copy(alloc)?;
        let arrays = self.arrays.copy(alloc)?;
        Ok(Bufs { bufs, arrays })
    }
}

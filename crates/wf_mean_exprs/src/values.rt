// The values of the source's machine: what locals and arguments hold.

/// Where the elements of a slice stand: nowhere, as those of the empty slice; in a byte array of the host, by its number; or
/// in an array in a field, by the numbers of the struct state and of the field.
#[derive(Clone, Copy)]
pub enum SliceStore {
    Nowhere,
    HostArray(u16),
    FieldArray { object: u32, field: u32 },
}

/// The elements from the one with the number `from` on up to that with the number `end`; none where `end` isn't above `from`.
#[derive(Clone, Copy)]
pub struct SliceSpan {
    pub store: SliceStore,
    pub from: u64,
    pub end: u64,
}

/// What a local or an argument holds. A status is its number in the package, and a reader or writer that of its buffer.
#[derive(Clone, Copy)]
pub enum Slot {
    Num(u64),
    Truth(bool),
    Status(u32),
    Elements(SliceSpan),
    Buffer(u16),
}

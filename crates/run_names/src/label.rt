//! The types of what sources and handlers are called.

/// Where a source or a handler stands: the context or the thread that has it, and its id there.
#[derive(Clone, Copy, Debug, PartialEq, Eq, PartialOrd, Ord)]
pub struct Seat {
    pub home: u32,
    pub id: u64,
}

/// Where a source or a handler comes from.
#[derive(Clone, Copy, Debug, PartialEq, Eq, PartialOrd, Ord)]
pub enum Origin {
    /// A slot names it, by the slot's number.
    Slot(u32),
    /// A task replied: the thread that started it, and its number there.
    Reply { lane: u32, number: u64 },
    /// A procedure was invoked.
    Invoke(u32),
}

/// What a source or a handler is called: the first of its origin by that alone, each later one by its place among them too.
#[derive(Clone, Copy, Debug, PartialEq, Eq)]
pub struct Label {
    pub origin: Origin,
    /// Its place among those of the same origin, from 1.
    pub place: u64,
}

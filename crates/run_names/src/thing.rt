//! The kinds of things that have a name.

/// A thing of a run, by its numbers.
#[derive(Clone, Copy, Debug, PartialEq, Eq)]
pub enum Thing {
    Thread(u32),
    Context(u32),
    Loop(u32),
    Procedure(u32),
    Cancellable(u32),
    Descriptor(u32),
    /// What names a source or a handler in each thread.
    Slot(u32),
    /// What a `log` writes.
    Text(u32),
    /// A source by its context and its id there.
    Source { context: u32, id: u64 },
    /// A task by the thread that started it and its number there.
    Task { lane: u32, number: u64 },
    /// A handler by its thread and its id there.
    Handler { lane: u32, id: u64 },
}

//! What has a row in a picture of a run.

/// What of a thread has a row.
#[derive(Clone, Copy, PartialEq, Eq, PartialOrd, Ord)]
pub(crate) enum RowOf {
    /// A source of a context of the thread.
    Source { context: u32, id: u64 },
    Loop(u32),
    /// A task that the thread started.
    Task(u64),
    /// A cancellable, as the thread sees it.
    Cancellable(u32),
}

/// A row, by its thread and what it is of. They stand in this order.
#[derive(Clone, Copy, PartialEq, Eq, PartialOrd, Ord)]
pub(crate) struct RowName {
    pub lane: u32,
    pub thing: RowOf,
}

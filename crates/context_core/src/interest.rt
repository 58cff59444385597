//! The types of what the phases tell one another: what is asked of descriptors, the most urgent priority, the wait.

/// What `prepare` tells.
#[derive(Clone, Copy, Debug, PartialEq, Eq)]
pub struct Prepared {
    /// The least priority of what is ready already, if anything is.
    pub priority: Option<i32>,
    /// How many milliseconds a poll may wait: 0 where something is ready, -1 for as long as it likes.
    pub timeout_ms: i64,
}

/// What a source asks of a descriptor.
#[derive(Clone, Copy, Debug, PartialEq, Eq)]
pub struct Interest {
    pub fd: u32,
    /// The bits that it asks for.
    pub bits: u8,
}

/// What a descriptor shows.
#[derive(Clone, Copy)]
pub(crate) struct Shown {
    pub fd: u32,
    pub level: u8,
}

//! The types of what slots name; `lane` has the calls that look one up.

/// A source: its context, and its id there. It may be destroyed since.
#[derive(Clone, Copy, Debug, PartialEq, Eq)]
pub struct Place {
    pub context: u32,
    pub id: u64,
}

/// What a slot names.
#[derive(Clone, Copy, Debug, PartialEq, Eq)]
pub enum Named {
    Source(Place),
    /// A handler by its id, which may be disconnected since; 0 is that of none.
    Handler(u64),
}

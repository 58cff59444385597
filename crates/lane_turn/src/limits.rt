//! The limits of a lane, as numbers: the most steps of a turn, the most calls in progress, how many slots it has.

/// The most actions and dispatches of a turn.
pub(crate) const MOST_STEPS: u32 = 10_000;

/// The most calls in progress, but that of the start list.
pub(crate) const MOST_CALLS: u64 = 32;

/// How many slots a lane has.
pub(crate) const SLOTS: usize = 256;

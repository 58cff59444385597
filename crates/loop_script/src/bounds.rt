//! The bounds of numbers and lengths in a script, as numbers.

/// The most lanes.
pub(crate) const MOST_LANES: usize = 64;

/// The most contexts of all lanes together, cancellables, descriptors, loops, and actions of a list.
pub(crate) const MOST_ITEMS: usize = 256;

/// The most procedures.
pub(crate) const MOST_PROCS: usize = 1024;

/// The most ticks, and changes of a descriptor.
pub(crate) const MOST_TICKS: usize = 4096;

/// The longest tick, in microseconds.
pub(crate) const LONGEST_TICK: u64 = 1_000_000_000;

/// The longest time that a script can name, in microseconds.
pub(crate) const LONGEST_TIME: u64 = 1_000_000_000_000_000;

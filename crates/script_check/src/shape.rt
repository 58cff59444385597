//! The types of what should stand at a place of a script, without its meaning.
use crate::wanted::{Choice, Object, Wanted};

/// A form, with its ranges.
#[derive(Clone, Copy, Debug, PartialEq, Eq)]
pub enum Shape {
    /// A whole number from the first to the second.
    Whole(u64, u64),
    /// The same, or null.
    WholeOrNull(u64, u64),
    /// A whole number from one to another, of which it may be below 0.
    Signed(i64, i64),
    Truth,
    /// A list with so many items at least and at most, each as the third.
    List(usize, usize, Wanted),
    /// Lanes, so many at least and at most, with so many contexts together at most.
    Lanes(usize, usize, u64),
    /// A tick and bits.
    Pair,
    An(Object),
    OneOf(Choice),
}

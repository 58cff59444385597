//! The types of what is wrong with a script with names: the cause, and the place.
use crate::piece::Step;
use crate::sort::{Kind, Sort};
use crate::word::Word;

/// What is wrong with the value at a place.
#[derive(Clone, Copy, Debug, PartialEq, Eq)]
pub enum Cause {
    /// It is not what should stand there: no name that is known, no time, no number.
    Unfit,
    /// It has none of the words of which one has to stand there, or more than one.
    NoWord,
    /// It is no object, or no list.
    OtherType,
    /// It has too few or too many parts.
    OtherLength,
    /// A member, by its place in the object, has a key that is unknown there.
    OtherKey(usize),
    /// A key is missing.
    NoKey(Word),
    /// A name stands twice among those of its kind, or these are more than have a number.
    Twice(Kind),
}

/// A fault: the steps to the value that has it, what should stand there, and what is wrong.
#[derive(Drop)]
pub struct Fault<'a> {
    pub place: Vec<Step<'a>>,
    pub sort: Sort,
    pub cause: Cause,
}

//! The types of a fault of a script: its cause, its place, its class.
ghost use Rattle.std.specs.Prelude.{◌≡◌};
ghost use Rattle.script_check.specs.Classes.{class_of};

use crate::place::Place;
use crate::wanted::Wanted;

/// What is wrong with the value at a place.
#[derive(Clone, Copy, Debug, PartialEq, Eq)]
pub enum Cause {
    /// It has another type, or is a number that is not whole.
    OtherType,
    /// It does not begin with a word that is known there.
    OtherWord,
    /// It is an action that the version of the script has not.
    OtherVersion,
    /// It has too few or too many parts.
    OtherLength,
    /// A member, by its place in the order of keys, has a key that is unknown there.
    OtherKey(usize),
    /// A key is missing, by its place in the table of the object.
    NoKey(usize),
    /// It is a number out of range.
    Range,
    /// It has too few or too many items.
    Count,
    /// Lanes have too many contexts together.
    Contexts,
    /// A tree goes too deep.
    Depth,
    /// The script has none of that number, but so many.
    Missing(u64),
    /// The tick of a pair is not above that of the pair before, which is this.
    NotAbove(u32),
    /// The procedure is connected and holds an action that no handler may hold; its place in the procedure.
    NotPlain(usize),
    /// The procedure is invoked and keeps its source.
    Stays,
    /// A task returns on cancel and does not check.
    Unchecked,
}

/// The classes of faults, as a script is refused by the first of them.
#[derive(Clone, Copy, Debug, PartialEq, Eq)]
pub enum Class {
    Shape,
    Limit,
    Reference,
    Rule,
}

impl Cause {
    /// The class of its fault.
    pub fn class(self) -> Class
        ensures { result ≡ class_of self }
    {
        match self {
            Cause::OtherType | Cause::OtherWord => Class::Shape,
            Cause::OtherVersion | Cause::OtherLength => Class::Shape,
            Cause::OtherKey(_) | Cause::NoKey(_) => Class::Shape,
            Cause::Range | Cause::Count | Cause::Contexts | Cause::Depth => Class::Limit,
            Cause::Missing(_) => Class::Reference,
            Cause::NotAbove(_) | Cause::NotPlain(_) => Class::Rule,
            Cause::Stays | Cause::Unchecked => Class::Rule,
        }
    }
}

/// A fault: its place, what should stand there, and what is wrong.
#[derive(Drop)]
pub struct Fault {
    pub place: Place,
    pub wanted: Wanted,
    pub cause: Cause,
}

//! The types of what may stand at a place of a script with names. What a report calls them stands in `script_report`.

/// What a name is the name of.
#[derive(Clone, Copy, Debug, PartialEq, Eq)]
pub enum Kind {
    Thread,
    Context,
    Loop,
    Procedure,
    Cancellable,
    Descriptor,
    /// A source or a handler: what a slot names.
    Slot,
    /// The text of a `log`.
    Text,
}

/// A value without parts.
#[derive(Clone, Copy, Debug, PartialEq, Eq)]
pub enum Leaf {
    /// A name.
    Name(Kind),
    /// A name, or null.
    NameOrNull(Kind),
    /// A list of names, of which the number is written.
    Names,
    /// A whole number, or one of GLib's words for priorities.
    Priority,
    /// Conditions of a descriptor: their words, with bars between them.
    Bits,
    /// How long, in whole milliseconds.
    Milliseconds,
    /// How long, in microseconds.
    Microseconds,
    /// A time, or `never`.
    ReadyTime,
    /// How many dispatches a source outlives, null, `CONTINUE` or `REMOVE`.
    Keep,
    /// True: the key that it stands under says all.
    True,
    /// A text for readers, or true.
    Label,
    Number,
    Truth,
}

/// What a word chooses among.
#[derive(Clone, Copy, Debug, PartialEq, Eq)]
pub enum Choice {
    Action,
    /// The kind of a source.
    Source,
    Tree,
}

/// An object, by what it tells.
#[derive(Clone, Copy, Debug, PartialEq, Eq)]
pub enum Object {
    Script,
    Thread,
    Procedure,
    Source,
    Child,
    Task,
}

/// What should stand at a place.
#[derive(Clone, Copy, Debug, PartialEq, Eq)]
pub enum Sort {
    Leaf(Leaf),
    OneOf(Choice),
    An(Object),
    /// A tick and bits.
    Pair,
    /// A list of actions.
    Actions,
    /// A list of pairs.
    Levels,
    /// An object of threads by name.
    Threads,
    /// An object of procedures by name.
    Procedures,
    /// An object of contexts by the name of their loop.
    Loops,
    /// An object of lists of pairs by name.
    Descriptors,
}

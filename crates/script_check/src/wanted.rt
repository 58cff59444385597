//! The types of what should stand at a place of a script, by its meaning, and the shape of each; `script_report` has their words.
ghost use Rattle.std.specs.Prelude.{◌≡◌};
ghost use Rattle.script_check.specs.Views.{form_of, shape_of};

use crate::shape::Shape;

/// An object, by what it tells.
#[derive(Clone, Copy, Debug, PartialEq, Eq)]
pub enum Object {
    Script,
    Lane,
    Procedure,
    Source,
    Child,
    Task,
}

/// What the word at the front of a list is one of.
#[derive(Clone, Copy, Debug, PartialEq, Eq)]
pub enum Choice {
    Kind,
    Action,
    Tree,
}

/// What should stand at a place.
#[derive(Clone, Copy, Debug, PartialEq, Eq)]
pub enum Wanted {
    Version,
    Ticks,
    /// The length of a tick in microseconds.
    TickLength,
    /// How many cancellables there are.
    Cancellables,
    /// How many contexts a lane has.
    Contexts,
    /// How many dispatches a source outlives, or null.
    Dispatches,
    /// The tick of a pair.
    Tick,
    /// Conditions of a descriptor, added up.
    Bits,
    Slot,
    Priority,
    /// A time in microseconds; -1 is never.
    ReadyTime,
    /// How long, in microseconds.
    Span,
    Milliseconds,
    /// The number of a `log`.
    LogNumber,
    /// The value that a tree ends with.
    TreeValue,
    Truth,
    /// The number of a context, as of the others below.
    Context,
    Loop,
    Cancellable,
    CancellableOrNull,
    Proc,
    ProcOrNull,
    Descriptor,
    LaneNumber,
    /// The list of lanes.
    Lanes,
    Actions,
    Descriptors,
    /// The pairs of a descriptor.
    Levels,
    Loops,
    Procs,
    /// A tick and bits.
    Pair,
    An(Object),
    OneOf(Choice),
}

impl Wanted {
    /// The form without its meaning.
    pub fn shape(self) -> Shape
        ensures { shape_of result ≡ form_of self }
    {
        match self {
            Wanted::Version => Shape::Whole(1, 2),
            Wanted::Ticks => Shape::Whole(1, 4096),
            Wanted::TickLength => Shape::Whole(1, 1_000_000_000),
            Wanted::Cancellables => Shape::Whole(0, 256),
            Wanted::Contexts => Shape::Whole(1, 256),
            Wanted::Dispatches => Shape::WholeOrNull(0, 4_294_967_295),
            Wanted::Tick => Shape::Whole(0, 4095),
            Wanted::Bits => Shape::Whole(0, 63),
            Wanted::Slot => Shape::Whole(0, 255),
            Wanted::Priority => Shape::Signed(-2_147_483_648, 2_147_483_647),
            Wanted::ReadyTime => Shape::Signed(-1, 1_000_000_000_000_000),
            Wanted::Span => Shape::Whole(0, 1_000_000_000_000_000),
            Wanted::Milliseconds => Shape::Whole(0, 4_294_967_295),
            Wanted::LogNumber => Shape::Whole(0, 4_294_967_295),
            Wanted::TreeValue => Shape::Signed(i64::MIN, i64::MAX),
            Wanted::Truth => Shape::Truth,
            Wanted::Context => Shape::Whole(0, 4_294_967_295),
            Wanted::Loop => Shape::Whole(0, 4_294_967_295),
            Wanted::Cancellable => Shape::Whole(0, 4_294_967_295),
            Wanted::CancellableOrNull => Shape::WholeOrNull(0, 4_294_967_295),
            Wanted::Proc => Shape::Whole(0, 4_294_967_295),
            Wanted::ProcOrNull => Shape::WholeOrNull(0, 4_294_967_295),
            Wanted::Descriptor => Shape::Whole(0, 4_294_967_295),
            Wanted::LaneNumber => Shape::Whole(0, 4_294_967_295),
            Wanted::Lanes => Shape::Lanes(1, 64, 256),
            Wanted::Actions => Shape::List(0, 256, Wanted::OneOf(Choice::Action)),
            Wanted::Descriptors => Shape::List(0, 256, Wanted::Levels),
            Wanted::Levels => Shape::List(0, 4096, Wanted::Pair),
            Wanted::Loops => Shape::List(0, 256, Wanted::Context),
            Wanted::Procs => Shape::List(0, 1024, Wanted::An(Object::Procedure)),
            Wanted::Pair => Shape::Pair,
            Wanted::An(object) => Shape::An(object),
            Wanted::OneOf(choice) => Shape::OneOf(choice),
        }
    }
}

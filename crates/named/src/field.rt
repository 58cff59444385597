//! The keys of each object in a script of numbers and the parts of a pair, what a script with names has in their place, and which keys it may have there.
ghost use Rattle.std.specs.Prelude.{◌≡◌};
ghost use Rattle.named.specs.Tables.{fields, keys, each, pair};

use crate::sort::{Choice, Kind, Leaf, Object, Sort};
use crate::table::{At, Part};
use crate::word::Word;

/// What stands where a key is absent.
#[derive(Clone, Copy)]
pub(crate) enum Absent {
    /// The key must be there.
    Fault,
    /// Nothing.
    Nothing,
    Number(u64),
}

/// A key of an object in a script of numbers, with where its value comes from.
#[derive(Clone, Copy)]
pub(crate) struct Field {
    pub key: Word,
    pub at: At,
    pub sort: Sort,
    pub absent: Absent,
}

const SCRIPT: [Field; 8] = [
    Field {
        key: Word::Version,
        at: At::Key(Word::Version),
        sort: Sort::Leaf(Leaf::Number),
        absent: Absent::Number(2),
    },
    Field {
        key: Word::Ticks,
        at: At::Key(Word::Ticks),
        sort: Sort::Leaf(Leaf::Number),
        absent: Absent::Fault,
    },
    Field {
        key: Word::TickUs,
        at: At::Key(Word::Tick),
        sort: Sort::Leaf(Leaf::Microseconds),
        absent: Absent::Number(1000),
    },
    Field {
        key: Word::Lanes,
        at: At::Key(Word::Threads),
        sort: Sort::Threads,
        absent: Absent::Fault,
    },
    Field {
        key: Word::Cancellables,
        at: At::Key(Word::Cancellables),
        sort: Sort::Leaf(Leaf::Names),
        absent: Absent::Nothing,
    },
    Field {
        key: Word::Fds,
        at: At::Key(Word::Descriptors),
        sort: Sort::Descriptors,
        absent: Absent::Nothing,
    },
    Field {
        key: Word::Loops,
        at: At::Key(Word::Loops),
        sort: Sort::Loops,
        absent: Absent::Nothing,
    },
    Field {
        key: Word::Procs,
        at: At::Key(Word::Procedures),
        sort: Sort::Procedures,
        absent: Absent::Nothing,
    },
];

const THREAD: [Field; 2] = [
    Field {
        key: Word::Contexts,
        at: At::Key(Word::Contexts),
        sort: Sort::Leaf(Leaf::Names),
        absent: Absent::Number(1),
    },
    Field {
        key: Word::Start,
        at: At::Key(Word::Start),
        sort: Sort::Actions,
        absent: Absent::Fault,
    },
];

const PROCEDURE: [Field; 2] = [
    Field {
        key: Word::Do,
        at: At::Key(Word::Do),
        sort: Sort::Actions,
        absent: Absent::Fault,
    },
    Field {
        key: Word::Keep,
        at: At::Key(Word::Keep),
        sort: Sort::Leaf(Leaf::Keep),
        absent: Absent::Nothing,
    },
];

const SOURCE: [Field; 4] = [
    Field {
        key: Word::Kind,
        at: At::Same,
        sort: Sort::OneOf(Choice::Source),
        absent: Absent::Fault,
    },
    Field {
        key: Word::Priority,
        at: At::Key(Word::Priority),
        sort: Sort::Leaf(Leaf::Priority),
        absent: Absent::Nothing,
    },
    Field {
        key: Word::Recurse,
        at: At::Key(Word::CanRecurse),
        sort: Sort::Leaf(Leaf::Truth),
        absent: Absent::Nothing,
    },
    Field {
        key: Word::Call,
        at: At::Key(Word::Call),
        sort: Sort::Leaf(Leaf::NameOrNull(Kind::Procedure)),
        absent: Absent::Nothing,
    },
];

const CHILD: [Field; 3] = [
    Field {
        key: Word::Kind,
        at: At::Same,
        sort: Sort::OneOf(Choice::Source),
        absent: Absent::Fault,
    },
    Field {
        key: Word::Recurse,
        at: At::Key(Word::CanRecurse),
        sort: Sort::Leaf(Leaf::Truth),
        absent: Absent::Nothing,
    },
    Field {
        key: Word::Call,
        at: At::Key(Word::Call),
        sort: Sort::Leaf(Leaf::NameOrNull(Kind::Procedure)),
        absent: Absent::Nothing,
    },
];

const TASK: [Field; 6] = [
    Field {
        key: Word::Tree,
        at: At::Key(Word::Does),
        sort: Sort::OneOf(Choice::Tree),
        absent: Absent::Fault,
    },
    Field {
        key: Word::Call,
        at: At::Key(Word::Call),
        sort: Sort::Leaf(Leaf::Name(Kind::Procedure)),
        absent: Absent::Fault,
    },
    Field {
        key: Word::Cancel,
        at: At::Key(Word::Cancellable),
        sort: Sort::Leaf(Leaf::NameOrNull(Kind::Cancellable)),
        absent: Absent::Nothing,
    },
    Field {
        key: Word::Check,
        at: At::Key(Word::CheckCancellable),
        sort: Sort::Leaf(Leaf::Truth),
        absent: Absent::Nothing,
    },
    Field {
        key: Word::ReturnOnCancel,
        at: At::Key(Word::ReturnOnCancel),
        sort: Sort::Leaf(Leaf::Truth),
        absent: Absent::Nothing,
    },
    Field {
        key: Word::Priority,
        at: At::Key(Word::Priority),
        sort: Sort::Leaf(Leaf::Priority),
        absent: Absent::Nothing,
    },
];

/// The keys of an object in a script of numbers.
pub(crate) fn fields(object: Object) -> &'static [Field]
    ensures { result.now ≡ fields object }
{
    match object {
        Object::Script => &SCRIPT,
        Object::Thread => &THREAD,
        Object::Procedure => &PROCEDURE,
        Object::Source => &SOURCE,
        Object::Child => &CHILD,
        Object::Task => &TASK,
    }
}

/// The keys that may stand in an object; of what an action makes, they are those of the action.
pub fn keys(object: Object) -> &'static [Word]
    ensures { result.now ≡ keys object }
{
    match object {
        Object::Script => &[
            Word::Form,
            Word::Version,
            Word::Ticks,
            Word::Tick,
            Word::Threads,
            Word::Cancellables,
            Word::Descriptors,
            Word::Loops,
            Word::Procedures,
        ],
        Object::Thread => &[Word::Contexts, Word::Start],
        Object::Procedure => &[Word::Do, Word::Keep],
        Object::Source | Object::Child | Object::Task => &[],
    }
}

/// What each item of a list, or each member of an object by name, should be.
pub(crate) fn each(sort: Sort) -> Sort
    ensures { result ≡ each sort }
{
    match sort {
        Sort::Actions => Sort::OneOf(Choice::Action),
        Sort::Levels => Sort::Pair,
        Sort::Threads => Sort::An(Object::Thread),
        Sort::Procedures => Sort::An(Object::Procedure),
        Sort::Loops => Sort::Leaf(Leaf::Name(Kind::Context)),
        Sort::Descriptors => Sort::Levels,
        _ => sort,
    }
}

/// A tick and bits.
pub(crate) fn pair() -> &'static [Part]
    ensures { result.now ≡ pair }
{
    &[
        Part {
            at: At::Item(0),
            sort: Sort::Leaf(Leaf::Number),
        },
        Part {
            at: At::Item(1),
            sort: Sort::Leaf(Leaf::Bits),
        },
    ]
}

//! The words of actions, sources and trees, with what a script of numbers has behind them: parts, the keys beside them, the word that stands for each.
ghost use Rattle.std.specs.Prelude.{◌≡◌};
ghost use Rattle.named.specs.Tables.{words, parts, parts_of_action, parts_of_source, parts_of_tree, beside, numbered_word, makes_source};

use crate::sort::{Choice, Kind, Leaf, Object, Sort};
use crate::word::Word;

/// Where a part of a value stands.
#[derive(Clone, Copy)]
pub(crate) enum At {
    /// Under a key.
    Key(Word),
    /// An item of a list, from 0.
    Item(usize),
    /// It is the value itself.
    Same,
}

/// A part of what a word says.
#[derive(Clone, Copy)]
pub(crate) struct Part {
    pub at: At,
    pub sort: Sort,
}

const ACTIONS: [Word; 21] = [
    Word::Attach,
    Word::Child,
    Word::Destroy,
    Word::SetReady,
    Word::SetPriority,
    Word::Iterate,
    Word::Pending,
    Word::Run,
    Word::Quit,
    Word::Cancel,
    Word::Connect,
    Word::Disconnect,
    Word::Task,
    Word::Push,
    Word::Pop,
    Word::ShowDefault,
    Word::Acquire,
    Word::Release,
    Word::Invoke,
    Word::Give,
    Word::Log,
];

const SOURCES: [Word; 5] = [
    Word::Idle,
    Word::Timeout,
    Word::Ready,
    Word::Fd,
    Word::Cancellable,
];

const TREES: [Word; 8] = [
    Word::Value,
    Word::Fail,
    Word::Sleep,
    Word::Check,
    Word::Seq,
    Word::Both,
    Word::First,
    Word::Within,
];

/// The words of a choice.
pub fn words(choice: Choice) -> &'static [Word]
    ensures { result.now ≡ words choice }
{
    match choice {
        Choice::Action => &ACTIONS,
        Choice::Source => &SOURCES,
        Choice::Tree => &TREES,
    }
}

/// What stands behind a word in a script of numbers.
pub(crate) fn parts(choice: Choice, word: Word) -> &'static [Part]
    ensures { result.now ≡ parts choice word }
{
    match choice {
        Choice::Action => parts_of_action(word),
        Choice::Source => parts_of_source(word),
        Choice::Tree => parts_of_tree(word),
    }
}

/// The parts that an action has behind its word in a script of numbers, in their order, and where each stands in one with names.
fn parts_of_action(word: Word) -> &'static [Part]
    ensures { result.now ≡ parts_of_action word }
{
    match word {
        Word::Attach => &[
            Part {
                at: At::Key(Word::To),
                sort: Sort::Leaf(Leaf::Name(Kind::Context)),
            },
            Part {
                at: At::Key(Word::Attach),
                sort: Sort::Leaf(Leaf::Name(Kind::Slot)),
            },
            Part {
                at: At::Same,
                sort: Sort::An(Object::Source),
            },
        ],
        Word::Child => &[
            Part {
                at: At::Key(Word::Below),
                sort: Sort::Leaf(Leaf::Name(Kind::Slot)),
            },
            Part {
                at: At::Key(Word::Child),
                sort: Sort::Leaf(Leaf::Name(Kind::Slot)),
            },
            Part {
                at: At::Same,
                sort: Sort::An(Object::Child),
            },
        ],
        Word::Destroy => &[Part {
            at: At::Key(Word::Destroy),
            sort: Sort::Leaf(Leaf::Name(Kind::Slot)),
        }],
        Word::SetReady => &[
            Part {
                at: At::Key(Word::SetReady),
                sort: Sort::Leaf(Leaf::Name(Kind::Slot)),
            },
            Part {
                at: At::Key(Word::To),
                sort: Sort::Leaf(Leaf::ReadyTime),
            },
        ],
        Word::SetPriority => &[
            Part {
                at: At::Key(Word::SetPriority),
                sort: Sort::Leaf(Leaf::Name(Kind::Slot)),
            },
            Part {
                at: At::Key(Word::To),
                sort: Sort::Leaf(Leaf::Priority),
            },
        ],
        Word::Iterate => &[Part {
            at: At::Key(Word::Iterate),
            sort: Sort::Leaf(Leaf::Name(Kind::Context)),
        }],
        Word::Pending => &[Part {
            at: At::Key(Word::Pending),
            sort: Sort::Leaf(Leaf::Name(Kind::Context)),
        }],
        Word::Run => &[Part {
            at: At::Key(Word::Run),
            sort: Sort::Leaf(Leaf::Name(Kind::Loop)),
        }],
        Word::Quit => &[Part {
            at: At::Key(Word::Quit),
            sort: Sort::Leaf(Leaf::Name(Kind::Loop)),
        }],
        Word::Cancel => &[Part {
            at: At::Key(Word::Cancel),
            sort: Sort::Leaf(Leaf::Name(Kind::Cancellable)),
        }],
        Word::Connect => &[
            Part {
                at: At::Key(Word::To),
                sort: Sort::Leaf(Leaf::Name(Kind::Cancellable)),
            },
            Part {
                at: At::Key(Word::Connect),
                sort: Sort::Leaf(Leaf::Name(Kind::Slot)),
            },
            Part {
                at: At::Key(Word::Call),
                sort: Sort::Leaf(Leaf::Name(Kind::Procedure)),
            },
        ],
        Word::Disconnect => &[Part {
            at: At::Key(Word::Disconnect),
            sort: Sort::Leaf(Leaf::Name(Kind::Slot)),
        }],
        Word::Task => &[
            Part {
                at: At::Key(Word::Task),
                sort: Sort::Leaf(Leaf::Label),
            },
            Part {
                at: At::Same,
                sort: Sort::An(Object::Task),
            },
        ],
        Word::Push => &[Part {
            at: At::Key(Word::Push),
            sort: Sort::Leaf(Leaf::Name(Kind::Context)),
        }],
        Word::Pop => &[Part {
            at: At::Key(Word::Pop),
            sort: Sort::Leaf(Leaf::Name(Kind::Context)),
        }],
        Word::ShowDefault => &[Part {
            at: At::Key(Word::ShowDefault),
            sort: Sort::Leaf(Leaf::True),
        }],
        Word::Acquire => &[Part {
            at: At::Key(Word::Acquire),
            sort: Sort::Leaf(Leaf::Name(Kind::Context)),
        }],
        Word::Release => &[Part {
            at: At::Key(Word::Release),
            sort: Sort::Leaf(Leaf::Name(Kind::Context)),
        }],
        Word::Invoke => &[
            Part {
                at: At::Key(Word::In),
                sort: Sort::Leaf(Leaf::Name(Kind::Context)),
            },
            Part {
                at: At::Key(Word::Invoke),
                sort: Sort::Leaf(Leaf::Name(Kind::Procedure)),
            },
        ],
        Word::Give => &[
            Part {
                at: At::Key(Word::Give),
                sort: Sort::Leaf(Leaf::Name(Kind::Context)),
            },
            Part {
                at: At::Key(Word::To),
                sort: Sort::Leaf(Leaf::Name(Kind::Thread)),
            },
        ],
        Word::Log => &[Part {
            at: At::Key(Word::Log),
            sort: Sort::Leaf(Leaf::Name(Kind::Text)),
        }],
        _ => &[],
    }
}

/// The parts that a kind of source has behind its word in a script of numbers, in their order.
fn parts_of_source(word: Word) -> &'static [Part]
    ensures { result.now ≡ parts_of_source word }
{
    match word {
        Word::Idle => &[Part {
            at: At::Key(Word::Idle),
            sort: Sort::Leaf(Leaf::True),
        }],
        Word::Timeout => &[Part {
            at: At::Key(Word::Timeout),
            sort: Sort::Leaf(Leaf::Milliseconds),
        }],
        Word::Ready => &[Part {
            at: At::Key(Word::Ready),
            sort: Sort::Leaf(Leaf::ReadyTime),
        }],
        Word::Fd => &[
            Part {
                at: At::Key(Word::Fd),
                sort: Sort::Leaf(Leaf::Name(Kind::Descriptor)),
            },
            Part {
                at: At::Key(Word::Events),
                sort: Sort::Leaf(Leaf::Bits),
            },
        ],
        Word::Cancellable => &[Part {
            at: At::Key(Word::Cancellable),
            sort: Sort::Leaf(Leaf::Name(Kind::Cancellable)),
        }],
        _ => &[],
    }
}

/// The parts that a form of a task's tree has behind its word, which stand in the same order in both.
fn parts_of_tree(word: Word) -> &'static [Part]
    ensures { result.now ≡ parts_of_tree word }
{
    match word {
        Word::Value => &[Part {
            at: At::Item(1),
            sort: Sort::Leaf(Leaf::Number),
        }],
        Word::Sleep => &[Part {
            at: At::Item(1),
            sort: Sort::Leaf(Leaf::Microseconds),
        }],
        Word::Seq => &[
            Part {
                at: At::Item(1),
                sort: Sort::OneOf(Choice::Tree),
            },
            Part {
                at: At::Item(2),
                sort: Sort::OneOf(Choice::Tree),
            },
        ],
        Word::Both => &[
            Part {
                at: At::Item(1),
                sort: Sort::OneOf(Choice::Tree),
            },
            Part {
                at: At::Item(2),
                sort: Sort::OneOf(Choice::Tree),
            },
        ],
        Word::First => &[
            Part {
                at: At::Item(1),
                sort: Sort::OneOf(Choice::Tree),
            },
            Part {
                at: At::Item(2),
                sort: Sort::OneOf(Choice::Tree),
            },
        ],
        Word::Within => &[
            Part {
                at: At::Item(1),
                sort: Sort::Leaf(Leaf::Microseconds),
            },
            Part {
                at: At::Item(2),
                sort: Sort::OneOf(Choice::Tree),
            },
        ],
        _ => &[],
    }
}

/// The keys that may stand in the object of an action, or of a kind of source, beside those of its kind where it makes a source.
pub fn beside(word: Word) -> &'static [Word]
    ensures { result.now ≡ beside word }
{
    match word {
        Word::Attach => &[
            Word::Attach,
            Word::To,
            Word::Priority,
            Word::CanRecurse,
            Word::Call,
        ],
        Word::Child => &[Word::Child, Word::Below, Word::CanRecurse, Word::Call],
        Word::SetReady => &[Word::SetReady, Word::To],
        Word::SetPriority => &[Word::SetPriority, Word::To],
        Word::Connect => &[Word::Connect, Word::To, Word::Call],
        Word::Task => &[
            Word::Task,
            Word::Does,
            Word::Call,
            Word::Cancellable,
            Word::CheckCancellable,
            Word::ReturnOnCancel,
            Word::Priority,
        ],
        Word::Invoke => &[Word::Invoke, Word::In],
        Word::Give => &[Word::Give, Word::To],
        Word::Fd => &[Word::Fd, Word::Events],
        _ => &[],
    }
}

/// The word of a script of numbers.
pub(crate) fn numbered_word(word: Word) -> Word
    ensures { result ≡ numbered_word word }
{
    match word {
        Word::Cancellable => Word::Cancel,
        _ => word,
    }
}

/// Whether the object of an action has the keys of a source as well.
pub(crate) fn makes_source(word: Word) -> bool
    ensures { result ≡ makes_source word }
{
    matches!(word, Word::Attach | Word::Child)
}

//! The keys of each object and the words of each choice, as the program has them, with the text of each name.
ghost use Rattle.std.specs.Prelude.{◌≡◌, map, option_map};
ghost use Rattle.loop_script.specs.Tables.{keys, words};
ghost use Rattle.loop_script.specs.Place.{parts_of as spec_parts};
ghost use Rattle.script_check.specs.Views.{object_of, choice_of, form_of, name_of, key_of};

use crate::wanted::{Choice, Object, Wanted};

/// The name of a key.
#[derive(Clone, Copy, Debug, PartialEq, Eq)]
pub enum Name {
    Version,
    Ticks,
    TickUs,
    Lanes,
    Cancellables,
    Fds,
    Loops,
    Procs,
    Contexts,
    Start,
    Do,
    Keep,
    Kind,
    Priority,
    Recurse,
    Call,
    Tree,
    Cancel,
    Check,
    ReturnOnCancel,
}

impl Name {
    /// The text of the key.
    pub fn text(self) -> &'static str
        ensures { result.now ≡ name_of self }
    {
        match self {
            Name::Version => "version",
            Name::Ticks => "ticks",
            Name::TickUs => "tick_us",
            Name::Lanes => "lanes",
            Name::Cancellables => "cancellables",
            Name::Fds => "fds",
            Name::Loops => "loops",
            Name::Procs => "procs",
            Name::Contexts => "contexts",
            Name::Start => "start",
            Name::Do => "do",
            Name::Keep => "keep",
            Name::Kind => "kind",
            Name::Priority => "priority",
            Name::Recurse => "recurse",
            Name::Call => "call",
            Name::Tree => "tree",
            Name::Cancel => "cancel",
            Name::Check => "check",
            Name::ReturnOnCancel => "return_on_cancel",
        }
    }
}

/// A key of an object.
#[derive(Clone, Copy, Debug, PartialEq, Eq)]
pub struct Key {
    pub name: Name,
    /// What should stand under it.
    pub wanted: Wanted,
    /// Whether it must be there.
    pub needed: bool,
}

const SCRIPT: [Key; 8] = [
    Key {
        name: Name::Version,
        wanted: Wanted::Version,
        needed: true,
    },
    Key {
        name: Name::Ticks,
        wanted: Wanted::Ticks,
        needed: true,
    },
    Key {
        name: Name::TickUs,
        wanted: Wanted::TickLength,
        needed: true,
    },
    Key {
        name: Name::Lanes,
        wanted: Wanted::Lanes,
        needed: true,
    },
    Key {
        name: Name::Cancellables,
        wanted: Wanted::Cancellables,
        needed: false,
    },
    Key {
        name: Name::Fds,
        wanted: Wanted::Descriptors,
        needed: false,
    },
    Key {
        name: Name::Loops,
        wanted: Wanted::Loops,
        needed: false,
    },
    Key {
        name: Name::Procs,
        wanted: Wanted::Procs,
        needed: false,
    },
];

const LANE: [Key; 2] = [
    Key {
        name: Name::Contexts,
        wanted: Wanted::Contexts,
        needed: true,
    },
    Key {
        name: Name::Start,
        wanted: Wanted::Actions,
        needed: true,
    },
];

const PROCEDURE: [Key; 2] = [
    Key {
        name: Name::Do,
        wanted: Wanted::Actions,
        needed: true,
    },
    Key {
        name: Name::Keep,
        wanted: Wanted::Dispatches,
        needed: false,
    },
];

const SOURCE: [Key; 4] = [
    Key {
        name: Name::Kind,
        wanted: Wanted::OneOf(Choice::Kind),
        needed: true,
    },
    Key {
        name: Name::Priority,
        wanted: Wanted::Priority,
        needed: false,
    },
    Key {
        name: Name::Recurse,
        wanted: Wanted::Truth,
        needed: false,
    },
    Key {
        name: Name::Call,
        wanted: Wanted::ProcOrNull,
        needed: false,
    },
];

const CHILD: [Key; 3] = [
    Key {
        name: Name::Kind,
        wanted: Wanted::OneOf(Choice::Kind),
        needed: true,
    },
    Key {
        name: Name::Recurse,
        wanted: Wanted::Truth,
        needed: false,
    },
    Key {
        name: Name::Call,
        wanted: Wanted::ProcOrNull,
        needed: false,
    },
];

const TASK: [Key; 6] = [
    Key {
        name: Name::Tree,
        wanted: Wanted::OneOf(Choice::Tree),
        needed: true,
    },
    Key {
        name: Name::Call,
        wanted: Wanted::Proc,
        needed: true,
    },
    Key {
        name: Name::Cancel,
        wanted: Wanted::CancellableOrNull,
        needed: false,
    },
    Key {
        name: Name::Check,
        wanted: Wanted::Truth,
        needed: false,
    },
    Key {
        name: Name::ReturnOnCancel,
        wanted: Wanted::Truth,
        needed: false,
    },
    Key {
        name: Name::Priority,
        wanted: Wanted::Priority,
        needed: false,
    },
];

/// The keys of an object.
pub fn keys_of(object: Object) -> &'static [Key]
    ensures { map key_of result.now ≡ keys (object_of object) }
{
    match object {
        Object::Script => &SCRIPT,
        Object::Lane => &LANE,
        Object::Procedure => &PROCEDURE,
        Object::Source => &SOURCE,
        Object::Child => &CHILD,
        Object::Task => &TASK,
    }
}

/// What stands behind a word of a choice, where it is one.
pub fn parts_of(choice: Choice, word: &str) -> Option<&'static [Wanted]>
    ensures { option_map (λ parts. map form_of parts.now) result ≡ spec_parts (words (choice_of choice)) word.now }
{
    match choice {
        Choice::Kind => parts_of_kind(word),
        Choice::Action => parts_of_action(word),
        Choice::Tree => parts_of_tree(word),
    }
}

/// What should stand behind the word of a source's kind, as `timeout`; none where no kind begins with it.
fn parts_of_kind(word: &str) -> Option<&'static [Wanted]>
    ensures { option_map (λ parts. map form_of parts.now) result ≡ spec_parts (words (choice_of Choice.Kind)) word.now }
{
    match word {
        "idle" => Some(&[]),
        "timeout" => Some(&[Wanted::Milliseconds]),
        "ready" => Some(&[Wanted::ReadyTime]),
        "fd" => Some(&[Wanted::Descriptor, Wanted::Bits]),
        "cancel" => Some(&[Wanted::Cancellable]),
        _ => None,
    }
}

/// What should stand behind the word of an action, as `attach`; none where no action begins with it.
fn parts_of_action(word: &str) -> Option<&'static [Wanted]>
    ensures { option_map (λ parts. map form_of parts.now) result ≡ spec_parts (words (choice_of Choice.Action)) word.now }
{
    match word {
        "attach" => Some(&[Wanted::Context, Wanted::Slot, Wanted::An(Object::Source)]),
        "child" => Some(&[Wanted::Slot, Wanted::Slot, Wanted::An(Object::Child)]),
        "destroy" => Some(&[Wanted::Slot]),
        "set_ready" => Some(&[Wanted::Slot, Wanted::ReadyTime]),
        "set_priority" => Some(&[Wanted::Slot, Wanted::Priority]),
        "iterate" => Some(&[Wanted::Context]),
        "pending" => Some(&[Wanted::Context]),
        "run" => Some(&[Wanted::Loop]),
        "quit" => Some(&[Wanted::Loop]),
        "cancel" => Some(&[Wanted::Cancellable]),
        "connect" => Some(&[Wanted::Cancellable, Wanted::Slot, Wanted::Proc]),
        "disconnect" => Some(&[Wanted::Slot]),
        "task" => Some(&[Wanted::An(Object::Task)]),
        "push" => Some(&[Wanted::Context]),
        "pop" => Some(&[Wanted::Context]),
        "show_default" => Some(&[]),
        "acquire" => Some(&[Wanted::Context]),
        "release" => Some(&[Wanted::Context]),
        "invoke" => Some(&[Wanted::Context, Wanted::Proc]),
        "give" => Some(&[Wanted::Context, Wanted::LaneNumber]),
        "log" => Some(&[Wanted::LogNumber]),
        _ => None,
    }
}

/// What should stand behind the word of a task's tree, as `within`; none where no tree begins with it.
fn parts_of_tree(word: &str) -> Option<&'static [Wanted]>
    ensures { option_map (λ parts. map form_of parts.now) result ≡ spec_parts (words (choice_of Choice.Tree)) word.now }
{
    match word {
        "value" => Some(&[Wanted::TreeValue]),
        "fail" => Some(&[]),
        "sleep" => Some(&[Wanted::Span]),
        "check" => Some(&[]),
        "seq" => Some(&[Wanted::OneOf(Choice::Tree), Wanted::OneOf(Choice::Tree)]),
        "both" => Some(&[Wanted::OneOf(Choice::Tree), Wanted::OneOf(Choice::Tree)]),
        "first" => Some(&[Wanted::OneOf(Choice::Tree), Wanted::OneOf(Choice::Tree)]),
        "within" => Some(&[Wanted::Span, Wanted::OneOf(Choice::Tree)]),
        _ => None,
    }
}

/// The words of a choice.
pub fn words_of(choice: Choice) -> &'static [&'static str]
    ensures { map (λ word. word.now) result.now ≡ map (λ word. word.word) (words (choice_of choice)) }
{
    match choice {
        Choice::Kind => &KINDS,
        Choice::Action => &ACTIONS,
        Choice::Tree => &TREES,
    }
}

const KINDS: [&str; 5] = ["idle", "timeout", "ready", "fd", "cancel"];

const ACTIONS: [&str; 21] = [
    "attach",
    "child",
    "destroy",
    "set_ready",
    "set_priority",
    "iterate",
    "pending",
    "run",
    "quit",
    "cancel",
    "connect",
    "disconnect",
    "task",
    "push",
    "pop",
    "show_default",
    "acquire",
    "release",
    "invoke",
    "give",
    "log",
];

const TREES: [&str; 8] = [
    "value", "fail", "sleep", "check", "seq", "both", "first", "within",
];

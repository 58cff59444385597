//! The types of what `mainctx_inspect` is asked for: the command, the part of a run, how it is told.
ghost use Rattle.std.specs.Prelude.{◌≡◌, IfSome, Some};
ghost use Rattle.inspect_arguments.specs.Words.{word_of};
ghost use Rattle.inspect_arguments.specs.declared.orders.Command.{Command};

use crate::values::{Source, Ticks};

/// What of a run is asked for.
#[derive(Clone, Copy, Debug, PartialEq, Eq)]
pub enum Command {
    Text,
    Why,
    Summary,
    Account,
    Steps,
    Stack,
    Timeline,
    Notes,
    /// The script of numbers.
    Translate,
}

impl Command {
    /// Each of them, in the order of the program's help.
    pub(crate) const EACH: [Command; 9] = [
        Command::Text,
        Command::Why,
        Command::Summary,
        Command::Account,
        Command::Steps,
        Command::Stack,
        Command::Timeline,
        Command::Notes,
        Command::Translate,
    ];

    /// Its word.
    pub(crate) fn word<'a>(self) -> &'a str
        ensures { result.now ≡ word_of self }
    {
        match self {
            Command::Text => "text",
            Command::Why => "why",
            Command::Summary => "summary",
            Command::Account => "account",
            Command::Steps => "steps",
            Command::Stack => "stack",
            Command::Timeline => "timeline",
            Command::Notes => "notes",
            Command::Translate => "translate",
        }
    }

    /// That of a word.
    pub(crate) fn of_word(word: &str) -> Option<Command>
        ensures word { IfSome result (λ command. word_of command ≡ word.now) }
        ensures exact { (command : Command) → word_of command ≡ word.now → result ≡ Some command }
    {
        match word {
            "text" => Some(Command::Text),
            "why" => Some(Command::Why),
            "summary" => Some(Command::Summary),
            "account" => Some(Command::Account),
            "steps" => Some(Command::Steps),
            "stack" => Some(Command::Stack),
            "timeline" => Some(Command::Timeline),
            "notes" => Some(Command::Notes),
            "translate" => Some(Command::Translate),
            _ => None,
        }
    }
}

/// What to tell, and of what.
#[derive(Clone, Copy, Debug, PartialEq, Eq)]
pub struct Order<'a> {
    pub command: Command,
    /// One thread; None is each.
    pub lane: Option<u32>,
    /// Some ticks; None is each.
    pub ticks: Option<Ticks>,
    pub source: Option<Source>,
    /// The tick of one turn.
    pub tick: Option<u32>,
    /// The number of a step of that turn; None is its end.
    pub step: Option<u32>,
    /// How many characters a line of a picture has at most.
    pub columns: u32,
    /// After how many lines to end; None is after the last.
    pub most_lines: Option<u32>,
    /// Whether the text says where GLib does otherwise.
    pub notes: bool,
    /// Whether it tells numbers where the script has names.
    pub numbers: bool,
    /// None is standard input, as `-` is.
    pub file: Option<&'a str>,
}

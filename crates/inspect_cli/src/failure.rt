//! Why `mainctx_inspect` gave no answer: the exit status, and the line on standard error.
use account::AccountFault;
use program_input::InputFault;
use std::alloc::AllocError;
use std::io::Write;

/// What of a run goes by numbers from 0 on.
#[derive(Clone, Copy, Drop)]
pub(crate) enum Numbered {
    Thread,
    Tick,
    Step,
}

impl Numbered {
    /// What a number of the command line counts, in a word.
    fn word(self) -> &'static str {
        match self {
            Numbered::Thread => "thread",
            Numbered::Tick => "tick",
            Numbered::Step => "step",
        }
    }
}

/// Why there is no answer, or no whole one.
#[derive(Clone, Copy, Drop)]
pub(crate) enum Failure {
    /// Words or script were not read, or memory was refused.
    Input(InputFault),
    /// The arguments name a thread or a context that the script does not have.
    NotThere,
    /// The arguments name one by a number behind the last.
    Beyond {
        what: Numbered,
        asked: u64,
        last: u64,
    },
    /// So many lines were asked for, and there are more.
    Ended {
        lines: u32,
    },
    Write,
    /// The reader of the output has closed it: nothing is said.
    Closed,
}

impl From<AllocError> for Failure {
    fn from(fault: AllocError) -> Self {
        Failure::Input(fault.into())
    }
}

impl From<AccountFault> for Failure {
    fn from(_: AccountFault) -> Self {
        Failure::Input(InputFault::OutOfMemory)
    }
}

impl From<InputFault> for Failure {
    fn from(fault: InputFault) -> Self {
        Failure::Input(fault)
    }
}

impl Failure {
    /// The exit status.
    pub(crate) fn status(self) -> u8 {
        match self {
            Failure::Ended { .. } => 0,
            Failure::NotThere | Failure::Beyond { .. } => 1,
            Failure::Write | Failure::Closed => 4,
            Failure::Input(fault) => fault.status(),
        }
    }

    /// Writes the line on standard error, where there is one.
    pub(crate) fn write<W: Write>(self, errors: &mut W) {
        let _ = match self {
            Failure::Beyond { what, asked, last } => {
                let word = what.word();
                writeln!(
                    errors,
                    "usage: there is no {word} {asked}; the last is {last}"
                )
            }
            Failure::Ended { lines } => {
                let word = if lines == 1 { "line" } else { "lines" };
                writeln!(errors, "ended after {lines} {word}")
            }
            _ => errors.write_all(self.line().as_bytes()),
        };
    }

    /// The line on standard error, where it has no number.
    fn line(self) -> &'static str {
        match self {
            Failure::NotThere => "usage: the script has no such thread or context\n",
            Failure::Input(fault) => fault.line(),
            Failure::Write => "write\n",
            Failure::Closed | Failure::Beyond { .. } | Failure::Ended { .. } => "",
        }
    }
}

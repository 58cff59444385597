//! The program `mainctx_check` in order: arguments, file, answer; and its exit status.
use inspect_arguments::{Asked, CheckOrder, read_check_words};
use program_input::{InputFault, read_script, read_words};
use script_report::{Form, Language, check_file};
use std::alloc::AllocError;
use std::io::Write;

/// The status where the arguments are wrong.
const USAGE: u8 = 1;

/// The status where the script has faults.
const FAULTS: u8 = 2;

/// Why there is no answer.
#[derive(Clone, Copy, Drop)]
enum CheckFailure {
    Input(InputFault),
    Write,
}

impl From<AllocError> for CheckFailure {
    fn from(fault: AllocError) -> Self {
        CheckFailure::Input(fault.into())
    }
}

impl From<InputFault> for CheckFailure {
    fn from(fault: InputFault) -> Self {
        CheckFailure::Input(fault)
    }
}

impl CheckFailure {
    /// The exit status of `mainctx_check` where it gives no answer.
    fn status(self) -> u8 {
        match self {
            CheckFailure::Input(fault) => fault.status(),
            CheckFailure::Write => 4,
        }
    }

    /// What stands on standard error then.
    fn line(self) -> &'static str {
        match self {
            CheckFailure::Input(fault) => fault.line(),
            CheckFailure::Write => "write\n",
        }
    }
}

/// Does what the arguments say, and answers the exit status.
pub(crate) fn run_check(rt: &HostRuntime) -> u8 {
    match try_check(rt) {
        Ok(status) => status,
        Err(failure) => {
            let _ = rt.stderr().write_all(failure.line().as_bytes());
            failure.status()
        }
    }
}

/// Does what the words of the command line ask, and answers the exit status, or why there is no answer.
fn try_check(rt: &HostRuntime) -> Result<u8, CheckFailure> {
    let words = read_words(rt)?;
    match read_check_words(rt.alloc(), words.as_slice())? {
        Asked::Wrong(text) => {
            let _ = rt.stderr().write_all(text.as_bytes());
            Ok(USAGE)
        }
        Asked::Help(text) => {
            write_answer(rt, text.as_str())?;
            Ok(0)
        }
        Asked::Run(CheckOrder { json, file }) => {
            let bytes = read_script(rt, file)?;
            let name = file.unwrap_or("<stdin>");
            let form = Form {
                json,
                name,
                language: Language::of_file(name),
            };
            let mut out = String::new(rt.alloc());
            let is_right = check_file(rt.alloc(), &form, bytes.as_slice(), &mut out)?;
            write_answer(rt, out.as_str())?;
            Ok(if is_right { 0 } else { FAULTS })
        }
    }
}

/// Writes the answer to standard output.
fn write_answer(rt: &HostRuntime, text: &str) -> Result<(), CheckFailure> {
    match rt.stdout().write_all(text.as_bytes()) {
        Ok(()) => Ok(()),
        Err(_) => Err(CheckFailure::Write),
    }
}

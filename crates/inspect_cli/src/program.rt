//! The program `mainctx_inspect` in order: reads arguments and script, opens the run, writes what is asked, and refuses numbers that the run has not.
use crate::arguments::{asked_of, point_of};
use crate::failure::{Failure, Numbered};
use crate::first_lines::FirstLines;
use crate::progress::Progress;
use account::Account;
use inspect_arguments::{Asked, Command, Order, read_inspect_words};
use inspect_picture::{Point, Reach, Stack};
use inspect_run::Teller;
use inspect_words::{Run, Words, follow_names};
use loop_script::{Script, ScriptFault};
use mainctx::{MainFault, OverWrite, run_alone};
use named::translate_bytes;
use program_input::{InputFault, read_script, read_words};
use run_names::RunNames;
use script_report::{Form, Language, check_either, read_toml};
use std::io::{self, Write};
use std::str::from_utf8;

/// The status where the arguments are wrong.
const USAGE: u8 = 1;

/// The status where the script is refused.
const REFUSED: u8 = 2;

/// How many bytes are written at a time, but at the end of a tick.
const FULL: usize = 65_536;

/// A script as it was given, and as one of numbers.
#[derive(Clone, Copy)]
struct Given<'a> {
    bytes: &'a [u8],
    numbered: &'a [u8],
    /// Whether what is told has names.
    has_names: bool,
}

/// What is told and not yet written, and where to.
#[derive(Drop)]
struct Output<W: Write> {
    lines: FirstLines<W>,
    text: String,
}

impl<W: Write> Output<W> {
    /// Writes what is told so far, where there is something.
    fn write(&mut self, progress: &mut Progress<'_>) -> Result<(), Failure> {
        if self.text.is_empty() {
            return Ok(());
        }
        progress.clear();
        write_to(&mut self.lines, self.text.as_str())?;
        self.text.clear();
        Ok(())
    }
}

/// Does what the arguments say, and answers the exit status.
pub(crate) fn run(rt: &HostRuntime) -> u8 {
    match attempt(rt) {
        Ok(status) => status,
        Err(failure) => {
            failure.write(&mut rt.stderr());
            failure.status()
        }
    }
}

/// Does what the words of the command line ask, and answers the exit status, or why there is no answer.
fn attempt(rt: &HostRuntime) -> Result<u8, Failure> {
    let words = read_words(rt)?;
    match read_inspect_words(rt.alloc(), words.as_slice())? {
        Asked::Wrong(text) => {
            let _ = rt.stderr().write_all(text.as_bytes());
            Ok(USAGE)
        }
        Asked::Help(text) => {
            write_out(rt, text.as_str())?;
            Ok(0)
        }
        Asked::Run(order) => match script_of(rt, &order)? {
            Some(bytes) => answer(rt, &order, bytes.as_slice()),
            None => Ok(REFUSED),
        },
    }
}

/// Writes what is asked of a script in JSON.
fn answer(rt: &HostRuntime, order: &Order<'_>, bytes: &[u8]) -> Result<u8, Failure> {
    let numbered = translate_bytes(rt.alloc(), bytes)?;
    let given = Given {
        bytes,
        numbered: numbered.as_ref().map_or(bytes, Vec::as_slice),
        has_names: numbered.is_some() && !order.numbers,
    };
    match order.command {
        Command::Translate => write_numbered(rt, order, &given),
        Command::Text if !order.notes && !given.has_names => write_text(rt, order, &given),
        _ => tell(rt, order, &given),
    }
}

/// The bytes of a script, in JSON. With None they are TOML that stands for none, and what is wrong was written.
fn script_of(rt: &HostRuntime, order: &Order<'_>) -> Result<Option<Vec<u8>>, Failure> {
    let bytes = read_script(rt, order.file)?;
    let form = form_of(order);
    match form.language {
        Language::Json => Ok(Some(bytes)),
        Language::Toml => {
            let mut out = String::new(rt.alloc());
            let text = read_toml(rt.alloc(), &form, bytes.as_slice(), &mut out)?;
            write_out(rt, out.as_str())?;
            Ok(text)
        }
    }
}

/// How what is wrong is written.
fn form_of<'a>(order: &Order<'a>) -> Form<'a> {
    let name = order.file.unwrap_or("<stdin>");
    Form {
        json: order.command == Command::Account,
        name,
        language: Language::of_file(name),
    }
}

/// Writes some text to a writer.
fn write_to<W: Write>(out: &mut FirstLines<W>, text: &str) -> Result<(), Failure> {
    let Err(fault) = out.write_all(text.as_bytes()) else {
        return Ok(());
    };
    match out.ended_after() {
        Some(lines) => Err(Failure::Ended { lines }),
        None if fault.kind() == io::ErrorKind::BrokenPipe => Err(Failure::Closed),
        None => Err(Failure::Write),
    }
}

/// Writes a whole text.
fn write_out(rt: &HostRuntime, text: &str) -> Result<(), Failure> {
    write_to(&mut FirstLines::new(rt.stdout(), None), text)
}

/// Writes the script of numbers.
fn write_numbered(rt: &HostRuntime, order: &Order<'_>, given: &Given<'_>) -> Result<u8, Failure> {
    match Script::read(rt.alloc(), given.numbered) {
        Ok(_) => {}
        Err(ScriptFault::OutOfMemory) => return Err(InputFault::OutOfMemory.into()),
        Err(_) => return refuse(rt, order, given),
    }
    let mut text = String::from_str(rt.alloc(), from_utf8(given.numbered).unwrap_or(""))?;
    if !text.as_str().ends_with("\n") {
        text.push_str("\n")?;
    }
    write_out(rt, text.as_str())?;
    Ok(0)
}

/// Writes the text of the run.
fn write_text(rt: &HostRuntime, order: &Order<'_>, given: &Given<'_>) -> Result<u8, Failure> {
    let lines = FirstLines::new(rt.stdout(), order.most_lines);
    let mut out = OverWrite::new(lines);
    match run_alone(rt.alloc(), given.numbered, &mut out) {
        Ok(()) => Ok(0),
        Err(MainFault::Script(_)) => refuse(rt, order, given),
        Err(MainFault::Write) => match out.into_inner().ended_after() {
            Some(lines) => Err(Failure::Ended { lines }),
            None => Err(Failure::Write),
        },
        Err(MainFault::Setup(_) | MainFault::OutOfMemory) => Err(InputFault::OutOfMemory.into()),
    }
}

/// Writes what is wrong with a script, as `mainctx_check` does.
fn refuse(rt: &HostRuntime, order: &Order<'_>, given: &Given<'_>) -> Result<u8, Failure> {
    let mut out = String::new(rt.alloc());
    let _ = check_either(rt.alloc(), &form_of(order), given.bytes, &mut out)?;
    write_out(rt, out.as_str())?;
    Ok(REFUSED)
}

/// Reads a script, and writes what is asked of its run.
fn tell(rt: &HostRuntime, order: &Order<'_>, given: &Given<'_>) -> Result<u8, Failure> {
    let script = match Script::read(rt.alloc(), given.numbered) {
        Ok(script) => script,
        Err(ScriptFault::OutOfMemory) => return Err(InputFault::OutOfMemory.into()),
        Err(_) => return refuse(rt, order, given),
    };
    let names = if given.has_names {
        RunNames::of_bytes(rt.alloc(), given.bytes)?
    } else {
        RunNames::numbers(rt.alloc())
    };
    let told = match point_of(order) {
        Some(point) => tell_point(rt, point, script, names),
        None => tell_run(rt, order, script, names),
    };
    told?;
    Ok(0)
}

/// Runs a script, and writes what is asked of it tick by tick.
fn tell_run(
    rt: &HostRuntime,
    order: &Order<'_>,
    script: Script,
    names: RunNames,
) -> Result<(), Failure> {
    if !are_there(order, &script) {
        return Err(Failure::NotThere);
    }
    let mut progress = Progress::begin(rt, script.ticks());
    let told = tell_each(rt, order, script, names, &mut progress);
    progress.clear();
    told
}

/// Runs a script, and writes what is asked of it, with how far it is.
fn tell_each(
    rt: &HostRuntime,
    order: &Order<'_>,
    script: Script,
    mut names: RunNames,
    progress: &mut Progress<'_>,
) -> Result<(), Failure> {
    let mut output = Output {
        lines: FirstLines::new(rt.stdout(), order.most_lines),
        text: String::new(rt.alloc()),
    };
    let words = Words {
        script: &script,
        names: &names,
    };
    let mut teller = Teller::begin(rt.alloc(), asked_of(order), words, &mut output.text)?;
    let mut account = Account::new(rt.alloc(), script)?;
    tell_moments(&mut account, &mut names, &mut teller, &mut output, progress)
}

/// Tells of each moment of a run and of its end, and writes that tick by tick.
fn tell_moments<W: Write>(
    account: &mut Account,
    names: &mut RunNames,
    teller: &mut Teller,
    output: &mut Output<W>,
    progress: &mut Progress<'_>,
) -> Result<(), Failure> {
    let mut shown = 0;
    for _ in 0..u64::MAX {
        let Some(moment) = account.next()? else {
            break;
        };
        if moment.tick != shown || output.text.len() >= FULL {
            shown = moment.tick;
            output.write(progress)?;
        }
        progress.show(moment.tick);
        follow_names(names, account, &moment)?;
        teller.tell(Run { account, names }, &moment, &mut output.text)?;
    }
    teller.end(Run { account, names }, &mut output.text)?;
    output.write(progress)
}

/// Runs a script up to one moment, and writes what a thread is in the middle of there.
fn tell_point(
    rt: &HostRuntime,
    point: Point,
    script: Script,
    names: RunNames,
) -> Result<(), Failure> {
    within_run(point, &script)?;
    let mut progress = Progress::begin(rt, script.ticks());
    let told = find(rt, point, script, names, &mut progress);
    progress.clear();
    write_out(rt, told?.as_str())
}

/// Runs a script up to one moment, and answers what a thread is in the middle of there.
fn find(
    rt: &HostRuntime,
    point: Point,
    script: Script,
    mut names: RunNames,
    progress: &mut Progress<'_>,
) -> Result<String, Failure> {
    let mut out = String::new(rt.alloc());
    let mut account = Account::new(rt.alloc(), script)?;
    tell_stack(&mut account, &mut names, point, &mut out, progress)?;
    Ok(out)
}

/// Goes on with a run up to one moment, and adds what a thread is in the middle of there.
fn tell_stack(
    account: &mut Account,
    names: &mut RunNames,
    point: Point,
    out: &mut String,
    progress: &mut Progress<'_>,
) -> Result<(), Failure> {
    let mut stack = Stack::new(point);
    for _ in 0..u64::MAX {
        let Some(moment) = account.next()? else {
            break;
        };
        progress.show(moment.tick);
        follow_names(names, account, &moment)?;
        match stack.tell(Run { account, names }, &moment, out)? {
            Reach::Before => {}
            Reach::There => break,
            Reach::Over { steps } => {
                return Err(Failure::Beyond {
                    what: Numbered::Step,
                    asked: point.step.unwrap_or(steps),
                    last: steps,
                });
            }
        }
    }
    Ok(())
}

/// Refuses a moment of a thread or a tick that a run has not.
fn within_run(point: Point, script: &Script) -> Result<(), Failure> {
    within(Numbered::Thread, point.lane, script.lanes())?;
    within(Numbered::Tick, point.tick, script.ticks())
}

/// Refuses a number that is not among so many from 0 on.
fn within(what: Numbered, asked: u32, count: u32) -> Result<(), Failure> {
    if asked < count {
        return Ok(());
    }
    Err(Failure::Beyond {
        what,
        asked: u64::from(asked),
        last: u64::from(count.saturating_sub(1)),
    })
}

/// Whether the script has the thread and the context of which is asked.
fn are_there(order: &Order<'_>, script: &Script) -> bool {
    let lane = match order.lane {
        Some(number) => number < script.lanes(),
        None => true,
    };
    let context = match order.source {
        Some(name) => name.context < script.contexts(),
        None => true,
    };
    lane && context
}

//! What tells of a run: its beginning, each moment, its end.
use crate::asked::Asked;
use account::Moment;
use inspect_picture::{Reach, Stack, Steps, Timeline};
use inspect_text::{Life, Moments, NoteList, RunText, Summary, Why};
use inspect_words::{Run, Words};
use std::alloc::{AllocError, Global};

/// What tells of a run.
#[derive(Drop)]
pub enum Teller {
    Text(RunText),
    Why(Why),
    Life(Life),
    Summary(Summary),
    Moments(Moments),
    Steps(Steps),
    /// None once it was told.
    Stack(Option<Stack>),
    Timeline(Timeline),
    Notes(NoteList),
}

impl Teller {
    /// What tells what is asked, with what it says before the first moment.
    pub fn begin(
        alloc: Global,
        asked: Asked,
        words: Words<'_>,
        out: &mut String,
    ) -> Result<Teller, AllocError> {
        let script = words.script;
        match asked {
            Asked::Text { notes } => Ok(Teller::Text(RunText::new(alloc, script, notes)?)),
            Asked::Why(window) => Ok(Teller::Why(Why::new(alloc, script, window)?)),
            Asked::Life(name, window) => Ok(Teller::Life(Life::new(name, window))),
            Asked::Summary => Ok(Teller::Summary(Summary::new(alloc, script)?)),
            Asked::Account { window, .. } => Ok(Teller::Moments(Moments::begin(
                alloc, words, window, out,
            )?)),
            Asked::Steps(window) => Ok(Teller::Steps(Steps::new(alloc, window))),
            Asked::Stack(point) => Ok(Teller::Stack(Some(Stack::new(point)))),
            Asked::Timeline { window, columns } => Ok(Teller::Timeline(Timeline::new(
                alloc, script, window, columns,
            )?)),
            Asked::Notes => Ok(Teller::Notes(NoteList::new(alloc, script)?)),
        }
    }

    /// Adds what it says of the latest moment.
    pub fn tell(
        &mut self,
        run: Run<'_>,
        moment: &Moment,
        out: &mut String,
    ) -> Result<(), AllocError> {
        match self {
            Teller::Text(text) => text.tell(run, moment),
            Teller::Why(why) => why.tell(run, moment, out),
            Teller::Life(life) => life.tell(run, moment, out),
            Teller::Summary(summary) => summary.tell(run.account, moment),
            Teller::Moments(moments) => moments.tell(run, moment, out),
            Teller::Steps(steps) => steps.tell(run, moment, out),
            Teller::Stack(stack) => tell_once(stack, run, moment, out),
            Teller::Timeline(timeline) => timeline.tell(run.account, moment),
            Teller::Notes(notes) => notes.tell(run, moment, out),
        }
    }

    /// Adds what it says when the run is over.
    pub fn end(&mut self, run: Run<'_>, out: &mut String) -> Result<(), AllocError> {
        match self {
            Teller::Text(text) => text.end(run.names, out),
            Teller::Why(why) => why.end(run, out),
            Teller::Life(life) => life.end(run, out),
            Teller::Summary(summary) => summary.end(run, out),
            Teller::Moments(moments) => moments.end(run.account, out),
            Teller::Steps(_) | Teller::Stack(_) => Ok(()),
            Teller::Timeline(timeline) => timeline.end(run, out),
            Teller::Notes(notes) => notes.end(out),
        }
    }
}

/// Adds what a thread is in the middle of, where the latest moment of a run is the one that is asked for: after that it is told.
fn tell_once(
    waiting: &mut Option<Stack>,
    run: Run<'_>,
    moment: &Moment,
    out: &mut String,
) -> Result<(), AllocError> {
    if let Some(stack) = waiting
        && stack.tell(run, moment, out)? == Reach::There
    {
        *waiting = None;
    }
    Ok(())
}

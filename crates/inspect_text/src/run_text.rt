//! An account of a run as text: of each thread its ticks, turns and steps with the lines that they wrote.
ghost use Rattle.std.specs.Prelude.{◌≡◌, ◌++◌, [], codes, true, false, replicate, length, IfOk, OnOk, is_some, map, string_bytes};
ghost use Rattle.run_names.specs.declared.thing.Thing.TheVariants as things;
ghost use Rattle.run_names.specs.Text.{full_text};
ghost use Rattle.inspect_text.specs.Gathered.{added, from_thread, Gathers};

use crate::noted::{Noted, push_notes};
use account::Moment;
use inspect_words::{Run, line_text_of};
use loop_script::Script;
use run_names::{RunNames, Thing};
use std::alloc::{AllocError, Global};
use std::marker::Model;

/// Gathers the text of each thread, with names where the script has some, and, where that is asked for, with a note behind the lines of
/// the move in which GLib does otherwise.
#[derive(Drop)]
pub struct RunText {
    alloc: Global,
    /// None is without notes.
    noted: Option<Noted>,
    threads: Vec<String>,
}

impl Model for RunText {
    ghost use Rattle.std.specs.Prelude.{◌<◌, ◌^◌, is_some, length, map, string_bytes};
    ghost use Rattle.inspect_text.specs.Gathered.{Gathered};

    ghost Value = { Gathered };

    ghost view = { λ t. record { threads = map string_bytes t.threads.items; notes = is_some t.noted } };

    ghost invariant = { λ t. length t.threads.items < 2 ^ 32 };
}

impl RunText {
    /// Nothing is gathered yet.
    pub fn new(alloc: Global, script: &Script, notes: bool) -> Result<RunText, AllocError>
        ensures { IfOk result (λ text. text ≡ record { threads = replicate (length script.now.lanes) []; notes = notes }) }
    {
        let noted = if notes {
            Some(Noted::new(alloc, script)?)
        } else {
            None
        };
        Ok(RunText {
            alloc,
            noted,
            threads: no_texts(alloc, script.lanes())?,
        })
    }

    /// Gathers what the latest moment of a run says. Of a run without names the lines are those of the program `mainctx`, which no
    /// clause says; of a spent account nothing is promised.
    pub fn tell(&mut self, run: Run<'_>, moment: &Moment) -> Result<(), AllocError>
        ensures { is_some run.entry.names.now.names ≡ true → run.entry.account.now.spent ≡ false → OnOk result (Gathers run.entry.account.now run.entry.names.now moment.now self.old self.new) }
    {
        let lines = line_text_of(self.alloc, run, moment)?;
        let notes = notes_behind(self.alloc, run, moment, &mut self.noted)?;
        add(&mut self.threads, moment.lane, lines.as_str())?;
        add(&mut self.threads, moment.lane, notes.as_str())
    }

    /// Adds all that was gathered, thread by thread, under a heading each.
    pub fn end(&self, names: &RunNames, out: &mut String) -> Result<(), AllocError>
        ensures { OnOk result (string_bytes out.new ≡ string_bytes out.old ++ from_thread names.now 0 self.now.threads) }
    {
        let mut number = 0u32;
        for text in self.threads.as_slice() {
            push_thread(out, names, number, text.as_str())?;
            number = number.saturating_add(1);
        }
        Ok(())
    }
}

/// No text for each of so many threads.
fn no_texts(alloc: Global, count: u32) -> Result<Vec<String>, AllocError>
    ensures { IfOk result (λ texts. map string_bytes texts.items ≡ replicate count []) }
{
    let mut texts = Vec::new(alloc);
    for _ in 0..count {
        texts.push(String::new(alloc))?;
    }
    Ok(texts)
}

/// Adds to the text of a thread.
fn add(threads: &mut Vec<String>, thread: u32, text: &str) -> Result<(), AllocError>
    ensures text { OnOk result (map string_bytes threads.new.items ≡ added thread text.now (map string_bytes threads.old.items)) }
    ensures count { length threads.new.items ≡ length threads.old.items }
{
    match threads.get_mut(thread as usize) {
        Some(out) => out.push_str(text),
        None => Ok(()),
    }
}

/// The notes on a moment, where they are asked for.
fn notes_behind(
    alloc: Global,
    run: Run<'_>,
    moment: &Moment,
    noted: &mut Option<Noted>,
) -> Result<String, AllocError>
    ensures asked { is_some noted.new ≡ is_some noted.old }
    ensures text { is_some noted.old ≡ false → IfOk result (λ notes. string_bytes notes ≡ []) }
{
    let mut notes = String::new(alloc);
    if let Some(noted) = noted {
        let found = noted.look(run.account, moment, None)?;
        push_notes(&mut notes, run.words(), found.as_slice())?;
    }
    Ok(notes)
}

/// Adds the text of a thread under its heading.
fn push_thread(
    out: &mut String,
    names: &RunNames,
    number: u32,
    text: &str,
) -> Result<(), AllocError>
    ensures { OnOk result (string_bytes out.new ≡ string_bytes out.old ++ (full_text names.now (things.Thread number) ++ (codes "\n" ++ text.now))) }
{
    names.push(out, Thing::Thread(number))?;
    out.push_str("\n")?;
    out.push_str(text)
}

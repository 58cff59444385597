//! Each source and loop in one line, and what was silent.
use crate::counts::Counts;
use crate::noted::{Noted, push_notes};
use crate::silent::push_silent;
use account::{Account, Moment};
use glib_notes::Note;
use inspect_words::{Run, Words, push_many, push_ticks};
use loop_script::Script;
use run_names::Thing;
use std::alloc::{AllocError, Global};

/// Counts what happens in a run, and tells of it in the end.
#[derive(Drop)]
pub struct Summary {
    alloc: Global,
    counts: Counts,
    noted: Noted,
    /// Where GLib does otherwise.
    notes: Vec<Note>,
}

impl Summary {
    /// Nothing is counted yet.
    pub fn new(alloc: Global, script: &Script) -> Result<Summary, AllocError> {
        Ok(Summary {
            alloc,
            counts: Counts::new(alloc, script)?,
            noted: Noted::new(alloc, script)?,
            notes: Vec::new(alloc),
        })
    }

    /// Counts the latest moment of a run.
    pub fn tell(&mut self, account: &Account, moment: &Moment) -> Result<(), AllocError> {
        let notes = self.noted.look(account, moment, None)?;
        self.notes.extend_from_slice(notes.as_slice())?;
        self.counts.add(account, moment)
    }

    /// Adds a line for each source and each loop, and then one for each that was silent.
    pub fn end(&self, run: Run<'_>, out: &mut String) -> Result<(), AllocError> {
        let words = run.words();
        let script = words.script;
        push_ticks(out, script, 0, script.ticks().saturating_sub(1))?;
        out.push_str("\n")?;
        for context in self.counts.contexts.as_slice() {
            for record in context.sources.as_slice() {
                record.push(out, words)?;
            }
        }
        for number in 0..script.loops() {
            self.push_loop(out, words, number)?;
        }
        self.push_rest(run, out)?;
        self.push_notes(words, out)
    }

    /// Adds where GLib does otherwise.
    fn push_notes(&self, words: Words<'_>, out: &mut String) -> Result<(), AllocError> {
        if self.notes.is_empty() {
            return Ok(());
        }
        out.push_str("\n")?;
        push_notes(out, words, self.notes.as_slice())
    }

    /// Adds what was silent.
    fn push_rest(&self, run: Run<'_>, out: &mut String) -> Result<(), AllocError> {
        let mut silent = String::new(self.alloc);
        push_silent(&mut silent, run, &self.counts)?;
        if silent.is_empty() {
            return out.push_str("\nEach source was dispatched, and each loop that ran ended.\n");
        }
        out.push_str("\n")?;
        out.push_str(silent.as_str())
    }

    /// Adds the line of a loop.
    fn push_loop(&self, out: &mut String, words: Words<'_>, number: u32) -> Result<(), AllocError> {
        let Some(count) = self.counts.loops.get(number as usize) else {
            return Ok(());
        };
        words.names.push(out, Thing::Loop(number))?;
        out.push_str(": ")?;
        if count.iterations.count == 0 {
            out.push_str("never iterated")?;
        } else {
            push_many(out, count.iterations.count, "iteration", "iterations")?;
            out.push_str(", ")?;
            count.iterations.push_ticks(out, words.script)?;
        }
        if count.ends.count != 0 {
            out.push_str("; ended ")?;
            push_many(out, count.ends.count, "time", "times")?;
            out.push_str(", ")?;
            count.ends.push_ticks(out, words.script)?;
        }
        out.push_str("\n")
    }
}

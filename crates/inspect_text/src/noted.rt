//! Where GLib does otherwise, told at the move at which it does: each way once for each thread and context.
use account::{Account, Moment};
use context_core::Standing;
use glib_notes::{Difference, Note, Notes};
use inspect_words::{Run, Words, push_tick};
use loop_script::Script;
use run_names::Thing;
use std::alloc::{AllocError, Global};

/// A way in which GLib does otherwise in a thread, for one context or for none, which is told once.
#[derive(Clone, Copy, PartialEq, Eq)]
struct Told {
    difference: Difference,
    lane: u32,
    context: Option<u32>,
}

/// Tells where GLib does otherwise: each way once for each thread and context, when it is first met.
#[derive(Drop)]
pub(crate) struct Noted {
    alloc: Global,
    notes: Notes,
    told: Vec<Told>,
}

impl Noted {
    pub(crate) fn new(alloc: Global, script: &Script) -> Result<Noted, AllocError> {
        Ok(Noted {
            alloc,
            notes: Notes::new(alloc, script)?,
            told: Vec::new(alloc),
        })
    }

    /// What is new in the latest moment of a run; `begun` are the standings of the iteration that it began, where they are known.
    pub(crate) fn look(
        &mut self,
        account: &Account,
        moment: &Moment,
        begun: Option<&[Standing]>,
    ) -> Result<Vec<Note>, AllocError> {
        let mut new = Vec::new(self.alloc);
        for note in self.notes.look(account, moment, begun)? {
            let told = Told {
                difference: note.difference,
                lane: note.lane,
                context: note.context,
            };
            if !self.told.iter().any(|one| *one == told) {
                self.told.push(told)?;
                new.push(*note)?;
            }
        }
        Ok(new)
    }
}

/// Adds the line of a note.
fn push_note(out: &mut String, words: Words<'_>, note: &Note) -> Result<(), AllocError> {
    out.push_str("note: ")?;
    push_tick(out, words.script, note.tick)?;
    out.push_str(", ")?;
    words.names.push(out, Thing::Thread(note.lane))?;
    if let Some(thing) = thing_of(note) {
        out.push_str(", ")?;
        words.names.push(out, thing)?;
    }
    let told = note.difference.told();
    let name = note.difference.name();
    writeln!(out, ": GLib {told} (docs/GLIB.md, {name})")
}

/// Adds the lines of notes.
pub(crate) fn push_notes(
    out: &mut String,
    words: Words<'_>,
    notes: &[Note],
) -> Result<(), AllocError> {
    for note in notes {
        push_note(out, words, note)?;
    }
    Ok(())
}

/// Of which source or context a note is.
fn thing_of(note: &Note) -> Option<Thing> {
    let context = note.context?;
    match note.source {
        Some(id) => Some(Thing::Source { context, id }),
        None => Some(Thing::Context(context)),
    }
}

/// Tells where GLib does otherwise, and nothing else.
#[derive(Drop)]
pub struct NoteList {
    noted: Noted,
    any: bool,
}

impl NoteList {
    /// Nothing is told yet.
    pub fn new(alloc: Global, script: &Script) -> Result<NoteList, AllocError> {
        Ok(NoteList {
            noted: Noted::new(alloc, script)?,
            any: false,
        })
    }

    /// Adds what the latest moment of a run says.
    pub fn tell(
        &mut self,
        run: Run<'_>,
        moment: &Moment,
        out: &mut String,
    ) -> Result<(), AllocError> {
        let notes = self.noted.look(run.account, moment, None)?;
        self.any |= !notes.is_empty();
        push_notes(out, run.words(), notes.as_slice())
    }

    /// Adds that there was nothing to tell, where that is so.
    pub fn end(&self, out: &mut String) -> Result<(), AllocError> {
        if self.any {
            return Ok(());
        }
        out.push_str("Nothing is known in which GLib would do otherwise.\n")
    }
}

//! Why sources are dispatched or not, iteration by iteration.
use crate::alike::Alike;
use crate::block::Block;
use crate::noted::{Noted, push_notes};
use crate::rests::Rests;
use account::{Deed, Moment};
use context_core::Standing;
use inspect_words::{Begun, Run, Window, Words, begun_by, halt_reason, push_tick};
use lane_turn::LaneState;
use loop_script::Script;
use run_names::Thing;
use std::alloc::{AllocError, Global};

/// Tells of each iteration why each source of its context is dispatched or not.
#[derive(Drop)]
pub struct Why {
    alloc: Global,
    window: Window,
    rests: Rests,
    /// Of each thread, the iterations that are not told yet.
    alike: Vec<Option<Alike>>,
    /// Of each context, what its latest iteration did.
    blocks: Vec<Option<Block>>,
    noted: Noted,
}

/// An iteration that a moment began, with what it does with each source of its context.
#[derive(Drop)]
struct Iteration {
    begun: Begun,
    standings: Vec<Standing>,
}

impl Iteration {
    /// The iteration that a moment began, if it did.
    fn of(run: Run<'_>, moment: &Moment) -> Result<Option<Iteration>, AllocError> {
        let (Some(begun), Some(lane)) = (
            begun_by(run.account, moment),
            run.account.lane(moment.lane),
        ) else {
            return Ok(None);
        };
        let standings = lane.standings(run.account.script(), moment.tick, begun.context)?;
        Ok(Some(Iteration { begun, standings }))
    }
}

/// A list of so many entries, one for each thread or context, of which none was told of yet.
fn nothing_yet<T: Drop>(alloc: Global, count: u32) -> Result<Vec<Option<T>>, AllocError> {
    let mut list = Vec::new(alloc);
    for _ in 0..count {
        list.push(None)?;
    }
    Ok(list)
}

impl Why {
    /// Nothing is told yet.
    pub fn new(alloc: Global, script: &Script, window: Window) -> Result<Why, AllocError> {
        Ok(Why {
            alloc,
            window,
            rests: Rests::new(alloc, script)?,
            alike: nothing_yet(alloc, script.lanes())?,
            blocks: nothing_yet(alloc, script.contexts())?,
            noted: Noted::new(alloc, script)?,
        })
    }

    /// Adds what the latest moment of a run says. Iterations one after another that are alike are added together, when something
    /// else comes of their thread. Where GLib does otherwise a note says so, each way once for each thread and context.
    pub fn tell(
        &mut self,
        run: Run<'_>,
        moment: &Moment,
        out: &mut String,
    ) -> Result<(), AllocError> {
        let iteration = Iteration::of(run, moment)?;
        self.tell_move(run, moment, iteration.as_ref(), out)?;
        let begun = iteration.as_ref().map(|one| one.standings.as_slice());
        self.tell_notes(run, moment, begun, out)
    }

    /// Adds where GLib does otherwise.
    fn tell_notes(
        &mut self,
        run: Run<'_>,
        moment: &Moment,
        begun: Option<&[Standing]>,
        out: &mut String,
    ) -> Result<(), AllocError> {
        let notes = self.noted.look(run.account, moment, begun)?;
        if self.window.has(moment.lane, moment.tick) && !notes.is_empty() {
            self.flush(run.words(), moment.lane, out)?;
            push_notes(out, run.words(), notes.as_slice())?;
        }
        Ok(())
    }

    /// Tells a move of a run: the iteration that it began, a source that is passed over since it was destroyed, or a halt.
    fn tell_move(
        &mut self,
        run: Run<'_>,
        moment: &Moment,
        iteration: Option<&Iteration>,
        out: &mut String,
    ) -> Result<(), AllocError> {
        let Some(lane) = run.account.lane(moment.lane) else {
            return Ok(());
        };
        let words = run.words();
        if let Some(iteration) = iteration {
            let lost = self.rests.begin(lane, iteration.begun.context)?;
            if self.window.has(moment.lane, moment.tick) {
                let tick = moment.tick;
                self.tell_iteration(words, tick, lane, iteration, lost.as_slice(), out)?;
            }
            return Ok(());
        }
        match moment.deed {
            Deed::Dispatched { context, .. } => self.rests.take(context),
            Deed::PassedOver { context, source } => {
                self.rests.take(context);
                if self.window.has(moment.lane, moment.tick) {
                    self.flush(words, moment.lane, out)?;
                    push_passed_over(out, words, moment, context, source)?;
                }
            }
            _ => {}
        }
        if self.window.has(moment.lane, moment.tick) {
            self.tell_halt(words, lane, moment, out)?;
        }
        Ok(())
    }

    /// Gathers an iteration with its sources, joined to the one before where the two are alike; else that one is told.
    fn tell_iteration(
        &mut self,
        words: Words<'_>,
        tick: u32,
        lane: &LaneState,
        iteration: &Iteration,
        lost: &[u64],
        out: &mut String,
    ) -> Result<(), AllocError> {
        let (thread, context) = (iteration.begun.lane, iteration.begun.context);
        let (Some(alike), Some(latest)) = (
            self.alike.get_mut(thread as usize),
            self.blocks.get_mut(context as usize),
        ) else {
            return Ok(());
        };
        let begun = iteration.begun;
        let standings = iteration.standings.as_slice();
        let rows = lane.sources(context);
        let mut block = Block::of(self.alloc, words, context, rows, standings, latest.as_ref())?;
        block.push_lost(words.names, context, lost)?;
        match alike {
            Some(before) if before.has(&begun, &block) => before.add(tick),
            _ => {
                push_before(out, words, alike)?;
                *alike = Some(Alike::new(self.alloc, begun, &block, tick)?);
            }
        }
        *latest = Some(block);
        Ok(())
    }

    /// Adds that a thread halts, where a moment says so.
    fn tell_halt(
        &mut self,
        words: Words<'_>,
        lane: &LaneState,
        moment: &Moment,
        out: &mut String,
    ) -> Result<(), AllocError> {
        let Some(lines) = lane.trace().get(moment.from..moment.to) else {
            return Ok(());
        };
        for line in lines {
            if let Some(reason) = halt_reason(line.event) {
                self.flush(words, moment.lane, out)?;
                push_tick(out, words.script, moment.tick)?;
                out.push_str(", ")?;
                words.names.push(out, Thing::Thread(moment.lane))?;
                writeln!(out, " halts: {reason}")?;
            }
        }
        Ok(())
    }

    /// Adds what is not told yet of a thread.
    fn flush(&mut self, words: Words<'_>, lane: u32, out: &mut String) -> Result<(), AllocError> {
        match self.alike.get_mut(lane as usize) {
            Some(alike) => push_before(out, words, alike),
            None => Ok(()),
        }
    }

    /// Adds what is not told yet at the end of the run.
    pub fn end(&mut self, run: Run<'_>, out: &mut String) -> Result<(), AllocError> {
        let words = run.words();
        for lane in 0..words.script.lanes() {
            self.flush(words, lane, out)?;
        }
        Ok(())
    }
}

/// Adds the iterations that are not told yet, which then are.
fn push_before(
    out: &mut String,
    words: Words<'_>,
    alike: &mut Option<Alike>,
) -> Result<(), AllocError> {
    match alike.take() {
        Some(before) => before.push(out, words),
        None => Ok(()),
    }
}

/// Adds the line of a source that was selected and is passed over, since it was destroyed by then.
fn push_passed_over(
    out: &mut String,
    words: Words<'_>,
    moment: &Moment,
    context: u32,
    source: u64,
) -> Result<(), AllocError> {
    push_tick(out, words.script, moment.tick)?;
    out.push_str(", ")?;
    words.names.push(out, Thing::Thread(moment.lane))?;
    out.push_str(": ")?;
    words.names.push_source(out, context, source)?;
    out.push_str(" of ")?;
    words.names.push(out, Thing::Context(context))?;
    out.push_str(" is passed over: it was destroyed\n")
}

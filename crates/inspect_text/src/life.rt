//! The life of one source: when it came, what each iteration did with it and why, its dispatches, its end.
use crate::alike::push_count;
use account::{Deed, Moment};
use context_core::Standing;
use inspect_words::{
    Begun, Run, SourceName, Window, Words, begun_by, halt_reason, push_cause, push_source,
    push_standing, push_tick, push_ticks,
};
use lane_turn::LaneState;
use run_names::Thing;
use source_rows::{Row, Rows};
use std::alloc::AllocError;

/// Iterations one after another that leave the source out for the same reason.
#[derive(Clone, Copy)]
struct Stretch {
    standing: Standing,
    first: u32,
    last: u32,
    count: u32,
}

/// Tells what happens to one source: attached, dispatched, left out and why, destroyed.
#[derive(Drop)]
pub struct Life {
    name: SourceName,
    window: Window,
    /// Whether the source was attached.
    attached: bool,
    /// Whether it is there.
    there: bool,
    dispatches: u64,
    stretch: Option<Stretch>,
}

impl Life {
    /// Nothing is told yet.
    pub fn new(name: SourceName, window: Window) -> Life {
        Life {
            name,
            window,
            attached: false,
            there: false,
            dispatches: 0,
            stretch: None,
        }
    }

    /// Adds what the latest moment of a run says of the source. Iterations that leave it out for the same reason are added when
    /// something else comes.
    pub fn tell(
        &mut self,
        run: Run<'_>,
        moment: &Moment,
        out: &mut String,
    ) -> Result<(), AllocError> {
        let Some(lane) = run.account.lane(moment.lane) else {
            return Ok(());
        };
        let Some(rows) = lane.sources(self.name.context) else {
            return Ok(());
        };
        let words = run.words();
        let told = self.window.has(moment.lane, moment.tick);
        match rows.found(self.name.id) {
            Some(row) => self.tell_there(words, moment, row, told, out)?,
            None => self.tell_gone(words, moment, told, out)?,
        }
        if let Some(iteration) = begun_by(run.account, moment) {
            if told && iteration.context == self.name.context {
                self.tell_iteration(words, moment.tick, lane, &iteration, out)?;
            }
        }
        self.tell_dispatch(words, lane, moment, told, out)
    }

    /// Adds that the source was attached, where it was not there before.
    fn tell_there(
        &mut self,
        words: Words<'_>,
        moment: &Moment,
        row: &Row,
        told: bool,
        out: &mut String,
    ) -> Result<(), AllocError> {
        if self.there {
            return Ok(());
        }
        self.there = true;
        self.attached = true;
        if !told {
            return Ok(());
        }
        push_tick(out, words.script, moment.tick)?;
        out.push_str(": attached by ")?;
        push_cause(out, words.names, moment)?;
        out.push_str(": ")?;
        push_source(out, words.names, self.name.context, row)?;
        match row.call {
            Some(proc) => {
                out.push_str(", calls ")?;
                words.names.push(out, Thing::Procedure(proc))?;
                out.push_str("\n")
            }
            None => out.push_str(", calls nothing\n"),
        }
    }

    /// Adds that the source was destroyed, where it was there before.
    fn tell_gone(
        &mut self,
        words: Words<'_>,
        moment: &Moment,
        told: bool,
        out: &mut String,
    ) -> Result<(), AllocError> {
        if !self.there {
            return Ok(());
        }
        self.there = false;
        if !told {
            return Ok(());
        }
        self.flush(words, out)?;
        push_tick(out, words.script, moment.tick)?;
        out.push_str(": destroyed by ")?;
        push_cause(out, words.names, moment)?;
        out.push_str("\n")
    }

    /// Counts an iteration that leaves the source out.
    fn tell_iteration(
        &mut self,
        words: Words<'_>,
        tick: u32,
        lane: &LaneState,
        iteration: &Begun,
        out: &mut String,
    ) -> Result<(), AllocError> {
        let Some(standing) = self.standing(words, tick, lane, iteration.context)? else {
            return Ok(());
        };
        if let Some(stretch) = &mut self.stretch {
            if stretch.standing == standing {
                stretch.last = tick;
                stretch.count = stretch.count.saturating_add(1);
                return Ok(());
            }
        }
        self.flush(words, out)?;
        if standing != Standing::Selected {
            self.stretch = Some(Stretch {
                standing,
                first: tick,
                last: tick,
                count: 1,
            });
        }
        Ok(())
    }

    /// What an iteration does with the source.
    fn standing(
        &self,
        words: Words<'_>,
        tick: u32,
        lane: &LaneState,
        context: u32,
    ) -> Result<Option<Standing>, AllocError> {
        let Some(rows) = lane.sources(context) else {
            return Ok(None);
        };
        let standings = lane.standings(words.script, tick, context)?;
        Ok(standing_of(rows, standings.as_slice(), self.name.id))
    }

    /// Adds a dispatch of the source, or why a dispatch that was to begin did not.
    fn tell_dispatch(
        &mut self,
        words: Words<'_>,
        lane: &LaneState,
        moment: &Moment,
        told: bool,
        out: &mut String,
    ) -> Result<(), AllocError> {
        let Deed::Dispatched { context, source } = moment.deed else {
            return Ok(());
        };
        if context != self.name.context || source != self.name.id {
            return Ok(());
        }
        let halt = halt_of(lane, moment);
        if halt.is_none() {
            self.dispatches = self.dispatches.saturating_add(1);
        }
        if !told {
            return Ok(());
        }
        self.flush(words, out)?;
        push_tick(out, words.script, moment.tick)?;
        let number = self.dispatches;
        match halt {
            Some(reason) => {
                out.push_str(": not dispatched, since ")?;
                words.names.push(out, Thing::Thread(moment.lane))?;
                writeln!(out, " halts: {reason}")
            }
            None => writeln!(out, ": dispatched, dispatch {number} of it"),
        }
    }

    /// Adds the iterations that are not told yet.
    fn flush(&mut self, words: Words<'_>, out: &mut String) -> Result<(), AllocError> {
        let Some(stretch) = self.stretch.take() else {
            return Ok(());
        };
        push_ticks(out, words.script, stretch.first, stretch.last)?;
        push_count(out, stretch.first, stretch.last, stretch.count)?;
        out.push_str(": ")?;
        let SourceName { context, id } = self.name;
        push_standing(out, words, context, id, stretch.standing)?;
        out.push_str("\n")
    }

    /// Adds what is not told yet at the end of the run, and how the source stands.
    pub fn end(&mut self, run: Run<'_>, out: &mut String) -> Result<(), AllocError> {
        let words = run.words();
        self.flush(words, out)?;
        let SourceName { context, id } = self.name;
        let count = self.dispatches;
        let last = words.script.ticks().saturating_sub(1);
        write!(out, "end of the run, after tick {last}: ")?;
        words.names.push(out, Thing::Source { context, id })?;
        out.push_str(" ")?;
        if !self.attached {
            return out.push_str("was never attached\n");
        }
        out.push_str(if self.there {
            "is there, and was "
        } else {
            "is destroyed, and was "
        })?;
        match count {
            0 => out.push_str("never dispatched\n"),
            1 => out.push_str("dispatched once\n"),
            _ => writeln!(out, "dispatched {count} times"),
        }
    }
}

/// The standing of a source among those of all.
fn standing_of(rows: &Rows, standings: &[Standing], id: u64) -> Option<Standing> {
    for (row, standing) in rows.in_order().zip(standings) {
        if row.id == id {
            return Some(*standing);
        }
    }
    None
}

/// Why a thread halted in a moment, if it did.
fn halt_of(lane: &LaneState, moment: &Moment) -> Option<&'static str> {
    let lines = lane.trace().get(moment.from..moment.to)?;
    lines.iter().find_map(|line| halt_reason(line.event))
}

//! Draws what `timeline` gathered: a heading, a line of times, a row of marks for each thing, with time going right, and what the marks mean.
use crate::column::{push_to_column, width_of};
use crate::legend::Legend;
use crate::mark::Mark;
use crate::row_name::{RowName, RowOf};
use crate::scale::Scale;
use crate::timeline::Attached;
use crate::track::Track;
use crate::waiting::Waiting;
use inspect_words::{Run, Window, halt_of, push_milliseconds, push_tick, push_ticks};
use loop_script::{Kind, Script};
use run_names::{RunNames, Thing};
use std::alloc::{AllocError, Global};
use std::collections::BTreeMap;

/// How many characters stand before a row's name, and behind it at least.
const MARGIN: usize = 2;

/// Times stand so many columns apart, or a multiple of it.
const RULER_STEP: usize = 5;

/// What rows leave to those behind them.
#[derive(Drop)]
struct Drawing {
    legend: Legend,
    waiting: Waiting,
    /// A row before it is added.
    line: String,
    /// The first thread whose name is not added.
    next: u32,
}

/// What of a run is drawn.
#[derive(Drop)]
pub(crate) struct Picture<'a> {
    pub alloc: Global,
    pub window: Window,
    /// How many characters a line has at most.
    pub columns: u32,
    /// The sources of each context by their ids, from 1 on.
    pub attached: &'a [Vec<Attached>],
    pub tracks: &'a BTreeMap<RowName, Track>,
    pub names: &'a RunNames,
}

impl Picture<'_> {
    /// Adds the picture: a line of times, the rows of each thread, and what the marks mean.
    pub(crate) fn push(&self, run: Run<'_>, out: &mut String) -> Result<(), AllocError> {
        let script = run.account.script();
        let Window { first, last, .. } = self.window;
        if last < first {
            let last = script.ticks().saturating_sub(1);
            return writeln!(out, "the run has none of these ticks; its last is {last}");
        }
        let begin = self.widest()?.saturating_add(MARGIN + MARGIN);
        let room = (self.columns as usize).saturating_sub(begin);
        let scale = Scale::new(&self.window, room as u32);
        push_ticks(out, script, first, last)?;
        match scale.fold {
            1 => out.push_str(", a tick a column\n")?,
            fold => writeln!(out, ", {fold} ticks a column")?,
        }
        self.push_ruler(script, &scale, begin, out)?;
        self.push_rows(run, &scale, begin, out)
    }

    /// How many characters the longest name of a row has.
    fn widest(&self) -> Result<usize, AllocError> {
        let mut widest = 0;
        let mut name = String::new(self.alloc);
        for (row, track) in self.tracks.iter() {
            if !track.only_waits() {
                name.clear();
                self.push_name(row, &mut name)?;
                widest = widest.max(width_of(name.as_str()));
            }
        }
        Ok(widest)
    }

    /// Adds a line of times in milliseconds, each above the column that begins with it.
    fn push_ruler(
        &self,
        script: &Script,
        scale: &Scale,
        begin: usize,
        out: &mut String,
    ) -> Result<(), AllocError> {
        let mut time = String::new(self.alloc);
        let mut widest = 0;
        for column in 0..scale.cells {
            time.clear();
            push_milliseconds(&mut time, script.now(scale.first_of(column)))?;
            widest = widest.max(time.len());
        }
        let steps = (widest.saturating_add(1) / RULER_STEP).saturating_add(1);
        let mut line = String::new(self.alloc);
        line.push_str("ms")?;
        let mut next = 0usize;
        for column in 0..scale.cells {
            let place = column as usize;
            if place >= next {
                next = place.saturating_add(steps.saturating_mul(RULER_STEP));
                push_to_column(&mut line, begin.saturating_add(place))?;
                push_milliseconds(&mut line, script.now(scale.first_of(column)))?;
            }
        }
        out.push_str(line.as_str())?;
        out.push_str("\n")
    }

    /// Adds the rows of each thread under its name, and what their marks mean.
    fn push_rows(
        &self,
        run: Run<'_>,
        scale: &Scale,
        begin: usize,
        out: &mut String,
    ) -> Result<(), AllocError> {
        let mut drawing = Drawing {
            legend: Legend::new(self.alloc),
            waiting: Waiting::new(self.alloc, self.columns as usize),
            line: String::new(self.alloc),
            next: 0,
        };
        self.draw(run, scale, begin, &mut drawing, out)
    }

    /// Adds the rows one by one, and what stands before and behind them.
    fn draw(
        &self,
        run: Run<'_>,
        scale: &Scale,
        begin: usize,
        drawing: &mut Drawing,
        out: &mut String,
    ) -> Result<(), AllocError> {
        for (row, track) in self.tracks.iter() {
            self.begin_row(run, row, drawing, out)?;
            self.push_track(row, track, scale, begin, drawing, out)?;
        }
        self.end_rows(run, drawing, out)
    }

    /// Adds what stands between a row and the one before it, where its thread is another.
    fn begin_row(
        &self,
        run: Run<'_>,
        row: &RowName,
        drawing: &mut Drawing,
        out: &mut String,
    ) -> Result<(), AllocError> {
        if row.lane < drawing.next {
            return Ok(());
        }
        drawing.waiting.flush(out)?;
        self.push_without(drawing.next, row.lane, out)?;
        drawing.next = row.lane.saturating_add(1);
        push_heading(run, row.lane, out)
    }

    /// Adds a row, or takes it as one of those that only wait.
    fn push_track(
        &self,
        row: &RowName,
        track: &Track,
        scale: &Scale,
        begin: usize,
        drawing: &mut Drawing,
        out: &mut String,
    ) -> Result<(), AllocError> {
        let line = &mut drawing.line;
        line.clear();
        if track.only_waits() {
            self.push_name(row, line)?;
            return drawing.waiting.add(line.as_str());
        }
        line.push_str("  ")?;
        self.push_name(row, line)?;
        push_to_column(line, begin)?;
        self.push_cells(track, scale, &mut drawing.legend, line)?;
        line.push_str("\n")?;
        out.push_str(line.as_str())
    }

    /// Adds what stands behind the last row, and what the marks mean.
    fn end_rows(
        &self,
        run: Run<'_>,
        drawing: &mut Drawing,
        out: &mut String,
    ) -> Result<(), AllocError> {
        drawing.waiting.flush(out)?;
        self.push_without(drawing.next, run.account.script().lanes(), out)?;
        drawing.legend.push(self.alloc, self.columns as usize, out)
    }

    /// Adds the names of the threads from one on and before another, which have no row.
    fn push_without(&self, first: u32, end: u32, out: &mut String) -> Result<(), AllocError> {
        for number in first..end {
            if self.window.has(number, self.window.first) {
                self.names.push(out, Thing::Thread(number))?;
                out.push_str(": no source, loop, task or cancellation\n")?;
            }
        }
        Ok(())
    }

    /// Adds the name of a row.
    fn push_name(&self, row: &RowName, out: &mut String) -> Result<(), AllocError> {
        match row.thing {
            RowOf::Source { context, id } => {
                self.names.push_bare(out, Thing::Source { context, id })?;
                match self.kind_of(context, id) {
                    Some(kind) => self.push_kind(out, kind),
                    None => Ok(()),
                }
            }
            RowOf::Loop(number) => self.names.push(out, Thing::Loop(number)),
            RowOf::Task(number) => {
                let lane = row.lane;
                self.names.push(out, Thing::Task { lane, number })
            }
            RowOf::Cancellable(number) => self.names.push(out, Thing::Cancellable(number)),
        }
    }

    /// Adds the words of a kind, as scripts write it.
    fn push_kind(&self, out: &mut String, kind: Kind) -> Result<(), AllocError> {
        match kind {
            Kind::Idle => out.push_str(" idle"),
            Kind::Timeout(ms) => write!(out, " timeout {ms}"),
            Kind::ReadyTime(_) => out.push_str(" ready"),
            Kind::Fd(fd, _) => {
                out.push_str(" fd ")?;
                self.names.push_bare(out, Thing::Descriptor(fd))
            }
            Kind::Cancel(number) => {
                out.push_str(" cancel ")?;
                self.names.push_bare(out, Thing::Cancellable(number))
            }
        }
    }

    /// What kind of source it is.
    fn kind_of(&self, context: u32, id: u64) -> Option<Kind> {
        let known = self.attached.get(context as usize)?;
        let one = known.get(id.saturating_sub(1) as usize)?;
        Some(one.kind)
    }

    /// Adds the marks of a row, one for each column.
    fn push_cells(
        &self,
        track: &Track,
        scale: &Scale,
        legend: &mut Legend,
        out: &mut String,
    ) -> Result<(), AllocError> {
        let mut gap = 0u32;
        for cell in self.cells(track, scale)? {
            let Some(mark) = cell else {
                gap = gap.saturating_add(1);
                continue;
            };
            for _ in 0..gap {
                out.push_str(" ")?;
            }
            gap = 0;
            out.push(mark.character())?;
            legend.add(mark)?;
        }
        Ok(())
    }

    /// What is shown in each column of a row.
    fn cells(&self, track: &Track, scale: &Scale) -> Result<Vec<Option<Mark>>, AllocError> {
        let mut cells = Vec::new(self.alloc);
        for _ in 0..scale.cells {
            cells.push(None)?;
        }
        for one in track.stretches() {
            let last = scale.column_of(one.last).saturating_add(1);
            for column in scale.column_of(one.first)..last {
                if let Some(cell) = cells.get_mut(column as usize) {
                    show(cell, one.mark);
                }
            }
        }
        Ok(cells)
    }
}

/// Shows a mark in a column, where none that is above it is shown.
fn show(cell: &mut Option<Mark>, mark: Mark) {
    match *cell {
        Some(shown) if !mark.is_above(shown) => {}
        _ => *cell = Some(mark),
    }
}

/// Adds the name of a thread, and where it halted when.
fn push_heading(run: Run<'_>, number: u32, out: &mut String) -> Result<(), AllocError> {
    run.names.push(out, Thing::Thread(number))?;
    if let Some(lane) = run.account.lane(number) {
        if let Some(halt) = halt_of(lane) {
            out.push_str(" halted in ")?;
            push_tick(out, run.account.script(), halt.tick)?;
        }
    }
    out.push_str("\n")
}

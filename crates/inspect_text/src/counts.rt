//! Counting what happens in a run, loop by loop and source by source: iterations, actions, arrivals, dispatches. `summary` tells of it.
use crate::record::Record;
use account::{Account, Deed, Moment};
use context_core::Standing;
use inspect_words::{Span, begun_by};
use lane_turn::{Event, LaneState};
use loop_script::{Action, Body, Script};
use source_rows::Rows;
use std::alloc::{AllocError, Global};

/// What is counted of a loop.
#[derive(Clone, Copy)]
pub(crate) struct LoopCount {
    pub iterations: Span,
    /// How often a run of it returned, and when.
    pub ends: Span,
}

/// What is counted of a context.
#[derive(Drop)]
pub(crate) struct ContextCount {
    pub iterations: Span,
    /// Its sources by their ids, from 1 on.
    pub sources: Vec<Record>,
}

/// What is counted of a run.
#[derive(Drop)]
pub(crate) struct Counts {
    pub contexts: Vec<ContextCount>,
    pub loops: Vec<LoopCount>,
}

impl ContextCount {
    /// What is counted of the source with an id, once it was attached.
    fn record_mut(&mut self, id: u64) -> Option<&mut Record> {
        self.sources.get_mut(id.saturating_sub(1) as usize)
    }

    /// Counts what an iteration does with each source.
    fn add_standings(&mut self, rows: &Rows, standings: &[Standing], tick: u32) {
        for (row, standing) in rows.in_order().zip(standings) {
            if let Some(record) = self.record_mut(row.id) {
                record.add_iteration(tick, *standing);
            }
        }
    }
}

/// No source and no iteration of each context.
fn no_contexts(alloc: Global, count: u32) -> Result<Vec<ContextCount>, AllocError> {
    let mut contexts = Vec::new(alloc);
    for _ in 0..count {
        contexts.push(ContextCount {
            iterations: Span::none(),
            sources: Vec::new(alloc),
        })?;
    }
    Ok(contexts)
}

/// No iteration of each loop.
fn no_loops(alloc: Global, count: u32) -> Result<Vec<LoopCount>, AllocError> {
    let none = LoopCount {
        iterations: Span::none(),
        ends: Span::none(),
    };
    let mut loops = Vec::new(alloc);
    for _ in 0..count {
        loops.push(none)?;
    }
    Ok(loops)
}

impl Counts {
    /// Nothing has happened yet.
    pub(crate) fn new(alloc: Global, script: &Script) -> Result<Counts, AllocError> {
        Ok(Counts {
            contexts: no_contexts(alloc, script.contexts())?,
            loops: no_loops(alloc, script.loops())?,
        })
    }

    /// Counts the latest moment of a run.
    pub(crate) fn add(&mut self, account: &Account, moment: &Moment) -> Result<(), AllocError> {
        let Some(lane) = account.lane(moment.lane) else {
            return Ok(());
        };
        let script = account.script();
        if let Some(iteration) = begun_by(account, moment) {
            self.add_iteration(script, moment.tick, lane, iteration.context)?;
        }
        match moment.deed {
            Deed::Acted { body, place } => self.add_action(script, lane, moment, body, place),
            Deed::Received { sender, .. } => self.add_arrivals(lane, moment, sender),
            Deed::Dispatched { context, source } => {
                self.add_dispatch(lane, moment, context, source);
                Ok(())
            }
            Deed::Iterated { loop_number, .. } => {
                if let Some(count) = self.loops.get_mut(loop_number as usize) {
                    count.iterations.add(moment.tick);
                }
                Ok(())
            }
            Deed::LoopEnded { loop_number, .. } => {
                if let Some(count) = self.loops.get_mut(loop_number as usize) {
                    count.ends.add(moment.tick);
                }
                Ok(())
            }
            _ => Ok(()),
        }
    }

    /// Counts an iteration of a context, and what it does with each source.
    fn add_iteration(
        &mut self,
        script: &Script,
        tick: u32,
        lane: &LaneState,
        context: u32,
    ) -> Result<(), AllocError> {
        let Some(count) = self.contexts.get_mut(context as usize) else {
            return Ok(());
        };
        count.iterations.add(tick);
        let Some(rows) = lane.sources(context) else {
            return Ok(());
        };
        let standings = lane.standings(script, tick, context)?;
        count.add_standings(rows, standings.as_slice(), tick);
        Ok(())
    }

    /// Counts what an action attaches.
    fn add_action(
        &mut self,
        script: &Script,
        lane: &LaneState,
        moment: &Moment,
        body: Body,
        place: usize,
    ) -> Result<(), AllocError> {
        match script.actions(body).get(place) {
            Some(Action::Attach { context, .. }) => {
                self.add_attached(lane, *context, moment.tick, None)
            }
            Some(Action::Invoke { context, .. }) => {
                self.add_attached(lane, *context, moment.tick, None)
            }
            Some(Action::Child { .. }) => {
                for context in 0..script.contexts() {
                    self.add_attached(lane, context, moment.tick, None)?;
                }
                Ok(())
            }
            _ => Ok(()),
        }
    }

    /// Counts what arrives from another thread.
    fn add_arrivals(
        &mut self,
        lane: &LaneState,
        moment: &Moment,
        sender: u32,
    ) -> Result<(), AllocError> {
        let Some(lines) = lane.trace().get(moment.from..moment.to) else {
            return Ok(());
        };
        for line in lines {
            if let Event::Arrive(context, _) = line.event {
                self.add_attached(lane, context, moment.tick, Some(sender))?;
            }
        }
        Ok(())
    }

    /// Counts the next source of a context, where there is one.
    fn add_attached(
        &mut self,
        lane: &LaneState,
        context: u32,
        tick: u32,
        sender: Option<u32>,
    ) -> Result<(), AllocError> {
        let (Some(count), Some(rows)) = (
            self.contexts.get_mut(context as usize),
            lane.sources(context),
        ) else {
            return Ok(());
        };
        let id = (count.sources.len() as u64).saturating_add(1);
        if let Some(row) = rows.row(id) {
            count.sources.push(Record::new(context, row, tick, sender))?;
        }
        Ok(())
    }

    /// Counts a dispatch, where the thread did not halt in its place.
    fn add_dispatch(&mut self, lane: &LaneState, moment: &Moment, context: u32, source: u64) {
        if lane.halted() {
            return;
        }
        if let Some(count) = self.contexts.get_mut(context as usize) {
            if let Some(record) = count.record_mut(source) {
                record.dispatches.add(moment.tick);
            }
        }
    }
}

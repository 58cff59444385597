//! Follows a run move by move, for its picture: gathers when each source came and went, and the marks of each source, loop, task and cancellable.
//! `picture` draws them in the end.
use crate::mark::Mark;
use crate::picture::Picture;
use crate::row_name::{RowName, RowOf};
use crate::task_times::TaskTimes;
use crate::track::Track;
use account::{Account, Deed, Moment};
use context_core::Standing;
use inspect_words::{Run, Window, begun_by};
use lane_turn::{Activity, Event, LaneState};
use loop_script::{Action, Kind, Script};
use std::alloc::{AllocError, Global};
use std::collections::BTreeMap;

/// What is known of a source from its attaching on.
#[derive(Clone, Copy)]
pub(crate) struct Attached {
    pub tick: u32,
    pub kind: Kind,
}

/// Follows a run, and draws it in the end.
#[derive(Drop)]
pub struct Timeline {
    alloc: Global,
    window: Window,
    /// How many characters a line has at most.
    columns: u32,
    /// The sources of each context by their ids, from 1 on.
    attached: Vec<Vec<Attached>>,
    /// The tasks of each thread by their numbers.
    tasks: Vec<Vec<TaskTimes>>,
    tracks: BTreeMap<RowName, Track>,
}

impl Timeline {
    /// Nothing has happened yet. A line of the picture is to have so many characters at most.
    pub fn new(
        alloc: Global,
        script: &Script,
        window: Window,
        columns: u32,
    ) -> Result<Timeline, AllocError> {
        let mut attached = Vec::new(alloc);
        for _ in 0..script.contexts() {
            attached.push(Vec::new(alloc))?;
        }
        let mut tasks = Vec::new(alloc);
        for _ in 0..script.lanes() {
            tasks.push(Vec::new(alloc))?;
        }
        let last = script.ticks().saturating_sub(1);
        Ok(Timeline {
            alloc,
            window: Window {
                last: window.last.min(last),
                ..window
            },
            columns,
            attached,
            tasks,
            tracks: BTreeMap::new(alloc),
        })
    }

    /// Notes the latest moment of a run.
    pub fn tell(&mut self, account: &Account, moment: &Moment) -> Result<(), AllocError> {
        let Some(lane) = account.lane(moment.lane) else {
            return Ok(());
        };
        let script = account.script();
        if let Some(iteration) = begun_by(account, moment) {
            self.note_standings(script, lane, moment, iteration.context)?;
        }
        match moment.deed {
            Deed::Polled => self.note_loops(lane, moment)?,
            Deed::Acted { body, place } => {
                if let Some(action) = script.actions(body).get(place) {
                    self.note_action(script, lane, moment, action)?;
                }
            }
            Deed::HandedOver { context, from } => self.note_handed(lane, moment, context, from)?,
            Deed::Rests => {
                for context in 0..script.contexts() {
                    self.note_standings(script, lane, moment, context)?;
                }
            }
            _ => {}
        }
        self.note_lines(lane, moment)
    }

    /// Adds the picture of the run.
    pub fn end(&mut self, run: Run<'_>, out: &mut String) -> Result<(), AllocError> {
        self.note_tasks()?;
        let picture = Picture {
            alloc: self.alloc,
            window: self.window,
            columns: self.columns,
            attached: &self.attached,
            tracks: &self.tracks,
            names: run.names,
        };
        picture.push(run, out)
    }

    /// Marks a tick of something of a thread, where the window has it.
    fn note(&mut self, lane: u32, tick: u32, thing: RowOf, mark: Mark) -> Result<(), AllocError> {
        if !self.window.has(lane, tick) {
            return Ok(());
        }
        let name = RowName { lane, thing };
        if let Some(track) = self.tracks.get_mut(&name) {
            return track.note(tick, mark);
        }
        let mut track = Track::new(self.alloc);
        track.note(tick, mark)?;
        self.tracks.insert(name, track)?;
        Ok(())
    }

    /// Marks the loops that a thread runs.
    fn note_loops(&mut self, lane: &LaneState, moment: &Moment) -> Result<(), AllocError> {
        if lane.halted() {
            return Ok(());
        }
        for one in lane.frames() {
            if let Activity::Loop { number, .. } = one {
                self.note(moment.lane, moment.tick, RowOf::Loop(number), Mark::Runs)?;
            }
        }
        Ok(())
    }

    /// Notes what an action attaches, starts or runs.
    fn note_action(
        &mut self,
        script: &Script,
        lane: &LaneState,
        moment: &Moment,
        action: &Action,
    ) -> Result<(), AllocError> {
        if lane.halted() {
            return Ok(());
        }
        match action {
            Action::Attach { context, .. } => self.note_attached(lane, moment, *context),
            Action::Invoke { context, .. } => self.note_attached(lane, moment, *context),
            Action::Child { .. } => {
                for context in 0..script.contexts() {
                    self.note_attached(lane, moment, context)?;
                }
                Ok(())
            }
            Action::Task(_) => {
                if let Some(tasks) = self.tasks.get_mut(moment.lane as usize) {
                    tasks.push(TaskTimes::new(moment.tick))?;
                }
                Ok(())
            }
            Action::Run(_) => self.note_loops(lane, moment),
            _ => Ok(()),
        }
    }

    /// Notes the next source of a context, where there is one.
    fn note_attached(
        &mut self,
        lane: &LaneState,
        moment: &Moment,
        context: u32,
    ) -> Result<(), AllocError> {
        let (Some(known), Some(rows)) = (
            self.attached.get_mut(context as usize),
            lane.sources(context),
        ) else {
            return Ok(());
        };
        let id = (known.len() as u64).saturating_add(1);
        let Some(row) = rows.row(id) else {
            return Ok(());
        };
        known.push(Attached {
            tick: moment.tick,
            kind: row.kind,
        })?;
        self.note(
            moment.lane,
            moment.tick,
            RowOf::Source { context, id },
            Mark::Waits,
        )
    }

    /// Marks the sources of a context of a thread by what an iteration of it would do with them.
    fn note_standings(
        &mut self,
        script: &Script,
        lane: &LaneState,
        moment: &Moment,
        context: u32,
    ) -> Result<(), AllocError> {
        if !self.window.has(moment.lane, moment.tick) {
            return Ok(());
        }
        let Some(rows) = lane.sources(context) else {
            return Ok(());
        };
        let list = lane.standings(script, moment.tick, context)?;
        for (row, standing) in rows.in_order().zip(list.as_slice().iter()) {
            self.note(
                moment.lane,
                moment.tick,
                RowOf::Source {
                    context,
                    id: row.id,
                },
                mark_of(*standing),
            )?;
        }
        Ok(())
    }

    /// Marks the sources of a context that goes over, which were one thread's in this tick and are another's from then on.
    fn note_handed(
        &mut self,
        lane: &LaneState,
        moment: &Moment,
        context: u32,
        from: u32,
    ) -> Result<(), AllocError> {
        let Some(rows) = lane.sources(context) else {
            return Ok(());
        };
        for row in rows.in_order() {
            let thing = RowOf::Source {
                context,
                id: row.id,
            };
            self.note(from, moment.tick, thing, Mark::Waits)?;
            self.note(moment.lane, moment.tick, thing, Mark::Waits)?;
        }
        Ok(())
    }

    /// Notes what the lines of a moment tell.
    fn note_lines(&mut self, lane: &LaneState, moment: &Moment) -> Result<(), AllocError> {
        let Some(lines) = lane.trace().get(moment.from..moment.to) else {
            return Ok(());
        };
        for line in lines {
            match line.event {
                Event::Dispatch {
                    context,
                    source,
                    depth,
                    ..
                } => self.note(
                    moment.lane,
                    moment.tick,
                    RowOf::Source {
                        context,
                        id: source,
                    },
                    Mark::Dispatched(depth),
                )?,
                Event::Cancel(number) => self.note(
                    moment.lane,
                    moment.tick,
                    RowOf::Cancellable(number),
                    Mark::Cancelled,
                )?,
                Event::Arrive(context, _) => self.note_attached(lane, moment, context)?,
                Event::Task { lane, number, .. } => self.note_reply(moment, lane, number),
                Event::TaskLate(lane, number) => self.note_late(moment, lane, number),
                _ => {}
            }
        }
        Ok(())
    }

    /// Notes that the source that is dispatched was the reply of a task.
    fn note_reply(&mut self, moment: &Moment, lane: u32, number: u64) {
        let Deed::Dispatched { context, source } = moment.deed else {
            return;
        };
        let arrived = self.arrival(context, source);
        if let Some(tasks) = self.tasks.get_mut(lane as usize) {
            if let Some(task) = tasks.get_mut(number as usize) {
                task.replied = arrived;
            }
        }
    }

    /// The tick in which a source was attached.
    fn arrival(&self, context: u32, source: u64) -> Option<u32> {
        let known = self.attached.get(context as usize)?;
        let one = known.get(source.saturating_sub(1) as usize)?;
        Some(one.tick)
    }

    /// Notes that the body of a task ended after its reply.
    fn note_late(&mut self, moment: &Moment, lane: u32, number: u64) {
        if let Some(tasks) = self.tasks.get_mut(lane as usize) {
            if let Some(task) = tasks.get_mut(number as usize) {
                task.ended_late = Some(moment.tick);
            }
        }
    }

    /// Gives each task its row.
    fn note_tasks(&mut self) -> Result<(), AllocError> {
        for (place, tasks) in self.tasks.iter().enumerate() {
            let lane = u32::try_from(place).unwrap_or(u32::MAX);
            if !self.window.has(lane, self.window.first) {
                continue;
            }
            for (number, task) in tasks.iter().enumerate() {
                let track = task.track(self.alloc, &self.window)?;
                if !track.stretches().is_empty() {
                    let thing = RowOf::Task(number as u64);
                    self.tracks.insert(RowName { lane, thing }, track)?;
                }
            }
        }
        Ok(())
    }
}

/// What an iteration would do with a source.
fn mark_of(standing: Standing) -> Mark {
    match standing {
        Standing::Selected | Standing::LessUrgent { .. } => Mark::Ready,
        _ => Mark::Waits,
    }
}

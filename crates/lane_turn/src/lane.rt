//! What a lane keeps, and the plain changes of its parts: a line written, a halt, a slot set, a loop that runs, a source looked up.
ghost use Rattle.std.specs.Prelude.{◌≡◌, ◌^◌, ◌≤◌, IfOk, OnOk, IfSome, OnSome, None, true, false, is_some, is_none, slice_get};
ghost use Rattle.std.specs.Borrow.{sem};
ghost use Rattle.std.specs.Option.{option_copied, option_copied_mut};
ghost use Rattle.lane_turn.specs.Lane.{written, set_running, is_running, context_at, is_own, held, place_at, handler_at, set_slot, chosen, is_any, standings, stopped};
ghost use Rattle.lane_turn.specs.Lending.{LendsContext};
ghost use Rattle.lane_turn.specs.Acted.{missed};
ghost use Rattle.lane_turn.specs.Replies.{reply_held};
ghost use Rattle.lane_turn.specs.Meaning.{lane_of};

use crate::frames::Frames;
use crate::line::{Event, Line, Word};
use crate::replies::{Awaited, Replies};
use crate::select::{select, selects_any, stand};
use crate::slot::{Named, Place};
use context_core::{Context, DefaultStack, Standing};
use lane_watch::Watch;
use loop_script::Script;
use std::alloc::{AllocError, Global};

/// Whether a lane goes on.
#[derive(Clone, Copy, Debug, PartialEq, Eq)]
pub enum Status {
    GoesOn,
    /// Its start list is over.
    Ended,
    /// It takes no further step.
    Halted,
}

/// What a lane keeps. Contexts stand by their number in the script, and those of other lanes are none.
#[derive(Drop)]
pub struct Lane {
    /// The number of the lane in its script.
    pub number: u32,
    pub contexts: Vec<Option<Context>>,
    /// Which contexts the lane gave in this tick: they are not its own any more, and stand until they are handed over.
    pub given: Vec<bool>,
    /// What the slots name.
    pub slots: Vec<Option<Named>>,
    /// The view of cancellations, and the tasks.
    pub watch: Watch,
    pub frames: Frames,
    /// Which loops run.
    pub running: Vec<bool>,
    /// The thread-default contexts.
    pub defaults: DefaultStack,
    /// What the sources of replies hold, by context.
    pub replies: Vec<Replies>,
    pub trace: Vec<Line>,
    pub status: Status,
}

impl Lane {
    /// Writes a line.
    pub(crate) fn write(&mut self, tick: u32, event: Event) -> Result<(), AllocError>
        ensures { OnOk result (lane_of self.new ≡ written tick event (lane_of self.old)) }
    {
        self.trace.push(Line { tick, event })?;
        Ok(())
    }

    /// Writes why the lane takes no further step.
    pub(crate) fn halt(&mut self, tick: u32, event: Event) -> Result<(), AllocError>
        ensures { OnOk result (lane_of self.new ≡ stopped Status.Halted (written tick event (lane_of self.old))) }
    {
        self.write(tick, event)?;
        self.status = Status::Halted;
        Ok(())
    }

    /// Writes that an action found nothing to act on.
    pub(crate) fn miss(&mut self, tick: u32, word: Word) -> Result<(), AllocError>
        ensures { OnOk result (lane_of self.new ≡ missed tick word (lane_of self.old)) }
    {
        self.write(tick, Event::Miss(word))
    }

    /// Whether a context is the lane's own: it has it, and did not give it in this tick.
    pub(crate) fn has(&self, context: u32) -> bool
        ensures { result ≡ is_own context (lane_of self.now) }
    {
        self.context(context).is_some() && !self.is_given(context)
    }

    /// One of the lane's contexts; none of another lane's.
    pub(crate) fn context(&self, context: u32) -> Option<&Context>
        ensures { option_copied result ≡ context_at context (lane_of self.now) }
    {
        match self.contexts.get(context as usize) {
            Some(Some(context)) => Some(context),
            _ => None,
        }
    }

    /// The reply that a source of a context holds until it is dispatched, and whose it is. `LaneState::awaited` hands it out.
    pub(crate) fn awaited(&self, context: u32, id: u64) -> Option<Awaited>
        ensures { result ≡ reply_held context id self.now.replies.items }
    {
        match self.replies.get(context as usize) {
            Some(held) => held.get(id),
            None => None,
        }
    }

    /// One of the lane's contexts, to change it; none of another lane's.
    pub(crate) fn context_mut(&mut self, context: u32) -> Option<&mut Context>
        ensures* writes_back { sem 𝓛 (LendsContext self.entry context result) }
        ensures context { option_copied_mut result ≡ context_at context (lane_of self.old) }
    {
        if self.context(context).is_none() {
            return None;
        }
        match self.contexts.get_mut(context as usize) {
            Some(slot) => match slot {
                Some(context) => Some(context),
                None => None,
            },
            None => None,
        }
    }

    /// What a slot names.
    fn held(&self, slot: u8) -> Option<Named>
        ensures { result ≡ held (slice_get (lane_of self.now).slots slot) }
    {
        match self.slots.get(slot as usize) {
            Some(thing) => *thing,
            None => None,
        }
    }

    /// The source that a slot names.
    pub(crate) fn place(&self, slot: u8) -> Option<Place>
        ensures { result ≡ place_at slot (lane_of self.now) }
    {
        match self.held(slot) {
            Some(Named::Source(place)) => Some(place),
            _ => None,
        }
    }

    /// The id of the handler that a slot names.
    pub(crate) fn handler(&self, slot: u8) -> Option<u64>
        ensures { result ≡ handler_at slot (lane_of self.now) }
    {
        match self.held(slot) {
            Some(Named::Handler(id)) => Some(id),
            _ => None,
        }
    }

    /// Lets a slot name something.
    pub(crate) fn set_slot(&mut self, slot: u8, thing: Named)
        ensures { lane_of self.new ≡ set_slot slot thing (lane_of self.old) }
    {
        if let Some(held) = self.slots.get_mut(slot as usize) {
            *held = Some(thing);
        }
    }

    /// The ids that an iteration of a context would dispatch now.
    pub(crate) fn choose(
        &self,
        alloc: Global,
        script: &Script,
        tick: u32,
        context: u32,
    ) -> Result<Vec<u64>, AllocError>
        ensures { IfOk result (λ ids. ids.items ≡ chosen script.now tick context (lane_of self.now)) }
    {
        let busy = self.frames.busy(context)?;
        match self.context(context) {
            Some(context) => select(alloc, context, script, tick, &busy, self.watch.view()),
            None => Ok(Vec::new(alloc)),
        }
    }

    /// Whether an iteration of a context would dispatch anything now.
    pub(crate) fn chooses_any(
        &self,
        alloc: Global,
        script: &Script,
        tick: u32,
        context: u32,
    ) -> Result<bool, AllocError>
        ensures { IfOk result (λ any. any ≡ is_any (chosen script.now tick context (lane_of self.now))) }
    {
        let busy = self.frames.busy(context)?;
        match self.context(context) {
            Some(context) => selects_any(alloc, context, script, tick, &busy, self.watch.view()),
            None => Ok(false),
        }
    }

    /// What an iteration of a context begun now would do with each of its sources, in the order of dispatch.
    pub(crate) fn stand(
        &self,
        alloc: Global,
        script: &Script,
        tick: u32,
        context: u32,
    ) -> Result<Vec<Standing>, AllocError>
        ensures { IfOk result (λ list. list.items ≡ standings script.now tick context (lane_of self.now)) }
    {
        let busy = self.frames.busy(context)?;
        match self.context(context) {
            Some(context) => stand(alloc, context, script, tick, &busy, self.watch.view()),
            None => Ok(Vec::new(alloc)),
        }
    }

    /// Whether a loop runs.
    pub(crate) fn is_running(&self, number: u32) -> bool
        ensures { result ≡ is_running number (lane_of self.now) }
    {
        match self.running.get(number as usize) {
            Some(runs) => *runs,
            None => false,
        }
    }

    /// Sets whether a loop runs.
    pub(crate) fn set_running(&mut self, number: u32, runs: bool)
        ensures { lane_of self.new ≡ set_running number runs (lane_of self.old) }
    {
        if let Some(place) = self.running.get_mut(number as usize) {
            *place = runs;
        }
    }
}

//! What threads do to each other within a tick, as GLib has it at once: cancels, sources that come, contexts that go over, who owns what.
use crate::kept::{is_kept, keep_number, none_of};
use account::Account;
use lane_turn::LaneState;
use loop_script::Script;
use std::alloc::{AllocError, Global};

/// What threads have done in a tick that others are told when its turns are over.
#[derive(Drop)]
pub(crate) struct Shared {
    tick: u32,
    /// The cancellables that were cancelled in it.
    cancelled: Vec<bool>,
    /// The contexts in which something was invoked from other threads, once for each.
    posted: Vec<u32>,
    /// The contexts that were given.
    given: Vec<u32>,
}

impl Shared {
    pub(crate) fn new(alloc: Global, script: &Script) -> Result<Shared, AllocError> {
        Ok(Shared {
            tick: 0,
            cancelled: none_of(alloc, script.cancellables())?,
            posted: Vec::new(alloc),
            given: Vec::new(alloc),
        })
    }

    /// Goes to a tick: what was done in another is told by now.
    pub(crate) fn go_to(&mut self, tick: u32) {
        if tick != self.tick {
            self.tick = tick;
            self.posted.clear();
            self.given.clear();
            for one in self.cancelled.iter_mut() {
                *one = false;
            }
        }
    }

    /// Whether a cancellable was cancelled in this tick.
    pub(crate) fn is_cancelled(&self, cancellable: u32) -> bool {
        is_kept(self.cancelled.as_slice(), cancellable)
    }

    /// A cancellable is cancelled.
    pub(crate) fn cancel(&mut self, cancellable: u32) {
        keep_number(&mut self.cancelled, cancellable);
    }

    /// Whether a cancellable was cancelled in this tick by another thread, and this one was not told.
    pub(crate) fn is_news_of(&self, cancellable: u32, lane: &LaneState) -> bool {
        self.is_cancelled(cancellable) && !lane.view().is_cancelled(cancellable)
    }

    /// Whether something was invoked in a context from another thread in this tick.
    pub(crate) fn is_posted(&self, context: u32) -> bool {
        self.posted.iter().any(|one| *one == context)
    }

    /// Notes that a letter for a context was posted in this tick.
    pub(crate) fn post(&mut self, context: u32) -> Result<(), AllocError> {
        self.posted.push(context)?;
        Ok(())
    }

    /// One of what was invoked in a context has come.
    pub(crate) fn bring(&mut self, context: u32) {
        if let Some(at) = self.posted.iter().position(|one| *one == context) {
            let _ = self.posted.remove(at);
        }
    }

    /// Notes that a context was given in this tick.
    pub(crate) fn give(&mut self, context: u32) -> Result<(), AllocError> {
        self.given.push(context)?;
        Ok(())
    }

    /// Whether a context is a thread's own.
    pub(crate) fn is_own(&self, context: u32, lane: &LaneState) -> bool {
        lane.sources(context).is_some() && !self.given.iter().any(|one| *one == context)
    }
}

/// The lane that has a context.
pub(crate) fn holder_of(account: &Account, context: u32) -> Option<&LaneState> {
    for number in 0..account.script().lanes() {
        if let Some(lane) = account.lane(number) {
            if lane.sources(context).is_some() {
                return Some(lane);
            }
        }
    }
    None
}

/// Whether no thread owns a context.
pub(crate) fn is_free(account: &Account, context: u32) -> bool {
    match holder_of(account, context) {
        Some(lane) => !is_owned(lane, context),
        None => true,
    }
}

/// Whether a thread owns a context.
pub(crate) fn is_owned(lane: &LaneState, context: u32) -> bool {
    match lane.grounds(context) {
        Some(grounds) => grounds.acquires != 0 || grounds.pushed || grounds.in_progress,
        None => false,
    }
}

//! What is kept of each source, context and thread beside what the lanes show, to know what GLib would do, as what a source was named.
//! `notes` takes each move into it.
use lane_turn::Place;
use loop_script::Script;
use std::alloc::{AllocError, Global};

/// What is kept of a source.
#[derive(Clone, Copy)]
pub(crate) struct SourceKept {
    /// Whether GLib has its READY flag set.
    pub flagged: bool,
    /// When GLib has a timeout ready, in microseconds, where that may be before its time here.
    pub due: Option<u64>,
    /// Whether it was dispatched.
    pub dispatched: bool,
    /// The cancellable of the task whose reply it is.
    pub cancel: Option<u32>,
    /// How many sources were ever attached below it.
    pub below: u32,
}

impl SourceKept {
    /// Whether GLib may have it ready where the rules have not.
    pub(crate) fn may_be_ready(&self) -> bool {
        self.flagged || self.due.is_some()
    }

    fn new() -> SourceKept {
        SourceKept {
            flagged: false,
            due: None,
            dispatched: false,
            cancel: None,
            below: 0,
        }
    }
}

/// What is kept of a context.
#[derive(Drop)]
pub(crate) struct ContextKept {
    /// The tick in which it was last looked at for what is ready.
    pub latest: u32,
    /// Of its sources by their ids, from 1 on.
    sources: Vec<SourceKept>,
}

/// The place of what has an id, among all that have ids from 1 on.
fn place_of(id: u64) -> usize {
    id.saturating_sub(1) as usize
}

impl ContextKept {
    fn new(alloc: Global) -> ContextKept {
        ContextKept {
            latest: 0,
            sources: Vec::new(alloc),
        }
    }

    /// What is kept of a source.
    pub(crate) fn source(&self, id: u64) -> SourceKept {
        match self.sources.get(place_of(id)) {
            Some(kept) => *kept,
            None => SourceKept::new(),
        }
    }

    /// Keeps something of a source.
    pub(crate) fn keep(&mut self, id: u64, kept: SourceKept) -> Result<(), AllocError> {
        let place = place_of(id);
        for _ in self.sources.len()..place.saturating_add(1) {
            self.sources.push(SourceKept::new())?;
        }
        if let Some(at) = self.sources.get_mut(place) {
            *at = kept;
        }
        Ok(())
    }
}

/// An iteration in progress.
#[derive(Clone, Copy)]
pub(crate) struct IterationKept {
    pub context: u32,
    /// How many of its ids were taken.
    pub taken: usize,
}

/// The call of a reply in progress.
#[derive(Clone, Copy)]
pub(crate) struct ReplyKept {
    pub context: u32,
    /// How many contexts were pushed when it began.
    pub base: usize,
    /// How much was in progress when it had begun.
    pub height: u64,
}

/// A source in a call.
#[derive(Clone, Copy)]
pub(crate) struct Called {
    pub context: u32,
    pub id: u64,
}

/// What is kept of a thread.
#[derive(Drop)]
pub(crate) struct ThreadKept {
    /// Its iterations in progress, the innermost last.
    pub iterations: Vec<IterationKept>,
    /// Its calls of replies, the innermost last.
    pub replies: Vec<ReplyKept>,
    /// Whose call is innermost of all that is in progress, where it is a source's.
    pub innermost: Option<Called>,
    /// Whether anything was pushed, also by GLib around a task's callback.
    pub has_pushed: bool,
    /// The sources that its slots name.
    slots: Vec<Option<Place>>,
    /// The procedures of its handlers by their ids, from 1 on.
    pub handlers: Vec<u32>,
    /// Of each cancellable, whether a handler of it was connected, and whether a task of it was started.
    pub connected: Vec<bool>,
    pub started: Vec<bool>,
}

/// So many that do not hold.
pub(crate) fn none_of(alloc: Global, count: u32) -> Result<Vec<bool>, AllocError> {
    let mut all = Vec::new(alloc);
    for _ in 0..count {
        all.push(false)?;
    }
    Ok(all)
}

/// Whether a number is kept, as that of a cancellable to which a handler was connected.
pub(crate) fn is_kept(all: &[bool], number: u32) -> bool {
    match all.get(number as usize) {
        Some(one) => *one,
        None => false,
    }
}

/// Keeps a number among so many, as that of a cancellable that was cancelled.
pub(crate) fn keep_number(all: &mut Vec<bool>, number: u32) {
    if let Some(one) = all.get_mut(number as usize) {
        *one = true;
    }
}

impl ThreadKept {
    fn new(alloc: Global, script: &Script) -> Result<ThreadKept, AllocError> {
        Ok(ThreadKept {
            iterations: Vec::new(alloc),
            replies: Vec::new(alloc),
            innermost: None,
            has_pushed: false,
            slots: Vec::new(alloc),
            handlers: Vec::new(alloc),
            connected: none_of(alloc, script.cancellables())?,
            started: none_of(alloc, script.cancellables())?,
        })
    }

    /// The innermost iteration of a context.
    pub(crate) fn iteration_of(&self, context: u32) -> Option<IterationKept> {
        self.iterations
            .iter()
            .copied()
            .rfind(|one| one.context == context)
    }

    /// The source that a slot names.
    pub(crate) fn named(&self, slot: u8) -> Option<Place> {
        *self.slots.get(slot as usize)?
    }

    /// Lets a slot name a source, or none.
    pub(crate) fn name(&mut self, slot: u8, named: Option<Place>) -> Result<(), AllocError> {
        let place = slot as usize;
        for _ in self.slots.len()..place.saturating_add(1) {
            self.slots.push(None)?;
        }
        if let Some(at) = self.slots.get_mut(place) {
            *at = named;
        }
        Ok(())
    }

    /// The procedure of a handler.
    pub(crate) fn handler(&self, id: u64) -> Option<u32> {
        self.handlers.get(place_of(id)).copied()
    }

    /// The innermost call of a reply.
    pub(crate) fn reply(&self) -> Option<ReplyKept> {
        self.replies.last().copied()
    }
}

/// What is kept of each context.
pub(crate) fn contexts_of(alloc: Global, script: &Script) -> Result<Vec<ContextKept>, AllocError> {
    let mut contexts = Vec::new(alloc);
    for _ in 0..script.contexts() {
        contexts.push(ContextKept::new(alloc))?;
    }
    Ok(contexts)
}

/// What is kept of each thread.
pub(crate) fn threads_of(alloc: Global, script: &Script) -> Result<Vec<ThreadKept>, AllocError> {
    let mut threads = Vec::new(alloc);
    for _ in 0..script.lanes() {
        threads.push(ThreadKept::new(alloc, script)?)?;
    }
    Ok(threads)
}

//! What the latest iteration of each context has left to dispatch, and what the one before it loses.
use lane_turn::{Activity, LaneState};
use loop_script::Script;
use std::alloc::{AllocError, Global};
use std::mem;

/// What the latest iteration of each context has left, the next source last.
#[derive(Drop)]
pub(crate) struct Rests {
    alloc: Global,
    contexts: Vec<Vec<u64>>,
}

impl Rests {
    pub(crate) fn new(alloc: Global, script: &Script) -> Result<Rests, AllocError> {
        let mut contexts = Vec::new(alloc);
        for _ in 0..script.contexts() {
            contexts.push(Vec::new(alloc))?;
        }
        Ok(Rests { alloc, contexts })
    }

    /// Takes the innermost iteration of a thread as the latest of its context, and answers what the one before loses.
    pub(crate) fn begin(&mut self, lane: &LaneState, context: u32) -> Result<Vec<u64>, AllocError> {
        let next = reversed_rest(self.alloc, lane)?;
        match self.contexts.get_mut(context as usize) {
            Some(rest) => Ok(mem::replace(rest, next)),
            None => Ok(next),
        }
    }

    /// Counts the next source of a context as taken.
    pub(crate) fn take(&mut self, context: u32) {
        if let Some(rest) = self.contexts.get_mut(context as usize) {
            let _ = rest.pop();
        }
    }
}

/// What the innermost iteration of a thread has left, the next source last.
fn reversed_rest(alloc: Global, lane: &LaneState) -> Result<Vec<u64>, AllocError> {
    let mut rest = Vec::new(alloc);
    for one in lane.frames() {
        rest.clear();
        if let Activity::Iteration { left, .. } = one {
            for id in left.iter().rev() {
                rest.push(*id)?;
            }
        }
    }
    Ok(rest)
}

//! What GLib does otherwise where a task's callback changed the stack of thread-default contexts.
use crate::difference::Difference;
use crate::kept::{ReplyKept, ThreadKept, keep_number};
use crate::notes::{Kept, Note, Scene, add_note};
use crate::shared::is_free;
use lane_turn::{LaneState, Word};
use std::alloc::AllocError;

/// The thread-default context of a thread.
pub(crate) fn default_of(lane: &LaneState) -> u32 {
    match lane.defaults().last() {
        Some(pushed) => pushed.context,
        None => 0,
    }
}

/// The innermost call of a reply of the thread.
pub(crate) fn reply_of(kept: &Kept, scene: &Scene<'_>) -> Option<ReplyKept> {
    kept.threads.get(scene.moment.lane as usize)?.reply()
}

/// The thread-default context is used: in a task's callback that is another for GLib, unless something was pushed there.
pub(crate) fn default_used(
    kept: &Kept,
    scene: &Scene<'_>,
    found: &mut Vec<Note>,
) -> Result<(), AllocError> {
    match reply_of(kept, scene) {
        Some(reply) if default_of(scene.lane) != reply.context => {
            add_note(
                scene,
                Difference::TaskCallbackContext,
                Some(reply.context),
                found,
            )
        }
        _ => Ok(()),
    }
}

/// What GLib does otherwise where an action starts a task: a cancellation of this tick is seen at once there, and the default
/// context counts.
pub(crate) fn task_started(
    kept: &mut Kept,
    scene: &Scene<'_>,
    cancel: Option<u32>,
    found: &mut Vec<Note>,
) -> Result<(), AllocError> {
    if let Some(cancellable) = cancel {
        if let Some(thread) = kept.threads.get_mut(scene.moment.lane as usize) {
            keep_number(&mut thread.started, cancellable);
        }
        if kept.shared.is_news_of(cancellable, scene.lane) {
            add_note(scene, Difference::CancelAtOnce, None, found)?;
        }
    }
    default_used(kept, scene, found)
}

/// What GLib does otherwise where a context is pushed on the stack of defaults: there any thread pushes one that nobody owns.
pub(crate) fn pushed(
    kept: &mut Kept,
    scene: &Scene<'_>,
    context: u32,
    found: &mut Vec<Note>,
) -> Result<(), AllocError> {
    if !scene.has_missed(Word::Push) {
        if let Some(thread) = kept.threads.get_mut(scene.moment.lane as usize) {
            thread.has_pushed = true;
        }
        return Ok(());
    }
    if is_free(scene.account, context) {
        return add_note(scene, Difference::AnyThreadAcquires, Some(context), found);
    }
    Ok(())
}

/// What GLib does otherwise where a context is popped, from a stack that is empty or within a task's callback.
pub(crate) fn popped(
    kept: &Kept,
    scene: &Scene<'_>,
    context: u32,
    found: &mut Vec<Note>,
) -> Result<(), AllocError> {
    let missed = scene.has_missed(Word::Pop);
    let depth = scene.lane.defaults().len();
    if let Some(reply) = reply_of(kept, scene) {
        let other = if missed {
            depth <= reply.base && context == reply.context
        } else {
            depth < reply.base
        };
        if other {
            add_note(scene, Difference::TaskCallbackContext, Some(context), found)?;
        }
    }
    let has_pushed = match kept.threads.get(scene.moment.lane as usize) {
        Some(thread) => has_pushed(thread),
        None => false,
    };
    if missed && depth == 0 && context == 0 && has_pushed {
        return add_note(scene, Difference::PopEmptyStack, Some(context), found);
    }
    Ok(())
}

/// Whether GLib keeps a stack for the thread.
fn has_pushed(thread: &ThreadKept) -> bool {
    thread.has_pushed
}

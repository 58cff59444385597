//! What GLib does otherwise where a context is acquired, released, given or invoked in.
use crate::difference::Difference;
use crate::notes::{Kept, Note, Scene, add_note};
use crate::shared::{is_free, is_owned};
use crate::stack::{default_of, reply_of};
use lane_turn::{Activity, Event, Invoked, LaneState, Origin, Word};
use std::alloc::AllocError;

/// What GLib does otherwise where an action acquires a context: there any thread acquires one that nobody owns.
pub(crate) fn acquired(
    kept: &Kept,
    scene: &Scene<'_>,
    context: u32,
    found: &mut Vec<Note>,
) -> Result<(), AllocError> {
    if !kept.shared.is_own(context, scene.lane) && is_free(scene.account, context) {
        return add_note(scene, Difference::AnyThreadAcquires, Some(context), found);
    }
    Ok(())
}

/// What GLib does otherwise where a release misses: there a context is released on whatever ground it is owned.
pub(crate) fn released(
    kept: &Kept,
    scene: &Scene<'_>,
    context: u32,
    found: &mut Vec<Note>,
) -> Result<(), AllocError> {
    if scene.has_missed(Word::Release)
        && kept.shared.is_own(context, scene.lane)
        && is_owned(scene.lane, context)
    {
        return add_note(scene, Difference::ReleaseAnyGround, Some(context), found);
    }
    Ok(())
}

/// How an invoke went.
fn way_of(scene: &Scene<'_>) -> Option<Invoked> {
    match scene.lines().first()?.event {
        Event::Invoke(_, way) => Some(way),
        _ => None,
    }
}

/// Whether a call in progress is one of an invoke that acquired its context, and innermost.
fn has_taken_default(lane: &LaneState) -> bool {
    match lane.frames().last() {
        Some(Activity::Call(call)) => matches!(call.origin, Origin::Invoke(Some(_))),
        _ => false,
    }
}

/// What GLib does otherwise where an action invokes a procedure in a context: when it is posted, attached or called at once.
pub(crate) fn invoked(
    kept: &mut Kept,
    scene: &Scene<'_>,
    context: u32,
    found: &mut Vec<Note>,
) -> Result<(), AllocError> {
    match way_of(scene) {
        Some(Invoked::Posted) => {
            if default_of(scene.lane) == context && is_free(scene.account, context) {
                add_note(scene, Difference::InvokeTakesDefault, Some(context), found)?;
            }
            kept.shared.post(context)
        }
        Some(Invoked::Attached) if kept.shared.is_posted(context) => {
            add_note(
                scene,
                Difference::InvokeAttachesAtOnce,
                Some(context),
                found,
            )
        }
        Some(Invoked::Direct) if has_taken_default(scene.lane) => match reply_of(kept, scene) {
            Some(_) => add_note(scene, Difference::TaskCallbackContext, Some(context), found),
            None => Ok(()),
        },
        _ => Ok(()),
    }
}

/// Notes that a context was given, so that what its new thread does with it is known.
pub(crate) fn given(kept: &mut Kept, scene: &Scene<'_>, context: u32) -> Result<(), AllocError> {
    if scene.has_missed(Word::Give) {
        return Ok(());
    }
    kept.shared.give(context)
}

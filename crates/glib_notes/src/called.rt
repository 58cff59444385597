//! What GLib does otherwise as a call begins (of a source, of a reply), returns or is over, and as a source comes from another thread.
use crate::difference::Difference;
use crate::kept::{Called, ReplyKept, ThreadKept, is_kept};
use crate::notes::{Kept, Note, Scene};
use lane_turn::{Activity, Event, LaneState, Origin};
use loop_script::Kind;
use std::alloc::AllocError;

/// How many microseconds a millisecond has.
const MS: u64 = 1000;

/// The tasks of a lane are polled.
pub(crate) fn polled(
    kept: &Kept,
    scene: &Scene<'_>,
    found: &mut Vec<Note>,
) -> Result<(), AllocError> {
    let Some(thread) = kept.threads.get(scene.moment.lane as usize) else {
        return Ok(());
    };
    for cancellable in 0..scene.script.cancellables() {
        if is_kept(thread.started.as_slice(), cancellable)
            && kept.shared.is_news_of(cancellable, scene.lane)
        {
            found.push(scene.note(Difference::CancelAtOnce, None, None))?;
        }
    }
    Ok(())
}

/// A source is dispatched, and its call begins.
pub(crate) fn begun_call(
    kept: &mut Kept,
    scene: &Scene<'_>,
    called: Called,
    found: &mut Vec<Note>,
) -> Result<(), AllocError> {
    let Some(context) = kept.contexts.get_mut(called.context as usize) else {
        return Ok(());
    };
    let mut source = context.source(called.id);
    source.flagged = false;
    source.due = None;
    source.dispatched = true;
    context.keep(called.id, source)?;
    if has_ready_time_of_its_own(scene.lane, called) {
        found.push(scene.note(
            Difference::CancellableSourceOnce,
            Some(called.context),
            Some(called.id),
        ))?;
    }
    if scene.lines().iter().any(|line| is_result(line.event)) {
        begun_reply(kept, scene, called, source.cancel, found)?;
    }
    Ok(())
}

/// Whether a source is one of a cancellable that was given a ready time.
fn has_ready_time_of_its_own(lane: &LaneState, called: Called) -> bool {
    let Some(rows) = lane.sources(called.context) else {
        return false;
    };
    match rows.found(called.id) {
        Some(row) => matches!(row.kind, Kind::Cancel(_)) && row.ready >= 0,
        None => false,
    }
}

/// Whether a line tells the result of a task that its callback took.
fn is_result(event: Event) -> bool {
    matches!(event, Event::Task { .. })
}

/// The call of a reply begins.
fn begun_reply(
    kept: &mut Kept,
    scene: &Scene<'_>,
    called: Called,
    cancel: Option<u32>,
    found: &mut Vec<Note>,
) -> Result<(), AllocError> {
    if let Some(cancellable) = cancel {
        if kept.shared.is_news_of(cancellable, scene.lane) {
            found.push(scene.note(Difference::CancelAtOnce, None, None))?;
        }
    }
    if let Some(thread) = kept.threads.get_mut(scene.moment.lane as usize) {
        thread.has_pushed = true;
        thread.replies.push(ReplyKept {
            context: called.context,
            base: scene.lane.defaults().len(),
            height: frames_of(scene.lane),
        })?;
    }
    Ok(())
}

/// How much is in progress.
fn frames_of(lane: &LaneState) -> u64 {
    let mut height = 0u64;
    for _ in lane.frames() {
        height = height.saturating_add(1);
    }
    height
}

/// Calls of replies that are over: what they pushed has to be popped.
pub(crate) fn settle(
    thread: &mut ThreadKept,
    scene: &Scene<'_>,
    found: &mut Vec<Note>,
) -> Result<(), AllocError> {
    let Some(reply) = thread.reply() else {
        return Ok(());
    };
    if frames_of(scene.lane) >= reply.height {
        return Ok(());
    }
    let _ = thread.replies.pop();
    if scene.lane.defaults().len() != reply.base {
        found.push(scene.note(Difference::TaskCallbackContext, Some(reply.context), None))?;
    }
    Ok(())
}

/// A call returns.
pub(crate) fn returned(
    kept: &mut Kept,
    scene: &Scene<'_>,
    found: &mut Vec<Note>,
) -> Result<(), AllocError> {
    let Some(thread) = kept.threads.get(scene.moment.lane as usize) else {
        return Ok(());
    };
    let Some(called) = thread.innermost else {
        return Ok(());
    };
    if has_busy_child(scene.lane, called) {
        found.push(scene.note(
            Difference::OneBlockedFlag,
            Some(called.context),
            Some(called.id),
        ))?;
    }
    let interval = interval_of(scene.lane, called);
    let Some(context) = kept.contexts.get_mut(called.context as usize) else {
        return Ok(());
    };
    if let Some(ms) = interval {
        if context.latest < scene.moment.tick {
            let mut source = context.source(called.id);
            let began = scene.script.now(context.latest);
            source.due = Some(began.saturating_add(u64::from(ms).saturating_mul(MS)));
            context.keep(called.id, source)?;
        }
    }
    Ok(())
}

/// The interval of a timeout that is still there.
fn interval_of(lane: &LaneState, called: Called) -> Option<u32> {
    match lane.sources(called.context)?.found(called.id)?.kind {
        Kind::Timeout(ms) => Some(ms),
        _ => None,
    }
}

/// Whether a source that is still there has a child that is in a call.
fn has_busy_child(lane: &LaneState, called: Called) -> bool {
    let Some(rows) = lane.sources(called.context) else {
        return false;
    };
    if rows.found(called.id).is_none() {
        return false;
    }
    for one in lane.frames() {
        if let Activity::Call(call) = one {
            if let Origin::Source(caller) = call.origin {
                if caller.context == called.context && caller.id != called.id {
                    if let Some(row) = rows.found(caller.id) {
                        if row.lineage.iter().any(|id| *id == called.id) {
                            return true;
                        }
                    }
                }
            }
        }
    }
    false
}

/// A letter is delivered: what it attaches is a reply's source, or one of what was invoked from another thread.
pub(crate) fn arrived(
    kept: &mut Kept,
    scene: &Scene<'_>,
    found: &mut Vec<Note>,
) -> Result<(), AllocError> {
    for line in scene.lines() {
        let Event::Arrive(context, id) = line.event else {
            continue;
        };
        match scene.lane.awaited(context, id) {
            None => kept.shared.bring(context),
            Some(awaited) => {
                if kept.shared.is_posted(context) {
                    found.push(scene.note(
                        Difference::InvokeAttachesAtOnce,
                        Some(context),
                        Some(id),
                    ))?;
                }
                if let Some(of) = kept.contexts.get_mut(context as usize) {
                    let mut source = of.source(id);
                    source.cancel = awaited.reply.cancel;
                    of.keep(id, source)?;
                }
            }
        }
    }
    Ok(())
}

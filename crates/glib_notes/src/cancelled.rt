//! What GLib does otherwise where something is cancelled, and where handlers are connected or called.
use crate::difference::Difference;
use crate::kept::{is_kept, keep_number};
use crate::notes::{Kept, Note, Scene, add_note};
use crate::sources::{changed, ready_set};
use lane_turn::{Event, Named};
use loop_script::{Action, Body};
use std::alloc::AllocError;

/// The id of a handler that is connected too late, and is called at once.
const TOO_LATE: u64 = 0;

/// What is connected: a procedure as a handler of a cancellable, with the slot that is to name it.
#[derive(Clone, Copy)]
pub(crate) struct Connection {
    pub cancellable: u32,
    pub slot: u8,
    pub procedure: u32,
}

/// What GLib does otherwise where an action cancels: threads that have not seen it here hear of it at once there.
pub(crate) fn cancelled(
    kept: &mut Kept,
    scene: &Scene<'_>,
    cancellable: u32,
    found: &mut Vec<Note>,
) -> Result<(), AllocError> {
    if !scene
        .lines()
        .iter()
        .any(|line| line.event == Event::Cancel(cancellable))
    {
        return Ok(());
    }
    let mut heard = kept.shared.is_cancelled(cancellable);
    for number in 0..scene.script.lanes() {
        if number != scene.moment.lane {
            if let (Some(thread), Some(lane)) = (
                kept.threads.get(number as usize),
                scene.account.lane(number),
            ) {
                let connected = is_kept(thread.connected.as_slice(), cancellable);
                heard = heard || connected && !lane.view().is_cancelled(cancellable);
            }
        }
    }
    kept.shared.cancel(cancellable);
    if heard {
        add_note(scene, Difference::CancelAtOnce, None, found)?;
    }
    handlers_called(kept, scene, found)
}

/// What GLib does otherwise where a handler is connected; one that is called at once is looked at as any handler.
pub(crate) fn connected(
    kept: &mut Kept,
    scene: &Scene<'_>,
    wanted: Connection,
    found: &mut Vec<Note>,
) -> Result<(), AllocError> {
    if kept.shared.is_news_of(wanted.cancellable, scene.lane) {
        add_note(scene, Difference::CancelAtOnce, None, found)?;
    }
    match scene.lane.slots().get(wanted.slot as usize) {
        Some(Some(Named::Handler(TOO_LATE))) => handler_called(
            kept,
            scene,
            wanted.procedure,
            found,
        ),
        _ => {
            if let Some(thread) = kept.threads.get_mut(scene.moment.lane as usize) {
                keep_number(&mut thread.connected, wanted.cancellable);
                thread.handlers.push(wanted.procedure)?;
            }
            Ok(())
        }
    }
}

/// The handlers whose lines the move wrote are called.
pub(crate) fn handlers_called(
    kept: &mut Kept,
    scene: &Scene<'_>,
    found: &mut Vec<Note>,
) -> Result<(), AllocError> {
    for line in scene.lines() {
        if let Event::Handler(id) = line.event {
            let procedure = match kept.threads.get(scene.moment.lane as usize) {
                Some(thread) => thread.handler(id),
                None => None,
            };
            if let Some(procedure) = procedure {
                handler_called(kept, scene, procedure, found)?;
            }
        }
    }
    Ok(())
}

/// A handler is called: what it does to sources.
fn handler_called(
    kept: &mut Kept,
    scene: &Scene<'_>,
    procedure: u32,
    found: &mut Vec<Note>,
) -> Result<(), AllocError> {
    for action in scene.script.actions(Body::Procedure(procedure)) {
        match action {
            Action::Destroy(slot) => changed(kept, scene, *slot, found)?,
            Action::SetReady(slot, _) => ready_set(kept, scene, *slot, found)?,
            _ => {}
        }
    }
    Ok(())
}

//! Contexts of which it is asked what is ready: `pending`, and an iteration of a context that is not the thread's.
use crate::difference::Difference;
use crate::notes::{Kept, Note, Scene, add_note};
use crate::selected::{Look, look_over};
use crate::shared::{holder_of, is_free};
use context_core::Standing;
use lane_turn::Activity;
use std::alloc::AllocError;

/// Whether anything is ready, or just posted, in a context of another thread that no thread owns.
fn is_there_for_all(kept: &Kept, scene: &Scene<'_>, context: u32) -> Result<bool, AllocError> {
    if !is_free(scene.account, context) {
        return Ok(false);
    }
    if kept.shared.is_posted(context) {
        return Ok(true);
    }
    let Some(lane) = holder_of(scene.account, context) else {
        return Ok(false);
    };
    let list = lane.standings(scene.script, scene.moment.tick, context)?;
    Ok(
        list.as_slice()
            .iter()
            .any(|standing| *standing == Standing::Selected),
    )
}

/// An iteration of a context that is not the thread's.
pub(crate) fn looked_at(
    kept: &Kept,
    scene: &Scene<'_>,
    context: u32,
    found: &mut Vec<Note>,
) -> Result<(), AllocError> {
    if is_there_for_all(kept, scene, context)? {
        return add_note(scene, Difference::AnyThreadAcquires, Some(context), found);
    }
    Ok(())
}

/// It is asked whether anything is ready.
pub(crate) fn asked(
    kept: &mut Kept,
    scene: &Scene<'_>,
    context: u32,
    found: &mut Vec<Note>,
) -> Result<(), AllocError> {
    if !kept.shared.is_own(context, scene.lane) {
        return looked_at(kept, scene, context, found);
    }
    let inner = match kept.threads.get(scene.moment.lane as usize) {
        Some(thread) => thread.iteration_of(context),
        None => None,
    };
    let look = if inner.is_some() {
        Look::Iteration
    } else {
        Look::Question
    };
    if let Some(of) = kept.contexts.get_mut(context as usize) {
        look_over(scene, context, look, of, &kept.shared, found)?;
    }
    match inner {
        Some(iteration) if refills(scene, context, iteration.taken)? => {
            add_note(scene, Difference::PendingRefills, Some(context), found)
        }
        _ => Ok(()),
    }
}

/// Whether what is ready now, from the place on at which the iteration in progress is, is other than what that has left.
fn refills(scene: &Scene<'_>, context: u32, taken: usize) -> Result<bool, AllocError> {
    let Some(rows) = scene.lane.sources(context) else {
        return Ok(false);
    };
    let mut left = Vec::new(scene.alloc);
    for one in scene.lane.frames() {
        if let Activity::Iteration {
            context: of,
            left: ids,
            ..
        } = one
        {
            if of == context {
                left.clear();
                for id in ids {
                    if rows.found(*id).is_some() {
                        left.push(*id)?;
                    }
                }
            }
        }
    }
    let list = scene
        .lane
        .standings(scene.script, scene.moment.tick, context)?;
    let mut selected = 0usize;
    let mut at = 0usize;
    for (row, standing) in rows.in_order().zip(list.as_slice().iter()) {
        if *standing == Standing::Selected {
            if selected >= taken {
                if left.get(at) != Some(&row.id) {
                    return Ok(true);
                }
                at = at.saturating_add(1);
            }
            selected = selected.saturating_add(1);
        }
    }
    Ok(at != left.len())
}

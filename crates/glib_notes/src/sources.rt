//! What GLib does otherwise where a source is attached, named, made ready, given a child or another priority, by an action or a handler.
use crate::difference::Difference;
use crate::notes::{Kept, Note, Scene, add_note};
use crate::shared::holder_of;
use lane_turn::{LaneState, Named, Place, Word};
use loop_script::{Kind, SourceSpec};
use std::alloc::AllocError;

/// A source may be made whose cancellable another thread has just cancelled, or whose context another thread has just attached to.
fn made(
    kept: &Kept,
    scene: &Scene<'_>,
    context: u32,
    spec: &SourceSpec,
    found: &mut Vec<Note>,
) -> Result<(), AllocError> {
    if let Kind::Cancel(cancellable) = spec.kind {
        if kept.shared.is_news_of(cancellable, scene.lane) {
            add_note(scene, Difference::CancelAtOnce, Some(context), found)?;
        }
    }
    if kept.shared.is_posted(context) {
        add_note(
            scene,
            Difference::InvokeAttachesAtOnce,
            Some(context),
            found,
        )?;
    }
    Ok(())
}

/// What GLib does otherwise where an action attaches a source: there any thread does.
pub(crate) fn attached(
    kept: &Kept,
    scene: &Scene<'_>,
    context: u32,
    spec: &SourceSpec,
    found: &mut Vec<Note>,
) -> Result<(), AllocError> {
    if scene.has_missed(Word::Attach) {
        return add_note(scene, Difference::AnyThreadAttaches, Some(context), found);
    }
    made(kept, scene, context, spec, found)
}

/// The source that a slot named before the move.
fn named(kept: &Kept, scene: &Scene<'_>, slot: u8) -> Option<Place> {
    kept.threads.get(scene.moment.lane as usize)?.named(slot)
}

/// A slot may name something else by now.
pub(crate) fn renamed(kept: &mut Kept, scene: &Scene<'_>, slot: u8) -> Result<(), AllocError> {
    let named = match scene.lane.slots().get(slot as usize) {
        Some(Some(Named::Source(place))) => Some(*place),
        _ => None,
    };
    match kept.threads.get_mut(scene.moment.lane as usize) {
        Some(thread) => thread.name(slot, named),
        None => Ok(()),
    }
}

/// Whether a slot names a source that is there, in a context that is another thread's.
fn is_anothers(kept: &Kept, scene: &Scene<'_>, slot: u8) -> Option<Place> {
    let place = named(kept, scene, slot)?;
    if kept.shared.is_own(place.context, scene.lane) {
        return None;
    }
    let rows = holder_of(scene.account, place.context)?.sources(place.context)?;
    if rows.found(place.id).is_some() {
        Some(place)
    } else {
        None
    }
}

/// An action that changes the source of a slot.
pub(crate) fn changed(
    kept: &Kept,
    scene: &Scene<'_>,
    slot: u8,
    found: &mut Vec<Note>,
) -> Result<(), AllocError> {
    match is_anothers(kept, scene, slot) {
        Some(place) => add_note(
            scene,
            Difference::AnyThreadAttaches,
            Some(place.context),
            found,
        ),
        None => Ok(()),
    }
}

/// What GLib does otherwise where an action adds a child to the source of a slot.
pub(crate) fn child_added(
    kept: &mut Kept,
    scene: &Scene<'_>,
    parent: u8,
    spec: &SourceSpec,
    found: &mut Vec<Note>,
) -> Result<(), AllocError> {
    changed(kept, scene, parent, found)?;
    match named(kept, scene, parent) {
        Some(place) if !scene.has_missed(Word::Child) => {
            count_below(kept, scene, place)?;
            made(kept, scene, place.context, spec, found)
        }
        _ => Ok(()),
    }
}

/// Counts one more below a source and below those above it.
fn count_below(kept: &mut Kept, scene: &Scene<'_>, parent: Place) -> Result<(), AllocError> {
    let Some(of) = kept.contexts.get_mut(parent.context as usize) else {
        return Ok(());
    };
    let Some(row) = scene
        .lane
        .sources(parent.context)
        .and_then(|rows| rows.found(parent.id))
    else {
        return Ok(());
    };
    // (the lineage is filled up with the id itself)
    let mut before = None;
    for id in row.lineage.iter() {
        if before != Some(*id) {
            let mut source = of.source(*id);
            source.below = source.below.saturating_add(1);
            of.keep(*id, source)?;
        }
        before = Some(*id);
    }
    Ok(())
}

/// What GLib does otherwise where the ready time of a source is set, as of one of a cancellable.
pub(crate) fn ready_set(
    kept: &mut Kept,
    scene: &Scene<'_>,
    slot: u8,
    found: &mut Vec<Note>,
) -> Result<(), AllocError> {
    changed(kept, scene, slot, found)?;
    let Some(place) = named(kept, scene, slot) else {
        return Ok(());
    };
    let Some(row) = scene
        .lane
        .sources(place.context)
        .and_then(|rows| rows.found(place.id))
    else {
        return Ok(());
    };
    if let Kind::Cancel(cancellable) = row.kind {
        if scene.lane.view().is_cancelled(cancellable) {
            found.push(scene.note(
                Difference::CancellableSourceOnce,
                Some(place.context),
                Some(place.id),
            ))?;
        }
    }
    if let Some(of) = kept.contexts.get_mut(place.context as usize) {
        let mut source = of.source(place.id);
        source.due = None;
        of.keep(place.id, source)?;
    }
    Ok(())
}

/// What GLib does otherwise where a source gets another priority: there its children change their order.
pub(crate) fn priority_set(
    kept: &Kept,
    scene: &Scene<'_>,
    slot: u8,
    found: &mut Vec<Note>,
) -> Result<(), AllocError> {
    changed(kept, scene, slot, found)?;
    let Some(place) = named(kept, scene, slot) else {
        return Ok(());
    };
    if scene.has_missed(Word::SetPriority) || !has_two_below(kept, scene.lane, place) {
        return Ok(());
    }
    found.push(scene.note(
        Difference::PriorityTurnsChildren,
        Some(place.context),
        Some(place.id),
    ))?;
    Ok(())
}

/// Whether two sources or more stand below one. All sources are looked through only where two or more were ever attached there.
fn has_two_below(kept: &Kept, lane: &LaneState, place: Place) -> bool {
    match kept.contexts.get(place.context as usize) {
        Some(of) if of.source(place.id).below > 1 => {}
        _ => return false,
    }
    let Some(rows) = lane.sources(place.context) else {
        return false;
    };
    let mut below = 0u64;
    for row in rows.in_order() {
        if row.id != place.id && row.lineage.iter().any(|id| *id == place.id) {
            below = below.saturating_add(1);
        }
    }
    below > 1
}

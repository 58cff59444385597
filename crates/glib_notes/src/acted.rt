//! Where the action of a call does otherwise in GLib: goes over to the file of what the action is about.
use crate::asked::{asked, looked_at};
use crate::cancelled::{Connection, cancelled, connected};
use crate::difference::Difference;
use crate::notes::{Kept, Note, Scene, add_note};
use crate::owned::{acquired, given, invoked, released};
use crate::sources::{attached, changed, child_added, priority_set, ready_set, renamed};
use crate::stack::{default_used, popped, pushed, task_started};
use lane_turn::Word;
use loop_script::Action;
use std::alloc::AllocError;

/// An action is taken.
pub(crate) fn acted(
    kept: &mut Kept,
    scene: &Scene<'_>,
    action: &Action,
    found: &mut Vec<Note>,
) -> Result<(), AllocError> {
    look(kept, scene, action, found)?;
    match action {
        Action::Attach { slot, .. } | Action::Child { slot, .. } | Action::Connect { slot, .. } => {
            renamed(kept, scene, *slot)
        }
        _ => Ok(()),
    }
}

/// Looks at what an action does.
fn look(
    kept: &mut Kept,
    scene: &Scene<'_>,
    action: &Action,
    found: &mut Vec<Note>,
) -> Result<(), AllocError> {
    if scene.has_missed(Word::Quit) {
        found.push(scene.note(Difference::AnyThreadQuits, None, None))?;
    }
    match action {
        Action::Attach { context, spec, .. } => attached(kept, scene, *context, spec, found),
        Action::Child { parent, spec, .. } => child_added(kept, scene, *parent, spec, found),
        Action::Destroy(slot) => changed(kept, scene, *slot, found),
        Action::SetReady(slot, _) => ready_set(kept, scene, *slot, found),
        Action::SetPriority(slot, _) => priority_set(kept, scene, *slot, found),
        Action::Iterate(context) => looked_at(kept, scene, *context, found),
        Action::Pending(context) => asked(kept, scene, *context, found),
        Action::Run(_) if scene.has_missed(Word::Run) => add_note(
            scene,
            Difference::AnyThreadAcquires,
            None,
            found,
        ),
        Action::Cancel(cancellable) => cancelled(kept, scene, *cancellable, found),
        Action::Connect {
            cancellable,
            slot,
            proc,
        } => connected(
            kept,
            scene,
            Connection {
                cancellable: *cancellable,
                slot: *slot,
                procedure: *proc,
            },
            found,
        ),
        Action::Task(spec) => task_started(kept, scene, spec.cancel, found),
        Action::Push(context) => pushed(kept, scene, *context, found),
        Action::Pop(context) => popped(kept, scene, *context, found),
        Action::ShowDefault => default_used(kept, scene, found),
        Action::Acquire(context) => acquired(kept, scene, *context, found),
        Action::Release(context) => released(kept, scene, *context, found),
        Action::Invoke { context, .. } => invoked(kept, scene, *context, found),
        Action::Give { context, .. } => given(kept, scene, *context),
        _ => Ok(()),
    }
}

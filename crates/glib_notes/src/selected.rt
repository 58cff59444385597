//! What GLib would select where an iteration or a question looks at what is ready.
use crate::difference::Difference;
use crate::kept::{ContextKept, SourceKept};
use crate::notes::{Note, Scene};
use crate::shared::Shared;
use cancel_view::View;
use context_core::Standing;
use loop_script::Kind;
use source_rows::{Row, Rows};
use std::alloc::AllocError;

/// Why it is looked at what is ready.
#[derive(Clone, Copy, PartialEq, Eq)]
pub(crate) enum Look {
    /// What is ready is dispatched.
    Iteration,
    /// It is asked whether anything is ready, and nothing is dispatched.
    Question,
}

/// Whether a source is ready.
pub(crate) fn is_found_ready(standing: Standing) -> bool {
    matches!(standing, Standing::Selected | Standing::LessUrgent { .. })
}

/// Whether a source is left out since a call in progress blocks it.
fn is_blocked(standing: Standing) -> bool {
    matches!(standing, Standing::Blocked { .. })
}

/// Whether a source is ready of itself, before its descriptor is asked.
fn is_ready_of_itself(row: &Row, now: u64, view: &View) -> bool {
    match row.kind {
        Kind::Idle => true,
        Kind::Cancel(cancellable) if view.is_cancelled(cancellable) => true,
        _ => row.ready >= 0 && row.ready as u64 <= now,
    }
}

/// The more urgent of two priorities.
fn more_urgent(one: Option<i32>, other: i32) -> Option<i32> {
    match one {
        Some(priority) if priority <= other => Some(priority),
        _ => Some(other),
    }
}

/// The most urgent priorities of what is ready: of all, and of what is ready of itself.
#[derive(Clone, Copy)]
struct Urgent {
    all: Option<i32>,
    itself: Option<i32>,
}

/// A source that is ready or of which GLib may do otherwise, and what an iteration does with it.
#[derive(Clone, Copy)]
struct Heeded<'a> {
    row: &'a Row,
    standing: Standing,
}

impl Urgent {
    /// Those of some sources.
    fn of(scene: &Scene<'_>, heeded: &[Heeded<'_>]) -> Urgent {
        let now = scene.script.now(scene.moment.tick);
        let mut most = Urgent {
            all: None,
            itself: None,
        };
        for one in heeded {
            most.add(one.row, one.standing, now, scene.lane.view());
        }
        most
    }

    /// Counts a source that is ready among those from which the most urgent priorities are taken.
    fn add(&mut self, row: &Row, standing: Standing, now: u64, view: &View) {
        if is_found_ready(standing) {
            self.all = more_urgent(self.all, row.priority);
            if is_ready_of_itself(row, now, view) {
                self.itself = more_urgent(self.itself, row.priority);
            }
        }
    }

    /// Whether GLib would dispatch, or tell of, a source of a priority that is not ready here.
    fn lets(&self, priority: i32, look: Look) -> bool {
        match self.all {
            None => true,
            Some(cut) => look == Look::Iteration && priority <= cut,
        }
    }
}

/// Looks at what is ready in a context of the lane, and keeps what GLib keeps of it.
pub(crate) fn look_over(
    scene: &Scene<'_>,
    context: u32,
    look: Look,
    kept: &mut ContextKept,
    shared: &Shared,
    found: &mut Vec<Note>,
) -> Result<(), AllocError> {
    kept.latest = scene.moment.tick;
    if shared.is_posted(context) {
        found.push(scene.note(Difference::InvokeAttachesAtOnce, Some(context), None))?;
    }
    let Some(rows) = scene.lane.sources(context) else {
        return Ok(());
    };
    let heeded = match scene.begun {
        Some(list) => heeded_of(scene, rows, list, kept)?,
        None => {
            let list = scene
                .lane
                .standings(scene.script, scene.moment.tick, context)?;
            heeded_of(scene, rows, list.as_slice(), kept)?
        }
    };
    let most = Urgent::of(scene, heeded.as_slice());
    for one in heeded.as_slice() {
        let Heeded { row, standing } = *one;
        let lets = most.lets(row.priority, look);
        if let Some(difference) = parts(scene, row, standing, kept.source(row.id), lets, shared) {
            found.push(scene.note(difference, Some(context), Some(row.id)))?;
        }
        if is_found_ready(standing)
            && (most.all == Some(row.priority) || most.itself == Some(row.priority))
        {
            let mut source = kept.source(row.id);
            source.flagged = true;
            kept.keep(row.id, source)?;
        }
    }
    Ok(())
}

/// Those of some rows, each with its standing, that are ready or of which GLib may do otherwise.
fn heeded_of<'a>(
    scene: &Scene<'_>,
    rows: &'a Rows,
    standings: &[Standing],
    kept: &ContextKept,
) -> Result<Vec<Heeded<'a>>, AllocError> {
    let mut heeded = Vec::new(scene.alloc);
    for (row, standing) in rows.in_order().zip(standings.iter()) {
        let is_of_cancellable = matches!(row.kind, Kind::Cancel(_));
        if is_found_ready(*standing) || is_of_cancellable || kept.source(row.id).may_be_ready() {
            heeded.push(Heeded {
                row,
                standing: *standing,
            })?;
        }
    }
    Ok(heeded)
}

/// How GLib parts from the rules in what it does with a source.
fn parts(
    scene: &Scene<'_>,
    row: &Row,
    standing: Standing,
    source: SourceKept,
    lets: bool,
    shared: &Shared,
) -> Option<Difference> {
    if let Kind::Cancel(cancellable) = row.kind {
        if shared.is_news_of(cancellable, scene.lane) {
            return Some(Difference::CancelAtOnce);
        }
        let again = source.dispatched && scene.lane.view().is_cancelled(cancellable);
        if again && !is_blocked(standing) {
            return Some(Difference::CancellableSourceOnce);
        }
    }
    if is_found_ready(standing) || is_blocked(standing) || !lets {
        return None;
    }
    if source.flagged {
        return Some(Difference::ReadyFlagStays);
    }
    match source.due {
        Some(due) if due <= scene.script.now(scene.moment.tick) => {
            Some(Difference::TimeoutCachedTime)
        }
        _ => None,
    }
}

//! Contexts and views, as the rows of a table describe them.
ghost use Rattle.std.specs.Prelude.{◌+◌, ◌≤◌, ◌^◌};

use cancel_view::View;
use context_core::Context;
use loop_script::{Kind, SourceSpec};
use source_rows::{Levels, RowsFault};
use std::alloc::Global;

/// A source as a row describes it; a child has its parent's priority.
#[derive(Clone, Copy)]
pub(crate) enum Source {
    Root(Kind, i32),
    Child(u64, Kind),
}

/// A context with few enough sources ahead that each may be added.
#[derive(Drop)]
pub(crate) struct Tried {
    pub(crate) context: Context,
    left: u32,
    ghost ids: { context.rows.next_id + left ≤ 2 ^ 62 },
    ghost orders: { context.rows.next_order + left ≤ 2 ^ 62 },
}

impl Tried {
    fn new(alloc: Global, levels: Levels) -> Tried {
        Tried {
            context: Context::new(alloc, levels),
            left: 1000,
        }
    }

    /// Adds sources, and tells whether there is memory for all.
    fn add_all(&mut self, sources: &[Source]) -> bool {
        for source in sources {
            if self.add(source).is_err() {
                return false;
            }
        }
        true
    }

    fn add(&mut self, source: &Source) -> Result<u64, RowsFault> {
        if self.left == 0 {
            return Err(RowsFault::OutOfMemory);
        }
        self.left -= 1;
        let rows = self.context.rows_mut();
        let added = match source {
            Source::Root(kind, priority) => rows.attach(spec(*kind, *priority), 0),
            Source::Child(parent, kind) => rows.add_child(*parent, spec(*kind, 0), 0),
        };
        match added {
            Ok(id) => Ok(id),
            Err(fault) => Err(fault),
        }
    }
}

fn spec(kind: Kind, priority: i32) -> SourceSpec {
    SourceSpec {
        kind,
        priority,
        recurse: false,
        call: None,
    }
}

/// A context, and the view that it is asked by.
#[derive(Drop)]
pub(crate) struct Asked {
    pub(crate) tried: Tried,
    pub(crate) view: View,
}

/// A context with these sources, the first of which is 1, and the view of one cancellable, before it is cancelled or after; none where
/// memory is refused.
pub(crate) fn made(
    alloc: Global,
    levels: Levels,
    sources: &[Source],
    cancelled: bool,
) -> Option<Asked> {
    let mut tried = Tried::new(alloc, levels);
    if !tried.add_all(sources) {
        return None;
    }
    match viewed(alloc, cancelled) {
        Some(view) => Some(Asked { tried, view }),
        None => None,
    }
}

fn viewed(alloc: Global, cancelled: bool) -> Option<View> {
    let mut view = View::new(alloc, 1).ok()?;
    if cancelled && view.cancel(alloc, 0).is_err() {
        return None;
    }
    Some(view)
}

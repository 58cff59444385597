//! What an iteration begun now would do with one source, and why; `context` goes over all.
ghost use Rattle.std.specs.Prelude.{◌≡◌};
ghost use Rattle.context_core.specs.Phases.{shown};
ghost use Rattle.context_core.specs.Standing.{blocker, until_of, waiting, standing_behind, standing_by};

use crate::busy::Busy;
use crate::polled::Polled;
use loop_script::Kind;
use source_rows::Row;

/// What an iteration begun now would do with a source.
#[derive(Clone, Copy, Debug, PartialEq, Eq)]
pub enum Standing {
    /// It would dispatch it.
    Selected,
    /// The source is ready, and a more urgent one is too: the one that goes first, with its priority.
    LessUrgent {
        than: u64,
        priority: i32,
    },
    /// A call in progress that may not recurse blocks it: its own, else the nearest of those above it.
    Blocked {
        by: u64,
    },
    /// Its ready time, in microseconds, has not come; None where it never does.
    Asleep {
        until: Option<u64>,
    },
    /// Its descriptor shows none of the bits that it asks for, and no ready time that it has beside has come.
    NotShown {
        fd: u32,
        shown: u8,
        asked: u8,
        until: Option<u64>,
    },
    /// Its cancellable is not seen as cancelled, and no ready time that it has beside has come.
    NotCancelled {
        cancellable: u32,
        until: Option<u64>,
    },
}

/// The nearest source whose call in progress blocks a row.
fn blocker(row: &Row, busy: &Busy) -> Option<u64>
    ensures { result ≡ blocker busy.now row.now }
{
    row.lineage.iter().rev().copied().find(|id| busy.has(*id))
}

/// A ready time that comes.
fn until(ready: i64) -> Option<u64>
    ensures { result ≡ until_of ready }
{
    if ready < 0 { None } else { Some(ready as u64) }
}

/// What a source waits for that is not ready by itself.
fn waiting(row: &Row, polled: &Polled) -> Standing
    ensures { result ≡ waiting (shown polled.now) row.now }
{
    let until = until(row.ready);
    match row.kind {
        Kind::Fd(fd, asked) => Standing::NotShown {
            fd,
            shown: polled.level(fd),
            asked,
            until,
        },
        Kind::Cancel(cancellable) => Standing::NotCancelled { cancellable, until },
        _ => Standing::Asleep { until },
    }
}

/// Whether a ready row is selected, behind the ready one that goes first.
fn behind(first: Option<Row>, row: &Row) -> Standing
    ensures { result ≡ standing_behind first row.now }
{
    match first {
        Some(first) if first.priority < row.priority => Standing::LessUrgent {
            than: first.id,
            priority: first.priority,
        },
        _ => Standing::Selected,
    }
}

/// What an iteration would do with a row.
pub(crate) fn stand(
    row: &Row,
    ready: bool,
    first: Option<Row>,
    polled: &Polled,
    busy: &Busy,
) -> Standing
    ensures { result ≡ standing_by (shown polled.now) (blocker busy.now row.now) ready first row.now }
{
    if let Some(by) = blocker(row, busy) {
        return Standing::Blocked { by };
    }
    if ready {
        behind(first, row)
    } else {
        waiting(row, polled)
    }
}

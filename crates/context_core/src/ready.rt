//! Whether one source is ready, by its kind and the time, is blocked, or less urgent than what is dispatched; what it asks of its descriptor, when it is due.
ghost use Rattle.std.specs.Prelude.{◌≡◌, ◌≤◌, ◌^◌, ◌==◌, Some, None, IfSome, IsTrue, int_lt, pos, true, if◌then◌else◌};
ghost use Rattle.loop_script.specs.Bounds.{latest};
ghost use Rattle.source_rows.specs.Rows.{is_under, sooner};
ghost use Rattle.std.specs.List.{find, list_any};
ghost use Rattle.std.specs.Option.{is_some};
ghost use Rattle.context_core.specs.Ready.{in_view, is_due, has_bit, own_ready, is_blocked, is_free};
ghost use Rattle.context_core.specs.Standing.{is_in_call};
ghost use Rattle.context_core.specs.Phases.{less_urgent, shown, is_asked, interest_of, ms_until};

use crate::busy::Busy;
use crate::interest::Interest;
use crate::polled::Polled;
use cancel_view::View;
use loop_script::Kind;
use source_rows::Row;

/// The bits of an error (8), a hang-up (16) and an invalid descriptor (32), which are told whether they are asked for or not.
const ALWAYS_TOLD: u8 = 56;

/// Whether a ready time has come.
fn is_due(ready: i64, now: u64) -> bool
    requires { now ≤ latest }
    ensures { result ≡ is_due now ready }
{
    0 <= ready && ready <= now as i64
}

/// Whether a level has a bit that is asked for, or one that is always told.
fn has_bit(level: u8, bits: u8) -> bool
    ensures { result ≡ has_bit level bits }
{
    level & (bits | ALWAYS_TOLD) != 0
}

/// Whether a source is ready by itself.
#[inline]
pub(crate) fn own_ready(row: &Row, polled: &Polled, now: u64, view: &View) -> bool
    requires { now ≤ latest }
    ensures { result ≡ own_ready (shown polled.now) (in_view view.now) now row.now }
{
    match row.kind {
        Kind::Idle => true,
        Kind::Fd(fd, bits) => has_bit(polled.level(fd), bits) || is_due(row.ready, now),
        Kind::Cancel(c) => view.is_cancelled(c) || is_due(row.ready, now),
        _ => is_due(row.ready, now),
    }
}

/// The first id of a lineage that is listed. A lineage is filled up with its last id, which is looked for once.
#[inline(never)]
fn first_listed(lineage: &[u64], busy: &Busy) -> Option<u64>
    ensures { result ≡ find (is_in_call busy.now) lineage.now }
{
    let mut last = None;
    for id in lineage {
        if last != Some(*id) {
            if busy.has(*id) {
                return Some(*id);
            }
            last = Some(*id);
        }
    }
    None
}

/// The outermost of a source and those above it of which a call is in progress.
#[inline]
pub(crate) fn outermost_blocker(row: &Row, busy: &Busy) -> Option<u64>
    ensures some { IfSome result (λ id. (is_in_call busy.now id ≡ true) × (is_under id row.now ≡ true)) }
    ensures any { is_some result ≡ is_blocked busy.now row.now }
{
    if busy.is_empty() {
        return None;
    }
    first_listed(&row.lineage, busy)
}

/// Whether no call of a source, or of one above it, is in progress.
#[inline]
pub(crate) fn is_free(row: &Row, busy: &Busy) -> bool
    ensures { result ≡ is_free busy.now row.now }
{
    outermost_blocker(row, busy).is_none()
}

/// Whether a priority is less urgent than the least known.
pub(crate) fn is_beyond(least: Option<i32>, priority: i32) -> bool
    ensures { result ≡ less_urgent least priority }
{
    match least {
        None => false,
        Some(known) => known < priority,
    }
}

/// What a source asks of a descriptor, where it is free and not less urgent than the least known priority.
pub(crate) fn interest(row: &Row, least: Option<i32>, busy: &Busy) -> Option<Interest>
    ensures { result ≡ (if is_asked least busy.now row.now then Some (interest_of row.now) else None) }
{
    match row.kind {
        Kind::Fd(fd, bits) => {
            if is_free(row, busy) && !is_beyond(least, row.priority) {
                Some(Interest { fd, bits })
            } else {
                None
            }
        }
        _ => None,
    }
}

/// The sooner of a ready time and one that there may be, where it is above now.
pub(crate) fn sooner_ready(least: Option<i64>, ready: i64, now: u64) -> Option<i64>
    requires { now ≤ latest }
    ensures { result ≡ (if int_lt (pos now) ready then Some (sooner ready least) else least) }
{
    if ready <= now as i64 {
        return least;
    }
    match least {
        Some(known) if known < ready => least,
        _ => Some(ready),
    }
}

/// Whole milliseconds, rounded up, from a time in microseconds to a later one; -1 where there is none.
pub(crate) fn ms_until(now: u64, time: Option<i64>) -> i64
    requires now { now ≤ latest }
    requires later { IfSome time (λ t. IsTrue (int_lt (pos now) t)) }
    ensures { result ≡ ms_until now time }
{
    match time {
        None => -1,
        Some(time) => (time as u64 - now).div_ceil(1000) as i64,
    }
}

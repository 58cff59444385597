//! Whether a row is ready, as a walk in order comes by it.
ghost use Rattle.std.specs.Prelude.{◌≡◌, false, ◌≤◌, ◌<◌, ◌==◌, ◌&&◌, ◌||◌, IfOk, OnOk, ℕ, None};
ghost use Rattle.loop_script.specs.Bounds.{latest};
ghost use Rattle.std.specs.List.{list_any};
ghost use Rattle.std.specs.Ordering.{nat_cmp};
ghost use Rattle.std.specs.BTreeSet.{contains};
ghost use Rattle.context_core.specs.Ready.{in_view, own_ready, is_free, is_callable};
ghost use Rattle.context_core.specs.Lent.{lends, lends_free};
ghost use Rattle.context_core.specs.Phases.{shown};

use crate::busy::Busy;
use crate::polled::Polled;
use crate::ready::{is_free, own_ready};
use cancel_view::View;
use source_rows::Row;
use std::alloc::AllocError;
use std::collections::BTreeSet;

/// Whether a row is ready, where `lent` has the ids that the rows before it lend to. A child that is free and ready by itself then lends
/// to those above it.
pub(crate) fn visit(
    lent: &mut BTreeSet<u64>,
    row: &Row,
    polled: &Polled,
    now: u64,
    busy: &Busy,
    view: &View,
) -> Result<bool, AllocError>
    requires { now ≤ latest }
    ensures lent { OnOk result ((id : ℕ) → contains nat_cmp lent.new id
        ≡ (lends (own_ready (shown polled.now) (in_view view.now) now) busy.now id row.now || contains nat_cmp lent.old id)) }
    ensures ready { IfOk result (λ ready. ready
        ≡ (is_free busy.now row.now && (is_callable (own_ready (shown polled.now) (in_view view.now) now) busy.now row.now || contains nat_cmp lent.old row.now.id))) }
{
    if !is_free(row, busy) {
        return Ok(false);
    }
    visit_free(lent, row, polled, now, view)
}

/// The same of a row that is free.
#[inline]
pub(crate) fn visit_free(
    lent: &mut BTreeSet<u64>,
    row: &Row,
    polled: &Polled,
    now: u64,
    view: &View,
) -> Result<bool, AllocError>
    requires { now ≤ latest }
    ensures lent { OnOk result ((id : ℕ) → contains nat_cmp lent.new id ≡ (lends_free (own_ready (shown polled.now) (in_view view.now) now) id row.now || contains nat_cmp lent.old id)) }
    ensures ready { IfOk result (λ ready. ready ≡ (own_ready (shown polled.now) (in_view view.now) now row.now || contains nat_cmp lent.old row.now.id)) }
{
    if !own_ready(row, polled, now, view) {
        return Ok(lent.contains(&row.id));
    }
    if row.parent.is_some() {
        lend(lent, &row.lineage)?;
    }
    Ok(true)
}

/// Puts the ids of a lineage into a set. A lineage is filled up with its last id, which is put in once.
fn lend(ids: &mut BTreeSet<u64>, lineage: &[u64]) -> Result<(), AllocError>
    ensures { OnOk result ((id : ℕ) → contains nat_cmp ids.new id ≡ (list_any (λ i. i == id) lineage.now || contains nat_cmp ids.old id)) }
{
    let mut last = None;
    for id in lineage {
        if last != Some(*id) {
            if ids.insert(*id).is_err() {
                return Err(AllocError);
            }
            last = Some(*id);
        }
    }
    Ok(())
}

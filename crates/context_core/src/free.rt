//! An iterator over the rows of a context that may be ready and are free, in order.
//! Where a call in progress blocks one, all that it blocks is left out by one search, so a context is looked at as if what is blocked were not there.
ghost use Rattle.std.specs.Prelude.{◌≡◌, filter, length, not, true, false};
ghost use Rattle.std.specs.Iterator.{at_most};
ghost use Rattle.std.specs.Map.Iter.{TakesFirst};
ghost use Rattle.source_rows.specs.Rows.{is_under};
ghost use Rattle.context_core.specs.Ready.{is_free};

use crate::busy::Busy;
use crate::ready::outermost_blocker;
use source_rows::{Candidates, Row};
use std::iter::Iterator;
use std::marker::Model;

/// What of some candidates no call in progress blocks.
#[derive(Drop)]
pub(crate) struct FreeRows<'a> {
    rows: Candidates<'a>,
    busy: &'a Busy<'a>,
}

impl<'a> Model for FreeRows<'a> {
    ghost use Rattle.std.specs.Prelude.{List, filter};
    ghost use Rattle.source_rows.specs.declared.row.Row.{Row};
    ghost use Rattle.context_core.specs.Ready.{is_free};

    ghost Value = { List Row };

    ghost view = { λ f. filter (is_free f.busy.now) f.rows };
}

impl<'a> FreeRows<'a> {
    /// Those of some rows that no call in progress blocks.
    pub fn new(rows: Candidates<'a>, busy: &'a Busy<'a>) -> FreeRows<'a>
        ensures { result ≡ filter (is_free busy.now) rows.entry }
    {
        FreeRows { rows, busy }
    }
}

impl<'a> Iterator for FreeRows<'a> {
    type Item = &'a Row;

    ghost next_gives = { TakesFirst (λ r. r.now) };

    ghost remaining = { λ s. at_most (length s) };

    #[inline]
    fn next(&mut self) -> Option<&'a Row> {
        let mut row = self.rows.next()?;
        while let Some(id) = outermost_blocker(row, self.busy) {
            leave_under(&mut self.rows, row, id);
            row = self.rows.next()?;
        }
        Some(row)
    }
}

/// Leaves out what stands under the blocker of the row that came last, where that is another one: what is under the row itself came before it.
#[inline]
fn leave_under(rows: &mut Candidates<'_>, row: &Row, id: u64) -> bool
    ensures left { result ≡ true → rows.new ≡ filter (λ r. not (is_under id r)) rows.old }
    ensures same { result ≡ false → rows.new ≡ rows.old }
{
    id != row.id && rows.leave(id)
}

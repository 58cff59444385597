//! Iterators over all rows and all ids of a context, in the order in which an iteration dispatches them.
ghost use Rattle.std.specs.Prelude.{◌≡◌, length};
ghost use Rattle.std.specs.Iterator.{at_most};
ghost use Rattle.std.specs.Map.Iter.{TakesFirst};
ghost use Rattle.source_rows.specs.InOrder.{AllFound, ids_of, rows_of};

use crate::row::Row;
use crate::table::Table;
use crate::walk::Walk;
use std::iter::Iterator;
use std::marker::Model;

/// The ids of rows in the order in which an iteration dispatches them.
#[derive(Drop)]
pub struct Ordered<'a> {
    walk: Walk<'a>,
}

impl<'a> Model for Ordered<'a> {
    ghost use Rattle.std.specs.Prelude.{List};
    ghost use Rattle.loop_script.specs.Units.{SourceId};
    ghost use Rattle.source_rows.specs.InOrder.{ids_of};

    ghost Value = { List SourceId };

    ghost view = { λ a. ids_of a.walk };
}

impl<'a> Ordered<'a> {
    /// The ids of some seats.
    pub(crate) fn new(walk: Walk<'a>) -> Ordered<'a>
        ensures { result ≡ ids_of walk.entry }
    {
        Ordered { walk }
    }
}

impl<'a> Iterator for Ordered<'a> {
    type Item = &'a u64;

    ghost next_gives = { TakesFirst (λ id. id.now) };

    ghost remaining = { λ s. at_most (length s) };

    fn next(&mut self) -> Option<&'a u64> {
        let seat = self.walk.next()?;
        Some(&seat.id)
    }
}

/// An iterator over rows in the order in which an iteration dispatches them.
#[derive(Drop)]
pub struct InOrder<'a> {
    walk: Walk<'a>,
    table: &'a Table,
}

impl<'a> Model for InOrder<'a> {
    ghost use Rattle.std.specs.Prelude.{List};
    ghost use Rattle.source_rows.specs.declared.row.Row.{Row};
    ghost use Rattle.source_rows.specs.InOrder.{AllFound, ids_of, rows_of};

    ghost Value = { List Row };

    ghost view = { λ a. rows_of a.table.now (ids_of a.walk) };

    ghost invariant = { λ a. AllFound a.table.now (ids_of a.walk) };
}

impl<'a> InOrder<'a> {
    /// The rows of some seats.
    pub(crate) fn new(walk: Walk<'a>, table: &'a Table) -> InOrder<'a>
        requires { AllFound table.now (ids_of walk) }
        ensures { result ≡ rows_of table.now (ids_of walk.entry) }
    {
        InOrder { walk, table }
    }
}

impl<'a> Iterator for InOrder<'a> {
    type Item = &'a Row;

    ghost next_gives = { TakesFirst (λ r. r.now) };

    ghost remaining = { λ s. at_most (length s) };

    fn next(&mut self) -> Option<&'a Row> {
        let seat = self.walk.next()?;
        self.table.found(seat.id)
    }
}

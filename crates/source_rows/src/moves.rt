//! Many rows at once that go to new slots, each in the place of another.
ghost use Rattle.std.specs.Prelude.{◌≡◌, map};
ghost use Rattle.source_rows.specs.InOrder.{rows_of};
ghost use Rattle.source_rows.specs.Moves.{with_each, moved_row, NoneTwice};

use crate::table::Table;

/// Gives the rows of ids the priority and the order number that the root over them gets.
pub(crate) fn move_rows(table: &mut Table, ids: &[u64], root: u64, priority: i32, order: u64)
    requires { NoneTwice ids.now }
    ensures { table.new ≡ with_each (map (moved_row root priority order) (rows_of table.old ids.now)) table.old }
{
    for id in ids {
        table.move_row(*id, root, priority, order);
    }
}

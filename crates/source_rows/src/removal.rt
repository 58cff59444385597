//! Taking a row away with all that are below it.
ghost use Rattle.std.specs.Prelude.{◌≡◌, false, filter, not, IfSome, IfNone, Some, true};
ghost use Rattle.std.specs.List.{AllByRecursion};
ghost use Rattle.source_rows.specs.Rows.{row_of, is_under};
ghost use Rattle.source_rows.specs.Removal.{StandNear, AreDistinct};

use crate::row::{Key, Row};
use crate::table::Table;

/// The last row up to a key, where it is under an id.
fn last_under(table: &Table, key: Key, id: u64) -> Option<Row>
    requires distinct { AreDistinct table.now }
    requires near { StandNear id key table.now }
    ensures some { IfSome result (λ r. row_of r.id table.now ≡ Some r) }
    ensures under { IfSome result (λ r. is_under id r ≡ true) }
    ensures none { IfNone result (AllByRecursion (λ r. is_under id r ≡ false) table.now) }
{
    let Some(row) = table.last_to(key) else {
        return None;
    };
    if !row.lineage.contains(&id) {
        return None;
    }
    Some(*row)
}

/// Takes a row away with all that are under it: these stand right before it, up to its key.
pub(crate) fn remove_under(table: &mut Table, key: Key, id: u64)
    requires distinct { AreDistinct table.old }
    requires near { StandNear id key table.old }
    ensures { table.new ≡ filter (λ r. not (is_under id r)) table.old }
{
    while let Some(row) = last_under(table, key, id) {
        table.remove(row.id);
    }
}

//! How deep tables and arrays nest.
ghost use Rattle.std.specs.Prelude.{◌≤◌, ◌↔◌, IsTrue};
ghost use Rattle.toml.specs.Data.{depth, items_depth, members_depth};
ghost use Rattle.toml.specs.View.{view, array_view, table_view};

use toml::Value;
use toml::value::{Array, Table};

/// Whether a value nests at most so deep.
#[cycle(nesting)]
fn nests_within(value: &Value, levels: u32) -> bool
    ensures { IsTrue result ↔ (depth (view value.now) ≤ levels) }
{
    match value {
        Value::Array(items) => levels > 0 && items_nest_within(items, levels - 1),
        Value::Table(members) => levels > 0 && members_nest_within(members, levels - 1),
        _ => true,
    }
}

/// Whether the items of an array nest no deeper than so many levels.
#[cycle(nesting)]
fn items_nest_within(items: &Array, levels: u32) -> bool
    ensures { IsTrue result ↔ (items_depth (array_view items.now) ≤ levels) }
{
    for item in items {
        if !nests_within(item, levels) {
            return false;
        }
    }
    true
}

/// Whether each value of a table nests at most so deep.
#[cycle(nesting)]
pub(crate) fn members_nest_within(table: &Table, levels: u32) -> bool
    ensures { IsTrue result ↔ (members_depth (table_view table.now) ≤ levels) }
{
    'members: for (_, member) in table.iter() {
        if !nests_within(member, levels) {
            return false;
        }
    }
    true
}

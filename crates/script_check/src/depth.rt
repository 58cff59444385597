//! Whether a value nests deeper than a limit.
ghost use Rattle.std.specs.Prelude.{◌≡◌, nat_lt};
ghost use Rattle.serde_json.specs.View.{view, items_view, members_view};
ghost use Rattle.serde_json.specs.Data.{depth, items_depth, members_depth};

use serde_json::{Map, Value};

/// Whether lists and objects nest deeper than so many levels.
#[cycle(is_deeper)]
pub(crate) fn is_deeper(value: &Value, levels: u32) -> bool
    ensures { result ≡ nat_lt levels (depth (view value.now)) }
{
    match value {
        Value::Array(items) => levels == 0 || some_item_is_deeper(items.as_slice(), levels - 1),
        Value::Object(members) => levels == 0 || some_member_is_deeper(members, levels - 1),
        _ => false,
    }
}

/// Whether lists and objects nest deeper than so many levels in some item of a JSON list.
#[cycle(is_deeper)]
fn some_item_is_deeper(items: &[Value], levels: u32) -> bool
    ensures { result ≡ nat_lt levels (items_depth (items_view items.now)) }
{
    for item in items {
        if is_deeper(item, levels) {
            return true;
        }
    }
    false
}

/// Whether lists and objects nest deeper than so many levels in the value of some key of a JSON object.
#[cycle(is_deeper)]
fn some_member_is_deeper(members: &Map<String, Value>, levels: u32) -> bool
    ensures { result ≡ nat_lt levels (members_depth (members_view members.now.entries)) }
{
    for (_name, member) in members.iter() {
        if is_deeper(member, levels) {
            return true;
        }
    }
    false
}

//! Writing a value of TOML as the JSON value that stands for it.
ghost use Rattle.std.specs.Prelude.{◌≡◌, IfErr, None, OnOk};
ghost use Rattle.toml.specs.View.{view, array_view, table_view};
ghost use Rattle.toml_names.specs.Meaning.{json_of, list_of, members_of};
ghost use Rattle.toml_names.specs.Writing.{Writes, WritesList, WritesMembers, Blames};

use crate::fault::{TomlFault, Unfit};
use crate::place::Place;
use json::Writer;
use std::alloc::Global;
use toml::Value;
use toml::value::{Array, Table};

/// Writes a value, which lies at a place. An error leaves a part of it written.
#[cycle(value)]
fn write_value(
    alloc: Global,
    writer: &mut Writer,
    value: &Value,
    place: &Place<'_>,
) -> Result<(), TomlFault>
    ensures before { OnOk result (writer.new.before ≡ writer.old.before) }
    ensures ok { OnOk result (Writes writer.old.tokens writer.new.tokens (json_of (view value.now))) }
    ensures fault { IfErr result (Blames (json_of (view value.now) ≡ None)) }
{
    match value {
        Value::String(text) => Ok(writer.string(text.as_str())?),
        Value::Integer(number) => Ok(writer.i64(*number)?),
        Value::Boolean(flag) => Ok(writer.boolean(*flag)?),
        Value::Array(items) => write_items(alloc, writer, items, place),
        Value::Table(members) => write_members(alloc, writer, members, place),
        Value::Float(_) => Err(TomlFault::NoJson {
            unfit: Unfit::Float,
            pointer: place.pointer(alloc)?,
        }),
        Value::Datetime(_) => Err(TomlFault::NoJson {
            unfit: Unfit::Datetime,
            pointer: place.pointer(alloc)?,
        }),
    }
}

/// Writes the items of an array of TOML as a list of JSON.
#[cycle(value)]
fn write_items(
    alloc: Global,
    writer: &mut Writer,
    items: &Array,
    place: &Place<'_>,
) -> Result<(), TomlFault>
    ensures before { OnOk result (writer.new.before ≡ writer.old.before) }
    ensures ok { OnOk result (WritesList writer.old.tokens writer.new.tokens (list_of (array_view items.now))) }
    ensures fault { IfErr result (Blames (list_of (array_view items.now) ≡ None)) }
{
    writer.begin_array()?;
    'items: for (index, item) in items.iter().enumerate() {
        write_value(alloc, writer, item, &Place::Item(place, index))?;
    }
    Ok(writer.end_array()?)
}

/// Writes a table, which lies at a place, as an object. An error leaves a part of it written.
#[cycle(value)]
pub(crate) fn write_members(
    alloc: Global,
    writer: &mut Writer,
    table: &Table,
    place: &Place<'_>,
) -> Result<(), TomlFault>
    ensures before { OnOk result (writer.new.before ≡ writer.old.before) }
    ensures ok { OnOk result (WritesMembers writer.old.tokens writer.new.tokens (members_of (table_view table.now))) }
    ensures fault { IfErr result (Blames (members_of (table_view table.now) ≡ None)) }
{
    writer.begin_object()?;
    'members: for (key, member) in table.iter() {
        let name = key.as_str();
        writer.key(name)?;
        write_value(alloc, writer, member, &Place::Key(place, name))?;
    }
    Ok(writer.end_object()?)
}

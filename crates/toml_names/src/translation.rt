//! From the bytes of TOML to those of JSON: the public call.
ghost use Rattle.std.specs.Prelude.{IfErr, IfOk};
ghost use Rattle.toml_names.specs.Answer.{StandsFor, IsFaultOf};

use crate::fault::TomlFault;
use crate::nesting::members_nest_within;
use crate::place::Place;
use crate::value::write_members;
use json::Writer;
use std::alloc::Global;

/// How deep what stands in a table may nest, so that its JSON text can be read.
const MOST_LEVELS: u32 = 127;

/// The JSON text of the value that bytes are in TOML: tables are objects, with their members in the order of the bytes of their keys.
pub fn json_of_toml(alloc: Global, bytes: &[u8]) -> Result<Vec<u8>, TomlFault>
    ensures ok { IfOk result (λ text. StandsFor bytes.now text.items) }
    ensures fault { IfErr result (IsFaultOf bytes.now) }
{
    let table = match toml::table_from_slice(alloc, bytes) {
        Ok(table) => table,
        Err(error) if error.is_memory() => return Err(TomlFault::OutOfMemory),
        Err(error) => return Err(TomlFault::NotToml(error)),
    };
    if !members_nest_within(&table, MOST_LEVELS) {
        return Err(TomlFault::TooDeep);
    }
    let mut writer = Writer::new(Vec::new(alloc));
    write_members(alloc, &mut writer, &table, &Place::Top)?;
    Ok(writer.into_inner())
}

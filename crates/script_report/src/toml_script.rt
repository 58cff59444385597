//! Scripts in TOML: the JSON text that one stands for, and what is wrong where it stands for none.
ghost use Rattle.std.specs.Prelude.{IfOk};
ghost use Rattle.script_report.specs.TomlVerdict.{IsJsonOf, JudgesFile};

use crate::cursor::Cursor;
use crate::forms::check_either;
use crate::report::{Form, Language, Said, TextPlace, push_told, push_unreadable};
use std::alloc::{AllocError, Global};
use toml_names::{TomlFault, json_of_toml};

/// What a script may hold.
const VALUES: &str = "a text, a whole number, true, false, a list or a table is wanted";

/// The JSON text of the value that bytes are in TOML. With None what is wrong was added; after an error a part of that was.
pub fn read_toml(
    alloc: Global,
    form: &Form<'_>,
    bytes: &[u8],
    out: &mut String,
) -> Result<Option<Vec<u8>>, AllocError>
    ensures { IfOk result (IsJsonOf bytes.now) }
{
    match json_of_toml(alloc, bytes) {
        Ok(text) => Ok(Some(text)),
        Err(TomlFault::OutOfMemory) => Err(AllocError),
        Err(fault) => {
            push_no_json(alloc, form, bytes, &fault, out)?;
            Ok(None)
        }
    }
}

/// Adds what is wrong with the script of a file, which may be TOML, as `check_either` does.
pub fn check_file(
    alloc: Global,
    form: &Form<'_>,
    bytes: &[u8],
    out: &mut String,
) -> Result<bool, AllocError>
    ensures { IfOk result (JudgesFile form.now.language bytes.now) }
{
    match form.language {
        Language::Json => check_either(alloc, form, bytes, out),
        Language::Toml => match read_toml(alloc, form, bytes, out)? {
            Some(text) => check_either(alloc, form, text.as_slice(), out),
            None => Ok(false),
        },
    }
}

/// Adds why bytes stand for no JSON value.
fn push_no_json(
    alloc: Global,
    form: &Form<'_>,
    bytes: &[u8],
    fault: &TomlFault,
    out: &mut String,
) -> Result<(), AllocError> {
    match fault {
        TomlFault::NotToml(error) => {
            let byte = error.span().map_or(0, |span| span.start);
            let said = Said {
                class: "not toml",
                wanted: "one TOML document",
                found: error.message(),
            };
            let at = Cursor::start().to(bytes, byte);
            push_unreadable(alloc, form, bytes, Some(at), &said, out)
        }
        TomlFault::NoJson { unfit, pointer } => {
            let found = format!(in alloc; "this is {unfit}")?;
            let said = Said {
                class: "shape",
                wanted: VALUES,
                found: found.as_str(),
            };
            push_one(alloc, form, pointer.as_str(), &said, out)
        }
        TomlFault::TooDeep => {
            let said = Said {
                class: "shape",
                wanted: "tables and lists are at most 128 deep",
                found: "these are deeper",
            };
            push_one(alloc, form, "", &said, out)
        }
        TomlFault::OutOfMemory => Err(AllocError),
    }
}

/// Adds a fault that is the only one.
fn push_one(
    alloc: Global,
    form: &Form<'_>,
    pointer: &str,
    said: &Said<'_>,
    out: &mut String,
) -> Result<(), AllocError> {
    let place = TextPlace {
        pointer,
        at: None,
        marked: 0,
    };
    push_told(alloc, out, form, &[], said, &place)?;
    if form.json {
        return Ok(());
    }
    out.push_str("1 fault\n")
}

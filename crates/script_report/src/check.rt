//! The whole answer for the bytes of a script: its summary, or its faults as `forms` has them told.
ghost use Rattle.std.specs.Prelude.{IfOk};
ghost use Rattle.script_report.specs.Verdict.{Judges};

use crate::cursor::Cursor;
use crate::layout::layout_of;
use crate::report::{Form, Said, push_faults, push_unreadable};
use crate::summary::{Threads, summary};
use loop_script::Script;
use script_check::script_faults;
use serde_json::Value;
use std::alloc::{AllocError, Global};
use std::str::from_utf8;

/// Adds what is wrong with a script, each fault with its place, or that nothing is; and answers whether nothing is, so whether
/// `Script::read` reads it. After an error a part of that was added.
pub fn check_script(
    alloc: Global,
    form: &Form<'_>,
    bytes: &[u8],
    out: &mut String,
) -> Result<bool, AllocError>
    ensures { IfOk result (λ fine. Judges bytes.now fine) }
{
    let value = match Value::from_slice(alloc, bytes) {
        Ok(value) => value,
        Err(error) if error.is_memory() => return Err(AllocError),
        Err(error) => {
            let why = format!(in alloc; "{error}")?;
            let at = Cursor::of_line(bytes, error.line(), error.column());
            let said = Said {
                class: "not json",
                wanted: "one JSON value",
                found: why.as_str(),
            };
            let place = form.told_at(Some(at));
            push_unreadable(alloc, form, bytes, place, &said, out)?;
            return Ok(false);
        }
    };
    let faults = script_faults(alloc, &value)?;
    if faults.is_empty() {
        push_summary(alloc, form, Threads::Lanes, bytes, out)?;
        return Ok(true);
    }
    let text = from_utf8(bytes).unwrap_or("");
    if let Some(layout) = layout_of(alloc, text)? {
        push_faults(alloc, out, form, bytes, &value, &layout, faults.as_slice())?;
    }
    Ok(false)
}

/// Adds the summary of a script in which nothing is wrong, where the answer is text; it is read once more for that.
pub(crate) fn push_summary(
    alloc: Global,
    form: &Form<'_>,
    threads: Threads,
    bytes: &[u8],
    out: &mut String,
) -> Result<(), AllocError> {
    if form.json {
        return Ok(());
    }
    match Script::read(alloc, bytes) {
        Ok(script) => out.push_str(summary(alloc, threads, &script)?.as_str()),
        Err(_) => Err(AllocError),
    }
}

//! A script of either form, of numbers or with names, read, checked and told of by what `named` says that it is.
ghost use Rattle.std.specs.Prelude.{IfOk};
ghost use Rattle.script_report.specs.Verdict.{Judges, IsOfForm, JudgesEither};

use crate::check::{check_script, push_summary};
use crate::named_report::push_named;
use crate::report::Form;
use crate::summary::Threads;
use json::{Error, Scratch, Value};
use loop_script::{Script, ScriptFault};
use named::{is_meant_named, translate_bytes};
use std::alloc::{AllocError, Global};
use std::str::from_utf8;

/// The form of a script without a fault.
#[derive(Drop)]
pub enum Either {
    /// It is one of numbers.
    Numbers,
    /// It has names, and stands for this script of numbers.
    Names(Vec<u8>),
}

/// The form of a script that has no fault, and None where bytes are no script of either form. `AllocError` comes only where a request for
/// memory was refused.
pub fn read_either(alloc: Global, bytes: &[u8]) -> Result<Option<Either>, AllocError>
    ensures { IfOk result (IsOfForm bytes.now) }
{
    if is_script(alloc, bytes)? {
        return Ok(Some(Either::Numbers));
    }
    let Some(numbered) = translate_bytes(alloc, bytes)? else {
        return Ok(None);
    };
    if is_script(alloc, numbered.as_slice())? {
        Ok(Some(Either::Names(numbered)))
    } else {
        Ok(None)
    }
}

/// Whether bytes are a script of numbers.
fn is_script(alloc: Global, bytes: &[u8]) -> Result<bool, AllocError>
    ensures { IfOk result (Judges bytes.now) }
{
    match Script::read(alloc, bytes) {
        Ok(_) => Ok(true),
        Err(ScriptFault::OutOfMemory) => Err(AllocError),
        Err(_) => Ok(false),
    }
}

/// Adds what is wrong with a script of either form, each fault with its place, or that nothing is; and answers whether nothing is. After
/// an error a part of that was added.
pub fn check_either(
    alloc: Global,
    form: &Form<'_>,
    bytes: &[u8],
    out: &mut String,
) -> Result<bool, AllocError>
    ensures { IfOk result (JudgesEither bytes.now) }
{
    match read_either(alloc, bytes)? {
        Some(Either::Numbers) => push_summary(alloc, form, Threads::Lanes, bytes, out)?,
        Some(Either::Names(numbered)) => {
            push_summary(alloc, form, Threads::Threads, numbered.as_slice(), out)?
        }
        None => {
            push_either(alloc, form, bytes, out)?;
            return Ok(false);
        }
    }
    Ok(true)
}

/// Adds the faults of a script, as those of the form that it is meant to have.
fn push_either(
    alloc: Global,
    form: &Form<'_>,
    bytes: &[u8],
    out: &mut String,
) -> Result<(), AllocError> {
    let text = from_utf8(bytes).unwrap_or("");
    let mut scratch = Scratch::new(alloc);
    match Value::parse(alloc, text, &mut scratch) {
        Ok(document) if is_meant_named(&document) => push_named(alloc, form, text, &document, out),
        Err(Error::OutOfMemory) => Err(AllocError),
        _ => {
            let _ = check_script(alloc, form, bytes, out)?;
            Ok(())
        }
    }
}

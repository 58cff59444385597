//! A script with names translated, from a value or from bytes, by public calls.
ghost use Rattle.std.specs.Prelude.{◌≡◌, ℕ, List, Some, option_map, IfOk, IsUtf8};
ghost use Rattle.json.specs.Json.{document};
ghost use Rattle.json.specs.Value.{value_view};
ghost use Rattle.named.specs.Answer.{StandsForAny, Translates, is_named, is_meant_named};
ghost use Rattle.named.specs.Names.{names_in};
ghost use Rattle.named.specs.Views.{names_of};

use crate::check::script_faults;
use crate::fault::Fault;
use crate::names::Names;
use crate::numbered::numbered_text;
use crate::word::Word;
use json::{Error, Scratch, Value};
use std::alloc::{AllocError, Global};

/// What a script with names comes to.
#[derive(Drop)]
pub enum Translation<'a> {
    /// The script of numbers, as JSON.
    Script(Vec<u8>),
    /// What is wrong with it: at least one fault.
    Faults(Vec<Fault<'a>>),
}

/// Whether a document says that it is a script with names: it has `"form": "names"`.
pub fn is_named(document: &Value<'_>) -> bool
    ensures { result ≡ is_named (value_view document.now) }
{
    match document.get(Word::Form.text()).and_then(Value::as_str) {
        Some(form) => form == "names",
        None => false,
    }
}

/// Whether a document is meant as a script with names: it has the key `form` or the key `threads`, of which a script of numbers has none.
pub fn is_meant_named(document: &Value<'_>) -> bool
    ensures { result ≡ is_meant_named (value_view document.now) }
{
    document.get(Word::Form.text()).is_some() || document.get(Word::Threads.text()).is_some()
}

/// The script of numbers that a script with names stands for, or what is wrong with it. `AllocError` comes only where a request for memory
/// was refused, or where a number of the document is none of JSON's, which `Value::parse` leaves in none.
pub fn translate<'a>(alloc: Global, script: &Value<'a>) -> Result<Translation<'a>, AllocError>
    ensures { IfOk result (Translates (value_view script.now)) }
{
    let names = Names::of(alloc, script)?;
    translate_with(alloc, &names, script)
}

/// The translation of a script whose names these are.
fn translate_with<'a>(
    alloc: Global,
    names: &Names<'_>,
    script: &Value<'a>,
) -> Result<Translation<'a>, AllocError>
    requires { names_of names.now ≡ names_in (value_view script.now) }
    ensures { IfOk result (Translates (value_view script.now)) }
{
    let faults = script_faults(alloc, names, script)?;
    if !faults.is_empty() {
        return Ok(Translation::Faults(faults));
    }
    Ok(Translation::Script(numbered_text(alloc, names, script)?))
}

/// The script of numbers that bytes stand for which are a script with names without a fault. None where they are no JSON, or do not say
/// that they are a script with names, or have a fault. `AllocError` comes only where a request for
/// memory was refused.
pub fn translate_bytes(alloc: Global, bytes: &[u8]) -> Result<Option<Vec<u8>>, AllocError>
    ensures { IfOk result (λ script. StandsForAny bytes.now (option_map (λ numbered. numbered.items) script)) }
{
    let mut scratch = Scratch::new(alloc);
    match Value::from_slice(alloc, bytes, &mut scratch) {
        Ok(script) => translate_named(alloc, &script),
        Err(Error::OutOfMemory) => Err(AllocError),
        Err(_) => Ok(None),
    }
}

/// The script of numbers that a document stands for which is a script with names without a fault.
fn translate_named(alloc: Global, script: &Value<'_>) -> Result<Option<Vec<u8>>, AllocError>
    ensures { (bytes : List ℕ) → IsUtf8 bytes → document bytes ≡ Some (value_view script.now) → IfOk result (λ found. StandsForAny bytes (option_map (λ numbered. numbered.items) found)) }
{
    if !is_named(script) {
        return Ok(None);
    }
    match translate(alloc, script)? {
        Translation::Script(numbered) => Ok(Some(numbered)),
        Translation::Faults(_) => Ok(None),
    }
}

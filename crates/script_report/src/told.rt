//! Where a fault is told: the pointer to its value as a text, and the bytes of that value.
ghost use Rattle.std.specs.Prelude.{◌≡◌, ◌≤◌, Some, IsTrue, IfOk, IfSome, string_bytes};
ghost use Rattle.std.specs.List.{slice_range};
ghost use Rattle.serde_json.specs.Data.{depth};
ghost use Rattle.serde_json.specs.Find.{pointer as points_to};
ghost use Rattle.serde_json.specs.Read.{read, max_depth};
ghost use Rattle.serde_json.specs.View.{view};

use crate::layout::Span;
use crate::lead::value_at;
use crate::words::other_key;
use script_check::{Cause, Fault, Step};
use serde_json::Value;
use std::alloc::{AllocError, Global};
use toml_names::push_escaped;

/// The place of a fault.
#[derive(Drop)]
pub(crate) struct Told {
    /// The pointer to the value that has the fault (RFC 6901).
    pub pointer: String,
    /// The bytes of that value; none where these bytes, read by themselves, are not that value. No script is known for which they are not.
    pub span: Option<Span>,
}

/// The place of a fault whose value was found at some bytes: they are told only where, read as JSON, they are the value to which
/// the pointer leads.
pub(crate) fn told_of(
    alloc: Global,
    bytes: &[u8],
    value: &Value,
    fault: &Fault,
    span: Span,
) -> Result<Told, AllocError>
    requires { depth (view value.now) ≤ max_depth }
    ensures { IfOk result (λ told. IfSome told.span (λ s. read (slice_range bytes.now s.start s.end) ≡ points_to (string_bytes told.pointer) (view value.now))) }
{
    let pointer = pointer_text(alloc, value, fault)?;
    if is_at(alloc, bytes, value, pointer.as_str(), span)? {
        let span = Some(span);
        Ok(Told { pointer, span })
    } else {
        let span = None;
        Ok(Told { pointer, span })
    }
}

/// Whether some bytes, read as JSON, are the value to which a pointer leads.
fn is_at(
    alloc: Global,
    bytes: &[u8],
    value: &Value,
    pointer: &str,
    span: Span,
) -> Result<bool, AllocError>
    requires { depth (view value.now) ≤ max_depth }
    ensures { IfOk result (λ same. IsTrue same → read (slice_range bytes.now span.start span.end) ≡ points_to pointer.now (view value.now)) }
{
    match (value.pointer(pointer), bytes.get(span.start..span.end)) {
        (Some(pointed), Some(own)) => is_read_as(alloc, own, pointed),
        _ => Ok(false),
    }
}

/// Whether bytes, read as JSON, are a value: then both are written alike.
fn is_read_as(alloc: Global, bytes: &[u8], value: &Value) -> Result<bool, AllocError>
    requires { depth (view value.now) ≤ max_depth }
    ensures { IfOk result (λ same. IsTrue same → read bytes.now ≡ Some (view value.now)) }
{
    let again = match Value::from_slice(alloc, bytes) {
        Ok(again) => again,
        Err(error) if error.is_memory() => return Err(AllocError),
        Err(_) => return Ok(false),
    };
    let text = value.to_string(alloc)?;
    let text_again = again.to_string(alloc)?;
    Ok(text.as_str() == text_again.as_str())
}

/// The pointer to the value of a fault (RFC 6901).
fn pointer_text(alloc: Global, value: &Value, fault: &Fault) -> Result<String, AllocError> {
    let mut text = String::new(alloc);
    for step in fault.place.steps() {
        match step {
            Step::Key(name) => {
                text.push_str("/")?;
                text.push_str(name.text())?;
            }
            Step::Item(n) => write!(text, "/{n}")?,
        }
    }
    if let Cause::OtherKey(k) = fault.cause {
        if let Some(name) = other_key(value_at(value, fault.place.steps()), k) {
            text.push_str("/")?;
            push_escaped(&mut text, name)?;
        }
    }
    Ok(text)
}

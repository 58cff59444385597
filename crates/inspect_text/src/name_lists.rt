//! The names of a script as lists of JSON, for the first object of a run told as JSON.
use named::Kind;
use run_names::{RunNames, Thing, push_quoted};
use std::alloc::{AllocError, Global};

/// The kinds of which the names are told.
const KINDS: [Kind; 7] = [
    Kind::Thread,
    Kind::Context,
    Kind::Loop,
    Kind::Procedure,
    Kind::Cancellable,
    Kind::Descriptor,
    Kind::Text,
];

/// The key of the names of a kind.
fn key_of(kind: Kind) -> &'static str {
    match kind {
        Kind::Thread => "threads",
        Kind::Context => "contexts",
        Kind::Loop => "loops",
        Kind::Procedure => "procedures",
        Kind::Cancellable => "cancellables",
        Kind::Descriptor => "descriptors",
        Kind::Slot => "slots",
        Kind::Text => "texts",
    }
}

/// Adds the key of the names of a script, where it has some: by kind, in the order of their numbers.
pub(crate) fn push_name_lists(
    alloc: Global,
    out: &mut String,
    names: &RunNames,
) -> Result<(), AllocError> {
    if !names.are_there() {
        return Ok(());
    }
    out.push_str(",\"names\":{")?;
    for (n, kind) in KINDS.iter().enumerate() {
        if n != 0 {
            out.push_str(",")?;
        }
        let key = key_of(*kind);
        write!(out, "\"{key}\":")?;
        push_list(alloc, out, names.of_kind(*kind))?;
    }
    out.push_str("}")
}

/// Adds a list of texts.
fn push_list(alloc: Global, out: &mut String, texts: &[String]) -> Result<(), AllocError> {
    out.push_str("[")?;
    for (n, text) in texts.iter().enumerate() {
        if n != 0 {
            out.push_str(",")?;
        }
        push_quoted(alloc, out, text.as_str())?;
    }
    out.push_str("]")
}

/// Adds the key of what a source is called, where it has a name.
pub(crate) fn push_quoted_name(
    alloc: Global,
    out: &mut String,
    names: &RunNames,
    context: u32,
    id: u64,
) -> Result<(), AllocError> {
    if !names.are_there() {
        return Ok(());
    }
    let mut name = String::new(alloc);
    names.push_bare(&mut name, Thing::Source { context, id })?;
    out.push_str(",\"name\":")?;
    push_quoted(alloc, out, name.as_str())
}

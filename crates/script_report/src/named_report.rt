//! The faults of a script with names as text and JSON, each where it lies in the bytes.
use crate::cursor::Cursor;
use crate::layout::{Layout, layout_of};
use crate::named_entries::{Entry, entries_of};
use crate::report::{Form, MOST_TOLD, Said, TextPlace, push_told};
use json::Value;
use named::Step;
use std::alloc::{AllocError, Global};
use toml_names::push_escaped;

/// Adds all faults of a script that is meant as one with names.
pub(crate) fn push_named(
    alloc: Global,
    form: &Form<'_>,
    text: &str,
    document: &Value<'_>,
    out: &mut String,
) -> Result<(), AllocError> {
    let entries = entries_of(alloc, document)?;
    push_entries(alloc, form, text, entries.as_slice(), out)
}

/// A fault with where its value lies.
#[derive(Clone, Copy)]
struct Lying {
    entry: usize,
    start: usize,
    /// The end of the bytes that are marked.
    marked: usize,
}

/// Adds the faults in the order of their places, and a line on how many they are.
fn push_entries(
    alloc: Global,
    form: &Form<'_>,
    text: &str,
    entries: &[Entry<'_>],
    out: &mut String,
) -> Result<(), AllocError> {
    let Some(layout) = layout_of(alloc, text)? else {
        return Ok(());
    };
    let lying = lying_in_order(alloc, &layout, entries)?;
    push_first(alloc, form, text, entries, lying.as_slice(), out)?;
    if form.json {
        return Ok(());
    }
    push_count(out, entries.len())
}

/// Where the values of the faults lie, in the order of their places.
fn lying_in_order(
    alloc: Global,
    layout: &Layout,
    entries: &[Entry<'_>],
) -> Result<Vec<Lying>, AllocError> {
    let mut lying = Vec::new(alloc);
    for (n, entry) in entries.iter().enumerate() {
        lying.push(lying_of(layout, entry.place.as_slice(), n))?;
    }
    lying.sort_by_key(|one| one.start)?;
    Ok(lying)
}

/// Adds the first faults, as many as are told.
fn push_first(
    alloc: Global,
    form: &Form<'_>,
    text: &str,
    entries: &[Entry<'_>],
    lying: &[Lying],
    out: &mut String,
) -> Result<(), AllocError> {
    let mut cursor = Cursor::start();
    for each in lying.iter().take(MOST_TOLD) {
        if let Some(entry) = entries.get(each.entry) {
            cursor = cursor.to(text.as_bytes(), each.start);
            push_entry(alloc, form, text, entry, cursor, each.marked, out)?;
        }
    }
    Ok(())
}

/// Adds the line with the number of faults of a script with names, and how many of them are not told.
fn push_count(out: &mut String, count: usize) -> Result<(), AllocError> {
    if count == 1 {
        return out.push_str("1 fault\n");
    }
    write!(out, "{count} faults")?;
    if count > MOST_TOLD {
        let others = count.saturating_sub(MOST_TOLD);
        write!(out, ", of which {others} are not told here")?;
    }
    out.push_str("\n")
}

/// Where an entry's value begins and ends in the bytes, by the steps to it; where a step leads nowhere, the value before it.
fn lying_of(layout: &Layout, steps: &[Step<'_>], entry: usize) -> Lying {
    let mut here = layout;
    for step in steps {
        let next = match step {
            Step::Key(key) => here.member(key),
            Step::Item(n) => here.item(*n),
            Step::Same => Some(here),
        };
        if let Some(inner) = next {
            here = inner;
        }
    }
    let span = here.span();
    Lying {
        entry,
        start: span.start,
        marked: if here.is_scalar() {
            span.end
        } else {
            span.start.saturating_add(1)
        },
    }
}

/// Adds an entry of a script with names, as text or JSON, with the line and column of its value.
fn push_entry(
    alloc: Global,
    form: &Form<'_>,
    text: &str,
    entry: &Entry<'_>,
    cursor: Cursor,
    marked: usize,
    out: &mut String,
) -> Result<(), AllocError> {
    let pointer = pointer_of(alloc, entry.place.as_slice())?;
    let said = Said {
        class: entry.class,
        wanted: entry.wanted.as_str(),
        found: entry.found.as_str(),
    };
    let place = TextPlace {
        pointer: pointer.as_str(),
        at: Some(cursor),
        marked,
    };
    push_told(alloc, out, form, text.as_bytes(), &said, &place)
}

/// The pointer to the value at the end of steps (RFC 6901).
fn pointer_of(alloc: Global, steps: &[Step<'_>]) -> Result<String, AllocError> {
    let mut text = String::new(alloc);
    for step in steps {
        match step {
            Step::Key(key) => {
                text.push_str("/")?;
                push_escaped(&mut text, key)?;
            }
            Step::Item(n) => write!(text, "/{n}")?,
            Step::Same => {}
        }
    }
    Ok(text)
}

//! The line of the script in which a fault is, as it is shown below the fault: of a long one what is beside it.
use crate::cursor::{Cursor, begins_character};
use std::alloc::{AllocError, Global};
use std::str::from_utf8;

/// How many bytes before and behind the fault are shown at most.
const BEFORE: usize = 60;

const BEHIND: usize = 40;

/// Adds the line with the place, and below it the marks.
pub(crate) fn push_excerpt(
    out: &mut String,
    bytes: &[u8],
    at: Cursor,
    end: usize,
) -> Result<(), AllocError> {
    let from = beginning(bytes, at);
    let to = ending(bytes, at.byte);
    let marked = end.min(to).max(at.byte);
    let (Some(before), Some(here), Some(behind)) = (
        text_between(bytes, from, at.byte),
        text_between(bytes, at.byte, marked),
        text_between(bytes, marked, to),
    ) else {
        return Ok(());
    };
    let dots = if from > at.line_start { ".." } else { "" };
    let line = at.line;
    write!(out, "{line:>4} | {dots}")?;
    push_excerpt_part(out, before)?;
    push_excerpt_part(out, here)?;
    push_excerpt_part(out, behind)?;
    if is_cut(bytes, to) {
        out.push_str("..")?;
    }
    let indent = if from > at.line_start { "  " } else { "" };
    push_marks(out, indent, before, here)
}

/// Adds the line with the marks: below a text, with a space for each character before it.
fn push_marks(out: &mut String, indent: &str, before: &str, here: &str) -> Result<(), AllocError> {
    out.push_str("\n       ")?;
    out.push_str(indent)?;
    push_repeated(out, " ", before.chars().count())?;
    push_repeated(out, "^", here.chars().count().max(1))?;
    out.push_str("\n")
}

/// Where the excerpt begins: at the beginning of a character, on the line.
fn beginning(bytes: &[u8], at: Cursor) -> usize {
    let first = at.byte.saturating_sub(BEFORE).max(at.line_start);
    for (n, byte) in bytes.iter().enumerate().skip(first) {
        if n >= at.byte || begins_character(*byte) {
            return n;
        }
    }
    at.byte
}

/// Where the excerpt ends: at the end of the line, or some characters on.
fn ending(bytes: &[u8], from: usize) -> usize {
    let far = from.saturating_add(BEHIND);
    for (n, byte) in bytes.iter().enumerate().skip(from) {
        if *byte == b'\n' || *byte == b'\r' || (n >= far && begins_character(*byte)) {
            return n;
        }
    }
    bytes.len()
}

/// Whether the line goes on behind.
fn is_cut(bytes: &[u8], to: usize) -> bool {
    match bytes.get(to) {
        Some(byte) => *byte != b'\n' && *byte != b'\r',
        None => false,
    }
}

/// The bytes of a line from one to another as text, where they are UTF-8.
fn text_between(bytes: &[u8], from: usize, to: usize) -> Option<&str> {
    match bytes.get(from..to) {
        Some(part) => from_utf8(part).ok(),
        None => None,
    }
}

/// Adds a text, with a space for each control character.
fn push_excerpt_part(out: &mut String, text: &str) -> Result<(), AllocError> {
    for character in text.chars() {
        out.push(if character < ' ' { ' ' } else { character })?;
    }
    Ok(())
}

/// Adds a text so many times, as the spaces before the mark of a fault.
fn push_repeated(out: &mut String, text: &str, count: usize) -> Result<(), AllocError> {
    for _ in 0..count {
        out.push_str(text)?;
    }
    Ok(())
}

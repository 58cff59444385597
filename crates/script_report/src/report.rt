//! The faults of a script with their places, as text and as JSON: each in its entry, and their number; whether a file is TOML, by its name.
ghost use Rattle.std.specs.Prelude.{◌≤◌};
ghost use Rattle.serde_json.specs.Data.{depth};
ghost use Rattle.serde_json.specs.Read.{max_depth};
ghost use Rattle.serde_json.specs.View.{view};

use crate::cursor::Cursor;
use crate::excerpt::push_excerpt;
use crate::layout::Layout;
use crate::lead::value_at;
use crate::order::in_order;
use crate::told::told_of;
use crate::words::{found_text, wanted_text};
use script_check::{Class, Fault, first_class};
use serde_json::{Value, json};
use std::alloc::{AllocError, Global};

/// How many faults are told at most.
pub(crate) const MOST_TOLD: usize = 100;

/// What the bytes of a script are written in.
#[derive(Clone, Copy, Debug, PartialEq, Eq)]
pub enum Language {
    Json,
    /// The JSON text of a script stands nowhere, so no line of it is told.
    Toml,
}

impl Language {
    /// That of a file: TOML where its name ends in `.toml`.
    pub fn of_file(name: &str) -> Language {
        if name.ends_with(".toml") {
            Language::Toml
        } else {
            Language::Json
        }
    }
}

/// How a report is written.
#[derive(Clone, Copy)]
pub struct Form<'a> {
    /// One object a line, in place of text.
    pub json: bool,
    /// The name of the file.
    pub name: &'a str,
    pub language: Language,
}

impl Form<'_> {
    /// A place in a script's JSON text, where there is one that somebody wrote.
    pub(crate) fn told_at(&self, at: Option<Cursor>) -> Option<Cursor> {
        match self.language {
            Language::Json => at,
            Language::Toml => None,
        }
    }
}

/// The class as the program `mainctx` says it.
pub(crate) fn class_text(class: Class) -> &'static str {
    match class {
        Class::Shape => "shape",
        Class::Limit => "limit",
        Class::Reference => "reference",
        Class::Rule => "rule",
    }
}

/// Adds the faults, in the order of their places, and a line on how many they are.
pub(crate) fn push_faults(
    alloc: Global,
    out: &mut String,
    form: &Form<'_>,
    bytes: &[u8],
    value: &Value,
    layout: &Layout,
    faults: &[Fault],
) -> Result<(), AllocError>
    requires { depth (view value.now) ≤ max_depth }
{
    let placed = in_order(alloc, value, layout, faults)?;
    let mut cursor = Cursor::start();
    for (n, each) in placed.as_slice().iter().enumerate() {
        if n >= MOST_TOLD {
            break;
        }
        cursor = cursor.to(bytes, each.span.start);
        if let Some(fault) = faults.get(each.fault) {
            let told = told_of(alloc, bytes, value, fault, each.span)?;
            let place = TextPlace {
                pointer: told.pointer.as_str(),
                at: if told.span.is_some() {
                    Some(cursor)
                } else {
                    None
                },
                marked: each.marked,
            };
            push_fault(alloc, out, form, bytes, value, fault, &place)?;
        }
    }
    if form.json {
        return Ok(());
    }
    push_sum(out, form.language, faults)
}

/// The last line: how many there are, and what `mainctx` answers of the bytes, where it reads such.
fn push_sum(out: &mut String, language: Language, faults: &[Fault]) -> Result<(), AllocError> {
    let count = faults.len();
    let class = first_class(faults).map_or("", class_text);
    if count == 1 {
        out.push_str("1 fault")?;
    } else {
        write!(out, "{count} faults")?;
    }
    if count > MOST_TOLD {
        let others = count.saturating_sub(MOST_TOLD);
        write!(out, ", of which {others} are not told here")?;
    }
    match language {
        Language::Json => writeln!(out, "; mainctx answers 'script: {class}'"),
        Language::Toml => out.push_str("\n"),
    }
}

/// A place as it is written.
#[derive(Clone, Copy)]
pub(crate) struct TextPlace<'a> {
    pub pointer: &'a str,
    /// The line and the column, where they are known.
    pub at: Option<Cursor>,
    /// The end of the bytes that are marked.
    pub marked: usize,
}

/// What is wrong at a place, in words.
#[derive(Clone, Copy)]
pub(crate) struct Said<'a> {
    pub class: &'a str,
    pub wanted: &'a str,
    pub found: &'a str,
}

/// Adds a fault of a script of numbers, as text or JSON: what was wanted, what stands there, and where.
fn push_fault(
    alloc: Global,
    out: &mut String,
    form: &Form<'_>,
    bytes: &[u8],
    value: &Value,
    fault: &Fault,
    place: &TextPlace<'_>,
) -> Result<(), AllocError> {
    let here = value_at(value, fault.place.steps());
    let wanted = wanted_text(alloc, fault, here)?;
    let found = found_text(alloc, fault, here)?;
    let said = Said {
        class: class_text(fault.cause.class()),
        wanted: wanted.as_str(),
        found: found.as_str(),
    };
    push_told(alloc, out, form, bytes, &said, place)
}

/// Adds what is wrong at a place, with the line of the document.
pub(crate) fn push_told(
    alloc: Global,
    out: &mut String,
    form: &Form<'_>,
    bytes: &[u8],
    said: &Said<'_>,
    place: &TextPlace<'_>,
) -> Result<(), AllocError> {
    let Said {
        class,
        wanted,
        found,
    } = *said;
    let pointer = place.pointer;
    let at = form.told_at(place.at);
    if form.json {
        return push_object(alloc, out, class, pointer, at, wanted, found);
    }
    push_lead(out, form.name, at)?;
    writeln!(out, "{class}: {wanted}, {found}")?;
    if pointer.is_empty() {
        out.push_str("  at the top\n")?;
    } else {
        writeln!(out, "  at {pointer}")?;
    }
    match at {
        None => Ok(()),
        Some(at) => push_excerpt(out, bytes, at, place.marked),
    }
}

/// Adds the name of the file, and the line and the column where they are known.
fn push_lead(out: &mut String, name: &str, at: Option<Cursor>) -> Result<(), AllocError> {
    match at {
        None => write!(out, "{name}: "),
        Some(at) => {
            let line = at.line;
            let column = at.column;
            write!(out, "{name}:{line}:{column}: ")
        }
    }
}

/// Adds where reading of bytes stopped, and why: they are not in their language.
pub(crate) fn push_unreadable(
    alloc: Global,
    form: &Form<'_>,
    bytes: &[u8],
    at: Option<Cursor>,
    said: &Said<'_>,
    out: &mut String,
) -> Result<(), AllocError> {
    let Said {
        class,
        wanted,
        found,
    } = *said;
    if form.json {
        return push_object(alloc, out, class, "", at, wanted, found);
    }
    push_lead(out, form.name, at)?;
    writeln!(out, "{class}: {found}")?;
    if let Some(at) = at {
        push_excerpt(out, bytes, at, at.byte)?;
    }
    match form.language {
        Language::Json => out.push_str("1 fault; mainctx answers 'script: not json'\n"),
        Language::Toml => out.push_str("1 fault\n"),
    }
}

/// Adds one object, on a line of its own: null for what is not known.
pub(crate) fn push_object(
    alloc: Global,
    out: &mut String,
    class: &str,
    pointer: &str,
    at: Option<Cursor>,
    wanted: &str,
    found: &str,
) -> Result<(), AllocError> {
    let line = at.map(|at| at.line);
    let column = at.map(|at| at.column);
    let byte = at.map(|at| at.byte);
    let object = json!(in alloc; {
        "class": class,
        "pointer": pointer,
        "line": line,
        "column": column,
        "byte": byte,
        "wanted": wanted,
        "found": found
    })?;
    out.push_str(object.to_string(alloc)?.as_str())?;
    out.push_str("\n")
}

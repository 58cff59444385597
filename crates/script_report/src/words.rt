//! What was wanted of a script of numbers and what stands there, in a user's words: a shape, other keys and words, the key that may be meant.
use crate::nearest::push_nearest;
use script_check::{Cause, Choice, Fault, Object, Shape, Wanted, keys_of, parts_of, words_of};
use serde_json::Value;
use std::alloc::{AllocError, Global};

/// What was wanted.
pub(crate) fn wanted_text(
    alloc: Global,
    fault: &Fault,
    value: &Value,
) -> Result<String, AllocError> {
    let wanted = fault.wanted;
    match fault.cause {
        Cause::OtherKey(_) => keys_text(alloc, wanted),
        Cause::NoKey(n) => no_key_text(alloc, wanted, n),
        Cause::OtherWord => words_text(alloc, wanted),
        Cause::OtherLength => length_text(alloc, wanted, value),
        Cause::OtherVersion => String::from_str(alloc, "give is an action of version 2"),
        Cause::Contexts => String::from_str(alloc, "lanes have 256 contexts together at most"),
        Cause::Depth => String::from_str(alloc, "a tree is 16 deep at most"),
        Cause::Missing(count) => missing_text(alloc, wanted, count),
        Cause::NotAbove(tick) => format!(in alloc;
            "the ticks of a descriptor rise, and the pair before has {tick}"
        ),
        Cause::NotPlain(_) => String::from_str(
            alloc,
            "a connected procedure holds log, set_ready, quit and destroy alone",
        ),
        Cause::Stays => String::from_str(alloc, "an invoked procedure has no keep, or 0"),
        Cause::Unchecked => String::from_str(
            alloc,
            "a task with return_on_cancel has no check, or true",
        ),
        Cause::OtherType | Cause::Range | Cause::Count => shape_text(alloc, wanted),
    }
}

/// What should stand there, with its range.
fn shape_text(alloc: Global, wanted: Wanted) -> Result<String, AllocError> {
    let name = name_of(wanted);
    match wanted.shape() {
        Shape::Whole(low, high) => format!(in alloc; "{name} is {low} to {high}"),
        Shape::WholeOrNull(low, high) => format!(in alloc; "{name} is {low} to {high}, or null"),
        Shape::Signed(low, high) => format!(in alloc; "{name} is {low} to {high}"),
        Shape::Truth => format!(in alloc; "{name} is true or false"),
        Shape::List(low, high, _) => format!(in alloc; "{name} are a list of {low} to {high}"),
        Shape::Lanes(low, high, _) => format!(in alloc; "{name} are a list of {low} to {high}"),
        Shape::Pair => format!(in alloc; "{name} is a list of a tick and bits"),
        Shape::An(_) => format!(in alloc; "{name} is an object"),
        Shape::OneOf(_) => format!(in alloc; "{name} is a list that begins with a word"),
    }
}

/// Which keys an object of a script of numbers has.
fn keys_text(alloc: Global, wanted: Wanted) -> Result<String, AllocError> {
    let name = name_of(wanted);
    let mut text = format!(in alloc; "{name} has the keys")?;
    if let Wanted::An(object) = wanted {
        for (n, key) in keys_of(object).iter().enumerate() {
            text.push_str(if n == 0 { " " } else { ", " })?;
            text.push_str(key.name.text())?;
        }
    }
    Ok(text)
}

/// That an object of a script of numbers lacks its n-th key.
fn no_key_text(alloc: Global, wanted: Wanted, n: usize) -> Result<String, AllocError> {
    let name = name_of(wanted);
    let key = match wanted {
        Wanted::An(object) => match keys_of(object).get(n) {
            Some(key) => key.name.text(),
            None => "",
        },
        _ => "",
    };
    format!(in alloc; "{name} needs the key {key}")
}

/// With which of its words an action, a kind or a tree of numbers begins.
fn words_text(alloc: Global, wanted: Wanted) -> Result<String, AllocError> {
    let name = name_of(wanted);
    let mut text = format!(in alloc; "{name} is a list that begins with one of")?;
    if let Wanted::OneOf(choice) = wanted {
        for (n, word) in words_of(choice).iter().enumerate() {
            text.push_str(if n == 0 { " " } else { ", " })?;
            text.push_str(*word)?;
        }
    }
    Ok(text)
}

/// How many parts stand behind a word of a script of numbers.
fn length_text(alloc: Global, wanted: Wanted, value: &Value) -> Result<String, AllocError> {
    let Wanted::OneOf(choice) = wanted else {
        return shape_text(alloc, wanted);
    };
    let word = match value.get(0usize).and_then(Value::as_str) {
        Some(word) => word,
        None => "",
    };
    let count = match parts_of(choice, word) {
        Some(parts) => parts.len(),
        None => 0,
    };
    match count {
        0 => format!(in alloc; "{word} has nothing behind it"),
        1 => format!(in alloc; "{word} has 1 part behind it"),
        _ => format!(in alloc; "{word} has {count} parts behind it"),
    }
}

/// How many things of a sort the script has, where a number names one that is not there.
fn missing_text(alloc: Global, wanted: Wanted, count: u64) -> Result<String, AllocError> {
    let many = match wanted {
        Wanted::Context => "contexts",
        Wanted::Loop => "loops",
        Wanted::Cancellable => "cancellables",
        Wanted::Proc => "procedures",
        Wanted::Descriptor => "descriptors",
        _ => "lanes",
    };
    match count {
        0 => format!(in alloc; "the script has no {many}"),
        _ => {
            let last = count.saturating_sub(1);
            format!(in alloc; "the {many} of the script are 0 to {last}")
        }
    }
}

/// What stands there.
pub(crate) fn found_text(
    alloc: Global,
    fault: &Fault,
    value: &Value,
) -> Result<String, AllocError> {
    match fault.cause {
        Cause::OtherKey(n) => other_key_text(alloc, fault.wanted, value, n),
        Cause::NoKey(_) => String::from_str(alloc, "this lacks it"),
        Cause::OtherWord => other_word_text(alloc, fault.wanted, value),
        Cause::OtherLength => match value.as_array() {
            Some(items) => {
                let parts = items.len().saturating_sub(1);
                match fault.wanted {
                    Wanted::OneOf(_) => format!(in alloc; "this has {parts}"),
                    _ => value_text(alloc, value),
                }
            }
            None => value_text(alloc, value),
        },
        Cause::OtherVersion => String::from_str(alloc, "this script is of another"),
        Cause::Count => match value.as_array() {
            Some(items) => {
                let count = items.len();
                format!(in alloc; "these are {count}")
            }
            None => value_text(alloc, value),
        },
        Cause::Contexts => String::from_str(alloc, "these have more"),
        Cause::Depth => String::from_str(alloc, "this goes deeper"),
        Cause::NotPlain(n) => format!(in alloc; "action {n} of this one is another"),
        Cause::Stays => String::from_str(alloc, "this one has another"),
        Cause::Unchecked => String::from_str(alloc, "this has false"),
        Cause::NotAbove(_) => match value.get(0usize).and_then(Value::as_u64) {
            Some(tick) => format!(in alloc; "this has {tick}"),
            None => value_text(alloc, value),
        },
        Cause::OtherType | Cause::Range | Cause::Missing(_) => value_text(alloc, value),
    }
}

/// Which key of an object of numbers stands there and may not, and the one that may be meant.
fn other_key_text(
    alloc: Global,
    wanted: Wanted,
    value: &Value,
    n: usize,
) -> Result<String, AllocError> {
    let mut text = String::from_str(alloc, "this has ")?;
    if let Some(name) = other_key(value, n) {
        push_quoted(&mut text, name)?;
        if let Wanted::An(object) = wanted {
            push_nearest_key(alloc, &mut text, object, name)?;
        }
    }
    Ok(text)
}

/// The name of the n-th member.
pub(crate) fn other_key(value: &Value, n: usize) -> Option<&str> {
    match value.as_object() {
        Some(members) => {
            for (k, name) in members.keys().enumerate() {
                if k == n {
                    return Some(name.as_str());
                }
            }
            None
        }
        None => None,
    }
}

/// Adds the key of an object of numbers that may be meant by a misspelled one, where one is near.
fn push_nearest_key(
    alloc: Global,
    text: &mut String,
    object: Object,
    name: &str,
) -> Result<(), AllocError> {
    let mut names = Vec::new(alloc);
    for key in keys_of(object) {
        names.push(key.name.text())?;
    }
    push_nearest(alloc, text, names.as_slice(), name)
}

/// Which word stands at the front of an action, a kind or a tree of numbers, and the one that may be meant.
fn other_word_text(alloc: Global, wanted: Wanted, value: &Value) -> Result<String, AllocError> {
    let word = match value.as_str() {
        Some(word) => Some(word),
        None => value.get(0usize).and_then(Value::as_str),
    };
    let Some(word) = word else {
        return value_text(alloc, value);
    };
    let mut text = String::from_str(
        alloc,
        if value.as_str().is_some() {
            "this is the text "
        } else {
            "this begins with "
        },
    )?;
    push_quoted(&mut text, word)?;
    if let Wanted::OneOf(choice) = wanted {
        match parts_of(choice, word) {
            Some(parts) => push_as_list(&mut text, word, !parts.is_empty())?,
            None => push_nearest(alloc, &mut text, words_of(choice), word)?,
        }
    }
    Ok(text)
}

/// The word as a list, which it has to be.
fn push_as_list(out: &mut String, word: &str, goes_on: bool) -> Result<(), AllocError> {
    out.push_str(", did you mean [\"")?;
    out.push_str(word)?;
    out.push_str(if goes_on { "\", ..]?" } else { "\"]?" })
}

/// How many characters of a text are shown.
const SHOWN: usize = 40;

/// Adds a text in quotes, shortened where it is long, and with a space for each control character.
pub(crate) fn push_quoted(out: &mut String, text: &str) -> Result<(), AllocError> {
    out.push('"')?;
    for (n, character) in text.chars().enumerate() {
        if n >= SHOWN {
            out.push_str("..")?;
            break;
        }
        out.push(if character < ' ' { ' ' } else { character })?;
    }
    out.push('"')
}

/// A value of a script of numbers in a few words: a text is quoted, a list counted.
fn value_text(alloc: Global, value: &Value) -> Result<String, AllocError> {
    let mut text = String::from_str(alloc, "this is ")?;
    match value {
        Value::Null => text.push_str("null")?,
        Value::Bool(b) => text.push_str(if *b { "true" } else { "false" })?,
        Value::Number(_) => text.push_str(value.to_string(alloc)?.as_str())?,
        Value::String(inner) => {
            text.push_str("the text ")?;
            push_quoted(&mut text, inner.as_str())?;
        }
        Value::Array(items) => {
            let count = items.len();
            write!(text, "a list of {count}")?;
        }
        Value::Object(_) => text.push_str("an object")?,
    }
    Ok(text)
}

/// What stands at a place, in the words of the script.
fn name_of(wanted: Wanted) -> &'static str {
    match wanted {
        Wanted::Version => "the version",
        Wanted::Ticks => "the number of ticks",
        Wanted::TickLength => "the length of a tick in microseconds",
        Wanted::Cancellables => "the number of cancellables",
        Wanted::Contexts => "the number of contexts of a lane",
        Wanted::Dispatches => "keep",
        Wanted::Tick => "the tick of a pair",
        Wanted::Bits => "a number of bits",
        Wanted::Slot => "a slot",
        Wanted::Priority => "a priority",
        Wanted::ReadyTime => "a ready time",
        Wanted::Span => "a time in microseconds",
        Wanted::Milliseconds => "a time in milliseconds",
        Wanted::LogNumber => "the number of a log",
        Wanted::TreeValue => "the value of a tree",
        Wanted::Truth => "a flag",
        Wanted::Context => "the number of a context",
        Wanted::Loop => "the number of a loop",
        Wanted::Cancellable => "the number of a cancellable",
        Wanted::CancellableOrNull => "the number of a cancellable",
        Wanted::Proc => "the number of a procedure",
        Wanted::ProcOrNull => "the number of a procedure",
        Wanted::Descriptor => "the number of a descriptor",
        Wanted::LaneNumber => "the number of a lane",
        Wanted::Lanes => "lanes",
        Wanted::Actions => "actions",
        Wanted::Descriptors => "fds",
        Wanted::Levels => "the pairs of a descriptor",
        Wanted::Loops => "loops",
        Wanted::Procs => "procs",
        Wanted::Pair => "a pair",
        Wanted::An(Object::Script) => "a script",
        Wanted::An(Object::Lane) => "a lane",
        Wanted::An(Object::Procedure) => "a procedure",
        Wanted::An(Object::Source) => "a source",
        Wanted::An(Object::Child) => "a child",
        Wanted::An(Object::Task) => "a task",
        Wanted::OneOf(Choice::Kind) => "a kind",
        Wanted::OneOf(Choice::Action) => "an action",
        Wanted::OneOf(Choice::Tree) => "a tree",
    }
}

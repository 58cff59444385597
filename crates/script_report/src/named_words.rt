//! What was wanted in a script with names, as the words of a choice, and what stands there, in a user's words.
use crate::named_keys::{SCRIPT, known_keys, meant_key, nth_key, slip_among, slip_for};
use crate::nearest::nearest;
use crate::words::push_quoted;
use json::Value;
use named::{Cause, Choice, Fault, Kind, Leaf, Names, Sort, Word, most, words};
use std::alloc::{AllocError, Global};

/// All kinds of names, but the texts of logs.
const KINDS: [Kind; 7] = [
    Kind::Thread,
    Kind::Context,
    Kind::Loop,
    Kind::Procedure,
    Kind::Cancellable,
    Kind::Descriptor,
    Kind::Slot,
];

/// The class as the program `mainctx` calls such a fault.
pub(crate) fn class_of(fault: &Fault<'_>, value: &Value<'_>) -> &'static str {
    let is_name = name_kind(fault.sort).is_some() && value.as_str().is_some();
    match fault.cause {
        Cause::Unfit if is_name => "reference",
        Cause::Twice(_) => "reference",
        _ => "shape",
    }
}

/// What was wanted.
pub(crate) fn named_wanted(
    alloc: Global,
    fault: &Fault<'_>,
    value: &Value<'_>,
) -> Result<String, AllocError> {
    match fault.cause {
        Cause::NoKey(word) => key_wanted(alloc, word),
        Cause::Twice(kind) => names_wanted(alloc, kind),
        Cause::OtherKey(_) => keys_wanted(alloc, fault.sort, value),
        _ => sort_wanted(alloc, fault.sort),
    }
}

/// What is wanted where a value with names is of another type.
fn sort_wanted(alloc: Global, sort: Sort) -> Result<String, AllocError> {
    match sort {
        Sort::Leaf(leaf) => leaf_wanted(alloc, leaf),
        Sort::OneOf(choice) => words_wanted(alloc, choice),
        Sort::Pair => String::from_str(alloc, "a pair is a list of a tick and its conditions"),
        Sort::Actions => String::from_str(alloc, "a list of actions is wanted"),
        Sort::Levels => String::from_str(alloc, "a list of pairs is wanted"),
        _ => String::from_str(alloc, "an object is wanted"),
    }
}

/// That a name of a kind is wanted, or a text.
fn name_wanted(alloc: Global, kind: Kind) -> Result<String, AllocError> {
    let thing = kind_text(kind);
    match kind {
        Kind::Text => format!(in alloc; "{thing} is wanted"),
        _ => format!(in alloc; "the name of {thing} is wanted"),
    }
}

/// What is wanted where a key is missing that an object of a script with names must have.
fn key_wanted(alloc: Global, word: Word) -> Result<String, AllocError> {
    let key = word.text();
    format!(in alloc; "the key \"{key}\" must stand here")
}

/// How many names of a kind there may be, each once.
fn names_wanted(alloc: Global, kind: Kind) -> Result<String, AllocError> {
    let kinds = kinds_text(kind);
    let limit = most(kind);
    format!(in alloc; "{kinds} are {limit} at most, each with a name of its own")
}

/// What is wanted of a value without parts, as a time with its unit.
fn leaf_wanted(alloc: Global, leaf: Leaf) -> Result<String, AllocError> {
    let text = match leaf {
        Leaf::Name(kind) | Leaf::NameOrNull(kind) => {
            return name_wanted(alloc, kind);
        }
        Leaf::Names => "a list of names is wanted",
        Leaf::Priority => "a priority is a number, HIGH, DEFAULT, HIGH_IDLE, DEFAULT_IDLE or LOW",
        Leaf::Bits =>
            "conditions are IN, PRI, OUT, ERR, HUP and NVAL, with bars and no spaces between them",
        Leaf::Milliseconds => "a time is wanted in whole milliseconds, as \"16 ms\" or \"2 s\"",
        Leaf::Microseconds => "a time is wanted, as \"500 us\", \"16 ms\" or \"2 s\"",
        Leaf::ReadyTime => "a time is wanted, as \"500 us\", \"16 ms\" or \"2 s\", or \"never\"",
        Leaf::Keep => "keep is a number, CONTINUE or REMOVE",
        Leaf::True => "true is wanted",
        Leaf::Label => "a name or true is wanted",
        Leaf::Number => "a number is wanted",
        Leaf::Truth => "true or false is wanted",
    };
    String::from_str(alloc, text)
}

/// A thing of a kind.
fn kind_text(kind: Kind) -> &'static str {
    match kind {
        Kind::Thread => "a thread",
        Kind::Context => "a context",
        Kind::Loop => "a loop",
        Kind::Procedure => "a procedure",
        Kind::Cancellable => "a cancellable",
        Kind::Descriptor => "a descriptor",
        Kind::Slot => "a source or a handler",
        Kind::Text => "a text",
    }
}

/// What the things of a kind are called, in the plural.
fn kinds_text(kind: Kind) -> &'static str {
    match kind {
        Kind::Thread => "threads",
        Kind::Context => "contexts",
        Kind::Loop => "loops",
        Kind::Procedure => "procedures",
        Kind::Cancellable => "cancellables",
        Kind::Descriptor => "descriptors",
        Kind::Slot => "sources and handlers",
        Kind::Text => "texts",
    }
}

/// Of which words an action, a source or a tree with names has one.
fn words_wanted(alloc: Global, choice: Choice) -> Result<String, AllocError> {
    let mut text = String::from_str(
        alloc,
        match choice {
            Choice::Action => "an action has one of the keys",
            Choice::Source => "a source has one of the keys",
            Choice::Tree => "a tree is a list that begins with one of the words",
        },
    )?;
    push_words(&mut text, words(choice))?;
    Ok(text)
}

/// Adds words of a script with names, quoted, with commas between them.
fn push_words(text: &mut String, words: &[Word]) -> Result<(), AllocError> {
    for (n, word) in words.iter().enumerate() {
        text.push_str(if n == 0 { " " } else { ", " })?;
        push_quoted(text, word.text())?;
    }
    Ok(())
}

/// Which keys may stand where another one stands.
fn keys_wanted(alloc: Global, sort: Sort, value: &Value<'_>) -> Result<String, AllocError> {
    let mut text = String::from_str(alloc, "the keys here are")?;
    push_words(&mut text, known_keys(alloc, sort, value)?.as_slice())?;
    Ok(text)
}

/// What stands there.
pub(crate) fn named_found(
    alloc: Global,
    names: &Names<'_>,
    fault: &Fault<'_>,
    value: &Value<'_>,
) -> Result<String, AllocError> {
    match fault.cause {
        Cause::Unfit => unfit_found(alloc, names, fault.sort, value),
        Cause::NoKey(_) => String::from_str(alloc, "it is missing"),
        Cause::Twice(_) => String::from_str(alloc, "there are more"),
        Cause::OtherKey(n) => key_found(alloc, fault.sort, value, n),
        Cause::NoWord => word_found(alloc, fault.sort, value),
        _ => value_found(alloc, value),
    }
}

/// What stands where a value without parts is wanted: a name that nothing has, or the value.
fn unfit_found(
    alloc: Global,
    names: &Names<'_>,
    sort: Sort,
    value: &Value<'_>,
) -> Result<String, AllocError> {
    match (name_kind(sort), value.as_str()) {
        (Some(kind), Some(name)) => name_found(alloc, names, kind, name),
        _ => value_found(alloc, value),
    }
}

/// The kind of the name that should stand at a place, where one should.
fn name_kind(sort: Sort) -> Option<Kind> {
    match sort {
        Sort::Leaf(leaf) => match leaf {
            Leaf::Name(kind) => Some(kind),
            Leaf::NameOrNull(kind) => Some(kind),
            _ => None,
        },
        _ => None,
    }
}

/// What a name that is none of its kind is, and the nearest that is.
fn name_found(
    alloc: Global,
    names: &Names<'_>,
    kind: Kind,
    name: &str,
) -> Result<String, AllocError> {
    let mut text = String::new(alloc);
    push_quoted(&mut text, name)?;
    for other in KINDS.iter() {
        if names.number(*other, name).is_some() {
            text.push_str(" is ")?;
            text.push_str(kind_text(*other))?;
            return Ok(text);
        }
    }
    text.push_str(if names.of_kind(kind).len() >= most(kind) {
        " is none of the first that have a number"
    } else {
        " is none"
    })?;
    push_meant(&mut text, nearest(alloc, names.of_kind(kind), name)?)?;
    Ok(text)
}

/// Adds what may be meant, where something may.
fn push_meant(text: &mut String, meant: Option<&str>) -> Result<(), AllocError> {
    match meant {
        Some(word) => {
            text.push_str(", did you mean ")?;
            push_quoted(text, word)?;
            text.push_str("?")
        }
        None => Ok(()),
    }
}

/// A key that is unknown, and the one that is meant, where one may be.
fn key_found(alloc: Global, sort: Sort, value: &Value<'_>, n: usize) -> Result<String, AllocError> {
    let key = nth_key(value, n).unwrap_or("");
    key_text(alloc, key, meant_key(alloc, sort, value, key)?)
}

/// What is found where a key stands that may not: the key, and the one that may be meant.
fn key_text(alloc: Global, key: &str, meant: Option<&str>) -> Result<String, AllocError> {
    let mut text = String::from_str(alloc, "this is ")?;
    push_quoted(&mut text, key)?;
    push_meant(&mut text, meant)?;
    Ok(text)
}

/// What stands in the place of the key `form`.
pub(crate) fn form_found(alloc: Global, script: &Value<'_>) -> Result<String, AllocError> {
    let key = Word::Form.text();
    if let Some(value) = script.get(key) {
        return value_found(alloc, value);
    }
    match slip_for(alloc, SCRIPT, script, Word::Form)? {
        Some(slip) => key_text(alloc, slip, Some(key)),
        None => String::from_str(alloc, "it is missing"),
    }
}

/// An object with none of the words, or with more than one.
fn word_found(alloc: Global, sort: Sort, value: &Value<'_>) -> Result<String, AllocError> {
    match sort {
        Sort::OneOf(choice) if choice != Choice::Tree && matches!(value, Value::Object(_)) => {
            object_word_found(alloc, choice, value)
        }
        _ => value_found(alloc, value),
    }
}

/// What stands in place of the one word of an action or a source: more than one of them, or none, and the one that may be meant.
fn object_word_found(
    alloc: Global,
    choice: Choice,
    value: &Value<'_>,
) -> Result<String, AllocError> {
    let mut count = 0u32;
    for word in words(choice) {
        if value.get(word.text()).is_some() {
            count = count.saturating_add(1);
        }
    }
    if count > 0 {
        return String::from_str(alloc, "this has more than one of them");
    }
    let mut text = String::from_str(alloc, "this has none of them")?;
    if let Some(slip) = slip_among(alloc, Sort::OneOf(choice), value, words(choice))? {
        push_meant(&mut text, Some(slip.meant))?;
    }
    Ok(text)
}

/// A value of a script with names in a few words: a text is quoted, a list counted.
fn value_found(alloc: Global, value: &Value<'_>) -> Result<String, AllocError> {
    let mut text = String::from_str(alloc, "this is ")?;
    match value {
        Value::Null => text.push_str("null")?,
        Value::Bool(b) => text.push_str(if *b { "true" } else { "false" })?,
        Value::Number(digits) => text.push_str(digits)?,
        Value::String(inner) => {
            text.push_str("the text ")?;
            push_quoted(&mut text, inner)?;
        }
        Value::Array(items) => {
            let count = items.len();
            write!(text, "a list of {count}")?;
        }
        Value::Object(_) => text.push_str("an object")?,
    }
    Ok(text)
}

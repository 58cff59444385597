//! The faults of a script with names, in words, each with the steps to its value.
use crate::lead::value_at;
use crate::named_keys::{SCRIPT, has_any, nth_key, slip_among, slip_for};
use crate::named_words::{class_of, form_found, named_found, named_wanted};
use crate::report::class_text;
use crate::twice::{Standing, second};
use crate::words::{found_text, push_quoted, wanted_text};
use json::Value;
use named::{
    Cause, Choice, Fault, Names, Numbered, Sort, Step, Translation, Word, is_named, origin,
    translate, words,
};
use script_check::{Step as NumberedStep, script_faults};
use std::alloc::{AllocError, Global};

/// A fault in words, with the steps to the value that has it.
#[derive(Drop)]
pub(crate) struct Entry<'a> {
    pub place: Vec<Step<'a>>,
    pub class: &'static str,
    pub wanted: String,
    pub found: String,
}

/// All faults of a script that is meant as one with names: that it does not say so, and those of the form; where there are none of these,
/// those of the script of numbers.
pub(crate) fn entries_of<'a>(
    alloc: Global,
    document: &Value<'a>,
) -> Result<Vec<Entry<'a>>, AllocError> {
    let mut entries = Vec::new(alloc);
    if !is_named(document) {
        entries.push(form_entry(alloc, document)?)?;
    }
    match translate(alloc, document)? {
        Translation::Faults(faults) => {
            push_named_entries(alloc, document, faults.as_slice(), &mut entries)?
        }
        Translation::Script(numbered) => {
            if entries.is_empty() {
                push_numbered_entries(alloc, document, numbered.as_slice(), &mut entries)?;
            }
        }
    }
    Ok(entries)
}

/// What is wrong with the key `form`: it is another, or misspelled, or missing.
fn form_entry<'a>(alloc: Global, document: &Value<'a>) -> Result<Entry<'a>, AllocError> {
    let mut place = Vec::new(alloc);
    if document.get(Word::Form.text()).is_some() {
        place.push(Step::Key(Word::Form.text()))?;
    } else if let Some(slip) = slip_for(alloc, SCRIPT, document, Word::Form)? {
        place.push(Step::Key(slip))?;
    }
    Ok(Entry {
        place,
        class: "shape",
        wanted: String::from_str(alloc, "a script with names has \"form\": \"names\"")?,
        found: form_found(alloc, document)?,
    })
}

/// Adds the faults of the form.
fn push_named_entries<'a>(
    alloc: Global,
    document: &Value<'a>,
    faults: &[Fault<'a>],
    entries: &mut Vec<Entry<'a>>,
) -> Result<(), AllocError> {
    let names = Names::of(alloc, document)?;
    let form = slip_for(alloc, SCRIPT, document, Word::Form)?;
    for fault in faults {
        push_named_entry(alloc, document, &names, form, fault, entries)?;
    }
    Ok(())
}

/// Adds a fault of the form. What is missing is not told where a key that is told may be meant to be it.
fn push_named_entry<'a>(
    alloc: Global,
    document: &Value<'a>,
    names: &Names<'_>,
    form: Option<&str>,
    fault: &Fault<'a>,
    entries: &mut Vec<Entry<'a>>,
) -> Result<(), AllocError> {
    let value = reached(document, fault.place.as_slice());
    if !is_of_form(fault, value, form) && !is_misspelled(alloc, fault, value)? {
        entries.push(named_entry(alloc, document, names, fault, value)?)?;
    }
    Ok(())
}

/// Whether a fault is that of a key which is meant to be `form`.
fn is_of_form(fault: &Fault<'_>, value: &Value<'_>, form: Option<&str>) -> bool {
    match (fault.cause, form) {
        (Cause::OtherKey(n), Some(form)) if fault.sort == SCRIPT => nth_key(value, n) == Some(form),
        _ => false,
    }
}

/// Whether a key or a kind of source is missing, and a key may be meant to be it.
fn is_misspelled(alloc: Global, fault: &Fault<'_>, value: &Value<'_>) -> Result<bool, AllocError> {
    match (fault.cause, fault.sort) {
        (Cause::NoKey(word), sort) => Ok(slip_for(alloc, sort, value, word)?.is_some()),
        (Cause::NoWord, Sort::OneOf(Choice::Source)) if !has_any(value, words(Choice::Source)) => {
            Ok(slip_among(alloc, fault.sort, value, words(Choice::Source))?.is_some())
        }
        _ => Ok(false),
    }
}

/// The entry of a fault of a script with names: its place, its class, what was wanted there and what stands there.
fn named_entry<'a>(
    alloc: Global,
    document: &Value<'a>,
    names: &Names<'_>,
    fault: &Fault<'a>,
    value: &Value<'a>,
) -> Result<Entry<'a>, AllocError> {
    if let Cause::Twice(kind) = fault.cause {
        if let Some(standing) = second(alloc, document, kind)? {
            return twice_entry(alloc, fault, value, standing);
        }
    }
    Ok(Entry {
        place: place_of(alloc, fault, value)?,
        class: class_of(fault, value),
        wanted: named_wanted(alloc, fault, value)?,
        found: named_found(alloc, names, fault, value)?,
    })
}

/// The steps to the value of a fault; where it is an unknown key, to what stands under that.
fn place_of<'a>(
    alloc: Global,
    fault: &Fault<'a>,
    value: &Value<'a>,
) -> Result<Vec<Step<'a>>, AllocError> {
    let mut place = Vec::from_slice(alloc, fault.place.as_slice())?;
    if let Cause::OtherKey(n) = fault.cause {
        if let Some(key) = nth_key(value, n) {
            place.push(Step::Key(key))?;
        }
    }
    Ok(place)
}

/// The fault of a name that stands for the second time.
fn twice_entry<'a>(
    alloc: Global,
    fault: &Fault<'a>,
    value: &Value<'a>,
    standing: Standing<'a>,
) -> Result<Entry<'a>, AllocError> {
    Ok(Entry {
        place: standing.place,
        class: class_of(fault, value),
        wanted: named_wanted(alloc, fault, value)?,
        found: twice_found(alloc, standing.name)?,
    })
}

/// What stands where a name is declared for the second time: that name, quoted.
fn twice_found(alloc: Global, name: &str) -> Result<String, AllocError> {
    let mut text = String::new(alloc);
    push_quoted(&mut text, name)?;
    text.push_str(" stands twice")?;
    Ok(text)
}

/// Adds the faults that a script without a fault of the form has as one of numbers: limits and rules.
fn push_numbered_entries<'a>(
    alloc: Global,
    document: &Value<'a>,
    numbered: &[u8],
    entries: &mut Vec<Entry<'a>>,
) -> Result<(), AllocError> {
    let value = match serde_json::Value::from_slice(alloc, numbered) {
        Ok(value) => value,
        Err(error) if error.is_memory() => return Err(AllocError),
        Err(error) => {
            let found = format!(in alloc; "its reader says: {error}")?;
            entries.push(unreadable_entry(alloc, found)?)?;
            return Ok(());
        }
    };
    let faults = script_faults(alloc, &value)?;
    for fault in faults.as_slice() {
        entries.push(numbered_entry(alloc, document, &value, fault)?)?;
    }
    Ok(())
}

/// A fault of the script of numbers, with the steps to the value that it comes from.
fn numbered_entry<'a>(
    alloc: Global,
    document: &Value<'a>,
    numbered: &serde_json::Value,
    fault: &script_check::Fault,
) -> Result<Entry<'a>, AllocError> {
    let here = value_at(numbered, fault.place.steps());
    let steps = numbered_steps(alloc, fault.place.steps())?;
    Ok(Entry {
        place: origin(alloc, document, steps.as_slice())?,
        class: class_text(fault.cause.class()),
        wanted: wanted_text(alloc, fault, here)?,
        found: found_text(alloc, fault, here)?,
    })
}

/// The steps to the value of a script of numbers that a script with names stands for.
fn numbered_steps(alloc: Global, steps: &[NumberedStep]) -> Result<Vec<Numbered>, AllocError> {
    let mut numbered = Vec::new(alloc);
    for step in steps {
        numbered.push(match step {
            NumberedStep::Key(name) => Numbered::Key(name.text()),
            NumberedStep::Item(n) => Numbered::Item(*n),
        })?;
    }
    Ok(numbered)
}

/// What is wrong where the script of numbers is not read: a number of it is beyond every double, or it nests too deep.
fn unreadable_entry<'a>(alloc: Global, found: String) -> Result<Entry<'a>, AllocError> {
    Ok(Entry {
        place: Vec::new(alloc),
        class: "not json",
        wanted: String::from_str(alloc, "the script of numbers is one JSON value")?,
        found,
    })
}

/// The value to which steps lead; where one leads nowhere, that before it.
fn reached<'v, 'a>(value: &'v Value<'a>, steps: &[Step<'a>]) -> &'v Value<'a> {
    match steps.split_first() {
        None => value,
        Some((step, rest)) => match next(value, step) {
            None => value,
            Some(inner) => reached(inner, rest),
        },
    }
}

/// What stands a step further.
fn next<'v, 'a>(value: &'v Value<'a>, step: &Step<'a>) -> Option<&'v Value<'a>> {
    match step {
        Step::Key(key) => value.get(key),
        Step::Item(n) => value.at(*n),
        Step::Same => Some(value),
    }
}

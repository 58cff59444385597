//! The keys of the objects of a script with names, and which one a misspelled key may be: the nearest by letters, or one that begins so.
use crate::nearest::nearest;
use json::Value;
use named::{Choice, Object, Sort, Word, beside, chosen, keys, words};
use std::alloc::{AllocError, Global};

/// A whole script.
pub(crate) const SCRIPT: Sort = Sort::An(Object::Script);

/// How much of a key has to be there where it is told from its beginning, in bytes.
const BEGINNING: usize = 4;

/// The most members of an object in which a key is taken for a misspelled one.
const MOST_MEMBERS: usize = 64;

/// A misspelled key, and the one that is meant.
#[derive(Clone, Copy)]
pub(crate) struct Slip<'a> {
    pub key: &'a str,
    pub meant: &'static str,
}

/// The key of a member, by its place.
pub(crate) fn nth_key<'a>(value: &Value<'a>, n: usize) -> Option<&'a str> {
    match value {
        Value::Object(members) => Some(members.as_slice().get(n)?.0),
        _ => None,
    }
}

/// The keys that may stand in an object. What an action makes has those of the action.
pub(crate) fn known_keys(
    alloc: Global,
    sort: Sort,
    value: &Value<'_>,
) -> Result<Vec<Word>, AllocError> {
    let mut known = Vec::new(alloc);
    match sort {
        Sort::An(Object::Script) | Sort::An(Object::Thread) | Sort::An(Object::Procedure) => {
            push_keys(sort, &mut known)?
        }
        _ => push_action_keys(value, &mut known)?,
    }
    Ok(known)
}

/// Adds the keys that an object of a script with names may have.
fn push_keys(sort: Sort, known: &mut Vec<Word>) -> Result<(), AllocError> {
    match sort {
        Sort::An(object) => known.extend_from_slice(keys(object)),
        _ => Ok(()),
    }
}

/// Adds the keys of an action; the words of all actions, where it has none or more than one.
fn push_action_keys(value: &Value<'_>, known: &mut Vec<Word>) -> Result<(), AllocError> {
    let Some(word) = chosen(Choice::Action, value) else {
        return known.extend_from_slice(words(Choice::Action));
    };
    push_with_beside(word, known)?;
    if matches!(word, Word::Attach | Word::Child) {
        match chosen(Choice::Source, value) {
            Some(kind) => push_with_beside(kind, known)?,
            None => known.extend_from_slice(words(Choice::Source))?,
        }
    }
    Ok(())
}

/// Adds a word, and the keys that may stand beside it.
fn push_with_beside(word: Word, known: &mut Vec<Word>) -> Result<(), AllocError> {
    known.push(word)?;
    for each in beside(word) {
        if *each != word {
            known.push(*each)?;
        }
    }
    Ok(())
}

/// The key that an unknown one of an object is meant to be: the nearest of those that are not there. Where there are very many members none
/// is.
pub(crate) fn meant_key(
    alloc: Global,
    sort: Sort,
    value: &Value<'_>,
    key: &str,
) -> Result<Option<&'static str>, AllocError> {
    if !has_few_members(value) {
        return Ok(None);
    }
    let known = known_keys(alloc, sort, value)?;
    let mut absent = Vec::new(alloc);
    for word in known.as_slice() {
        if value.get(word.text()).is_none() {
            absent.push(word.text())?;
        }
    }
    match nearest(alloc, absent.as_slice(), key)? {
        Some(word) => Ok(Some(word)),
        None => Ok(begun(absent.as_slice(), key)),
    }
}

/// Whether a value with names is an object of so few members that a misspelled key is looked for among them.
fn has_few_members(value: &Value<'_>) -> bool {
    match value {
        Value::Object(members) => members.len() <= MOST_MEMBERS,
        _ => false,
    }
}

/// The first word that begins with a text, or with which it begins.
fn begun(words: &[&'static str], text: &str) -> Option<&'static str> {
    for word in words {
        let shorter = word.len().min(text.len());
        if shorter >= BEGINNING && (word.starts_with(text) || text.starts_with(*word)) {
            return Some(*word);
        }
    }
    None
}

/// The first unknown key of an object that is meant to be one of some words.
pub(crate) fn slip_among<'a>(
    alloc: Global,
    sort: Sort,
    value: &Value<'a>,
    words: &[Word],
) -> Result<Option<Slip<'a>>, AllocError> {
    let Value::Object(members) = value else {
        return Ok(None);
    };
    if !has_few_members(value) {
        return Ok(None);
    }
    let known = known_keys(alloc, sort, value)?;
    for member in members.as_slice() {
        if !is_among(known.as_slice(), member.0) {
            if let Some(meant) = meant_key(alloc, sort, value, member.0)? {
                if is_among(words, meant) {
                    let key = member.0;
                    return Ok(Some(Slip { key, meant }));
                }
            }
        }
    }
    Ok(None)
}

/// The first unknown key of an object that is meant to be this one.
pub(crate) fn slip_for<'a>(
    alloc: Global,
    sort: Sort,
    value: &Value<'a>,
    word: Word,
) -> Result<Option<&'a str>, AllocError> {
    match slip_among(alloc, sort, value, &[word])? {
        Some(slip) => Ok(Some(slip.key)),
        None => Ok(None),
    }
}

/// Whether a key is one of the words of a script with names that are known there.
fn is_among(words: &[Word], key: &str) -> bool {
    words.iter().any(|word| word.text() == key)
}

/// Whether one of some words stands as a key.
pub(crate) fn has_any(value: &Value<'_>, words: &[Word]) -> bool {
    words.iter().any(|word| value.get(word.text()).is_some())
}

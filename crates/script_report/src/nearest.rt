//! The nearest word by letters, for one that is misspelled.
use std::alloc::{AllocError, Global};
use strsim::osa_distance;

/// How many slips are forgiven.
const SLIPS: usize = 2;

/// The longest text whose nearest word is looked for, in bytes.
const LONGEST: usize = 64;

/// The nearest of some words, where one is near.
pub(crate) fn nearest<'w>(
    alloc: Global,
    words: &[&'w str],
    given: &str,
) -> Result<Option<&'w str>, AllocError> {
    if given.len() > LONGEST {
        return Ok(None);
    }
    let mut best = SLIPS.saturating_add(1);
    let mut nearest = None;
    for word in words {
        let distance = osa_distance(alloc, *word, given)?;
        if distance < best && distance.saturating_mul(2) < word.len() {
            best = distance;
            nearest = Some(*word);
        }
    }
    Ok(nearest)
}

/// Adds the nearest of some words, where one is near.
pub(crate) fn push_nearest(
    alloc: Global,
    out: &mut String,
    words: &[&str],
    given: &str,
) -> Result<(), AllocError> {
    match nearest(alloc, words, given)? {
        Some(word) => {
            out.push_str(", did you mean ")?;
            out.push_str(word)?;
            out.push_str("?")
        }
        None => Ok(()),
    }
}

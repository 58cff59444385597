//! Entries by rising id: where that of an id stands, one more among them, and those whose value was taken left out.
ghost use Rattle.std.specs.Prelude.{◌≡◌, ◌<◌, true, filter, OnOk, OnErr, IfSome, IfNone};
ghost use Rattle.std.specs.List.{AllByRecursion};
ghost use Rattle.std.specs.Ordering.{nat_cmp};
ghost use Rattle.std.specs.BTreeMap.{insert_entry};
ghost use Rattle.by_id.specs.Entries.{lives, living, IdsRise, IsAt, HasNot};

use std::alloc::AllocError;

/// Room for so many entries is not given back.
const SMALL: usize = 16;

/// Room is given back where fewer than one in so many places for entries is needed.
const ROOMY: usize = 8;

/// An id, and its value until that is taken.
#[derive(Clone, Copy)]
pub(crate) struct Entry<T> {
    pub(crate) id: u64,
    pub(crate) value: Option<T>,
}

impl<T> Entry<T> {
    /// Whether its value was not taken.
    fn lives(&self) -> bool
        ensures { result ≡ lives self.now }
    {
        self.value.is_some()
    }
}

/// Where the entry of an id stands, where that is the place that is guessed.
#[inline]
fn guessed<T>(entries: &[Entry<T>], guess: usize, id: u64) -> Option<usize>
    ensures { IfSome result (IsAt id entries.now) }
{
    let entry = entries.get(guess)?;
    if entry.id == id { Some(guess) } else { None }
}

/// Where the entry of an id stands, by halving.
fn search<T>(entries: &[Entry<T>], id: u64) -> Option<usize>
    requires { IdsRise entries.now }
    ensures some { IfSome result (IsAt id entries.now) }
    ensures none { IfNone result (HasNot id entries.now) }
{
    match entries.binary_search_by_key(&id, |entry| entry.id) {
        Ok(at) => Some(at),
        Err(_) => None,
    }
}

/// Where the entry of an id stands.
#[inline]
pub(crate) fn place<T>(entries: &[Entry<T>], guess: usize, id: u64) -> Option<usize>
    requires { IdsRise entries.now }
    ensures some { IfSome result (IsAt id entries.now) }
    ensures none { IfNone result (HasNot id entries.now) }
{
    match guessed(entries, guess, id) {
        Some(at) => Some(at),
        None => search(entries, id),
    }
}

/// Whether the ids of all entries are below an id.
#[inline]
pub(crate) fn are_below<T>(entries: &[Entry<T>], id: u64) -> bool
    requires { IdsRise entries.now }
    ensures { result ≡ true → AllByRecursion (λ e. e.id < id) entries.now }
{
    match entries.last() {
        None => true,
        Some(last) => last.id < id,
    }
}

/// Puts a value among the others, at the place of its id.
pub(crate) fn put_among<T: Copy>(
    entries: &mut Vec<Entry<T>>,
    id: u64,
    value: T,
) -> Result<(), AllocError>
    requires { IdsRise entries.old.items }
    ensures rises { IdsRise entries.new.items }
    ensures ok { OnOk result (living entries.new.items ≡ insert_entry nat_cmp (living entries.old.items) id value) }
    ensures err { OnErr result (living entries.new.items ≡ living entries.old.items) }
{
    let entry = Entry {
        id,
        value: Some(value),
    };
    match entries.binary_search_by_key(&id, |entry| entry.id) {
        Ok(at) => entries[at] = entry,
        Err(at) => entries.insert(at, entry)?,
    }
    Ok(())
}

/// Leaves the entries alone that have a value, and gives back most of the room that is left over.
pub(crate) fn leave_out_taken<T: Copy>(entries: &mut Vec<Entry<T>>)
    ensures { entries.new.items ≡ filter lives entries.old.items }
{
    entries.retain(|entry| entry.lives());
    let living = entries.len();
    if living < entries.capacity() / ROOMY {
        entries.shrink_to(SMALL);
    }
}

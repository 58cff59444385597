//! The calls in progress, to be found by the ids of their sources.
ghost use Rattle.std.specs.Prelude.{◌≡◌, ◌==◌, [], length, IsTrue};
ghost use Rattle.std.specs.List.{list_any};
ghost use Rattle.context_core.specs.Classes.{TellsOfIds};

use crate::classes::{Classes, next_place};
use std::marker::Model;

/// Where the sources whose calls are in progress stand in their list.
#[derive(Drop)]
pub struct BusyTable {
    classes: Classes,
}

impl Model for BusyTable {
    ghost use Rattle.std.specs.Prelude.{ℕ, List};

    ghost Value = { List ℕ };

    ghost view = { λ t. t.classes };
}

impl BusyTable {
    /// The table of sources with these ids.
    #[inline]
    pub fn new(ids: &[u64]) -> BusyTable
        ensures { TellsOfIds ids.now result }
    {
        BusyTable {
            classes: classes_of_ids(ids),
        }
    }
}

/// The ids of sources whose calls are in progress, seen as their list, with one table for all that looks them up in an iteration.
#[derive(Drop)]
pub struct Busy<'a> {
    ids: &'a [u64],
    /// None where no call is in progress.
    table: Option<&'a BusyTable>,
}

impl<'a> Model for Busy<'a> {
    ghost use Rattle.std.specs.Prelude.{◌≡◌, List, [], IfSome, IfNone};
    ghost use Rattle.loop_script.specs.Units.{SourceId};
    ghost use Rattle.context_core.specs.Classes.{TellsOfIds};

    ghost Value = { List SourceId };

    ghost view = { λ b. b.ids.now };

    ghost invariant = { λ b. IfSome b.table (λ t. TellsOfIds b.ids.now t.now) × IfNone b.table (b.ids.now ≡ []) };
}

impl<'a> Busy<'a> {
    /// No call is in progress.
    #[inline]
    pub fn none() -> Busy<'a>
        ensures { result ≡ [] }
    {
        Busy {
            ids: &[],
            table: None,
        }
    }

    /// Calls of the sources with these ids are in progress, of which this is the table.
    #[inline]
    pub fn new(ids: &'a [u64], table: &'a BusyTable) -> Busy<'a>
        requires { TellsOfIds ids.now table.now }
        ensures { result ≡ ids.now }
    {
        Busy {
            ids,
            table: Some(table),
        }
    }

    /// Whether no call is in progress.
    #[inline]
    pub(crate) fn is_empty(&self) -> bool
        ensures { result ≡ (length self.now == 0) }
    {
        self.ids.is_empty()
    }

    /// Whether an id is listed.
    #[inline]
    pub(crate) fn has(&self, id: u64) -> bool
        ensures { result ≡ list_any (λ b. b == id) self.now }
    {
        let Some(table) = self.table else {
            return false;
        };
        let place = table.classes.place(id);
        if place == 0 {
            return false;
        }
        stands_at(self.ids, place as usize - 1, id) || is_busy_id(self.ids, id)
    }
}

/// Whether an id stands at a place.
#[inline]
fn stands_at(ids: &[u64], place: usize, id: u64) -> bool
    ensures { IsTrue result → IsTrue (list_any (λ b. b == id) ids.now) }
{
    match ids.get(place) {
        Some(b) => *b == id,
        None => false,
    }
}

/// Whether an id is listed.
fn is_busy_id(ids: &[u64], id: u64) -> bool
    ensures { result ≡ list_any (λ b. b == id) ids.now }
{
    ids.iter().any(|b| *b == id)
}

/// The classes of ids.
#[inline]
fn classes_of_ids(ids: &[u64]) -> Classes
    ensures { TellsOfIds ids.now result }
{
    let mut classes = Classes::new();
    let mut place = 0;
    'ids: for id in ids {
        place = next_place(place);
        classes.note(*id, place);
    }
    classes
}

//! What descriptors show, as a poll told it: looked up by descriptor, or by place in what was handed in.
ghost use Rattle.std.specs.Prelude.{◌≡◌, ◌==◌, [], Some, IfSome, slice_get};
ghost use Rattle.std.specs.List.{find};
ghost use Rattle.context_core.specs.Phases.{shown};
ghost use Rattle.context_core.specs.Classes.{TellsNone, TellsFirst};

use crate::classes::{Classes, FAR, next_place};
use crate::interest::Shown;
use std::marker::Model;

/// What descriptors show, seen as a list. What is listed first of one counts.
#[derive(Drop)]
pub(crate) struct Polled<'a> {
    list: &'a [Shown],
    /// None where the list itself is looked through.
    classes: Option<&'a Classes>,
}

impl<'a> Model for Polled<'a> {
    ghost use Rattle.std.specs.Prelude.{List, IfSome};
    ghost use Rattle.context_core.specs.declared.interest.Shown.{Shown};
    ghost use Rattle.context_core.specs.Classes.{TellsNone, TellsFirst};

    ghost Value = { List Shown };

    ghost view = { λ p. p.list.now };

    ghost invariant = { λ p. IfSome p.classes (λ c. TellsNone p.list.now c.now × TellsFirst p.list.now c.now) };
}

impl<'a> Polled<'a> {
    /// No descriptor was asked.
    pub fn nothing() -> Polled<'a>
        ensures { result ≡ [] }
    {
        Polled {
            list: &[],
            classes: None,
        }
    }

    /// What is listed of descriptors, which are of these classes.
    pub fn new(list: &'a [Shown], classes: &'a Classes) -> Polled<'a>
        requires none { TellsNone list.now classes.now }
        requires first { TellsFirst list.now classes.now }
        ensures { result ≡ list.now }
    {
        Polled {
            list,
            classes: Some(classes),
        }
    }

    /// The level that a descriptor shows; 0 where it is not listed.
    pub fn level(&self, fd: u32) -> u8
        ensures { result ≡ shown self.now fd }
    {
        let Some(classes) = self.classes else {
            return level_in(self.list, fd);
        };
        let place = classes.place(u64::from(fd));
        if place == 0 {
            return 0;
        }
        if place < FAR {
            if let Some(level) = shown_at(self.list, place as usize - 1, fd) {
                return level;
            }
        }
        level_in(self.list, fd)
    }
}

/// The level at a place, where the descriptor stands there.
fn shown_at(list: &[Shown], place: usize, fd: u32) -> Option<u8>
    ensures { IfSome result (λ level. slice_get list.now place ≡ Some (record { fd = fd; level = level })) }
{
    match list.get(place) {
        Some(one) if one.fd == fd => Some(one.level),
        _ => None,
    }
}

/// What is listed of a descriptor.
fn find_shown(list: &[Shown], fd: u32) -> Option<Shown>
    ensures { result ≡ find (λ s. s.fd == fd) list.now }
{
    list.iter().copied().find(|s| s.fd == fd)
}

/// The level that a descriptor shows; 0 where it is not listed.
fn level_in(list: &[Shown], fd: u32) -> u8
    ensures { result ≡ shown list.now fd }
{
    match find_shown(list, fd) {
        Some(s) => s.level,
        None => 0,
    }
}

/// The classes of descriptors.
pub(crate) fn classes_of_shown(list: &[Shown]) -> Classes
    ensures none { TellsNone list.now result }
    ensures first { TellsFirst list.now result }
{
    let mut classes = Classes::new();
    let mut place = 0;
    'list: for one in list {
        place = next_place(place);
        classes.note(u64::from(one.fd), place);
    }
    classes
}

/// The level that was handed in at a place.
pub(crate) fn level_at(levels: &[u8], place: usize) -> Option<u8>
    ensures { result ≡ slice_get levels.now place }
{
    levels.get(place).copied()
}

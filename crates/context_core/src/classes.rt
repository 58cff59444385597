//! Numbers by classes, to find one of them in a list by one look.
ghost use Rattle.std.specs.Prelude.{◌≡◌, ◌+◌, min, slice_set};
ghost use Rattle.context_core.specs.Classes.{class_of, far, no_places, place_of, noted};

use std::marker::Model;

/// How many classes there are: as many as a script may have descriptors, so each of those has its own.
const CLASSES: usize = 256;

/// The place of what stands farther back in a list than a place can tell.
pub(crate) const FAR: u16 = u16::MAX;

/// Of each class of numbers the place of the first of them in a list, from 1 on; 0 where there is none.
#[derive(Drop)]
pub(crate) struct Classes {
    places: [u16; CLASSES],
}

impl Model for Classes {
    ghost use Rattle.std.specs.Prelude.{ℕ, List};

    ghost Value = { List ℕ };

    ghost view = { λ c. c.places };
}

impl Classes {
    /// No class has a place.
    #[inline]
    pub fn new() -> Classes
        ensures { result ≡ no_places }
    {
        Classes {
            places: [0; CLASSES],
        }
    }

    /// The place of a number's class.
    #[inline]
    pub fn place(&self, number: u64) -> u16
        ensures { result ≡ place_of number self.now }
    {
        let places = &self.places[..];
        match places.get(class_of(number)) {
            Some(place) => *place,
            None => FAR,
        }
    }

    /// Notes the place of a number, where its class has none.
    pub fn note(&mut self, number: u64, place: u16)
        ensures { self.new ≡ noted number place self.old }
    {
        if self.place(number) == 0 {
            set(&mut self.places[..], class_of(number), place);
        }
    }
}

/// The class of a number.
#[inline]
fn class_of(number: u64) -> usize
    ensures { result ≡ class_of number }
{
    (number % CLASSES as u64) as usize
}

/// Sets the place of a class.
fn set(places: &mut [u16], class: usize, place: u16)
    ensures { places.new ≡ slice_set places.old class place }
{
    if class < places.len() {
        places[class] = place;
    }
}

/// The place behind another.
pub(crate) fn next_place(place: u16) -> u16
    ensures { result ≡ min (place + 1) far }
{
    if place == FAR { FAR } else { place + 1 }
}

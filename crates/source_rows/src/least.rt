//! What is noted of seats: all their marks and the least of their times, by which a walk passes over what sleeps.
ghost use Rattle.std.specs.Prelude.{◌≡◌, ◌<◌, List, [], ◌∷◌, ◌++◌, false, true, bit_or};
ghost use Rattle.cancel_view.specs.Marks.{opening};
ghost use Rattle.source_rows.specs.Seats.{least_by, least_of, marks_of, lesser, without, AddsNone, IsLater};
ghost use Rattle.source_rows.specs.SeatTree.{seats_of};

use crate::seats::{Fork, NEVER, Seat, Seats};
use cancel_view::{Marks, NO_MARK};

/// All marks of some seats, and the least of their times: `NEVER` where there are none.
#[derive(Clone, Copy)]
pub(crate) struct Least {
    pub(crate) marks: Marks,
    pub(crate) due: u64,
}

impl Least {
    /// What is noted where there is no seat.
    pub(crate) fn none() -> Least
        ensures { result ≡ least_of [] }
    {
        Least {
            marks: Marks::none(),
            due: NEVER,
        }
    }

    /// What is noted of one seat.
    pub(crate) fn of(seat: &Seat) -> Least
        ensures { result ≡ least_of (seat.now ∷ []) }
    {
        let mut least = Least::none();
        least.note(seat);
        least
    }

    /// Notes what was noted of other seats.
    pub(crate) fn join(&mut self, other: &Least)
        ensures { self.new ≡ record { marks = bit_or self.old.marks other.now.marks; due = lesser self.old.due other.now.due } }
    {
        self.marks = self.marks.union(&other.marks);
        self.due = lesser(self.due, other.due);
    }

    /// Notes one more seat.
    pub(crate) fn note(&mut self, seat: &Seat)
        ensures { self.new ≡ record { marks = bit_or self.old.marks (opening seat.now.mark); due = lesser seat.now.due self.old.due } }
    {
        self.marks.add(seat.mark);
        if seat.due < self.due {
            self.due = seat.due;
        }
    }
}

impl Fork {
    /// Notes marks and least time anew.
    fn note_least(&mut self)
        ensures { self.new ≡ record self.old { least = least_of (seats_of self.old) } }
    {
        self.least = least_over(&self.sooner, &self.seat, &self.later);
    }

    /// Notes the least time anew, and answers whether it is another: all that may be, where the marks are right.
    #[tactic(auto, using(crate::proofs::SetIn::least_with))]
    pub(crate) fn note_due(&mut self) -> bool
        ensures fork { self.old.least.marks ≡ marks_of (seats_of self.old) → self.new ≡ record self.old { least = least_of (seats_of self.old) } }
        ensures same { self.old.least.marks ≡ marks_of (seats_of self.old) → result ≡ false → self.old.least ≡ least_of (seats_of self.old) }
    {
        let behind = lesser(self.seat.due, self.later.least_due());
        let due = lesser(self.sooner.least_due(), behind);
        let is_other = due != self.least.due;
        self.least.due = due;
        is_other
    }

    /// Whether the mark of a number, where one has it, is that of the seat or of one on its sides, so that it adds nothing to their marks.
    #[tactic(auto, using(crate::proofs::Left::mark_here, crate::proofs::Left::mark_sooner, crate::proofs::Left::mark_later, crate::proofs::Left::no_mark_adds))]
    fn has_mark(&self, number: u16) -> bool
        ensures { result ≡ true → AddsNone number (seats_of self.now) }
    {
        number == NO_MARK
            || self.seat.mark == number
            || self.sooner.has_mark(number)
            || self.later.has_mark(number)
    }

    /// Notes marks and least time anew, once a seat was taken out.
    pub(crate) fn leave_out(&mut self, seat: &Seat)
        ensures { (all : List Seat) → self.old.least ≡ least_of all → seats_of self.old ≡ without seat.now all → self.new ≡ record self.old { least = least_of (seats_of self.old) } }
    {
        if !self.has_mark(seat.mark) {
            self.note_least();
        } else if !is_later(seat.due, self.least.due) {
            let _ = self.note_due();
        }
    }
}

/// The lesser of two times.
pub(crate) fn lesser(a: u64, b: u64) -> u64
    ensures { result ≡ lesser a b }
{
    if a < b { a } else { b }
}

/// Whether a time of a seat that goes is not the least of those that are left, which stays as it was.
fn is_later(time: u64, least: u64) -> bool
    ensures { result ≡ true → IsLater time least }
{
    least < time || time == NEVER
}

/// All marks of a seat and of those on its sides, and their least time.
pub(crate) fn least_over(sooner: &Seats, seat: &Seat, later: &Seats) -> Least
    ensures { result ≡ least_of (sooner.now.0 ++ seat.now ∷ later.now.0) }
{
    let mut least = sooner.least();
    later.add_least(&mut least);
    least.note(seat);
    least
}

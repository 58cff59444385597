//! The memory of a seat, taken before the seat is known, and kept once it went for one that comes.
ghost use Rattle.std.specs.Prelude.{◌≡◌, ◌∷◌, [], Some};
ghost use Rattle.source_rows.specs.SeatTree.{seen_of, IsEven};

use crate::seats::{Fork, NEVER, Seat};
use cancel_view::NO_MARK;
use std::alloc::{AllocError, Global};

/// Room for one seat.
#[derive(Drop)]
pub(crate) struct Room {
    pub(crate) fork: Box<Fork>,
}

impl Room {
    pub fn new(alloc: Global) -> Result<Room, AllocError> {
        let nobody = Seat {
            key: (0, [0; 4]),
            id: 0,
            mark: NO_MARK,
            due: NEVER,
        };
        let fork = Box::new(alloc, Fork::alone(nobody))?;
        Ok(Room { fork })
    }

    /// A tree of a seat and nothing else. It is kept apart, so that the way to it stays small.
    #[inline(never)]
    pub fn fill(mut self, seat: Seat) -> Box<Fork>
        ensures seats { seen_of (Some result) ≡ (seat ∷ [], 1) }
        ensures even { IsEven (Some result) }
    {
        *self.fork = Fork::alone(seat);
        self.fork
    }
}

/// The most rooms that are kept.
const MOST_SPARE: usize = 256;

/// Rooms of seats that went, kept for those that come: sources mostly go as fast as others come.
#[derive(Drop)]
pub(crate) struct Spare {
    rooms: Vec<Room>,
    alloc: Global,
}

impl Spare {
    /// No room.
    pub fn new(alloc: Global) -> Spare {
        Spare {
            rooms: Vec::new(alloc),
            alloc,
        }
    }

    /// A room that was kept, or else a new one.
    pub fn room(&mut self) -> Result<Room, AllocError> {
        match self.rooms.pop() {
            None => Room::new(self.alloc),
            Some(room) => Ok(room),
        }
    }

    /// Keeps a room, or gives it up where there are enough, or where there is no memory to keep it.
    pub fn keep(&mut self, room: Room) {
        if self.rooms.len() < MOST_SPARE {
            let _ = self.rooms.push(room);
        }
    }
}

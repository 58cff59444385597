//! Joining two trees of seats into one, and the key of the last seat. When that is done stands in `seat_order`.
ghost use Rattle.std.specs.Prelude.{◌≡◌, ◌≤◌, ◌+◌, max, length, [], ◌∷◌, ◌++◌, IfSome, IfNone};
ghost use Rattle.loop_script.specs.Bounds.{count_end};
ghost use Rattle.source_rows.specs.Seats.{IsLow};
ghost use Rattle.source_rows.specs.SeatOrder.{IsLastKey};

use crate::balance::{balance, balanced};
use crate::row::Key;
use crate::seats::{Fork, Seats};
use std::mem;

impl Seats {
    /// The key of the last seat.
    pub fn last_key(&self) -> Option<Key>
        ensures some { IfSome result (IsLastKey self.now.0) }
        ensures none { IfNone result (self.now.0 ≡ []) }
    {
        match &self.root {
            None => None,
            Some(fork) => {
                let fork = &**fork;
                match fork.later.last_key() {
                    None => Some(fork.seat.key),
                    key => key,
                }
            }
        }
    }

    /// Puts a seat, in its room, behind these, and behind it the seats of a tree that is not much higher.
    #[tactic(auto, using(crate::proofs::Low::low_even, crate::proofs::Low::low_sides))]
    pub fn append(&mut self, middle: Box<Fork>, behind: Seats)
        requires few { length self.old.0 + length behind.0 ≤ count_end }
        requires not_higher { behind.1 ≤ self.old.1 + 2 }
        ensures seats { self.new.0 ≡ self.old.0 ++ middle.value.seat ∷ behind.0 }
        ensures low { IsLow self.new }
        ensures height { (max self.old.1 behind.1 ≤ self.new.1) × (self.new.1 ≤ max self.old.1 behind.1 + 1) }
    {
        match &mut self.root {
            Some(fork) if fork.height > behind.height() + 1 => {
                let fork = &mut **fork;
                fork.later.append(middle, behind);
            }
            _ => {
                let sooner = mem::replace(self, Seats::new());
                self.root = Some(balanced(middle, sooner, behind));
                return;
            }
        }
        balance(&mut self.root);
    }
}

//! A lane of a script, and its turns.
//!
//! A lane is a scripted thread: contexts with their sources, loops, and the calls, iterations and runs that it is in
//! the middle of. A turn is its share of one tick.
#![tactic(auto)]

mod act;
mod chain;
mod deliver;
mod frames;
mod handlers;
mod handover;
mod in_progress;
mod inwards;
mod lane;
pub mod laws;
mod layer;
mod letters;
mod limits;
mod line;
mod look;
mod nest;
mod owned;
mod replies;
mod select;
mod slot;
mod sources;
mod start;
mod state;
mod step;
mod tally;
mod turn;
mod wakes;

pub use handover::Held;
pub use in_progress::{Activity, InProgress};
pub use lane::Status;
pub use layer::{Asker, Call, Caller, Origin};
pub use line::{Event, Invoked, Line, Word};
pub use owned::Grounds;
pub use replies::Awaited;
pub use slot::{Named, Place};
pub use state::{HandFault, LaneFault, LaneState};
pub use turn::Turn;

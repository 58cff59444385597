//! Where GLib does otherwise: it is told each move of a run, and answers where the real library parts from the rules, and in which of its ways.
#![tactic(auto)]

mod acted;
mod asked;
mod called;
mod cancelled;
mod difference;
mod kept;
mod notes;
mod owned;
mod selected;
mod shared;
mod sources;
mod stack;

pub use difference::Difference;
pub use notes::{Note, Notes};

//! The lines of a run with the names of its script, with the law that no two are told alike.
#![tactic(auto)]

pub mod laws;
mod line;
mod part;
mod told_line;

pub use line::push_line;
pub use part::{push_milliseconds, push_priority};
pub use told_line::Told;

//! Tasks as trees that are asked tick by tick how far they are: the run of one task, and the book of a lane's tasks.
#![tactic(auto)]

mod ahead;
mod body;
mod book;
mod entries;
mod entry;
mod heeded;
pub mod laws;
mod leaf;
mod look;
mod mark;
mod noted;
mod polls;
mod progress;
mod run;
mod stage;
mod tasks;

pub use book::{BookFault, Polled, TaskBook};
pub use entry::Reply;
pub use look::TaskShown;
pub use run::TaskRun;

//! What a run did and why, in words: each iteration with its sources, the life of a source, a summary, notes on GLib, and each moment as JSON.
#![tactic(auto)]

mod alike;
mod block;
mod counts;
mod life;
mod moments;
mod name_lists;
mod noted;
mod record;
mod rests;
mod run_text;
mod silent;
mod summary;
mod why;

pub use life::Life;
pub use moments::Moments;
pub use noted::NoteList;
pub use run_text::RunText;
pub use summary::Summary;
pub use why::Why;

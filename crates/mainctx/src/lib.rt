//! From the bytes of a script to the bytes of its text, and the program around it.
#![tactic(auto)]

mod arguments;
mod buffer;
mod ended;
mod ending;
mod last_dispatch;
pub mod laws;
mod printed;
mod run;
mod status;
mod text;
mod words;
mod writer;

pub use run::{MainFault, run_alone, run_bytes};
pub use status::{Refusal, refuse, serve};
pub use text::{OutOfMemory, add_text};
pub use words::action_word;
pub use writer::{Out, OutFault, OverWrite};

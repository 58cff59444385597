//! The arguments of `mainctx_inspect` and `mainctx_check`, as the kit's `clap` reads them.
#![tactic(auto)]

mod answers;
mod check;
mod commands;
mod flags;
mod inspect;
mod orders;
mod texts;
mod values;

pub use answers::Asked;
pub use check::{CheckOrder, read_check_words};
pub use inspect::read_inspect_words;
pub use orders::{Command, Order};
pub use values::{Source, Ticks};

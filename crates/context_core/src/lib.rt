//! Which sources of a context an iteration dispatches, by GLib's three phases.
//!
//! A context has sources, and counts how often it was acquired; `DefaultStack` has the contexts that a lane pushed as its
//! thread-default ones. `prepare` tells what is ready before any descriptor is asked, `query` what descriptors to ask
//! for what, and `check` the sources that are dispatched next; `ready_priority`, `interests` and `select` are the same three
//! over one table of the calls in progress, for who takes them in one go.
#![tactic(auto)]

mod busy;
mod classes;
mod context;
mod defaults;
mod free;
mod interest;
pub mod laws;
mod polled;
mod ready;
mod standing;
mod visit;

pub use busy::{Busy, BusyTable};
pub use context::Context;
pub use defaults::{DefaultStack, Pushed};
pub use interest::{Interest, Prepared};
pub use standing::Standing;

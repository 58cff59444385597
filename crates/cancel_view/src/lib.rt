//! Cancellables as one lane sees them: which of them it has seen cancelled, and the handlers that it has connected.
#![tactic(auto)]

mod groups;
mod handler;
mod handlers;
mod marks;
mod memory;
mod view;

pub use handler::{Connected, Fired, Handler};
pub use marks::{Marks, NO_MARK, cancel_number};
pub use memory::OutOfMemory;
pub use view::View;

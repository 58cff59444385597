//! What a lane watches: its view of cancellations, with the tick in which each came into it, and its tasks.
//!
//! The book of tasks is polled tick by tick and told what the view has; here it is tied to the ticks of the view, so that
//! what a poll gives is a function of the task and of the tick in which its cancellable came into the view.
#![tactic(auto)]

mod watch;

pub use watch::Watch;

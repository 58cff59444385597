//! The account of a run: the run of a script on one thread, one moment after another, with what stands in each lane between them.
#![tactic(auto)]

mod account;
mod fault;
mod foreseen;
mod gained;
mod gift;
mod going;
pub mod laws;
mod letters;
mod moment;
mod turns;

pub use account::Account;
pub use fault::AccountFault;
pub use moment::{Deed, Moment};

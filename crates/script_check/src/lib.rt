//! What is wrong with a script: each fault with its place, what should stand there, and the cause.
#![tactic(auto)]

mod action_check;
mod check;
mod counts;
mod depth;
mod fault;
pub mod laws;
mod least;
mod own;
mod parts;
mod place;
mod plan_check;
mod rule_check;
mod shape;
mod tables;
mod version_check;
mod wanted;

pub use check::{form_faults, script_faults};
pub use fault::{Cause, Class, Fault};
pub use least::first_class;
pub use place::{Place, Step};
pub use plan_check::plan_faults;
pub use shape::Shape;
pub use tables::{Key, Name, keys_of, parts_of, words_of};
pub use wanted::{Choice, Object, Wanted};

//! Numbers that a person writes as a word of a command line.
#![tactic(auto)]

mod number;

pub use number::number_of;

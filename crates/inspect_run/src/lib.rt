//! What is asked of a run, and what tells of it: moment by moment, or as one text.
#![tactic(auto)]

mod asked;
mod teller;
mod whole;

pub use asked::Asked;
pub use teller::Teller;
pub use whole::push_asked;

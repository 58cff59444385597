//! The names of what a run tells of: those that a script with names gives, and those of the sources and handlers that come while it runs.
#![tactic(auto)]

mod label;
mod labels;
mod quoted;
mod run_names;
mod table;
mod thing;

pub use label::{Label, Origin};
pub use quoted::push_quoted;
pub use run_names::RunNames;
pub use thing::Thing;

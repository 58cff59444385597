//! A script for main loops: its types, and its reading from JSON.
//!
//! `Script::read` gives the script of the bytes, or the first class of fault that stands anywhere in them.
#![tactic(auto)]

mod action;
mod action_form;
mod body;
mod bounds;
mod course;
mod fault;
mod faults;
mod foresee;
mod form;
mod items;
pub mod laws;
mod level;
mod number;
mod object;
mod outcome;
mod part;
mod plan;
mod references;
mod rules;
mod script;
mod source;
mod task;
mod task_form;
mod tree;
mod tree_form;
mod version;

pub use action::Action;
pub use body::Body;
pub use course::{Course, End, wait_ticks};
pub use fault::ScriptFault;
pub use items::Items;
pub use level::Level;
pub use outcome::Outcome;
pub use plan::{LaneSpec, Plan, Proc};
pub use references::context_count;
pub use script::Script;
pub use source::{Kind, SourceSpec};
pub use task::TaskSpec;
pub use tree::{Branch, Node, TaskTree};
pub use version::{begins_give, is_version_2, items_of};

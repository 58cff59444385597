//! The faults of a script in words, each with its place in the bytes.
#![tactic(auto)]

mod check;
mod cursor;
mod excerpt;
mod forms;
mod layout;
mod lead;
mod named_entries;
mod named_keys;
mod named_report;
mod named_words;
mod nearest;
mod order;
mod report;
mod summary;
mod told;
mod toml_script;
mod twice;
mod words;

pub use check::check_script;
pub use forms::{Either, check_either, read_either};
pub use report::{Form, Language};
pub use toml_script::{check_file, read_toml};

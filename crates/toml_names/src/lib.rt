//! A script in TOML as the JSON text of the same value.
#![tactic(auto)]

mod fault;
mod nesting;
mod place;
mod translation;
mod value;

pub use fault::{TomlFault, Unfit};
pub use place::push_escaped;
pub use translation::json_of_toml;

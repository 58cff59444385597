//! Scripts with names: a form for people, and the script of numbers that it stands for.
#![tactic(auto)]

mod bits;
mod check;
mod count;
mod fault;
mod field;
mod names;
mod numbered;
mod own;
mod piece;
mod place;
mod scalar;
mod sort;
mod table;
mod time;
mod translation;
mod word;

pub use fault::{Cause, Fault};
pub use field::keys;
pub use names::{Names, most};
pub use piece::{Step, chosen};
pub use place::{Numbered, origin};
pub use sort::{Choice, Kind, Leaf, Object, Sort};
pub use table::{beside, words};
pub use translation::{Translation, is_meant_named, is_named, translate, translate_bytes};
pub use word::Word;

//! What a program is given: the words of its command line, and the bytes of a script.
#![tactic(auto)]

mod bytes;
mod fault;
mod words;

pub use bytes::{INPUT_LIMIT, read_input, read_script};
pub use fault::InputFault;
pub use words::read_words;

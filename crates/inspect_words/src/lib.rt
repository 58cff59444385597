//! The words of what tells of a run: ticks and times, sources and why they wait, actions, how iterations begin, halts, and which part is told.
#![tactic(auto)]

mod action_words;
mod begun;
mod follow;
mod halt;
mod named_line;
mod run;
mod span;
mod time;
mod window;
mod words;
mod written;

pub use action_words::{action_in_a_word, push_action, push_cause, push_list};
pub use begun::{AskedBy, Begun, Caller, begun_by, caller_of};
pub use follow::follow_names;
pub use halt::{Halt, halt_of, halt_reason, push_halt};
pub use named_line::{line_text_of, named_text_of, push_priority};
pub use named_lines::push_milliseconds;
pub use run::{Run, Words};
pub use span::{Span, push_many};
pub use time::{push_tick, push_ticks, push_time_to_come};
pub use window::{SourceName, Window};
pub use words::{push_source, push_standing};
pub use written::text_of;

//! What a run looks like: a picture of it, its steps as a table, and what a thread is in the middle of at one moment.
#![tactic(auto)]

mod column;
mod legend;
mod mark;
mod picture;
mod row_name;
mod scale;
mod stack;
mod steps;
mod task_times;
mod timeline;
mod track;
mod waiting;

pub use stack::{Point, Reach, Stack};
pub use steps::Steps;
pub use timeline::Timeline;

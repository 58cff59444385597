//! The sources of one context as rows with an order, and the edits of them.
//!
//! A row is what is kept of a source. Rows stand in trees, a child below its parent, and in the order in which an
//! iteration dispatches them: by priority, and in each tree the children before their parent.
#![tactic(auto)]

mod balance;
mod candidates;
mod fault;
mod guesses;
mod in_order;
mod index;
mod join;
pub mod laws;
mod least;
mod levels;
mod moves;
mod removal;
mod room;
mod row;
mod rows;
mod search;
mod seat_order;
mod seats;
mod sight;
mod table;
mod walk;

pub use candidates::Candidates;
pub use fault::RowsFault;
pub use in_order::{InOrder, Ordered};
pub use levels::Levels;
pub use row::Row;
pub use rows::Rows;
pub use sight::Sight;

//! Letters, and where turns post them.
//!
//! A letter is what a lane sends in its turn of a tick: a reply of a task, a procedure that it invokes in another lane's context, that a
//! cancellable is cancelled, or that it gives a context. What a tick's turns posted is put in order and delivered when the turns are over.
//!
//! Two queues may be shared by the workers that take these turns: a work list, from which they take lanes, and an office, to which they
//! post. Each worker uses them through a pass of its own, which is made before and taken back after.
#![tactic(auto)]

pub mod laws;
mod lent;
mod letter;
mod letter_queue;
mod memory;
mod numbered;
mod office;
mod order;
mod post;
mod tray;
mod views;
mod work_list;
mod work_queue;

pub use lent::Lent;
pub use letter::{Body, Letter};
pub use letter_queue::{LetterQueue, OfficePass};
pub use memory::OutOfMemory;
pub use numbered::Numbered;
pub use office::Office;
pub use order::merge;
pub use post::Post;
pub use tray::Tray;
pub use work_list::WorkList;
pub use work_queue::{WorkPass, WorkQueue};

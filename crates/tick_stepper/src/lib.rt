//! The lanes of a script through its ticks, with turns that several workers take, and the law that the order of their steps changes nothing.
#![tactic(auto)]

mod calls;
mod channels;
mod crew;
mod deal;
mod deliver;
mod fault;
mod gate;
mod hand;
mod known;
pub mod laws;
mod open;
mod queue;
mod rest;
mod round;
mod share;
mod side_by_side;
mod span;
mod stay;
mod stepper;
mod wait;
mod work;

pub use crew::Sharing;
pub use fault::{OutOfMemory, StepFault};
pub use gate::{Gate, OpenGate};
pub use hand::move_context;
pub use stepper::Stepper;

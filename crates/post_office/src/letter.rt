//! The types of what a lane sends.
use loop_script::SourceSpec;
use task_steps::Reply;

/// A letter that a lane sends in its turn. Lanes, contexts and cancellables go by their number in the script.
#[derive(Clone, Copy, Debug, PartialEq, Eq)]
pub struct Letter {
    /// The tick of the turn.
    pub tick: u32,
    /// The lane that sends it.
    pub sender: u32,
    /// Which letter of the turn it is, from 0.
    pub number: u64,
    pub body: Body,
}

/// What a letter tells.
#[derive(Clone, Copy, Debug, PartialEq, Eq)]
pub enum Body {
    /// A source is attached to a context: the call of a procedure that was invoked there.
    Attach(u32, SourceSpec),
    /// A task of the sender replies.
    Complete(Reply),
    /// A cancellable is cancelled.
    Cancelled(u32),
    /// A context of the sender is given to a lane.
    Give(u32, u32),
}

//! The types of what an account answers: the moments of a run, each with its move and the lines that it wrote.
use loop_script::Body;

/// One move of a run, and where its lines stand.
#[derive(Clone, Copy, Debug, PartialEq, Eq)]
pub struct Moment {
    pub tick: u32,
    /// Whose move it is, by the number of the lane.
    pub lane: u32,
    pub deed: Deed,
    /// The lines that the move wrote are those of the lane's trace from this place on,
    pub from: usize,
    /// and before this one.
    pub to: usize,
}

/// What a move does. Contexts, loops and lanes go by their number in the script.
#[derive(Clone, Copy, Debug, PartialEq, Eq)]
pub enum Deed {
    /// The lane's turn begins: its tasks are polled.
    Polled,
    /// A call takes an action, which stands at a place of its list; or the lane is halted, as the line says.
    Acted { body: Body, place: usize },
    /// A call that has no action left returns.
    Returned { body: Body },
    /// A source is dispatched, and its call begins; or the lane is halted, as the line says.
    Dispatched { context: u32, source: u64 },
    /// A source that was selected is not there any more, and is passed over.
    PassedOver { context: u32, source: u64 },
    /// An iteration has no source left to dispatch, and ends.
    IterationEnded { context: u32 },
    /// A loop that runs begins an iteration of its context.
    Iterated { loop_number: u32, context: u32 },
    /// A loop that was quit returns.
    LoopEnded { loop_number: u32, context: u32 },
    /// No step is left in this tick: the lane rests, has ended or is halted, and its turn is over.
    Rests,
    /// A context goes over to the lane, from the one of a number.
    HandedOver { context: u32, from: u32 },
    /// A letter of this tick, by its place among them and its sender, is delivered to the lane.
    Received { letter: usize, sender: u32 },
}

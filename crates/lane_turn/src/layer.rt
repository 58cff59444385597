//! One thing that a lane can be in the middle of: a call, an iteration, a run of a loop. What each blocks, owns, and does next.
ghost use Rattle.std.specs.Prelude.{◌≡◌, [], ◌∷◌, slice_get};
ghost use Rattle.lane_turn.specs.Frames.{top_of};
ghost use Rattle.lane_turn.specs.Nest.{frame_of, ids_left, is_live, is_dispatch_layer, is_call_layer, is_blocking_layer, blocked_by_layer, layer_owns, taken_layer};

use loop_script::Body;

/// A place that no action of a list has.
const LAST: usize = 9_223_372_036_854_775_808;

/// The source whose dispatch a call is, and the number of that dispatch.
#[derive(Clone, Copy, Debug, PartialEq, Eq)]
pub struct Caller {
    pub context: u32,
    pub id: u64,
    /// Whether the source may be dispatched again while it is in this call.
    pub recurse: bool,
    /// Which dispatch of the source it is, from 1.
    pub number: u64,
    /// Whether the source goes after this call, as that of a reply does.
    pub once: bool,
}

/// Where a call came from.
#[derive(Clone, Copy, Debug, PartialEq, Eq)]
pub enum Origin {
    /// The lane's start list.
    Start,
    /// The dispatch of a source.
    Source(Caller),
    /// A direct invoke, with the context that it acquired.
    Invoke(Option<u32>),
}

/// A call in progress: its list, and how many of its actions were taken.
#[derive(Clone, Copy, Debug, PartialEq, Eq)]
pub struct Call {
    pub origin: Origin,
    pub body: Body,
    pub place: usize,
}

/// Who asked for an iteration.
#[derive(Clone, Copy, Debug, PartialEq, Eq)]
pub enum Asker {
    /// The run of a loop.
    Loop,
    /// An `iterate`, which is told whether anything was selected.
    Iterate(bool),
}

/// An iteration in progress: what it selected, and how many of that were taken.
#[derive(Drop)]
pub struct Iteration {
    pub context: u32,
    pub ids: Vec<u64>,
    pub place: usize,
    pub asker: Asker,
}

/// One of the things in progress.
#[derive(Drop)]
pub enum Layer {
    Call(Call),
    Iteration(Iteration),
    /// A run of a loop, with the loop's context.
    Loop { number: u32, context: u32 },
}

/// What the innermost activity takes next.
#[derive(Clone, Copy)]
pub enum Top {
    Nothing,
    Call(Call),
    Iteration {
        context: u32,
        /// The next id, if one is left.
        next: Option<u64>,
        asker: Asker,
    },
    /// The run of a loop, with the loop's context.
    Loop {
        number: u32,
        context: u32,
    },
}

/// Whether the iteration of a context at a height is its live one.
pub(crate) fn is_live(live: &[Option<usize>], height: usize, context: u32) -> bool
    ensures { result ≡ is_live live.now height context }
{
    match live.get(context as usize) {
        Some(Some(found)) => *found == height,
        _ => false,
    }
}

/// The next id of an iteration, none where a newer one has taken its context over.
fn next_id(iteration: &Iteration, live: &[Option<usize>], height: usize) -> Option<u64>
    ensures { result ≡ slice_get (ids_left live.now height iteration.now) 0 }
{
    if is_live(live, height, iteration.context) {
        iteration.ids.get(iteration.place).copied()
    } else {
        None
    }
}

impl Layer {
    /// Whether it is the dispatch of a source.
    pub(crate) fn is_dispatch(&self) -> bool
        ensures { result ≡ is_dispatch_layer self.now }
    {
        match self {
            Layer::Call(call) => match call.origin {
                Origin::Source(_) => true,
                _ => false,
            },
            _ => false,
        }
    }

    /// Whether it is a call but the one of `start`.
    pub(crate) fn is_call(&self) -> bool
        ensures { result ≡ is_call_layer self.now }
    {
        match self {
            Layer::Call(call) => match call.origin {
                Origin::Start => false,
                _ => true,
            },
            _ => false,
        }
    }

    /// Whether it is a call that blocks its source.
    pub(crate) fn is_blocking(&self) -> bool
        ensures { result ≡ is_blocking_layer self.now }
    {
        match self {
            Layer::Call(call) => match call.origin {
                Origin::Source(caller) => !caller.recurse,
                _ => false,
            },
            _ => false,
        }
    }

    /// The source of a context that it blocks.
    pub(crate) fn blocks(&self, context: u32) -> Option<u64>
        ensures { result ≡ blocked_by_layer context self.now }
    {
        match self {
            Layer::Call(call) => match call.origin {
                Origin::Source(caller) => {
                    if caller.recurse {
                        None
                    } else if caller.context == context {
                        Some(caller.id)
                    } else {
                        None
                    }
                }
                _ => None,
            },
            _ => None,
        }
    }

    /// Whether it owns a context.
    pub(crate) fn owns(&self, context: u32) -> bool
        ensures { result ≡ layer_owns context self.now }
    {
        match self {
            Layer::Call(call) => match call.origin {
                Origin::Invoke(Some(acquired)) => acquired == context,
                _ => false,
            },
            Layer::Iteration(iteration) => iteration.context == context,
            Layer::Loop {
                context: iterated,
                ..
            } => *iterated == context,
        }
    }

    /// Counts an action or an id as taken, as far as numbers reach.
    pub(crate) fn take(&mut self)
        ensures { self.new ≡ taken_layer self.old }
    {
        match self {
            Layer::Call(call) => {
                if call.place < LAST {
                    call.place += 1;
                }
            }
            Layer::Iteration(iteration) => {
                if iteration.place < iteration.ids.len() {
                    iteration.place += 1;
                }
            }
            Layer::Loop { .. } => {}
        }
    }

    /// What it takes next.
    pub(crate) fn next(&self, live: &[Option<usize>], height: usize) -> Top
        ensures { result ≡ top_of (frame_of live.now height self.now ∷ []) }
    {
        match self {
            Layer::Call(call) => Top::Call(*call),
            Layer::Iteration(iteration) => Top::Iteration {
                context: iteration.context,
                next: next_id(iteration, live, height),
                asker: iteration.asker,
            },
            Layer::Loop { number, context } => Top::Loop {
                number: *number,
                context: *context,
            },
        }
    }
}

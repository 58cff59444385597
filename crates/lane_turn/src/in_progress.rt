//! One thing that is in progress, as a look at a lane shows it, and all of them from the outermost inwards.
ghost use Rattle.std.specs.Prelude.{◌≡◌, length, reverse};
ghost use Rattle.std.specs.Iterator.{at_most};
ghost use Rattle.std.specs.Map.Iter.{TakesFirst};
ghost use Rattle.lane_turn.specs.Nest.{layers_of, frames_from, ids_left, frame_of};
ghost use Rattle.lane_turn.specs.Quiet.{has_rest};
ghost use Rattle.lane_turn.specs.InProgress.{frame_shown};

use crate::inwards::Inwards;
use crate::layer::{Asker, Call, Iteration, Layer, is_live};
use crate::nest::Nest;
use std::iter::Iterator;
use std::marker::Model;

/// One of the things in progress.
#[derive(Drop)]
pub enum Activity<'a> {
    /// A call, with the place of its next action.
    Call(Call),
    /// An iteration, with the ids that it has left.
    Iteration {
        context: u32,
        left: &'a [u64],
        asker: Asker,
    },
    /// The run of a loop, with the loop's context.
    Loop {
        number: u32,
        context: u32,
    },
}

impl Activity<'_> {
    /// Whether it is an iteration of a context that has ids left.
    pub(crate) fn has_ids_left(&self, context: u32) -> bool
        ensures { result ≡ has_rest context (frame_shown self.now) }
    {
        match self {
            Activity::Iteration {
                context: iterated,
                left,
                ..
            } => *iterated == context && !left.is_empty(),
            _ => false,
        }
    }
}

/// The ids that an iteration has left.
fn ids_left<'a>(iteration: &'a Iteration, live: &[Option<usize>], height: usize) -> &'a [u64]
    ensures { result.now ≡ ids_left live.now height iteration.now }
{
    if !is_live(live, height, iteration.context) {
        return &[];
    }
    match iteration.ids.get(iteration.place..) {
        Some(left) => left,
        None => &[],
    }
}

/// What is shown of a layer at a height.
fn shown<'a>(layer: &'a Layer, live: &[Option<usize>], height: usize) -> Activity<'a>
    ensures { frame_shown result ≡ frame_of live.now height layer.now }
{
    match layer {
        Layer::Call(call) => Activity::Call(*call),
        Layer::Iteration(iteration) => Activity::Iteration {
            context: iteration.context,
            left: ids_left(iteration, live, height),
            asker: iteration.asker,
        },
        Layer::Loop { number, context } => Activity::Loop {
            number: *number,
            context: *context,
        },
    }
}

/// What is in progress, from the outermost inwards. Contracts see the frames that are still to come.
#[derive(Drop)]
pub struct InProgress<'a> {
    layers: Inwards<'a>,
    live: &'a [Option<usize>],
    /// How many there are in all, and how many of them are to come.
    all: usize,
    left: usize,
}

impl<'a> Model for InProgress<'a> {
    ghost use Rattle.std.specs.Prelude.{◌≡◌, ◌≤◌, ◌-◌, List, length, reverse};
    ghost use Rattle.lane_turn.specs.Frames.{Frame};
    ghost use Rattle.lane_turn.specs.Nest.{frames_from};

    ghost Value = { List Frame };

    ghost view = { λ s. reverse (frames_from (s.all - s.left) s.live.now (reverse s.layers)) };

    ghost invariant = { λ s. (length s.layers ≡ s.left) × (s.left ≤ s.all) };
}

impl<'a> InProgress<'a> {
    /// What is in progress in a nest, so many in all.
    pub(crate) fn new(nest: &'a Nest, live: &'a [Option<usize>], count: usize) -> InProgress<'a>
        requires { length (layers_of nest.now) ≡ count }
        ensures { result ≡ reverse (frames_from 0 live.now (layers_of nest.now)) }
    {
        InProgress {
            layers: Inwards::new(nest),
            live,
            all: count,
            left: count,
        }
    }
}

impl<'a> Iterator for InProgress<'a> {
    type Item = Activity<'a>;

    ghost next_gives = { TakesFirst (λ one. frame_shown one) };

    ghost remaining = { λ s. at_most (length s) };

    fn next(&mut self) -> Option<Activity<'a>> {
        let layer = self.layers.next()?;
        let one = shown(layer, self.live, self.all - self.left);
        self.left -= 1;
        Some(one)
    }
}

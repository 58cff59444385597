//! What is in progress, counted, and the boxes of what has ended. Contracts see the layers, the innermost first.
ghost use Rattle.std.specs.Prelude.{◌≡◌, ◌∷◌, ◌≤◌, ◌-◌, [], drop, length, count_by, OnOk, IfOk, slice_get, option_map, reverse};
ghost use Rattle.lane_turn.specs.Nest.{layers_of, frames_of, is_dispatch_layer, is_call_layer, is_blocking_layer, taken_layers, top_of_layers};

use crate::in_progress::InProgress;
use crate::inwards::Inwards;
use crate::layer::{Layer, Top};
use crate::nest::{Nest, Shell};
use crate::tally::Tally;
use std::alloc::{AllocError, Global};
use std::marker::Model;

/// What is in progress, counted.
#[derive(Drop)]
pub struct Chain {
    alloc: Global,
    nest: Nest,
    tally: Tally,
    /// The boxes of what has ended, for what is begun next.
    spare: Vec<Box<Shell>>,
}

impl Model for Chain {
    ghost use Rattle.std.specs.Prelude.{◌≡◌, List};
    ghost use Rattle.lane_turn.specs.declared.layer.Layer.{Layer};
    ghost use Rattle.lane_turn.specs.Nest.{layers_of};
    ghost use Rattle.lane_turn.specs.Tally.{tally_of};

    ghost Value = { List Layer };

    ghost view = { λ s. layers_of s.nest };

    ghost invariant = { λ s. s.tally ≡ tally_of (layers_of s.nest) };
}

impl Chain {
    /// Nothing in progress.
    pub(crate) fn new(alloc: Global) -> Chain
        ensures { result ≡ [] }
    {
        Chain {
            alloc,
            nest: Nest::Nothing,
            tally: Tally {
                layers: 0,
                dispatches: 0,
                calls: 0,
                blocking: 0,
            },
            spare: Vec::new(alloc),
        }
    }

    /// What is innermost.
    pub(crate) fn innermost(&self) -> Option<&Layer>
        ensures { option_map (λ r. r.now) result ≡ slice_get self.now 0 }
    {
        self.nest.innermost()
    }

    /// How many are in progress.
    pub(crate) fn count(&self) -> usize
        ensures { result ≡ length self.now }
    {
        self.tally.layers
    }

    /// How many dispatches are in progress.
    #[tactic(auto, using(crate::proofs::Tallies::dispatches_small))]
    pub(crate) fn dispatches(&self) -> u64
        ensures value { result ≡ count_by is_dispatch_layer self.now }
        ensures small { result ≤ length self.now }
    {
        self.tally.dispatches
    }

    /// How many calls are in progress but the one of `start`.
    pub(crate) fn calls_in_progress(&self) -> u64
        ensures { result ≡ count_by is_call_layer self.now }
    {
        self.tally.calls
    }

    /// How many calls in progress block their source.
    pub(crate) fn blocking(&self) -> u64
        ensures { result ≡ count_by is_blocking_layer self.now }
    {
        self.tally.blocking
    }

    /// The layers, from the outermost inwards.
    pub(crate) fn layers(&self) -> Inwards<'_>
        ensures { result ≡ reverse self.now }
    {
        Inwards::new(&self.nest)
    }

    /// What is in progress, from the outermost inwards.
    pub(crate) fn inwards<'a>(&'a self, live: &'a [Option<usize>]) -> InProgress<'a>
        ensures { result ≡ reverse (frames_of live.now self.now) }
    {
        InProgress::new(&self.nest, live, self.tally.layers)
    }

    /// A layer with nothing begun in it, in the box of something that has ended, if there is one.
    fn boxed(&mut self, layer: Layer) -> Result<Box<Shell>, AllocError>
        ensures same { self.new ≡ self.old }
        ensures shell { IfOk result (λ s. (s.value.layer ≡ layer) × (layers_of s.value.inner ≡ [])) }
    {
        match self.spare.pop() {
            None => Ok(Box::new(
                self.alloc,
                Shell {
                    layer,
                    inner: Nest::Nothing,
                },
            )?),
            Some(mut shell) => {
                shell.layer = layer;
                shell.inner = Nest::Nothing;
                Ok(shell)
            }
        }
    }

    /// Begins something in what is innermost.
    pub(crate) fn begin(&mut self, layer: Layer) -> Result<(), AllocError>
        ensures { OnOk result (self.new ≡ layer ∷ self.old) }
    {
        let tally = self.tally.with(&layer)?;
        let begun = self.boxed(layer)?;
        self.nest.put(begun);
        self.tally = tally;
        Ok(())
    }

    /// Ends what is innermost.
    pub(crate) fn end(&mut self)
        ensures { self.new ≡ drop 1 self.old }
    {
        if let Some(mut shell) = self.nest.end() {
            self.tally = self.tally.without(&shell.layer);
            // what an iteration selected is let go
            shell.layer = Layer::Loop {
                number: 0,
                context: 0,
            };
            // a box that is not kept is let go
            let _ = self.spare.push(shell);
        }
    }

    /// What is innermost takes next, which is counted as taken.
    #[tactic(auto, using(crate::proofs::Tallies::taken_same))]
    pub(crate) fn take(&mut self, live: &[Option<usize>]) -> Top
        ensures top { result ≡ top_of_layers live.now (length self.old - 1) self.old }
        ensures taken { self.new ≡ taken_layers self.old }
    {
        let mut top = Top::Nothing;
        if self.tally.layers > 0 {
            self.nest.take(live, self.tally.layers - 1, &mut top);
        }
        top
    }
}

//! What a lane is in the middle of, and what of it blocks a source or owns a context. Contracts see a flat list of frames, the innermost first.
ghost use Rattle.std.specs.Prelude.{◌≡◌, ℕ, ◌∷◌, ◌<◌, ◌≤◌, ◌^◌, ◌==◌, [], Some, reverse, drop, length, OnOk, IfOk, if◌then◌else◌};
ghost use Rattle.std.specs.List.{list_any};
ghost use Rattle.lane_turn.specs.Frames.{CallOf, IterOf, LoopOf, top_of, emptied, depth, calls_in_progress, busy, owns, IsTaken};
ghost use Rattle.lane_turn.specs.Nest.{height_at};
ghost use Rattle.lane_turn.specs.Quiet.{has_rest};
ghost use Rattle.loop_script.specs.Bounds.{count_end};

use crate::chain::Chain;
use crate::in_progress::InProgress;
use crate::layer::{Asker, Call, Iteration, Layer, Top};
use std::alloc::{AllocError, Global};
use std::iter::Iterator;
use std::marker::Model;

/// Names the height of a context's live iteration.
fn mark(live: &mut Vec<Option<usize>>, context: u32, height: usize) -> Result<(), AllocError>
    ensures { OnOk result ((c : ℕ) → height_at live.new.items c ≡ (if c == context then Some height else height_at live.old.items c)) }
{
    while live.len() <= context as usize {
        live.push(None)?;
    }
    live[context as usize] = Some(height);
    Ok(())
}

/// What a lane is in the middle of. Callers see a flat list, the innermost first.
#[derive(Drop)]
pub struct Frames {
    alloc: Global,
    chain: Chain,
    live: Vec<Option<usize>>,
}

impl Model for Frames {
    ghost use Rattle.std.specs.Prelude.{List};
    ghost use Rattle.lane_turn.specs.Frames.{Frame};
    ghost use Rattle.lane_turn.specs.Nest.{frames_of};

    ghost Value = { List Frame };

    ghost view = { λ s. frames_of s.live.items s.chain };
}

impl Frames {
    /// Nothing in progress.
    pub fn new(alloc: Global) -> Self
        ensures { result ≡ [] }
    {
        Frames {
            alloc,
            chain: Chain::new(alloc),
            live: Vec::new(alloc),
        }
    }

    /// What the innermost takes next.
    #[tactic(auto, using(crate::proofs::Layers::length_frames))]
    pub fn top(&self) -> Top
        requires { length self.now < count_end }
        ensures { result ≡ top_of self.now }
    {
        match self.chain.innermost() {
            None => Top::Nothing,
            Some(layer) => layer.next(&self.live, self.chain.count() - 1),
        }
    }

    /// How many dispatches are in progress.
    #[tactic(auto, using(crate::proofs::Layers::depth_layers, crate::proofs::Layers::length_frames))]
    pub fn depth(&self) -> u64
        requires { length self.now < count_end }
        ensures value { result ≡ depth self.now }
        ensures small { result ≤ length self.now }
    {
        self.chain.dispatches()
    }

    /// How many calls are in progress but the one of `start`.
    #[tactic(auto, using(crate::proofs::Layers::calls_layers, crate::proofs::Layers::length_frames))]
    pub fn calls_in_progress(&self) -> u64
        ensures { result ≡ calls_in_progress self.now }
    {
        self.chain.calls_in_progress()
    }

    /// The sources of a context that calls in progress block.
    pub fn busy(&self, context: u32) -> Result<Vec<u64>, AllocError>
        ensures { IfOk result (λ ids. ids.items ≡ busy context self.now) }
    {
        let blocking = self.chain.blocking();
        if blocking == 0 {
            return Ok(Vec::new(self.alloc));
        }
        // room for all, so that none is moved as the list grows
        let mut ids = Vec::with_capacity(self.alloc, blocking as usize)?;
        ids.extend(
            self.chain
                .layers()
                .filter_map(|layer| layer.blocks(context)),
        )?;
        Ok(ids)
    }

    /// Whether a call in progress blocks a source of a context.
    pub fn blocks(&self, context: u32, id: u64) -> bool
        ensures { result ≡ list_any (λ b. b == id) (busy context self.now) }
    {
        self.chain.blocking() > 0
            && self
                .chain
                .layers()
                .filter_map(|layer| layer.blocks(context))
                .any(|blocked| blocked == id)
    }

    /// Whether an iteration of a context has ids left.
    pub fn has_rest(&self, context: u32) -> bool
        requires { length self.now < count_end }
        ensures { result ≡ list_any (has_rest context) self.now }
    {
        self.inwards().any(|one| one.has_ids_left(context))
    }

    /// Whether something in progress owns a context.
    pub fn owns(&self, context: u32) -> bool
        ensures { result ≡ list_any (owns context) self.now }
    {
        self.chain.layers().any(|layer| layer.owns(context))
    }

    /// What is in progress, from the outermost inwards.
    pub fn inwards(&self) -> InProgress<'_>
        ensures { result ≡ reverse self.now }
    {
        self.chain.inwards(&self.live)
    }

    /// Begins a call in what is innermost.
    pub fn begin_call(&mut self, call: Call) -> Result<(), AllocError>
        ensures { OnOk result (self.new ≡ CallOf call ∷ self.old) }
    {
        self.chain.begin(Layer::Call(call))
    }

    /// Begins a run of a loop in what is innermost.
    pub fn begin_loop(&mut self, number: u32, context: u32) -> Result<(), AllocError>
        ensures { OnOk result (self.new ≡ LoopOf number context ∷ self.old) }
    {
        self.chain.begin(Layer::Loop { number, context })
    }

    /// Begins an iteration in what is innermost; the older ones of its context have no id left.
    #[tactic(auto, using(crate::proofs::Layers::length_frames))]
    pub fn begin_iteration(
        &mut self,
        context: u32,
        ids: Vec<u64>,
        asker: Asker,
    ) -> Result<(), AllocError>
        requires { length self.old < count_end }
        ensures { OnOk result (self.new ≡ IterOf context ids.items asker ∷ emptied context self.old) }
    {
        let height = self.chain.count();
        let iteration = Iteration {
            context,
            ids,
            place: 0,
            asker,
        };
        self.chain.begin(Layer::Iteration(iteration))?;
        mark(&mut self.live, context, height)
    }

    /// Ends the innermost.
    #[tactic(auto, using(crate::proofs::Layers::drop_frames))]
    pub fn end(&mut self)
        ensures { self.new ≡ drop 1 self.old }
    {
        self.chain.end();
    }

    /// What the innermost takes next, which is counted as taken.
    #[tactic(auto, using(crate::proofs::Layers::top_layers))]
    pub fn take(&mut self) -> Top
        ensures top { result ≡ top_of self.old }
        ensures taken { IsTaken result self.old self.new }
    {
        self.chain.take(&self.live)
    }
}

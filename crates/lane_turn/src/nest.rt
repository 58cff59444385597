//! What is in progress in boxes: each call, iteration and loop holds what was begun in it.
ghost use Rattle.std.specs.Prelude.{◌≡◌, ◌++◌, ◌∷◌, [], IsTrue, ◌↔◌, drop, slice_get, option_map};
ghost use Rattle.lane_turn.specs.Nest.{layers_of, taken_layers, top_of_layers};

use crate::layer::{Layer, Top};
use std::mem;

/// What is in progress, from the outermost inwards.
#[cycle(nest)]
#[derive(Drop)]
pub enum Nest {
    Nothing,
    Begun(Box<Shell>),
}

/// One of the things in progress, round what was begun in it.
#[cycle(nest)]
#[derive(Drop)]
pub struct Shell {
    pub layer: Layer,
    pub inner: Nest,
}

impl Nest {
    /// Whether nothing is in progress.
    fn is_nothing(&self) -> bool
        ensures { IsTrue result ↔ (layers_of self.now ≡ []) }
    {
        match self {
            Nest::Nothing => true,
            _ => false,
        }
    }

    /// What is innermost.
    #[tactic(auto, using(crate::proofs::Layers::first_within))]
    pub(crate) fn innermost(&self) -> Option<&Layer>
        ensures { option_map (λ r. r.now) result ≡ slice_get (layers_of self.now) 0 }
    {
        match self {
            Nest::Nothing => None,
            Nest::Begun(shell) => {
                let shell = &**shell;
                if shell.inner.is_nothing() {
                    Some(&shell.layer)
                } else {
                    shell.inner.innermost()
                }
            }
        }
    }

    /// Puts what was begun elsewhere into what is innermost.
    pub(crate) fn put(&mut self, begun: Box<Shell>)
        ensures { layers_of self.new ≡ layers_of begun.value.inner ++ begun.value.layer ∷ layers_of self.old }
    {
        match self {
            Nest::Nothing => *self = Nest::Begun(begun),
            Nest::Begun(shell) => {
                let shell = &mut **shell;
                shell.inner.put(begun);
            }
        }
    }

    /// Ends what is innermost, and hands it out.
    #[tactic(auto, using(crate::proofs::Layers::first_within, crate::proofs::Layers::rest_of_within))]
    pub(crate) fn end(&mut self) -> Option<Box<Shell>>
        ensures left { layers_of self.new ≡ drop 1 (layers_of self.old) }
        ensures ended { option_map (λ s. s.value.layer) result ≡ slice_get (layers_of self.old) 0 }
    {
        match self {
            Nest::Nothing => None,
            Nest::Begun(shell) => {
                let shell = &mut **shell;
                if !shell.inner.is_nothing() {
                    return shell.inner.end();
                }
                match mem::replace(self, Nest::Nothing) {
                    Nest::Nothing => None,
                    Nest::Begun(ended) => Some(ended),
                }
            }
        }
    }

    /// What is innermost takes next, which is counted as taken. A result would be copied on the way back from each layer.
    #[tactic(auto, using(crate::proofs::Layers::first_within))]
    pub(crate) fn take(&mut self, live: &[Option<usize>], height: usize, top: &mut Top)
        ensures top { top.new ≡ top_of_layers live.now height (layers_of self.old) }
        ensures taken { layers_of self.new ≡ taken_layers (layers_of self.old) }
    {
        match self {
            Nest::Nothing => *top = Top::Nothing,
            Nest::Begun(shell) => {
                let shell = &mut **shell;
                if shell.inner.is_nothing() {
                    *top = shell.layer.next(live, height);
                    shell.layer.take();
                } else {
                    shell.inner.take(live, height, top);
                }
            }
        }
    }
}

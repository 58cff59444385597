//! An iterator over the layers that are in progress, from the outermost inwards.
ghost use Rattle.std.specs.Prelude.{◌≡◌, length, reverse};
ghost use Rattle.std.specs.Iterator.{at_most};
ghost use Rattle.std.specs.Map.Iter.{TakesFirst};
ghost use Rattle.lane_turn.specs.Nest.{layers_of};

use crate::layer::Layer;
use crate::nest::Nest;
use std::iter::Iterator;
use std::marker::Model;

/// The layers that are still to come, from the outermost inwards.
#[derive(Drop)]
pub(crate) struct Inwards<'a> {
    nest: &'a Nest,
}

impl<'a> Model for Inwards<'a> {
    ghost use Rattle.std.specs.Prelude.{List, reverse};
    ghost use Rattle.lane_turn.specs.declared.layer.Layer.{Layer};
    ghost use Rattle.lane_turn.specs.Nest.{layers_of};

    ghost Value = { List Layer };

    ghost view = { λ s. reverse (layers_of s.nest.now) };
}

impl<'a> Inwards<'a> {
    /// The layers of a nest.
    pub(crate) fn new(nest: &'a Nest) -> Inwards<'a>
        ensures { result ≡ reverse (layers_of nest.now) }
    {
        Inwards { nest }
    }
}

impl<'a> Iterator for Inwards<'a> {
    type Item = &'a Layer;

    ghost next_gives = { TakesFirst (λ layer. layer.now) };

    ghost remaining = { λ s. at_most (length s) };

    #[inline]
    fn next(&mut self) -> Option<&'a Layer> {
        match self.nest {
            Nest::Nothing => None,
            Nest::Begun(shell) => {
                let shell = &**shell;
                self.nest = &shell.inner;
                Some(&shell.layer)
            }
        }
    }
}

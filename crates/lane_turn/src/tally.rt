//! How many calls, iterations and loops are in progress: a sum kept with the layers.
ghost use Rattle.std.specs.Prelude.{◌≡◌, ◌≤◌, ◌+◌, ◌-◌, IfOk};
ghost use Rattle.lane_turn.specs.Tally.{more, IsSmall, Counts};

use crate::layer::Layer;
use std::alloc::AllocError;

/// How many layers are in progress, and how many of them are dispatches, calls but the one of `start`, and calls that
/// block their source.
#[derive(Clone, Copy)]
pub struct Tally {
    pub layers: usize,
    pub dispatches: u64,
    pub calls: u64,
    pub blocking: u64,
}

impl Tally {
    /// With one more; so many that no number counts them would not fit into memory.
    pub(crate) fn with(self, layer: &Layer) -> Result<Tally, AllocError>
        requires { IsSmall self }
        ensures { IfOk result (λ tally. tally ≡ more layer.now self) }
    {
        let Some(layers) = self.layers.checked_add(1) else {
            return Err(AllocError);
        };
        Ok(Tally {
            layers,
            dispatches: self.dispatches + layer.is_dispatch() as u64,
            calls: self.calls + layer.is_call() as u64,
            blocking: self.blocking + layer.is_blocking() as u64,
        })
    }

    /// With one less.
    pub(crate) fn without(self, layer: &Layer) -> Tally
        requires { Counts layer.now self }
        ensures { more layer.now result ≡ self }
    {
        Tally {
            layers: self.layers - 1,
            dispatches: self.dispatches - layer.is_dispatch() as u64,
            calls: self.calls - layer.is_call() as u64,
            blocking: self.blocking - layer.is_blocking() as u64,
        }
    }
}

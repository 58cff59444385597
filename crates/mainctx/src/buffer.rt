//! Bytes that wait for a writer: so a text is written in few calls, and is never in memory as a whole.
ghost use Rattle.std.specs.Prelude.{◌≡◌, ◌≤◌, ◌<◌, [], ◌++◌, length, IfOk, OnOk, OnErr};
ghost use Rattle.mainctx.specs.Writing.{AddsPrefix, GrowAlike, PassesOn};

use crate::text::OutOfMemory;
use crate::writer::{Out, OutFault, write_all};
use std::alloc::{AllocError, Global};
use std::marker::Model;

/// How many bytes may wait.
const MOST: usize = 65_536;

/// Bytes that wait for a writer, with room for all that may wait.
#[derive(Drop)]
pub(crate) struct Buffer {
    bytes: Vec<u8>,
}

impl Model for Buffer {
    ghost use Rattle.std.specs.Prelude.{ℕ, List, ◌≤◌, vec_capacity, vec_len};

    ghost Value = { List ℕ };

    ghost view = { λ b. b.bytes.items };

    ghost invariant = { λ b. (vec_len b.bytes ≤ 65536) × (65536 ≤ vec_capacity b.bytes) };
}

impl Buffer {
    /// Nothing waits.
    pub fn new(alloc: Global) -> Result<Self, OutOfMemory>
        ensures { IfOk result (λ buffer. buffer ≡ []) }
    {
        let bytes = Vec::with_capacity(alloc, MOST)?;
        Ok(Buffer { bytes })
    }

    /// Hands on what waits.
    pub fn hand_on<W: Out>(&mut self, out: &mut W) -> Result<(), OutFault>
        ensures whole { OnOk result (W.taken out.new ≡ W.taken out.old ++ self.old) }
        ensures empty { OnOk result (self.new ≡ []) }
        ensures clean { OnOk result (W.failures out.new ≡ W.failures out.old) }
        ensures prefix { OnErr result (AddsPrefix (W.taken out.old) (W.taken out.new) self.old) }
        ensures failed { OnErr result (W.failures out.old < W.failures out.new) }
        ensures known { GrowAlike (W.taken out.old) (W.taken out.new) (W.contents out.old) (W.contents out.new) }
    {
        write_all(out, self.bytes.as_slice())?;
        self.bytes.clear();
        Ok(())
    }

    /// Adds bytes. Where there is no room for them, what waits is handed on first.
    #[inline]
    pub fn add<W: Out>(&mut self, out: &mut W, bytes: &[u8]) -> Result<(), OutFault>
        requires { length bytes.now ≤ 65536 }
        ensures passes { OnOk result (PassesOn (W.taken out.old) (W.taken out.new) self.old self.new bytes.now) }
        ensures clean { OnOk result (W.failures out.new ≡ W.failures out.old) }
        ensures prefix { OnErr result (AddsPrefix (W.taken out.old) (W.taken out.new) (self.old ++ bytes.now)) }
        ensures failed { OnErr result (W.failures out.old < W.failures out.new) }
        ensures known { GrowAlike (W.taken out.old) (W.taken out.new) (W.contents out.old) (W.contents out.new) }
    {
        if MOST - self.bytes.len() < bytes.len() {
            self.hand_on(out)?;
        }
        match self.bytes.extend_from_slice(bytes) {
            Ok(()) => Ok(()),
            // there is room
            Err(AllocError) => Err(OutFault),
        }
    }
}

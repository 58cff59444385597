//! A lane's part of the text: its heading, and each line of its trace.
ghost use Rattle.std.specs.Prelude.{◌≡◌, ◌++◌, OnOk, OnErr};
ghost use Rattle.mainctx.specs.Text.{lane_text};
ghost use Rattle.mainctx.specs.Writing.{AddsPrefix};

use crate::printed::Printed;
use lane_turn::Line;
use std::alloc::AllocError;
use thiserror::Error;

/// A request for memory was refused.
#[derive(Clone, Copy, Debug, Drop, Error, PartialEq, Eq)]
#[error("memory")]
pub struct OutOfMemory;

impl From<AllocError> for OutOfMemory {
    fn from(_: AllocError) -> Self {
        OutOfMemory
    }
}

/// Adds a lane's part of the text to a list: the line `thread N`, and the lines of its trace. After `OutOfMemory` a
/// prefix of that part was added.
#[tactic(auto, using(crate::proofs::Prefixes::adds_lines, crate::proofs::Prefixes::adds_nothing))]
pub fn add_text(out: &mut Vec<u8>, lane: u32, lines: &[Line]) -> Result<(), OutOfMemory>
    ensures added { OnOk result (out.new.items ≡ out.old.items ++ lane_text lane lines.now) }
    ensures prefix { OnErr result (AddsPrefix out.old.items out.new.items (lane_text lane lines.now)) }
{
    let mut printed = Printed::heading(lane);
    out.extend_from_slice(printed.bytes())?;
    for line in lines {
        printed.print(*line);
        out.extend_from_slice(printed.bytes())?;
    }
    Ok(())
}

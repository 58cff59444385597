//! When threads halted, and why, in words.
use crate::run::Words;
use crate::time::push_tick;
use lane_turn::{Event, LaneState, Line};
use run_names::Thing;
use std::alloc::AllocError;

/// Why a thread halts, where a line says that it does.
pub fn halt_reason(event: Event) -> Option<&'static str> {
    match event {
        Event::HaltDepth => Some("32 calls are in progress already"),
        Event::HaltSteps => Some("10000 actions and dispatches are over in this tick"),
        _ => None,
    }
}

/// When and why a thread halted.
#[derive(Clone, Copy)]
pub struct Halt {
    pub tick: u32,
    pub reason: &'static str,
}

/// When and why a thread halted, if it did.
pub fn halt_of(lane: &LaneState) -> Option<Halt> {
    if !lane.halted() {
        return None;
    }
    for line in lane.trace().iter().rev() {
        let Line { tick, event } = *line;
        if let Some(reason) = halt_reason(event) {
            return Some(Halt { tick, reason });
        }
    }
    None
}

/// Adds when and why a thread halted, if it did.
pub fn push_halt(
    out: &mut String,
    words: Words<'_>,
    number: u32,
    lane: &LaneState,
) -> Result<(), AllocError> {
    let Some(Halt { tick, reason }) = halt_of(lane) else {
        return Ok(());
    };
    words.names.push(out, Thing::Thread(number))?;
    out.push_str(" halted in ")?;
    push_tick(out, words.script, tick)?;
    writeln!(out, ": {reason}")
}

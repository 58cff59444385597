//! The lines that a moment wrote, in the numbers and bytes of the text of `mainctx`.
use account::Moment;
use lane_turn::LaneState;
use mainctx::{OutOfMemory, add_text};
use std::alloc::{AllocError, Global};
use std::str::from_utf8;

/// The lines that a moment of a thread wrote, as the text of the run has them.
pub fn text_of(alloc: Global, lane: &LaneState, moment: &Moment) -> Result<String, AllocError> {
    let mut text = String::new(alloc);
    let Some(lines) = lane.trace().get(moment.from..moment.to) else {
        return Ok(text);
    };
    if lines.is_empty() {
        return Ok(text);
    }
    let mut bytes = Vec::new(alloc);
    if let Err(OutOfMemory) = add_text(&mut bytes, moment.lane, lines) {
        return Err(AllocError);
    }
    for line in from_utf8(bytes.as_slice()).unwrap_or("").lines().skip(1) {
        text.push_str(line)?;
        text.push_str("\n")?;
    }
    Ok(text)
}

//! Ticks and times in words: a tick, a span of ticks, the time until one.
use loop_script::Script;
use named_lines::push_milliseconds;
use std::alloc::AllocError;

/// Adds a tick with its time.
pub fn push_tick(out: &mut String, script: &Script, tick: u32) -> Result<(), AllocError> {
    write!(out, "tick {tick} (")?;
    push_milliseconds(out, script.now(tick))?;
    out.push_str(" ms)")
}

/// Adds the ticks from one to another with their times.
pub fn push_ticks(
    out: &mut String,
    script: &Script,
    first: u32,
    last: u32,
) -> Result<(), AllocError> {
    if first == last {
        return push_tick(out, script, first);
    }
    write!(out, "ticks {first} to {last} (")?;
    push_milliseconds(out, script.now(first))?;
    out.push_str(" to ")?;
    push_milliseconds(out, script.now(last))?;
    out.push_str(" ms)")
}

/// The first tick at which a time in microseconds has come, which may be one after the run.
fn tick_from(script: &Script, us: u64) -> u64 {
    let length = script.tick_us();
    let before = us / length;
    if us % length == 0 {
        before
    } else {
        before.saturating_add(1)
    }
}

/// Adds a time that is to come, with its tick.
pub fn push_time_to_come(out: &mut String, script: &Script, us: u64) -> Result<(), AllocError> {
    let tick = tick_from(script, us);
    write!(out, "{us} us, tick {tick}")?;
    if tick >= u64::from(script.ticks()) {
        out.push_str(", after the last tick of the run")?;
    }
    Ok(())
}

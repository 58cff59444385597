//! Parts of a line with names: a time in milliseconds, a priority, a depth, an outcome, an answer.
ghost use Rattle.std.specs.Prelude.{◌≡◌, ◌++◌, codes, OnOk, string_bytes};
ghost use Rattle.named_lines.specs.Lines as lines;

use lane_turn::Invoked;
use loop_script::Outcome;
use std::alloc::AllocError;

/// How many microseconds a millisecond has.
const MILLISECOND: u64 = 1000;

/// The priorities for which GLib has words.
const HIGH: i32 = -100;

const DEFAULT: i32 = 0;

const HIGH_IDLE: i32 = 100;

const DEFAULT_IDLE: i32 = 200;

const LOW: i32 = 300;

/// Adds a time in microseconds as a number of milliseconds, with as many digits behind the point as it takes.
pub fn push_milliseconds(out: &mut String, us: u64) -> Result<(), AllocError>
    ensures { OnOk result (string_bytes out.new ≡ string_bytes out.old ++ lines.milliseconds_text us) }
{
    let whole = us / MILLISECOND;
    write!(out, "{whole}")?;
    push_part(out, us % MILLISECOND)
}

/// Adds what is behind the whole milliseconds.
fn push_part(out: &mut String, part: u64) -> Result<(), AllocError>
    ensures { OnOk result (string_bytes out.new ≡ string_bytes out.old ++ lines.part_text part) }
{
    let tenths = part / 100;
    let hundredths = part / 10 % 10;
    let thousandths = part % 10;
    if part == 0 {
        Ok(())
    } else if part % 100 == 0 {
        write!(out, ".{tenths}")
    } else if part % 10 == 0 {
        write!(out, ".{tenths}{hundredths}")
    } else {
        write!(out, ".{tenths}{hundredths}{thousandths}")
    }
}

/// Adds a priority: GLib's word for it, or its number.
pub fn push_priority(out: &mut String, priority: i32) -> Result<(), AllocError>
    ensures { OnOk result (string_bytes out.new ≡ string_bytes out.old ++ lines.priority_text priority) }
{
    match priority {
        HIGH => out.push_str("HIGH"),
        DEFAULT => out.push_str("DEFAULT"),
        HIGH_IDLE => out.push_str("HIGH_IDLE"),
        DEFAULT_IDLE => out.push_str("DEFAULT_IDLE"),
        LOW => out.push_str("LOW"),
        _ => write!(out, "{priority}"),
    }
}

/// Adds how deep a call is, where that is more than one.
fn push_depth(out: &mut String, depth: u64) -> Result<(), AllocError>
    ensures { OnOk result (string_bytes out.new ≡ string_bytes out.old ++ lines.depth_text depth) }
{
    if depth == 1 {
        Ok(())
    } else {
        write!(out, ", depth {depth}")
    }
}

/// Adds the priority of a dispatch, and how deep it is where that is more than one.
pub(crate) fn push_urgency(out: &mut String, priority: i32, depth: u64) -> Result<(), AllocError>
    ensures { OnOk result (string_bytes out.new ≡ string_bytes out.old ++ (codes " (" ++ (lines.priority_text priority ++ (lines.depth_text depth ++ codes ")")))) }
{
    out.push_str(" (")?;
    push_priority(out, priority)?;
    push_depth(out, depth)?;
    out.push_str(")")
}

/// Adds how a task ended.
pub(crate) fn push_outcome(out: &mut String, outcome: Outcome) -> Result<(), AllocError>
    ensures { OnOk result (string_bytes out.new ≡ string_bytes out.old ++ lines.outcome_text outcome) }
{
    match outcome {
        Outcome::Ok(value) => write!(out, " ok {value}"),
        Outcome::Failed => out.push_str(" failed"),
        Outcome::Cancelled => out.push_str(" cancelled"),
        Outcome::TimedOut => out.push_str(" timed-out"),
    }
}

/// The part of a line that answers its question.
pub(crate) fn answer_part(yes: bool) -> &'static str
    ensures { result.now ≡ lines.answer_text yes }
{
    if yes { ": true" } else { ": false" }
}

/// The part of a line that tells how a procedure was invoked.
pub(crate) fn invoked_part(how: Invoked) -> &'static str
    ensures { result.now ≡ lines.invoked_text how }
{
    match how {
        Invoked::Direct => ": direct",
        Invoked::Attached => ": attached",
        Invoked::Posted => ": posted",
    }
}

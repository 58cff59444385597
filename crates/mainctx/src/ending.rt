//! Texts that are written from their ends, each part before those that follow it: numbers, events, whole lines, headings.
ghost use Rattle.std.specs.Prelude.{◌≡◌, ◌+◌, ◌≤◌, ◌++◌, [], codes, drop, length};
ghost use Rattle.std.specs.Fmt.{decimal, signed_decimal};
ghost use Rattle.mainctx.specs.Bounds.{longest_line};
ghost use Rattle.mainctx.specs.Text.{event_text, lane_text, outcome_text, line_text, truth_text};

use crate::words::{action_word, invoked_word};
use itoa::write_digits;
use lane_turn::{Event, Line};
use loop_script::Outcome;

/// The bytes that a line may take: each of its parts, of which it has twelve at most, has at most 20.
pub(crate) const LONGEST_LINE: usize = 256;

/// Writes a label so that it ends at `end`, and answers where it starts.
#[inline(always)]
pub(crate) fn put(bytes: &mut [u8; LONGEST_LINE], end: usize, label: &str) -> usize
    requires { (length label.now ≤ 20) × (20 ≤ end) × (end ≤ longest_line) }
    ensures start { result + length label.now ≡ end }
    ensures short { end ≤ result + 20 }
    ensures written { drop result bytes.new ≡ label.now ++ drop end bytes.old }
{
    let start = end - label.len();
    bytes[start..end].copy_from_slice(label.as_bytes());
    start
}

/// Writes a number.
#[inline(always)]
pub(crate) fn put_number(bytes: &mut [u8; LONGEST_LINE], end: usize, number: u64) -> usize
    requires { (20 ≤ end) × (end ≤ longest_line) }
    ensures start { result + length (decimal number) ≡ end }
    ensures short { end ≤ result + 20 }
    ensures written { drop result bytes.new ≡ decimal number ++ drop end bytes.old }
{
    write_digits(number, bytes, end)
}

/// Writes a number that may be below zero.
#[inline(always)]
pub(crate) fn put_signed(bytes: &mut [u8; LONGEST_LINE], end: usize, number: i64) -> usize
    requires { (20 ≤ end) × (end ≤ longest_line) }
    ensures start { result + length (signed_decimal number) ≡ end }
    ensures short { end ≤ result + 20 }
    ensures written { drop result bytes.new ≡ signed_decimal number ++ drop end bytes.old }
{
    let start = write_digits(number.unsigned_abs(), bytes, end);
    if number >= 0 {
        return start;
    }
    bytes[start - 1] = b'-';
    start - 1
}

/// Writes how a task ended.
fn put_outcome(bytes: &mut [u8; LONGEST_LINE], end: usize, outcome: Outcome) -> usize
    requires { (40 ≤ end) × (end ≤ longest_line) }
    ensures short { end ≤ result + 40 }
    ensures within { result ≤ end }
    ensures written { drop result bytes.new ≡ outcome_text outcome ++ drop end bytes.old }
{
    match outcome {
        Outcome::Ok(value) => {
            let value = put_signed(bytes, end, value);
            put(bytes, value, "ok ")
        }
        Outcome::Failed => put(bytes, end, "failed"),
        Outcome::Cancelled => put(bytes, end, "cancelled"),
        Outcome::TimedOut => put(bytes, end, "timed-out"),
    }
}

/// Writes an answer.
#[inline]
fn put_truth(bytes: &mut [u8; LONGEST_LINE], end: usize, truth: bool) -> usize
    requires { (20 ≤ end) × (end ≤ longest_line) }
    ensures short { end ≤ result + 20 }
    ensures within { result ≤ end }
    ensures written { drop result bytes.new ≡ truth_text truth ++ drop end bytes.old }
{
    if truth {
        put(bytes, end, "true")
    } else {
        put(bytes, end, "false")
    }
}

/// Writes a label and a number after it.
#[inline]
fn put_numbered(bytes: &mut [u8; LONGEST_LINE], end: usize, label: &str, number: u64) -> usize
    requires { (length label.now ≤ 20) × (40 ≤ end) × (end ≤ longest_line) }
    ensures short { end ≤ result + 40 }
    ensures within { result ≤ end }
    ensures written { drop result bytes.new ≡ label.now ++ (decimal number ++ drop end bytes.old) }
{
    let number = put_number(bytes, end, number);
    put(bytes, number, label)
}

/// Writes a label, a context and an answer.
#[inline]
fn put_answer(
    bytes: &mut [u8; LONGEST_LINE],
    end: usize,
    label: &str,
    context: u32,
    answer: bool,
) -> usize
    requires { (length label.now ≤ 20) × (80 ≤ end) × (end ≤ longest_line) }
    ensures short { end ≤ result + 80 }
    ensures within { result ≤ end }
    ensures written { drop result bytes.new ≡ label.now ++ (decimal context ++ (codes " " ++ (truth_text answer ++ drop end bytes.old))) }
{
    let at = put_truth(bytes, end, answer);
    let at = put(bytes, at, " ");
    put_numbered(bytes, at, label, u64::from(context))
}

/// Writes what was dispatched, and where.
#[inline]
fn put_dispatch(
    bytes: &mut [u8; LONGEST_LINE],
    end: usize,
    context: u32,
    source: u64,
    priority: i32,
    depth: u64,
) -> usize
    requires { (160 ≤ end) × (end ≤ longest_line) }
    ensures short { end ≤ result + 160 }
    ensures within { result ≤ end }
    ensures written { drop result bytes.new ≡ codes "dispatch ctx " ++ (decimal context ++ (codes " source " ++ (decimal source ++ (codes " priority " ++ (signed_decimal priority ++ (codes " depth " ++ (decimal depth ++ drop end bytes.old))))))) }
{
    let at = put_number(bytes, end, depth);
    let at = put(bytes, at, " depth ");
    let at = put_signed(bytes, at, i64::from(priority));
    let at = put(bytes, at, " priority ");
    let at = put_numbered(bytes, at, " source ", source);
    put_numbered(bytes, at, "dispatch ctx ", u64::from(context))
}

/// Writes which task it is, by its lane and number.
#[inline]
fn put_task(bytes: &mut [u8; LONGEST_LINE], end: usize, lane: u32, number: u64) -> usize
    requires { (80 ≤ end) × (end ≤ longest_line) }
    ensures short { end ≤ result + 80 }
    ensures within { result ≤ end }
    ensures written { drop result bytes.new ≡ codes "task " ++ (decimal lane ++ (codes "." ++ (decimal number ++ drop end bytes.old))) }
{
    let at = put_numbered(bytes, end, ".", number);
    put_numbered(bytes, at, "task ", u64::from(lane))
}

/// Writes what a line tells.
fn put_event(bytes: &mut [u8; LONGEST_LINE], end: usize, event: Event) -> usize
    requires { (200 ≤ end) × (end ≤ longest_line) }
    ensures short { end ≤ result + 160 }
    ensures within { result ≤ end }
    ensures written { drop result bytes.new ≡ event_text event ++ drop end bytes.old }
{
    match event {
        Event::Dispatch {
            context,
            source,
            priority,
            depth,
        } => put_dispatch(bytes, end, context, source, priority, depth),
        Event::Log(number) => put_numbered(bytes, end, "log ", u64::from(number)),
        Event::Iterate(ctx, answer) => put_answer(bytes, end, "iterate ctx ", ctx, answer),
        Event::Pending(ctx, answer) => put_answer(bytes, end, "pending ctx ", ctx, answer),
        Event::LoopEnd(number) => {
            let at = put(bytes, end, " end");
            put_numbered(bytes, at, "loop ", u64::from(number))
        }
        Event::Acquire(ctx, answer) => put_answer(bytes, end, "acquire ctx ", ctx, answer),
        Event::Default(ctx) => put_numbered(bytes, end, "default ctx ", u64::from(ctx)),
        Event::Invoke(ctx, how) => {
            let at = put(bytes, end, invoked_word(how));
            let at = put(bytes, at, " ");
            put_numbered(bytes, at, "invoke ctx ", u64::from(ctx))
        }
        Event::Arrive(ctx, source) => {
            let at = put_numbered(bytes, end, " source ", source);
            put_numbered(bytes, at, "arrive ctx ", u64::from(ctx))
        }
        Event::Cancel(cancellable) => put_numbered(bytes, end, "cancel ", u64::from(cancellable)),
        Event::Handler(id) => put_numbered(bytes, end, "handler ", id),
        Event::Task {
            lane,
            number,
            outcome,
        } => {
            let at = put_outcome(bytes, end, outcome);
            let at = put(bytes, at, " ");
            put_task(bytes, at, lane, number)
        }
        Event::TaskLate(lane, number) => {
            let at = put(bytes, end, " late");
            put_task(bytes, at, lane, number)
        }
        Event::Give { context, lane } => {
            let at = put_numbered(bytes, end, " lane ", u64::from(lane));
            put_numbered(bytes, at, "give ctx ", u64::from(context))
        }
        Event::Hold(ctx) => put_numbered(bytes, end, "hold ctx ", u64::from(ctx)),
        Event::Miss(word) => {
            let at = put(bytes, end, action_word(word));
            put(bytes, at, "miss ")
        }
        Event::HaltDepth => put(bytes, end, "halt depth"),
        Event::HaltSteps => put(bytes, end, "halt steps"),
        Event::End => put(bytes, end, "end"),
    }
}

/// Writes a line at the end, and answers where it starts.
pub(crate) fn put_line(bytes: &mut [u8; LONGEST_LINE], line: Line) -> usize
    ensures within { result ≤ longest_line }
    ensures written { drop result bytes.new ≡ line_text line }
{
    let at = put(bytes, LONGEST_LINE, "\n");
    let at = put_event(bytes, at, line.event);
    let at = put(bytes, at, " ");
    put_number(bytes, at, u64::from(line.tick))
}

/// Writes a lane's heading at the end, and answers where it starts.
pub(crate) fn put_heading(bytes: &mut [u8; LONGEST_LINE], lane: u32) -> usize
    ensures within { result ≤ longest_line }
    ensures written { drop result bytes.new ≡ lane_text lane [] }
{
    let at = put(bytes, LONGEST_LINE, "\n");
    put_numbered(bytes, at, "thread ", u64::from(lane))
}

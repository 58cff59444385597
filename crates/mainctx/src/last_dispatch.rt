//! The line of the dispatch that was written last: what stands before and behind its source, kept for the next.
ghost use Rattle.std.specs.Prelude.{◌≡◌, ◌+◌, ◌≤◌, ◌++◌, drop, length};
ghost use Rattle.mainctx.specs.Bounds.{longest_line};
ghost use Rattle.mainctx.specs.Text.{line_text};
ghost use Rattle.mainctx.specs.LastDispatch.{HoldsLine, head_text, tail_text};
ghost use Rattle.lane_turn.specs.declared.line.Event.TheVariants.{Dispatch};

use crate::ending::{LONGEST_LINE, put, put_number, put_signed};
use itoa::write_digits;

/// Writes what follows the source in the line of a dispatch.
fn put_tail(bytes: &mut [u8; LONGEST_LINE], priority: i32, depth: u64) -> usize
    ensures short { longest_line ≤ result + 100 }
    ensures within { result ≤ longest_line }
    ensures written { drop result bytes.new ≡ tail_text priority depth }
{
    let at = put(bytes, LONGEST_LINE, "\n");
    let at = put_number(bytes, at, depth);
    let at = put(bytes, at, " depth ");
    let at = put_signed(bytes, at, i64::from(priority));
    put(bytes, at, " priority ")
}

/// Writes what comes before the source in the line of a dispatch.
fn put_head(bytes: &mut [u8; LONGEST_LINE], end: usize, tick: u32, context: u32) -> usize
    requires { (100 ≤ end) × (end ≤ longest_line) }
    ensures start { result + length (head_text tick context) ≡ end }
    ensures written { drop result bytes.new ≡ head_text tick context ++ drop end bytes.old }
{
    let at = put(bytes, end, " source ");
    let at = put_number(bytes, at, u64::from(context));
    let at = put(bytes, at, " dispatch ctx ");
    put_number(bytes, at, u64::from(tick))
}

/// The line of the dispatch that was written last. Most lines are of dispatches, and most of those differ from the
/// one before in the source alone.
#[derive(Clone, Copy)]
pub(crate) struct LastDispatch {
    bytes: [u8; LONGEST_LINE],
    start: usize,
    /// Where the source starts.
    number: usize,
    /// Where what follows the source starts.
    tail: usize,
    tick: u32,
    context: u32,
    priority: i32,
    depth: u64,
}

impl LastDispatch {
    /// Any line of a dispatch.
    pub(crate) fn new() -> Self
        ensures { HoldsLine result }
    {
        LastDispatch::of(0, 0, 0, 0, 0)
    }

    /// The line of a dispatch, written out.
    fn of(tick: u32, context: u32, source: u64, priority: i32, depth: u64) -> Self
        ensures holds { HoldsLine result }
        ensures line { drop result.start result.bytes ≡ line_text (record { tick = tick; event = Dispatch context source priority depth }) }
    {
        let mut bytes = [0; LONGEST_LINE];
        let tail = put_tail(&mut bytes, priority, depth);
        let number = write_digits(source, &mut bytes, tail);
        let start = put_head(&mut bytes, number, tick, context);
        LastDispatch {
            bytes,
            start,
            number,
            tail,
            tick,
            context,
            priority,
            depth,
        }
    }

    /// Writes a whole line. Apart from `write`, so that only this pays for the room of another line.
    #[cold]
    #[inline(never)]
    fn rewrite(&mut self, tick: u32, context: u32, source: u64, priority: i32, depth: u64)
        ensures holds { HoldsLine self.new }
        ensures line { drop self.new.start self.new.bytes ≡ line_text (record { tick = tick; event = Dispatch context source priority depth }) }
    {
        *self = LastDispatch::of(tick, context, source, priority, depth);
    }

    /// Writes the line of another dispatch.
    #[inline]
    pub(crate) fn write(&mut self, tick: u32, context: u32, source: u64, priority: i32, depth: u64)
        requires { HoldsLine self.old }
        ensures holds { HoldsLine self.new }
        ensures line { drop self.new.start self.new.bytes ≡ line_text (record { tick = tick; event = Dispatch context source priority depth }) }
    {
        if self.priority != priority
            || self.depth != depth
            || self.tick != tick
            || self.context != context
        {
            self.rewrite(tick, context, source, priority, depth);
            return;
        }
        let number = write_digits(source, &mut self.bytes, self.tail);
        if number != self.number {
            self.number = number;
            self.start = put_head(&mut self.bytes, number, tick, context);
        }
    }

    /// The line.
    #[inline]
    pub(crate) fn line(&self) -> &[u8]
        requires { HoldsLine self.now }
        ensures { result.now ≡ drop self.now.start self.now.bytes }
    {
        &self.bytes[self.start..]
    }
}

//! Single calls of a view in a table: with ample memory, and with memory refused.
ghost use Rattle.std.specs.Prelude.{◌+◌, ◌≤◌, ◌^◌};

use crate::expected::expect;
use cancel_view::{Connected, Fired, OutOfMemory, View};
use std::alloc::Global;
use std::process::Abort;

/// A call, and what it has to answer.
#[derive(Clone, Copy)]
enum Step {
    /// Connects a handler of a cancellable, which calls a procedure.
    Connect(u32, u32, Connected),
    Disconnect(u64, bool),
    /// Cancels, which calls handlers, or none where it was cancelled already.
    Cancel(u32, Option<&'static [Fired]>),
    IsCancelled(u32, bool),
}

use Step::{Cancel, Connect, Disconnect, IsCancelled};

/// A view, with few enough handlers ahead that each may be connected.
#[derive(Drop)]
struct Tried {
    view: View,
    left: u32,
    ghost ids: { view.next_id + left ≤ 2 ^ 62 },
}

impl Tried {
    fn new(alloc: Global, cancellables: u32) -> Result<Tried, OutOfMemory> {
        let view = View::new(alloc, cancellables)?;
        Ok(Tried { view, left: 1000 })
    }

    fn connect(&mut self, c: u32, proc: u32) -> Result<Connected, OutOfMemory> {
        if self.left == 0 {
            return Err(OutOfMemory);
        }
        self.left -= 1;
        match self.view.connect(c, proc) {
            Ok(connected) => Ok(connected),
            Err(OutOfMemory) => Err(OutOfMemory),
        }
    }

    /// Whether what a cancel calls is right.
    fn fires(
        &mut self,
        alloc: Global,
        c: u32,
        wanted: Option<&[Fired]>,
    ) -> Result<bool, OutOfMemory> {
        let fired = self.view.cancel(alloc, c)?;
        Ok(match (fired, wanted) {
            (Some(fired), Some(wanted)) => fired.as_slice() == wanted,
            (None, None) => true,
            _ => false,
        })
    }

    /// Whether a step's answer is right.
    fn take(&mut self, alloc: Global, step: &Step) -> Result<bool, OutOfMemory> {
        match *step {
            Connect(c, proc, answer) => Ok(self.connect(c, proc)? == answer),
            Disconnect(id, answer) => Ok(self.view.disconnect(id) == answer),
            Cancel(c, fired) => self.fires(alloc, c, fired),
            IsCancelled(c, answer) => Ok(self.view.is_cancelled(c) == answer),
        }
    }

    /// Takes a step, once more where memory is refused, which leaves the view as it was.
    fn retake(&mut self, alloc: Global, step: &Step) -> Result<bool, OutOfMemory> {
        match self.take(alloc, step) {
            Err(OutOfMemory) => Ok(self.is_before(step) && self.take(alloc, step)?),
            answer => answer,
        }
    }

    /// Whether each step answers what it has to, at once or, where memory may be refused, taken again.
    fn are_right(&mut self, alloc: Global, steps: &[Step], may_be_refused: bool) -> bool {
        for step in steps {
            let answer = if may_be_refused {
                self.retake(alloc, step)
            } else {
                self.take(alloc, step)
            };
            if answer != Ok(true) {
                return false;
            }
        }
        true
    }

    /// Whether a refused step's handler is not connected, or its cancellable not cancelled.
    fn is_before(&mut self, step: &Step) -> bool {
        match *step {
            Connect(_, _, Connected::Id(id)) => !self.view.disconnect(id),
            Cancel(c, Some(_)) => !self.view.is_cancelled(c),
            _ => false,
        }
    }
}

/// Handlers 1 and 2 of one cancellable, of which the first goes once; one that never was is gone.
const COME_AND_GO: [Step; 6] = [
    Connect(0, 5, Connected::Id(1)),
    Connect(0, 6, Connected::Id(2)),
    IsCancelled(0, false),
    Disconnect(1, true),
    Disconnect(1, false),
    Disconnect(0, true),
];

/// What is cancelled takes no handler, and isn't cancelled a second time. A handler that was called stays connected.
const FOR_GOOD: [Step; 7] = [
    Connect(0, 6, Connected::Id(1)),
    Cancel(0, Some(&[Fired { id: 1, proc: 6 }])),
    IsCancelled(0, true),
    Connect(0, 7, Connected::Already),
    Cancel(0, None),
    Disconnect(1, true),
    Disconnect(1, false),
];

/// Each of two cancellables calls its own handlers, by rising id, and none that is gone.
const OF_TWO: [Step; 10] = [
    Connect(0, 10, Connected::Id(1)),
    Connect(1, 11, Connected::Id(2)),
    Connect(0, 12, Connected::Id(3)),
    Connect(0, 13, Connected::Id(4)),
    Disconnect(3, true),
    Cancel(
        0,
        Some(&[Fired { id: 1, proc: 10 }, Fired { id: 4, proc: 13 }]),
    ),
    IsCancelled(0, true),
    IsCancelled(1, false),
    Cancel(1, Some(&[Fired { id: 2, proc: 11 }])),
    IsCancelled(1, true),
];

/// Each kind of call, the second handler called where the first is gone.
const EACH: [Step; 9] = [
    Connect(0, 5, Connected::Id(1)),
    Connect(0, 6, Connected::Id(2)),
    Disconnect(1, true),
    Disconnect(1, false),
    Disconnect(0, true),
    Cancel(0, Some(&[Fired { id: 2, proc: 6 }])),
    IsCancelled(0, true),
    Cancel(0, None),
    Connect(0, 7, Connected::Already),
];

/// The steps of a new view of two cancellables; where memory may be refused the view may find none.
fn expect_right(rt: &impl Abort, alloc: Global, steps: &[Step], may_be_refused: bool) {
    match Tried::new(alloc, 2) {
        Ok(mut view) => expect(rt, view.are_right(alloc, steps, may_be_refused)),
        Err(OutOfMemory) => expect(rt, may_be_refused),
    }
}

#[test]
fn handlers_come_and_go(rt: HostRuntime) {
    expect_right(&rt, rt.alloc(), &COME_AND_GO, false);
    expect_right(&rt, rt.alloc(), &EACH, false);
}

#[test]
fn cancelled_for_good(rt: HostRuntime) {
    expect_right(&rt, rt.alloc(), &FOR_GOOD, false);
}

#[test]
fn handlers_by_rising_id(rt: HostRuntime) {
    expect_right(&rt, rt.alloc(), &OF_TWO, false);
}

/// Whatever request is refused, the view is as it was or as the call leaves it, also for all calls that come after.
#[test]
fn refused_view(rt: HostRuntime) {
    expect_right(&rt, rt.alloc(), &EACH, true);
}

//! The book alone: single calls, the tasks of a worked script, and memory refused.
ghost use Rattle.std.specs.Prelude.{IfOk};
ghost use Rattle.test_data.specs.Going.{GoesOn, IsKnown};

use crate::expected::expect_same;
use crate::trees::task_at;
use cancel_view::{OutOfMemory, View};
use loop_script::{Action, Body, Outcome, Script, TaskSpec};
use std::alloc::Global;
use std::process::Abort;
use task_steps::{BookFault, Polled, Reply, TaskBook};

/// A book whose view and tick go on as in a lane.
#[derive(Drop)]
struct Lane {
    alloc: Global,
    book: TaskBook,
    view: View,
    cancellables: u32,
    started: u32,
    tick: u32,
}

impl Lane {
    fn new(alloc: Global, cancellables: u32) -> Result<Lane, OutOfMemory>
        ensures { IfOk result (λ l. GoesOn l.book l.view l.cancellables l.started l.tick) }
    {
        let view = View::new(alloc, cancellables)?;
        Ok(Lane {
            alloc,
            book: TaskBook::new(alloc, 1000),
            view,
            cancellables,
            started: 0,
            tick: 0,
        })
    }

    fn start(&mut self, rt: &impl Abort, spec: &TaskSpec) -> Result<u64, BookFault>
        requires { GoesOn self.old.book self.old.view self.old.cancellables self.old.started self.old.tick }
        ensures { GoesOn self.new.book self.new.view self.new.cancellables self.new.started self.new.tick }
    {
        assert!(rt; self.started < 1000 && self.tick < 1000);
        expect_known(rt, spec.cancel, self.cancellables);
        let number = self.book.start(spec, 7, self.tick)?;
        self.started += 1;
        Ok(number)
    }

    /// Polls in the next tick.
    fn poll(&mut self, rt: &impl Abort) -> Result<Polled, BookFault>
        requires { GoesOn self.old.book self.old.view self.old.cancellables self.old.started self.old.tick }
        ensures { GoesOn self.new.book self.new.view self.new.cancellables self.new.started self.new.tick }
    {
        assert!(rt; self.tick < 1000);
        self.tick += 1;
        self.book.poll_all(self.alloc, self.tick, &self.view)
    }

    fn cancel(&mut self, rt: &impl Abort, c: u32) -> Result<(), OutOfMemory>
        requires { GoesOn self.old.book self.old.view self.old.cancellables self.old.started self.old.tick }
        ensures { GoesOn self.new.book self.new.view self.new.cancellables self.new.started self.new.tick }
    {
        assert!(rt; c < self.cancellables);
        let _fired = self.view.cancel(self.alloc, c)?;
        Ok(())
    }

    fn wake(&self) -> Option<u64>
        requires { GoesOn self.now.book self.now.view self.now.cancellables self.now.started self.now.tick }
    {
        self.book.next_wake(self.tick, &self.view)
    }
}

fn expect_known(rt: &impl Abort, cancel: Option<u32>, cancellables: u32)
    ensures { IsKnown cancellables cancel }
{
    if let Some(c) = cancel {
        assert!(rt; c < cancellables);
    }
}

/// Tasks that call procedure 5, with priority -1: two that end at once; a sleep; a tie; an end at the limit; two of the same end, of which
/// the first has no check; three more sleeps; and one that ends at once and has a cancellable.
fn tasks() -> &'static str {
    r#"{"version":1,"ticks":1,"tick_us":1000,"cancellables":2,"procs":[{"do":[]},{"do":[]},{"do":[]},{"do":[]},{"do":[]},{"do":[]}],"lanes":[{"contexts":1,"start":[["task",{"tree":["value",1],"call":5,"priority":-1}],["task",{"tree":["value",2],"call":5,"priority":-1}],["task",{"tree":["sleep",3000],"call":5,"priority":-1,"cancel":0,"return_on_cancel":true}],["task",{"tree":["first",["seq",["sleep",1000],["value",1]],["seq",["sleep",1000],["value",2]]],"call":5,"priority":-1}],["task",{"tree":["within",2000,["seq",["sleep",2000],["value",3]]],"call":5,"priority":-1}],["task",{"tree":["seq",["sleep",2000],["value",4]],"call":5,"priority":-1,"cancel":0,"check":false}],["task",{"tree":["seq",["sleep",2000],["value",4]],"call":5,"priority":-1,"cancel":0}],["task",{"tree":["sleep",2000],"call":5,"priority":-1,"cancel":0,"return_on_cancel":true}],["task",{"tree":["sleep",9000],"call":5,"priority":-1,"cancel":1,"return_on_cancel":true}],["task",{"tree":["sleep",7000],"call":5,"priority":-1,"cancel":1}],["task",{"tree":["value",1],"call":5,"priority":-1,"cancel":0,"return_on_cancel":true}]]}]}"#
}

/// A step of a lane, and what it has to give.
#[derive(Clone, Copy)]
enum Step {
    /// When the next task wakes.
    Wake(Option<u64>),
    /// Starts the task of an action, which is to have a number.
    Begin(usize, u64),
    Cancel(u32),
    /// Polls in the next tick, for these replies, and for these tasks that end late.
    Poll(&'static [Reply], &'static [u64]),
}

use Step::{Begin, Cancel, Poll, Wake};

/// The reply of a task that ended at once.
const ENDED: Reply = Reply {
    task: 0,
    ctx: 7,
    outcome: Outcome::Ok(1),
    call: 5,
    priority: -1,
    cancel: None,
    check: true,
};

/// The reply of a task that was cancelled.
const CANCELLED: Reply = Reply {
    outcome: Outcome::Cancelled,
    cancel: Some(0),
    ..ENDED
};

/// A task that ends at once, and another after it.
const ONE_TASK: [Step; 7] = [
    Wake(None),
    Begin(0, 0),
    Wake(Some(1)),
    Poll(&[ENDED], &[]),
    Wake(None),
    Poll(&[], &[]),
    Begin(1, 1),
];

/// Five tasks, of which three end before one is cancelled; the last is started in the turn of tick 3, after the polls and the cancel.
/// Replies of what is cancelled come at once, and then the ends.
const SOME_CANCELLED: [Step; 19] = [
    Begin(2, 0),
    Begin(3, 1),
    Begin(4, 2),
    Begin(5, 3),
    Begin(6, 4),
    Wake(Some(1)),
    Poll(&[], &[]),
    Wake(Some(2)),
    Poll(&[Reply { task: 1, ..ENDED }], &[]),
    Wake(Some(3)),
    Poll(
        &[
            Reply {
                task: 2,
                outcome: Outcome::Ok(3),
                ..ENDED
            },
            Reply {
                task: 3,
                outcome: Outcome::Ok(4),
                cancel: Some(0),
                check: false,
                ..ENDED
            },
            Reply {
                task: 4,
                outcome: Outcome::Ok(4),
                cancel: Some(0),
                ..ENDED
            },
        ],
        &[],
    ),
    Cancel(0),
    Begin(7, 5),
    Wake(Some(4)),
    Poll(
        &[
            CANCELLED,
            Reply {
                task: 5,
                ..CANCELLED
            },
        ],
        &[0],
    ),
    Wake(Some(6)),
    Poll(&[], &[]),
    Poll(&[], &[5]),
    Wake(None),
];

/// A cancellation is due in the next tick, before every sleep's end, and moves nothing after its reply.
const ONE_OF_TWO_CANCELLED: [Step; 8] = [
    Begin(8, 0),
    Begin(9, 1),
    Poll(&[], &[]),
    Wake(Some(8)),
    Cancel(1),
    Wake(Some(2)),
    Poll(
        &[Reply {
            cancel: Some(1),
            ..CANCELLED
        }],
        &[],
    ),
    Wake(Some(8)),
];

/// A task that has a cancellable and ends at once.
const ENDS_AT_ONCE: [Step; 2] = [
    Begin(10, 0),
    Poll(
        &[Reply {
            cancel: Some(0),
            ..ENDED
        }],
        &[],
    ),
];

fn expect_polled(rt: &impl Abort, tick: u32, polled: &Polled, replies: &[Reply], late: &[u64]) {
    expect_same(
        rt,
        (tick, polled.replies.as_slice(), polled.late.as_slice()),
        (tick, replies, late),
    );
}

/// Polls in the next tick, and compares.
fn expect(
    rt: &impl Abort,
    lane: &mut Lane,
    replies: &[Reply],
    late: &[u64],
) -> Result<(), BookFault>
    requires { GoesOn lane.old.book lane.old.view lane.old.cancellables lane.old.started lane.old.tick }
    ensures { GoesOn lane.new.book lane.new.view lane.new.cancellables lane.new.started lane.new.tick }
{
    let polled = lane.poll(rt)?;
    expect_polled(rt, lane.tick, &polled, replies, late);
    Ok(())
}

fn expect_wake(rt: &impl Abort, lane: &Lane, wake: Option<u64>)
    requires { GoesOn lane.now.book lane.now.view lane.now.cancellables lane.now.started lane.now.tick }
{
    expect_same(rt, (lane.tick, lane.wake()), (lane.tick, wake));
}

/// Starts a task, which is to have a number.
fn begin(
    rt: &impl Abort,
    lane: &mut Lane,
    task: Option<&TaskSpec>,
    number: u64,
) -> Result<(), BookFault>
    requires { GoesOn lane.old.book lane.old.view lane.old.cancellables lane.old.started lane.old.tick }
    ensures { GoesOn lane.new.book lane.new.view lane.new.cancellables lane.new.started lane.new.tick }
{
    match task {
        Some(spec) => expect_same(rt, lane.start(rt, spec)?, number),
        None => assert!(rt; false, "no task"),
    }
    Ok(())
}

fn take(rt: &impl Abort, lane: &mut Lane, tasks: &[Action], step: &Step) -> Result<(), BookFault>
    requires { GoesOn lane.old.book lane.old.view lane.old.cancellables lane.old.started lane.old.tick }
    ensures { GoesOn lane.new.book lane.new.view lane.new.cancellables lane.new.started lane.new.tick }
{
    match *step {
        Wake(wake) => {
            expect_wake(rt, lane, wake);
            Ok(())
        }
        Begin(task, number) => begin(rt, lane, task_at(tasks, task), number),
        Cancel(c) => match lane.cancel(rt, c) {
            Ok(()) => Ok(()),
            Err(OutOfMemory) => Err(BookFault::OutOfMemory),
        },
        Poll(replies, late) => expect(rt, lane, replies, late),
    }
}

/// Takes steps of a book; the first fault ends them.
fn take_all(
    rt: &impl Abort,
    lane: &mut Lane,
    tasks: &[Action],
    steps: &[Step],
) -> Result<(), BookFault>
    requires { GoesOn lane.old.book lane.old.view lane.old.cancellables lane.old.started lane.old.tick }
    ensures { GoesOn lane.new.book lane.new.view lane.new.cancellables lane.new.started lane.new.tick }
{
    'steps: for step in steps {
        take(rt, lane, tasks, step)?;
    }
    Ok(())
}

/// The same of a book without tasks, in a lane of two cancellables.
fn expect_taken(rt: &impl Abort, alloc: Global, tasks: &[Action], steps: &[Step]) {
    match Lane::new(alloc, 2) {
        Ok(mut lane) => expect_same(rt, take_all(rt, &mut lane, tasks, steps), Ok(())),
        Err(OutOfMemory) => assert!(rt; false),
    }
}

// (a table is part of each function that names it, and a proof grows faster than its function: each table has one of its own)

fn expect_one(rt: &impl Abort, alloc: Global, tasks: &[Action]) {
    expect_taken(rt, alloc, tasks, &ONE_TASK);
}

fn expect_some_cancelled(rt: &impl Abort, alloc: Global, tasks: &[Action]) {
    expect_taken(rt, alloc, tasks, &SOME_CANCELLED);
}

fn expect_one_of_two(rt: &impl Abort, alloc: Global, tasks: &[Action]) {
    expect_taken(rt, alloc, tasks, &ONE_OF_TWO_CANCELLED);
}

fn expect_steps(rt: &impl Abort, alloc: Global, tasks: &[Action]) {
    expect_one(rt, alloc, tasks);
    expect_some_cancelled(rt, alloc, tasks);
    expect_one_of_two(rt, alloc, tasks);
}

/// That a book answers `Spent`, to both calls and a second time too, and has no wake.
fn expect_spent(rt: &impl Abort, lane: &mut Lane, tasks: &[Action])
    requires { GoesOn lane.old.book lane.old.view lane.old.cancellables lane.old.started lane.old.tick }
{
    let spent = Err(BookFault::Spent);
    expect_same(rt, begin(rt, lane, task_at(tasks, 10), 0), spent);
    expect_same(rt, expect(rt, lane, &[], &[]), spent);
    expect_same(rt, begin(rt, lane, task_at(tasks, 10), 0), spent);
    expect_same(rt, expect(rt, lane, &[], &[]), spent);
    expect_wake(rt, lane, None);
}

/// Starts a task that ends at once, where memory may be refused, and polls it; a poll of what has ended takes no memory.
fn take_or_spend(rt: &impl Abort, lane: &mut Lane, tasks: &[Action])
    requires { GoesOn lane.old.book lane.old.view lane.old.cancellables lane.old.started lane.old.tick }
{
    match take_all(rt, lane, tasks, &ENDS_AT_ONCE) {
        Ok(()) => expect_same(rt, expect(rt, lane, &[], &[]), Ok(())),
        Err(fault) => {
            expect_same(rt, fault, BookFault::OutOfMemory);
            expect_spent(rt, lane, tasks);
        }
    }
}

/// The same of a book without tasks, in a lane of one cancellable.
fn expect_refused(rt: &impl Abort, alloc: Global, tasks: &[Action]) {
    if let Ok(mut lane) = Lane::new(alloc, 1) {
        take_or_spend(rt, &mut lane, tasks);
    }
}

fn expect_of_actions(rt: &impl Abort, alloc: Global, tasks: &[Action], may_be_refused: bool) {
    if may_be_refused {
        expect_refused(rt, alloc, tasks);
    } else {
        expect_steps(rt, alloc, tasks);
    }
}

/// What a book does with the tasks, with ample memory, or where memory may be refused.
fn expect_of_tasks(rt: &impl Abort, alloc: Global, may_be_refused: bool) {
    match Script::read(alloc, tasks().as_bytes()) {
        Ok(script) => expect_of_actions(rt, alloc, script.actions(Body::Start(0)), may_be_refused),
        Err(_) => assert!(rt; may_be_refused),
    }
}

#[test]
fn tasks_of_a_book(rt: HostRuntime) {
    expect_of_tasks(&rt, rt.alloc(), false);
}

/// A book that was refused memory answers `Spent` from then on.
#[test]
fn refused_book(rt: HostRuntime) {
    expect_of_tasks(&rt, rt.alloc(), true);
}

//! What a lane watches: a task that is cancelled, one that runs, handlers, and refused memory.
ghost use Rattle.std.specs.Prelude.{◌≡◌, ◌≤◌, ◌<◌, ◌+◌, length, IfOk, OnOk, OnErr, Some};

use crate::expected::{expect, expect_same};
use cancel_view::{Connected, Fired, OutOfMemory};
use lane_watch::Watch;
use loop_script::{Action, Body, Outcome, Script};
use std::alloc::{AllocError, Global};
use std::process::Abort;
use task_steps::{Polled, TaskShown};

/// A script whose one task sleeps three ticks, with cancellable 0, and returns where that is cancelled.
fn sleeper() -> &'static str {
    r#"{"version":1,"ticks":1,"tick_us":1000,"cancellables":1,"procs":[{"do":[]}],"lanes":[{"contexts":1,"start":[["task",{"tree":["sleep",3000],"call":0,"cancel":0,"check":true,"return_on_cancel":true}]]}]}"#
}

/// The same of a task that ends in its first poll.
fn ended_at_once() -> &'static str {
    r#"{"version":1,"ticks":1,"tick_us":1000,"cancellables":1,"procs":[{"do":[]}],"lanes":[{"contexts":1,"start":[["task",{"tree":["sleep",0],"call":0,"cancel":0,"check":true,"return_on_cancel":true}]]}]}"#
}

/// Starts the task of a script in tick 0, after its polls. A script that has none counts as refused.
fn start(watch: &mut Watch, alloc: Global, text: &str) -> Result<(), OutOfMemory>
    requires tick { watch.old.tasks.tick ≡ 1 }
    requires room { watch.old.tasks.next < 1000 }
    requires known { 0 < length watch.old.view.members }
    ensures tick { watch.new.tasks.tick ≡ 1 }
    ensures view { watch.new.view ≡ watch.old.view }
{
    let Ok(script) = Script::read(alloc, text.as_bytes()) else {
        return Err(OutOfMemory);
    };
    match script.actions(Body::Start(0)) {
        [Action::Task(spec)] if spec.cancel == Some(0) => watch.start(spec, 0, 0),
        _ => Err(OutOfMemory),
    }
}

/// A watch whose first polls are over.
fn polled_once(alloc: Global) -> Result<Watch, OutOfMemory>
    ensures id { IfOk result (λ w. w.view.next_id ≡ 1) }
    ensures tick { IfOk result (λ w. w.tasks.tick ≡ 1) }
    ensures room { IfOk result (λ w. w.tasks.next < 1000) }
    ensures known { IfOk result (λ w. 0 < length w.view.members) }
{
    let mut watch = Watch::new(alloc, 1, 1000)?;
    watch.poll(alloc, 0)?;
    Ok(watch)
}

/// What is polled is one reply or none, and these tasks that end late.
fn expect_polled(rt: &impl Abort, polled: &Polled, reply: Option<Outcome>, late: &[u64]) {
    match polled.replies.as_slice() {
        [] => expect_same(rt, None, reply),
        [found] => expect_same(rt, Some(found.outcome), reply),
        _ => expect(rt, false),
    }
    expect_same(rt, polled.late.as_slice(), late);
}

/// Polls in a tick, and compares.
fn poll(
    rt: &impl Abort,
    alloc: Global,
    watch: &mut Watch,
    tick: u32,
    reply: Option<Outcome>,
    late: &[u64],
) -> Result<(), OutOfMemory>
    requires now { watch.old.tasks.tick ≡ tick }
    requires early { tick < 1000 }
    ensures { OnOk result (watch.new.tasks.tick ≡ tick + 1) }
{
    let polled = watch.poll(alloc, tick)?;
    expect_polled(rt, &polled, reply, late);
    Ok(())
}

/// Cancels in a tick; whether the cancellable came into the view.
fn cancel(watch: &mut Watch, alloc: Global, tick: u32) -> Result<bool, OutOfMemory>
    requires { watch.old.tasks.tick ≡ tick + 1 }
    ensures { OnOk result (watch.new.tasks.tick ≡ tick + 1) }
{
    Ok(watch.cancel(alloc, tick, 0)?.is_some())
}

/// The task of a watch, as it is shown.
fn expect_shown(
    rt: &impl Abort,
    watch: &Watch,
    alloc: Global,
    replied: bool,
    wake: u64,
) -> Result<(), AllocError> {
    let shown = watch.tasks(alloc)?;
    let wanted = [TaskShown {
        number: 0,
        ctx: 0,
        first: 1,
        cancel: Some(0),
        replied,
        wake: Some(wake),
    }];
    expect_same(rt, shown.as_slice(), &wanted);
    Ok(())
}

/// A task of three ticks, which waits for its first poll in tick 1 and is cancelled there.
fn start_and_cancel(rt: &impl Abort, alloc: Global, watch: &mut Watch) -> Result<(), OutOfMemory>
    requires tick { watch.old.tasks.tick ≡ 1 }
    requires room { watch.old.tasks.next < 1000 }
    requires known { 0 < length watch.old.view.members }
    ensures { OnOk result (watch.new.tasks.tick ≡ 2) }
{
    start(watch, alloc, sleeper())?;
    expect_shown(rt, watch, alloc, false, 1)?;
    poll(rt, alloc, watch, 1, None, &[])?;
    expect(rt, cancel(watch, alloc, 1)?);
    Ok(())
}

/// It sleeps up to tick 4, replies in tick 2, and ends late.
fn expect_cancelled(rt: &impl Abort, alloc: Global, watch: &mut Watch) -> Result<(), OutOfMemory>
    requires { watch.old.tasks.tick ≡ 2 }
{
    expect(rt, watch.view().is_cancelled(0));
    expect_shown(rt, watch, alloc, false, 4)?;
    poll(rt, alloc, watch, 2, Some(Outcome::Cancelled), &[])?;
    expect_shown(rt, watch, alloc, true, 4)?;
    poll(rt, alloc, watch, 3, None, &[])?;
    poll(rt, alloc, watch, 4, None, &[0])
}

fn run_cancelled(rt: &impl Abort, alloc: Global, watch: &mut Watch) -> Result<(), OutOfMemory>
    requires tick { watch.old.tasks.tick ≡ 1 }
    requires room { watch.old.tasks.next < 1000 }
    requires known { 0 < length watch.old.view.members }
{
    start_and_cancel(rt, alloc, watch)?;
    expect_cancelled(rt, alloc, watch)
}

/// Connects a handler that is to have an id.
fn connect(rt: &impl Abort, watch: &mut Watch, proc: u32, id: u64) -> Result<(), OutOfMemory>
    requires { watch.old.view.next_id < 1000 }
    ensures id { OnOk result (watch.new.view.next_id ≤ watch.old.view.next_id + 1) }
    ensures tick { OnOk result (watch.new.tasks.tick ≡ watch.old.tasks.tick) }
    ensures same { OnErr result (watch.new ≡ watch.old) }
{
    let connected = watch.connect(0, proc)?;
    expect(rt, connected == Connected::Id(id));
    Ok(())
}

/// A first cancel, which is to call one handler. Where memory is refused the watch is as it was.
fn expect_fired(
    rt: &impl Abort,
    alloc: Global,
    watch: &mut Watch,
    wanted: Fired,
) -> Result<(), OutOfMemory>
    requires { watch.old.tasks.tick ≡ 1 }
    ensures { OnErr result (watch.new ≡ watch.old) }
{
    match watch.cancel(alloc, 0, 0)? {
        Some(fired) => expect_same(rt, fired.as_slice(), &[wanted]),
        None => expect(rt, false),
    }
    Ok(())
}

/// Handlers 1 and 2 of its cancellable beside a task; the first goes again, and a cancel calls the second.
fn run_handlers(rt: &impl Abort, alloc: Global, watch: &mut Watch) -> Result<(), OutOfMemory>
    requires tick { watch.old.tasks.tick ≡ 1 }
    requires room { watch.old.tasks.next < 1000 }
    requires known { 0 < length watch.old.view.members }
    requires id { watch.old.view.next_id ≡ 1 }
{
    start(watch, alloc, sleeper())?;
    connect(rt, watch, 5, 1)?;
    connect(rt, watch, 6, 2)?;
    expect(rt, watch.disconnect(1));
    expect_fired(rt, alloc, watch, Fired { id: 2, proc: 6 })
}

/// A watch that was refused memory has forgotten its tasks, and goes on.
fn start_or_forget(rt: &impl Abort, alloc: Global, watch: &mut Watch)
    requires tick { watch.old.tasks.tick ≡ 1 }
    requires room { watch.old.tasks.next < 1000 }
    requires known { 0 < length watch.old.view.members }
{
    let reply = match start(watch, alloc, ended_at_once()) {
        Err(OutOfMemory) => None,
        Ok(()) => Some(Outcome::Ok(0)),
    };
    let _polled = poll(rt, alloc, watch, 1, reply, &[]);
}

/// Cancels, which is to call one handler. Where memory is refused the view is as it was, and a second call does.
fn cancel_again(rt: &impl Abort, alloc: Global, watch: &mut Watch)
    requires { watch.old.tasks.tick ≡ 1 }
{
    let first = Fired { id: 1, proc: 5 };
    if expect_fired(rt, alloc, watch, first).is_err() {
        expect(rt, !watch.view().is_cancelled(0));
        expect(rt, expect_fired(rt, alloc, watch, first).is_ok());
    }
    expect(rt, watch.view().is_cancelled(0));
}

/// Connects a handler. Where memory is refused there is none, and a second call connects it.
fn connect_again(rt: &impl Abort, watch: &mut Watch)
    requires { watch.old.view.next_id < 1000 }
    ensures { watch.new.tasks.tick ≡ watch.old.tasks.tick }
{
    if connect(rt, watch, 5, 1).is_err() {
        expect(rt, !watch.disconnect(1));
        expect(rt, connect(rt, watch, 5, 1).is_ok());
    }
}

/// The same beside a task, where there is memory for it.
fn call_again(rt: &impl Abort, alloc: Global, watch: &mut Watch)
    requires tick { watch.old.tasks.tick ≡ 1 }
    requires room { watch.old.tasks.next < 1000 }
    requires known { 0 < length watch.old.view.members }
    requires id { watch.old.view.next_id ≡ 1 }
{
    if start(watch, alloc, sleeper()).is_ok() {
        connect_again(rt, watch);
        cancel_again(rt, alloc, watch);
    }
}

/// What is tried of a watch.
#[derive(Clone, Copy)]
enum Case {
    Cancelled,
    Handlers,
    RefusedTask,
    RefusedHandlers,
}

fn try_watch(rt: &impl Abort, alloc: Global, watch: &mut Watch, case: Case)
    requires tick { watch.old.tasks.tick ≡ 1 }
    requires room { watch.old.tasks.next < 1000 }
    requires known { 0 < length watch.old.view.members }
    requires id { watch.old.view.next_id ≡ 1 }
{
    match case {
        Case::Cancelled => expect_same(rt, run_cancelled(rt, alloc, watch), Ok(())),
        Case::Handlers => expect_same(rt, run_handlers(rt, alloc, watch), Ok(())),
        Case::RefusedTask => start_or_forget(rt, alloc, watch),
        Case::RefusedHandlers => call_again(rt, alloc, watch),
    }
}

/// A case with ample memory, or where a request may be refused.
fn try_case(rt: &impl Abort, alloc: Global, case: Case, may_be_refused: bool) {
    match polled_once(alloc) {
        Ok(mut watch) => try_watch(rt, alloc, &mut watch, case),
        Err(OutOfMemory) => expect(rt, may_be_refused),
    }
}

#[test]
fn task_that_is_cancelled(rt: HostRuntime) {
    try_case(&rt, rt.alloc(), Case::Cancelled, false);
}

#[test]
fn handlers_of_a_watch(rt: HostRuntime) {
    try_case(&rt, rt.alloc(), Case::Handlers, false);
}

/// Whatever request is refused.
#[test]
fn refused_watch(rt: HostRuntime) {
    try_case(&rt, rt.alloc(), Case::RefusedTask, true);
}

/// Whatever request is refused, what the view has and its handlers are as they were or as the call leaves them.
#[test]
fn refused_handlers(rt: HostRuntime) {
    try_case(&rt, rt.alloc(), Case::RefusedHandlers, true);
}

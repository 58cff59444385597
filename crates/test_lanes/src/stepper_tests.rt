//! Steppers: which workers can share lanes, ticks to the last, and refused memory.
ghost use Rattle.std.specs.Prelude.{◌≡◌, ◌<◌, length, IfOk, IfSome};

use crate::expected::{expect, expect_same};
use lane_turn::{Event, Line};
use loop_script::Script;
use std::alloc::{AllocError, Global};
use std::process::Abort;
use std::sync::Wait;
use std::thread::Threads;
use tick_stepper::{OpenGate, Sharing, StepFault, Stepper};

fn two_lanes() -> &'static str {
    r#"{"version":1,"ticks":2,"tick_us":1000,"loops":[0,1],"lanes":[{"contexts":1,"start":[["attach",0,0,{"kind":["idle"]}],["run",0]]},{"contexts":1,"start":[["attach",1,0,{"kind":["idle"]}],["run",1]]}]}"#
}

/// How workers share lanes.
#[derive(Clone, Copy)]
enum Way {
    Round,
    Queue,
    /// Each lane's worker.
    Table(&'static [u32]),
}

/// So many workers, which share lanes in a way; and a fault, where that is refused.
#[derive(Clone, Copy)]
struct Shared {
    workers: u32,
    way: Way,
    fault: Option<StepFault>,
}

fn sharing(alloc: Global, way: Way) -> Option<Sharing> {
    match way {
        Way::Round => Some(Sharing::Round),
        Way::Queue => Some(Sharing::Queue),
        Way::Table(workers) => match workers.to_vec(alloc) {
            Ok(table) => Some(Sharing::Fixed(table)),
            Err(AllocError) => None,
        },
    }
}

/// A script of two lanes; none where it finds no memory.
fn script_of_two(alloc: Global) -> Option<Script>
    ensures { IfSome result (λ script. 1 < length script.lanes) }
{
    match Script::read(alloc, two_lanes().as_bytes()) {
        Ok(script) if 1 < script.lanes() => Some(script),
        _ => None,
    }
}

/// A stepper, or its refusal; none where the script or the table finds no memory.
fn made(alloc: Global, shared: &Shared) -> Option<Result<Stepper, StepFault>>
    ensures { IfSome result (λ made. IfOk made (λ s. 1 < length s.script.lanes)) }
{
    let script = script_of_two(alloc)?;
    match sharing(alloc, shared.way) {
        Some(sharing) => Some(Stepper::new(alloc, script, shared.workers, sharing)),
        None => None,
    }
}

/// None and too many; tables that are short or name a worker too far.
const WRONG: [Shared; 5] = [
    Shared {
        workers: 0,
        way: Way::Round,
        fault: Some(StepFault::Workers),
    },
    Shared {
        workers: 65,
        way: Way::Round,
        fault: Some(StepFault::Workers),
    },
    Shared {
        workers: 65,
        way: Way::Queue,
        fault: Some(StepFault::Workers),
    },
    Shared {
        workers: 2,
        way: Way::Table(&[0]),
        fault: Some(StepFault::Table),
    },
    Shared {
        workers: 2,
        way: Way::Table(&[0, 2]),
        fault: Some(StepFault::Table),
    },
];

/// More workers than there are lanes, and a right table.
const RIGHT: [Shared; 2] = [
    Shared {
        workers: 4,
        way: Way::Round,
        fault: None,
    },
    Shared {
        workers: 2,
        way: Way::Table(&[1, 0]),
        fault: None,
    },
];

/// A stepper is refused with its fault, or with none.
fn expect_fault(rt: &impl Abort, alloc: Global, shared: &Shared, may_be_refused: bool) {
    match made(alloc, shared) {
        Some(made) => expect_same(rt, made.err(), shared.fault),
        None => expect(rt, may_be_refused),
    }
}

fn expect_faults(rt: &impl Abort, alloc: Global, rows: &[Shared], may_be_refused: bool) {
    for shared in rows {
        expect_fault(rt, alloc, shared, may_be_refused);
    }
}

#[test]
fn workers_share_lanes(rt: HostRuntime) {
    expect_faults(&rt, rt.alloc(), &RIGHT, false);
}

#[test]
fn workers_share_no_lanes(rt: HostRuntime) {
    expect_faults(&rt, rt.alloc(), &WRONG, false);
}

/// A refusal with another cause is looked at first, and takes no memory.
#[test]
fn refused_sharing(rt: HostRuntime) {
    expect_faults(&rt, rt.alloc(), &WRONG, true);
}

/// The dispatch of a lane's one source, in the context of its number.
fn dispatch(tick: u32, context: u32) -> Line {
    Line {
        tick,
        event: Event::Dispatch {
            context,
            source: 1,
            priority: 200,
            depth: 1,
        },
    }
}

fn expect_trace(rt: &impl Abort, trace: Result<&[Line], StepFault>, context: u32) {
    let wanted = [dispatch(0, context), dispatch(1, context)];
    match trace {
        Ok(lines) => expect_same(rt, lines, &wanted),
        Err(_) => expect(rt, false),
    }
}

/// What both lanes write in two ticks.
fn expect_traces(rt: &impl Abort, stepper: &Stepper)
    requires { 1 < length stepper.now.script.lanes }
{
    expect_trace(rt, stepper.trace(0), 0);
    expect_trace(rt, stepper.trace(1), 1);
}

/// Steps both ticks, and asks for a third.
fn tick_all<T: Threads + Wait + Sync + Abort>(
    rt: &T,
    stepper: &mut Stepper,
) -> Result<(), StepFault>
    ensures { stepper.new.script ≡ stepper.old.script }
{
    let first = stepper.tick(rt, &OpenGate)?;
    let second = stepper.tick(rt, &OpenGate)?;
    let third = stepper.tick(rt, &OpenGate)?;
    expect_same(rt, [first, second, third], [true, true, false]);
    Ok(())
}

/// The same, or all ticks by the caller alone.
fn step_all<T: Threads + Wait + Sync + Abort>(
    rt: &T,
    stepper: &mut Stepper,
    alone: bool,
) -> Result<(), StepFault>
    ensures { stepper.new.script ≡ stepper.old.script }
{
    if alone {
        stepper.run_alone()
    } else {
        tick_all(rt, stepper)
    }
}

/// A spent stepper answers so to each call that may be refused.
fn expect_spent<T: Threads + Wait + Sync + Abort>(rt: &T, stepper: &mut Stepper)
    requires { 1 < length stepper.old.script.lanes }
    ensures { stepper.new.script ≡ stepper.old.script }
{
    let ticked = stepper.tick(rt, &OpenGate).err();
    let ran = stepper.run(rt, &OpenGate).err();
    let ran_alone = stepper.run_alone().err();
    let spent = Some(StepFault::Spent);
    expect_same(rt, [ticked, ran, ran_alone], [spent, spent, spent]);
    expect_same(rt, stepper.trace(0).err(), spent);
}

/// Steps to the end; or memory ran out, where it may, and the stepper is spent, and is so a second time too.
fn step_or_spend<T: Threads + Wait + Sync + Abort>(
    rt: &T,
    stepper: &mut Stepper,
    alone: bool,
    may_be_refused: bool,
)
    requires { 1 < length stepper.old.script.lanes }
{
    match step_all(rt, stepper, alone) {
        Ok(()) => expect_traces(rt, stepper),
        Err(fault) => {
            expect_same(rt, (may_be_refused, fault), (true, StepFault::OutOfMemory));
            expect_spent(rt, stepper);
            expect_spent(rt, stepper);
        }
    }
}

/// A stepper steps all ticks; where memory may be refused it may be spent, or there is none.
fn expect_stepped<T: Threads + Wait + Sync + Abort>(
    rt: &T,
    alloc: Global,
    shared: &Shared,
    alone: bool,
    may_be_refused: bool,
) {
    match made(alloc, shared) {
        None => expect(rt, may_be_refused),
        Some(Ok(mut stepper)) => step_or_spend(rt, &mut stepper, alone, may_be_refused),
        Some(Err(fault)) => expect_same(
            rt,
            (may_be_refused, fault),
            (true, StepFault::OutOfMemory),
        ),
    }
}

fn expect_all_stepped<T: Threads + Wait + Sync + Abort>(
    rt: &T,
    alloc: Global,
    rows: &[Shared],
    may_be_refused: bool,
) {
    for shared in rows {
        expect_stepped(rt, alloc, shared, false, may_be_refused);
    }
}

/// Two workers that take the lanes in rounds, or from a queue.
const OF_TWO: [Shared; 2] = [
    Shared {
        workers: 2,
        way: Way::Round,
        fault: None,
    },
    Shared {
        workers: 2,
        way: Way::Queue,
        fault: None,
    },
];

#[test]
fn ticks_to_the_last(rt: HostRuntime) {
    expect_all_stepped(&rt, rt.alloc(), &OF_TWO, false);
}

/// More workers than there are lanes, two that take the lanes from a queue, and two by a table.
const OF_EACH: [Shared; 3] = [
    Shared {
        workers: 4,
        way: Way::Round,
        fault: None,
    },
    Shared {
        workers: 2,
        way: Way::Queue,
        fault: None,
    },
    Shared {
        workers: 2,
        way: Way::Table(&[1, 0]),
        fault: None,
    },
];

/// Whatever request is refused: a stepper that steps all ticks, or one that is spent, or none where memory ran out.
#[test]
fn refused_stepper(rt: HostRuntime) {
    expect_all_stepped(&rt, rt.alloc(), &OF_EACH, true);
}

const ONE: Shared = Shared {
    workers: 1,
    way: Way::Round,
    fault: None,
};

/// All ticks, by the caller alone.
#[test]
fn steps_alone(rt: HostRuntime) {
    expect_stepped(&rt, rt.alloc(), &ONE, true, false);
}

/// Whatever request is refused.
#[test]
fn refused_alone(rt: HostRuntime) {
    expect_stepped(&rt, rt.alloc(), &ONE, true, true);
}

//! A script that is read with ample memory and tells its parts, and one that is read with memory refused.
ghost use Rattle.std.specs.Prelude.{◌≡◌};

use crate::expected::expect_same;
use crate::trees::task_at;
use loop_script::{Action, Body, Script, ScriptFault, TaskSpec};
use std::alloc::Global;
use std::process::Abort;

// (texts stand in functions of their own: a proof that sees a literal reads it byte by byte)

fn first_run() -> &'static str {
    r#"{"version":1,"ticks":2,"tick_us":1000,"loops":[0],"procs":[{"do":[["log",7]]}],"lanes":[{"contexts":1,"start":[["attach",0,0,{"kind":["idle"],"call":0}],["run",0]]}]}"#
}

// (a proof grows faster than the length of its function, and most by assertions: numbers are compared in one function)

fn expect(rt: &impl Abort, found: u64, wanted: u64)
    ensures { found ≡ wanted }
{
    assert_eq!(rt; found, wanted);
}

fn expect_parts(rt: &impl Abort, script: &Script) {
    expect(rt, script.version().into(), 1);
    expect(rt, script.ticks().into(), 2);
    expect(rt, script.now(1), 1000);
    expect(rt, script.contexts().into(), 1);
    expect(rt, script.home(0).into(), 0);
}

fn expect_bodies(rt: &impl Abort, script: &Script) {
    expect(rt, script.actions(Body::Start(0)).len() as u64, 2);
    expect(rt, script.actions(Body::Nothing).len() as u64, 0);
    expect(rt, script.stays(Body::Procedure(0), 1) as u64, 0);
    expect(rt, script.stays(Body::Nothing, 1) as u64, 1);
}

fn expect_lists(rt: &impl Abort, script: &Script) {
    expect(rt, script.lanes().into(), 1);
    expect(rt, script.lane(0).contexts.into(), 1);
    expect(rt, only_log(script.actions(Body::Procedure(0))).into(), 7);
    expect(rt, script.loops().into(), 1);
    expect(rt, script.loop_context(0).into(), 0);
}

/// The number of the one action of a list, which is to log it; 0 where there is none such.
fn only_log(actions: &[Action]) -> u32 {
    match actions {
        [Action::Log(n)] => *n,
        _ => 0,
    }
}

fn expect_first_run(rt: &impl Abort, script: &Script) {
    expect_parts(rt, script);
    expect_bodies(rt, script);
    expect_lists(rt, script);
}

fn two_descriptors() -> &'static str {
    r#"{"version":1,"ticks":9,"tick_us":1,"cancellables":1,"fds":[[],[[2,1],[5,20]]],"lanes":[{"contexts":1,"start":[["attach",0,0,{"kind":["fd",1,63]}],["attach",0,0,{"kind":["timeout",1]}],["attach",0,0,{"kind":["ready",1]}],["attach",0,0,{"kind":["cancel",0]}]]}]}"#
}

fn levels(script: &Script) -> [u8; 4] {
    [
        script.level(1, 1),
        script.level(1, 4),
        script.level(1, 5),
        script.level(0, 5),
    ]
}

fn changes(script: &Script) -> [Option<u32>; 2] {
    [script.next_change(1, 2), script.next_change(1, 5)]
}

fn expect_levels(rt: &impl Abort, script: &Script) {
    expect(rt, script.cancellables().into(), 1);
    assert!(rt; levels(script) == [0, 1, 20, 0]);
    assert!(rt; changes(script) == [Some(5), None]);
}

fn posts_in_one_tick() -> &'static str {
    r#"{"version":1,"ticks":3,"tick_us":1000,"loops":[0,1,2],"procs":[{"do":[["invoke",1,3],["invoke",1,4]]},{"do":[["invoke",1,5]]},{"do":[["log",20]]},{"do":[["log",30]]},{"do":[["log",40]]},{"do":[["log",50]]}],"lanes":[{"contexts":1,"start":[["attach",0,0,{"kind":["timeout",1],"call":0}],["run",0]]},{"contexts":1,"start":[["push",1],["task",{"tree":["value",5],"call":2}],["run",1]]},{"contexts":1,"start":[["attach",2,0,{"kind":["timeout",1],"call":1}],["run",2]]}]}"#
}

fn tasks() -> &'static str {
    r#"{"version":1,"ticks":7,"tick_us":1000,"loops":[0],"procs":[{"do":[]},{"do":[["cancel",0],["task",{"tree":["sleep",2000],"call":0,"cancel":0,"return_on_cancel":true}]]}],"lanes":[{"contexts":1,"start":[["task",{"tree":["sleep",3000],"call":0,"cancel":0,"return_on_cancel":true}],["task",{"tree":["first",["seq",["sleep",1000],["value",1]],["seq",["sleep",1000],["value",2]]],"call":0}],["task",{"tree":["within",2000,["seq",["sleep",2000],["value",3]]],"call":0}],["task",{"tree":["seq",["sleep",2000],["value",4]],"call":0,"cancel":0,"check":false}],["task",{"tree":["seq",["sleep",2000],["value",4]],"call":0,"cancel":0}],["attach",0,0,{"kind":["timeout",3],"call":1}],["run",0]]}],"cancellables":1}"#
}

/// How many ticks, lanes, loops and cancellables there are.
fn counts(script: &Script) -> [u32; 4] {
    [
        script.ticks(),
        script.lanes(),
        script.loops(),
        script.cancellables(),
    ]
}

/// How many lanes, loops, cancellables there are, and how long lists are.
fn expect_sizes(rt: &impl Abort, script: &Script, known: [u32; 4], lengths: &[(Body, usize)]) {
    expect_same(rt, counts(script), known);
    for (body, length) in lengths {
        expect(rt, script.actions(*body).len() as u64, *length as u64);
    }
}

/// What a procedure logs.
fn logged(script: &Script, proc: u32) -> u32 {
    only_log(script.actions(Body::Procedure(proc)))
}

const LENGTHS_OF_POSTS: [(Body, usize); 5] = [
    (Body::Start(0), 2),
    (Body::Start(1), 3),
    (Body::Start(2), 2),
    (Body::Procedure(0), 2),
    (Body::Procedure(5), 1),
];

fn expect_posts(rt: &impl Abort, script: &Script) {
    expect_sizes(rt, script, [3, 3, 3, 0], &LENGTHS_OF_POSTS);
    let logs = [
        logged(script, 2),
        logged(script, 3),
        logged(script, 4),
        logged(script, 5),
    ];
    expect_same(rt, logs, [20, 30, 40, 50]);
}

/// What the script says of a task beside its tree.
#[derive(Clone, Copy, PartialEq, Eq)]
struct Flags {
    cancel: Option<u32>,
    check: bool,
    return_on_cancel: bool,
}

fn flags_of(spec: &TaskSpec) -> Flags {
    Flags {
        cancel: spec.cancel,
        check: spec.check,
        return_on_cancel: spec.return_on_cancel,
    }
}

const USUAL: Flags = Flags {
    cancel: None,
    check: true,
    return_on_cancel: false,
};

const OF_TASKS: [Flags; 5] = [
    Flags {
        cancel: Some(0),
        check: true,
        return_on_cancel: true,
    },
    USUAL,
    USUAL,
    Flags {
        cancel: Some(0),
        check: false,
        return_on_cancel: false,
    },
    Flags {
        cancel: Some(0),
        check: true,
        return_on_cancel: false,
    },
];

const LENGTHS_OF_TASKS: [(Body, usize); 3] = [
    (Body::Start(0), 7),
    (Body::Procedure(0), 0),
    (Body::Procedure(1), 2),
];

/// The tasks of actions have these flags.
fn expect_flags(rt: &impl Abort, actions: &[Action], wanted: &[Flags]) {
    for (place, wanted) in wanted.iter().enumerate() {
        match task_at(actions, place) {
            Some(spec) => assert!(rt; flags_of(spec) == *wanted),
            None => assert!(rt; false, "no task"),
        }
    }
}

fn expect_tasks(rt: &impl Abort, script: &Script) {
    expect_sizes(rt, script, [7, 1, 1, 1], &LENGTHS_OF_TASKS);
    expect_flags(rt, script.actions(Body::Start(0)), &OF_TASKS);
}

/// A script of which a test knows what it tells.
#[derive(Clone, Copy)]
enum Known {
    FirstRun,
    Descriptors,
    Posts,
    Tasks,
}

fn text_of(known: Known) -> &'static str {
    match known {
        Known::FirstRun => first_run(),
        Known::Descriptors => two_descriptors(),
        Known::Posts => posts_in_one_tick(),
        Known::Tasks => tasks(),
    }
}

fn expect_told(rt: &impl Abort, script: &Script, known: Known) {
    match known {
        Known::FirstRun => expect_first_run(rt, script),
        Known::Descriptors => expect_levels(rt, script),
        Known::Posts => expect_posts(rt, script),
        Known::Tasks => expect_tasks(rt, script),
    }
}

/// Reads a script; where memory may be refused it is then not read, and is read again.
fn read(alloc: Global, text: &str, may_be_refused: bool) -> Result<Script, ScriptFault> {
    match Script::read(alloc, text.as_bytes()) {
        Err(ScriptFault::OutOfMemory) if may_be_refused => Script::read(alloc, text.as_bytes()),
        found => found,
    }
}

fn expect_read(rt: &impl Abort, alloc: Global, known: Known, may_be_refused: bool) {
    match read(alloc, text_of(known), may_be_refused) {
        Ok(script) => expect_told(rt, &script, known),
        Err(fault) => expect_same(rt, Some(fault), None),
    }
}

#[test]
fn tells_its_parts(rt: HostRuntime) {
    expect_read(&rt, rt.alloc(), Known::FirstRun, false);
}

/// The levels of two descriptors, and each word of a kind, as the format writes it.
#[test]
fn tells_levels(rt: HostRuntime) {
    expect_read(&rt, rt.alloc(), Known::Descriptors, false);
}

/// Whatever request is refused.
#[test]
fn refused_read_of_posts(rt: HostRuntime) {
    expect_read(&rt, rt.alloc(), Known::Posts, true);
}

#[test]
fn refused_read_of_tasks(rt: HostRuntime) {
    expect_read(&rt, rt.alloc(), Known::Tasks, true);
}

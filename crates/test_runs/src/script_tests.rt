//! One script and its text, and each form of a line; other whole scripts are vectors.
use crate::expected::expect_same;
use crate::refused_tests::is_refused_alone;
use crate::table_tests::{Way, expect_ran};
use lane_turn::{Event, Invoked, Line, Word};
use loop_script::Outcome;
use mainctx::add_text;

// (texts stand in functions of their own: a proof that sees a literal reads it byte by byte)

pub(crate) fn first_run() -> &'static str {
    r#"{"version":1,"ticks":2,"tick_us":1000,"loops":[0],"procs":[{"do":[["log",7]]}],"lanes":[{"contexts":1,"start":[["attach",0,0,{"kind":["idle"],"call":0}],["run",0]]}]}"#
}

pub(crate) fn first_run_text() -> &'static str {
    "thread 0\n0 dispatch ctx 0 source 1 priority 200 depth 1\n0 log 7\n"
}

#[test]
fn writes_the_text(rt: HostRuntime) {
    let wanted = first_run_text().as_bytes();
    expect_ran(&rt, rt.alloc(), first_run(), 1, Way::Round, wanted);
}

#[test]
fn writes_the_text_alone(rt: HostRuntime) {
    let refused = is_refused_alone(&rt, rt.alloc(), first_run(), first_run_text());
    assert!(rt; !refused);
}

fn each_line() -> &'static str {
    "thread 10\n4 dispatch ctx 0 source 1 priority -100 depth 2\n4 iterate ctx 1 true\n4 pending ctx 2 false\n4 loop 3 end\n4 acquire ctx 4 true\n4 default ctx 5\n4 invoke ctx 6 posted\n4 arrive ctx 7 source 8\n4 cancel 9\n4 handler 0\n4 task 1.2 ok -3\n4 task 1.2 timed-out\n4 task 1.2 late\n4 give ctx 1 lane 0\n4 hold ctx 1\n4 miss set_ready\n4 halt depth\n"
}

/// Each form of a line, once.
const EACH_LINE: [Line; 17] = [
    Line {
        tick: 4,
        event: Event::Dispatch {
            context: 0,
            source: 1,
            priority: -100,
            depth: 2,
        },
    },
    Line {
        tick: 4,
        event: Event::Iterate(1, true),
    },
    Line {
        tick: 4,
        event: Event::Pending(2, false),
    },
    Line {
        tick: 4,
        event: Event::LoopEnd(3),
    },
    Line {
        tick: 4,
        event: Event::Acquire(4, true),
    },
    Line {
        tick: 4,
        event: Event::Default(5),
    },
    Line {
        tick: 4,
        event: Event::Invoke(6, Invoked::Posted),
    },
    Line {
        tick: 4,
        event: Event::Arrive(7, 8),
    },
    Line {
        tick: 4,
        event: Event::Cancel(9),
    },
    Line {
        tick: 4,
        event: Event::Handler(0),
    },
    Line {
        tick: 4,
        event: Event::Task {
            lane: 1,
            number: 2,
            outcome: Outcome::Ok(-3),
        },
    },
    Line {
        tick: 4,
        event: Event::Task {
            lane: 1,
            number: 2,
            outcome: Outcome::TimedOut,
        },
    },
    Line {
        tick: 4,
        event: Event::TaskLate(1, 2),
    },
    Line {
        tick: 4,
        event: Event::Give {
            context: 1,
            lane: 0,
        },
    },
    Line {
        tick: 4,
        event: Event::Hold(1),
    },
    Line {
        tick: 4,
        event: Event::Miss(Word::SetReady),
    },
    Line {
        tick: 4,
        event: Event::HaltDepth,
    },
];

#[test]
fn writes_each_line(rt: HostRuntime) {
    let mut text = Vec::new(rt.alloc());
    let added = add_text(&mut text, 10, &EACH_LINE);
    assert!(rt; added.is_ok());
    expect_same(&rt, text.as_slice(), each_line().as_bytes());
}

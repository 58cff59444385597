//! Scripts of several lanes or tasks with their texts, which are those of vectors.

// (texts stand in functions of their own: a proof that sees a literal reads it byte by byte)

/// A script with its text, and tables by which one worker takes its lanes, or two.
#[derive(Clone, Copy)]
pub(crate) struct Worked {
    pub(crate) script: &'static str,
    pub(crate) text: &'static str,
    pub(crate) alone: &'static [u32],
    pub(crate) shared: &'static [u32],
}

fn posts_script() -> &'static str {
    r#"{"version":1,"ticks":3,"tick_us":1000,"loops":[0,1,2],"procs":[{"do":[["invoke",1,3],["invoke",1,4]]},{"do":[["invoke",1,5]]},{"do":[["log",20]]},{"do":[["log",30]]},{"do":[["log",40]]},{"do":[["log",50]]}],"lanes":[{"contexts":1,"start":[["attach",0,0,{"kind":["timeout",1],"call":0}],["run",0]]},{"contexts":1,"start":[["push",1],["task",{"tree":["value",5],"call":2}],["run",1]]},{"contexts":1,"start":[["attach",2,0,{"kind":["timeout",1],"call":1}],["run",2]]}]}"#
}

fn posts_text() -> &'static str {
    "thread 0\n1 dispatch ctx 0 source 1 priority 0 depth 1\n1 invoke ctx 1 posted\n1 invoke ctx 1 posted\nthread 1\n1 arrive ctx 1 source 1\n1 arrive ctx 1 source 2\n1 arrive ctx 1 source 3\n1 arrive ctx 1 source 4\n2 dispatch ctx 1 source 1 priority 0 depth 1\n2 log 30\n2 dispatch ctx 1 source 2 priority 0 depth 1\n2 log 40\n2 dispatch ctx 1 source 3 priority 0 depth 1\n2 task 1.0 ok 5\n2 log 20\n2 dispatch ctx 1 source 4 priority 0 depth 1\n2 log 50\nthread 2\n1 dispatch ctx 2 source 1 priority 0 depth 1\n1 invoke ctx 1 posted\n"
}

/// Two lanes post to a third in one tick.
pub(crate) fn posts() -> Worked {
    Worked {
        script: posts_script(),
        text: posts_text(),
        alone: &[0, 0, 0],
        shared: &[1, 0, 1],
    }
}

fn cancels_script() -> &'static str {
    r#"{"version":1,"ticks":3,"tick_us":1000,"loops":[0,1,2],"procs":[{"do":[["log",1]]},{"do":[["cancel",0],["cancel",0]]},{"do":[["connect",0,2,0]],"keep":1}],"lanes":[{"contexts":1,"start":[["connect",0,0,0],["attach",0,1,{"kind":["timeout",1],"call":1}],["run",0]]},{"contexts":1,"start":[["connect",0,0,0],["attach",1,1,{"kind":["timeout",1],"call":1}],["run",1]]},{"contexts":1,"start":[["connect",0,0,0],["attach",2,1,{"kind":["timeout",1],"call":2}],["run",2]]}],"cancellables":1}"#
}

fn cancels_text() -> &'static str {
    "thread 0\n1 dispatch ctx 0 source 1 priority 0 depth 1\n1 cancel 0\n1 handler 1\n1 log 1\nthread 1\n1 dispatch ctx 1 source 1 priority 0 depth 1\n1 cancel 0\n1 handler 1\n1 log 1\nthread 2\n1 dispatch ctx 2 source 1 priority 0 depth 1\n1 cancel 0\n1 handler 1\n1 log 1\n1 handler 2\n1 log 1\n2 dispatch ctx 2 source 1 priority 0 depth 1\n2 handler 0\n2 log 1\n"
}

/// Two lanes cancel the same in one tick.
pub(crate) fn cancels() -> Worked {
    Worked {
        script: cancels_script(),
        text: cancels_text(),
        alone: &[0, 0, 0],
        shared: &[1, 1, 0],
    }
}

fn tasks_script() -> &'static str {
    r#"{"version":1,"ticks":7,"tick_us":1000,"loops":[0],"procs":[{"do":[]},{"do":[["cancel",0],["task",{"tree":["sleep",2000],"call":0,"cancel":0,"return_on_cancel":true}]]}],"lanes":[{"contexts":1,"start":[["task",{"tree":["sleep",3000],"call":0,"cancel":0,"return_on_cancel":true}],["task",{"tree":["first",["seq",["sleep",1000],["value",1]],["seq",["sleep",1000],["value",2]]],"call":0}],["task",{"tree":["within",2000,["seq",["sleep",2000],["value",3]]],"call":0}],["task",{"tree":["seq",["sleep",2000],["value",4]],"call":0,"cancel":0,"check":false}],["task",{"tree":["seq",["sleep",2000],["value",4]],"call":0,"cancel":0}],["attach",0,0,{"kind":["timeout",3],"call":1}],["run",0]]}],"cancellables":1}"#
}

fn tasks_text() -> &'static str {
    "thread 0\n2 arrive ctx 0 source 2\n3 dispatch ctx 0 source 1 priority 0 depth 1\n3 cancel 0\n3 dispatch ctx 0 source 2 priority 0 depth 1\n3 task 0.1 ok 1\n3 arrive ctx 0 source 3\n3 arrive ctx 0 source 4\n3 arrive ctx 0 source 5\n4 task 0.0 late\n4 dispatch ctx 0 source 3 priority 0 depth 1\n4 task 0.2 ok 3\n4 dispatch ctx 0 source 4 priority 0 depth 1\n4 task 0.3 ok 4\n4 dispatch ctx 0 source 5 priority 0 depth 1\n4 task 0.4 cancelled\n4 arrive ctx 0 source 6\n4 arrive ctx 0 source 7\n5 dispatch ctx 0 source 6 priority 0 depth 1\n5 task 0.0 cancelled\n5 dispatch ctx 0 source 7 priority 0 depth 1\n5 task 0.5 cancelled\n6 task 0.5 late\n"
}

/// Tasks that reply, time out and are cancelled.
pub(crate) fn tasks() -> Worked {
    Worked {
        script: tasks_script(),
        text: tasks_text(),
        alone: &[0],
        shared: &[1],
    }
}

fn ownership_script() -> &'static str {
    r#"{"version":1,"ticks":3,"tick_us":1000,"loops":[0],"procs":[{"do":[["log",1]]},{"do":[["log",2]]}],"lanes":[{"contexts":1,"start":[["run",0]]},{"contexts":2,"start":[["show_default"],["task",{"tree":["value",8],"call":0}],["acquire",0],["push",0],["invoke",2,1],["acquire",2],["invoke",2,1],["iterate",2],["release",2],["release",2]]}]}"#
}

fn ownership_text() -> &'static str {
    "thread 0\n1 arrive ctx 0 source 1\n2 dispatch ctx 0 source 1 priority 0 depth 1\n2 task 1.0 ok 8\n2 log 1\nthread 1\n0 default ctx 0\n0 acquire ctx 0 false\n0 miss push\n0 invoke ctx 2 attached\n0 acquire ctx 2 true\n0 invoke ctx 2 direct\n0 log 2\n0 dispatch ctx 2 source 1 priority 0 depth 1\n0 log 2\n0 iterate ctx 2 true\n0 miss release\n0 end\n"
}

/// A lane owns one of its contexts, and asks for another's.
pub(crate) fn ownership() -> Worked {
    Worked {
        script: ownership_script(),
        text: ownership_text(),
        alone: &[0, 0],
        shared: &[1, 0],
    }
}

fn gives_script() -> &'static str {
    r#"{"version":2,"ticks":3,"tick_us":1000,"loops":[0,2],"procs":[{"do":[["log",5]],"keep":null},{"do":[["log",6]]},{"do":[["iterate",1]],"keep":null}],"lanes":[{"contexts":2,"start":[["attach",1,0,{"kind":["timeout",2],"call":0}],["give",1,1],["attach",1,1,{"kind":["idle"]}],["invoke",1,1],["run",0]]},{"contexts":1,"start":[["attach",2,0,{"kind":["timeout",1],"call":2}],["run",1]]}]}"#
}

fn gives_text() -> &'static str {
    "thread 0\n0 give ctx 1 lane 1\n0 miss attach\n0 invoke ctx 1 posted\nthread 1\n0 hold ctx 1\n0 arrive ctx 1 source 2\n1 dispatch ctx 2 source 1 priority 0 depth 1\n1 dispatch ctx 1 source 2 priority 0 depth 2\n1 log 6\n1 iterate ctx 1 true\n2 dispatch ctx 2 source 1 priority 0 depth 1\n2 dispatch ctx 1 source 1 priority 0 depth 2\n2 log 5\n2 iterate ctx 1 true\n"
}

/// A lane gives a context to another, and invokes in it in the same tick; its timeout is due there when it would have been.
pub(crate) fn gives() -> Worked {
    Worked {
        script: gives_script(),
        text: gives_text(),
        alone: &[0, 0],
        shared: &[1, 0],
    }
}

fn missing_gives_script() -> &'static str {
    r#"{"version":2,"ticks":1,"tick_us":1000,"loops":[0],"lanes":[{"contexts":1,"start":[["give",1,0],["give",0,0],["acquire",0],["give",0,1],["release",0],["give",0,1],["give",0,1]]},{"contexts":1,"start":[]}]}"#
}

fn missing_gives_text() -> &'static str {
    "thread 0\n0 miss give\n0 miss give\n0 acquire ctx 0 true\n0 miss give\n0 give ctx 0 lane 1\n0 miss give\n0 end\nthread 1\n0 end\n0 hold ctx 0\n"
}

/// A lane gives its one context away, after each give that misses.
pub(crate) fn missing_gives() -> Worked {
    Worked {
        script: missing_gives_script(),
        text: missing_gives_text(),
        alone: &[0, 0],
        shared: &[1, 0],
    }
}

fn given_with_letters_script() -> &'static str {
    r#"{"version":2,"ticks":3,"tick_us":1000,"cancellables":1,"loops":[0,2,3],"procs":[{"do":[["give",1,2]]},{"do":[["log",5]]},{"do":[["cancel",0],["invoke",1,3]]},{"do":[["log",6]]},{"do":[["iterate",1]]},{"do":[["log",7]]}],"lanes":[{"contexts":2,"start":[["push",1],["task",{"tree":["value",8],"call":1,"cancel":0}],["pop",1],["attach",0,0,{"kind":["timeout",1],"call":0}],["run",0]]},{"contexts":1,"start":[["attach",2,0,{"kind":["timeout",1],"call":2}],["run",1]]},{"contexts":1,"start":[["attach",3,0,{"kind":["timeout",2],"call":4}],["connect",0,1,5],["run",2]]}]}"#
}

fn given_with_letters_text() -> &'static str {
    "thread 0\n1 dispatch ctx 0 source 1 priority 0 depth 1\n1 give ctx 1 lane 2\n1 cancel 0\nthread 1\n1 dispatch ctx 2 source 1 priority 0 depth 1\n1 cancel 0\n1 invoke ctx 1 posted\nthread 2\n1 hold ctx 1\n1 arrive ctx 1 source 1\n1 cancel 0\n1 handler 1\n1 log 7\n1 arrive ctx 1 source 2\n2 dispatch ctx 3 source 1 priority 0 depth 1\n2 dispatch ctx 1 source 1 priority 0 depth 2\n2 task 0.0 cancelled\n2 log 5\n2 dispatch ctx 1 source 2 priority 0 depth 2\n2 log 6\n2 iterate ctx 1 true\n"
}

/// A context goes over in a tick in which a reply for it comes, an invoke in it, and a cancellation.
pub(crate) fn given_with_letters() -> Worked {
    Worked {
        script: given_with_letters_script(),
        text: given_with_letters_text(),
        alone: &[0, 0, 0],
        shared: &[1, 0, 1],
    }
}
